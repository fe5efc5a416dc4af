//! Entries with their items.
use anyhow::anyhow;
use std::alloc::Global;
use tc_histline::{Line, Version, read_line};
use tc_model::{Entry, Item};
use tc_names::Names;
use tc_term::Name;

/// An entry whose items stand beside it.
#[derive(Drop)]
pub struct Recorded {
    pub entry: Entry,
    pub items: Vec<Item>,
}

/// The entries that the text has, of an agent a.
pub fn entries(alloc: Global, text: &[u8]) -> anyhow::Result<Vec<Recorded>> {
    let mut agents = Names::new(alloc);
    let agent = Name::new(alloc, b"a")?;
    if agents.place(&agent).is_none() {
        agents.add(agent)?;
    }
    let mut entries = Vec::new(alloc);
    for line in text.split_inclusive(|byte| *byte == b'\n') {
        match read_line(alloc, Version::Two, &agents, line)? {
            Some((Line::Entry(entry), _)) => entries.push(Recorded {
                entry,
                items: Vec::new(alloc),
            })?,
            Some((Line::Reaction(item), _)) => add_item(item, &mut entries)?,
            _ => return Err(anyhow!("a row has no entry")),
        }
    }
    Ok(entries)
}

// Adds an item to the last entry.
fn add_item(item: Item, entries: &mut Vec<Recorded>) -> anyhow::Result<()> {
    let Some(last) = entries.last_mut() else {
        return Err(anyhow!("an item has no entry"));
    };
    last.items.push(item)?;
    Ok(())
}
