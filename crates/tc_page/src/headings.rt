//! The names of centres and agents that a text has in its headings.
ghost use Rattle.std.specs.Prelude.{◌≢◌, AllPairs, IfOk};

use std::alloc::Global;
use tc_lists::{NoMemory, behind};
use tc_names::Names;
use tc_read::name_at;
use tc_term::Name;

/// The names in the headings of centres and in those of agents, each once, as they come.
pub fn names_in_headings(alloc: Global, text: &[u8]) -> Result<(Vec<Name>, Vec<Name>), NoMemory>
    ensures { IfOk result (λ names. AllPairs ◌≢◌ names.1.items) }
{
    let centres = names_behind(alloc, text, b"centre ")?;
    let agents = names_behind(alloc, text, b"agent ")?;
    Ok((centres, agents))
}

// The names behind this word at the beginnings of lines, each once.
fn names_behind(alloc: Global, text: &[u8], word: &[u8]) -> Result<Vec<Name>, NoMemory>
    ensures { IfOk result (λ names. AllPairs ◌≢◌ names.items) }
{
    let mut known = Names::new(alloc);
    let mut names = Vec::new(alloc);
    for line in text.split(|byte| *byte == b'\n') {
        let Some(name) = name_behind(alloc, line, word)? else {
            continue;
        };
        if known.place(&name).is_none() {
            known.add(name.copy(alloc)?)?;
            names.push(name)?;
        }
    }
    known.differ();
    Ok(names)
}

// The name behind this word, where that is the whole line.
fn name_behind(alloc: Global, line: &[u8], word: &[u8]) -> Result<Option<Name>, NoMemory> {
    let Some(rest) = behind(line, word) else {
        return Ok(None);
    };
    if rest == b"[]".as_slice() {
        return Ok(Some(Name::new(alloc, rest)?));
    }
    match name_at(alloc, rest, rest.len())? {
        Some((name, [])) => Ok(Some(name)),
        Some(_) | None => Ok(None),
    }
}
