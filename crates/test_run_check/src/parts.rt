//! A text, cut into the histories of centres and the logs of agents.
use crate::agents::Agent;
use crate::fault::Fault;
use crate::texts::append;
use crate::worlds::World;
use std::alloc::Global;
use tc_lists::NoMemory;
use tc_print::print_name;
use tc_term::Name;

/// A line of a history, with the place of the agent whose call it has, if it has one.
#[derive(Clone, Copy)]
pub struct Line<'t> {
    pub text: &'t [u8],
    pub caller: Option<usize>,
}

/// The lines of a history, and how many of them were taken.
#[derive(Drop)]
pub struct History<'t> {
    lines: Vec<Line<'t>>,
    at: usize,
}

impl<'t> History<'t> {
    /// The next line.
    pub fn front(&self) -> Option<Line<'t>> {
        self.lines.get(self.at).copied()
    }

    /// Whether no line is left.
    pub fn is_done(&self) -> bool {
        self.front().is_none()
    }

    /// How many lines there are.
    pub fn len(&self) -> usize {
        self.lines.len()
    }

    /// Takes the next line, which has to be this one.
    pub fn take(&mut self, line: &[u8], else_wrong: &'static str) -> Result<(), Fault> {
        match self.front() {
            Some(front) if front.text == line => {
                self.at = self.at.saturating_add(1);
                Ok(())
            }
            _ => Err(Fault::Wrong(else_wrong)),
        }
    }
}

/// The parts of a text: a history for each centre, the lines of each agent's log, and the last line.
#[derive(Drop)]
pub struct Parts<'t> {
    pub histories: Vec<History<'t>>,
    pub logs: Vec<Vec<&'t [u8]>>,
    pub end: &'t [u8],
}

/// The parts of the text, if it has those of this world and no others.
pub fn parts_of<'t>(alloc: Global, world: &World, text: &'t [u8]) -> Result<Parts<'t>, Fault> {
    let Some(body) = text.strip_suffix(b"\n") else {
        return Err(Fault::Wrong("the text ends within a line"));
    };
    let mut lines = Vec::new(alloc);
    for line in body.split(|byte| *byte == b'\n') {
        append(&mut lines, line)?;
    }
    let Some(end) = lines.pop() else {
        return Err(Fault::Wrong("the text has no line"));
    };
    let headings = headings_of(alloc, world)?;
    let mut sections = cut(alloc, &headings, &lines)?;
    let labels = labels_of(alloc, &world.agents)?;
    let mut histories = Vec::new(alloc);
    let mut logs = Vec::new(alloc);
    for (place, section) in sections.drain(..).enumerate() {
        if place < world.centres.len() {
            let history = history_of(alloc, &labels, &section)?;
            append(&mut histories, history)?;
        } else {
            append(&mut logs, section)?;
        }
    }
    Ok(Parts {
        histories,
        logs,
        end,
    })
}

// The headings that stand before the parts of a text.
fn headings_of(alloc: Global, world: &World) -> Result<Vec<Vec<u8>>, NoMemory> {
    let mut headings = Vec::new(alloc);
    for centre in &world.centres {
        let heading = heading(alloc, b"centre ", &centre.name)?;
        headings.push(heading)?;
    }
    for agent in &world.agents {
        let heading = heading(alloc, b"agent ", &agent.name)?;
        headings.push(heading)?;
    }
    Ok(headings)
}

// A word and a name.
fn heading(alloc: Global, word: &[u8], name: &Name) -> Result<Vec<u8>, NoMemory> {
    let mut heading = word.to_vec(alloc)?;
    print_name(alloc, name, &mut heading)?;
    Ok(heading)
}

// The lines behind each heading. Before the first the line of the version stands, and nothing else.
fn cut<'t>(
    alloc: Global,
    headings: &[Vec<u8>],
    lines: &[&'t [u8]],
) -> Result<Vec<Vec<&'t [u8]>>, Fault> {
    let Some((version, lines)) = lines.split_first() else {
        return Err(Fault::Wrong("the text has one line alone"));
    };
    if *version != b"tucson 2".as_slice() {
        return Err(Fault::Wrong("the text is of another version"));
    }
    let mut sections: Vec<Vec<&'t [u8]>> = Vec::new(alloc);
    for line in lines {
        if headings
            .get(sections.len())
            .is_some_and(|heading| heading.as_slice() == *line)
        {
            append(&mut sections, Vec::new(alloc))?;
        } else if let Some(section) = sections.last_mut() {
            append(section, *line)?;
        } else {
            return Err(Fault::Wrong("a line stands before the first heading"));
        }
    }
    if sections.len() != headings.len() {
        return Err(Fault::Wrong("a heading isn't there"));
    }
    Ok(sections)
}

// With what a line begins that has a call of the agent, for each agent.
fn labels_of(alloc: Global, agents: &[Agent]) -> Result<Vec<Vec<u8>>, NoMemory> {
    let mut labels = Vec::new(alloc);
    for agent in agents {
        let mut label = heading(alloc, b"call ", &agent.name)?;
        label.push(b' ')?;
        labels.push(label)?;
    }
    Ok(labels)
}

// The history of these lines.
fn history_of<'t>(
    alloc: Global,
    labels: &[Vec<u8>],
    section: &[&'t [u8]],
) -> Result<History<'t>, NoMemory> {
    let mut lines = Vec::new(alloc);
    for text in section {
        let caller = labels.iter().position(|label| text.starts_with(label));
        lines.push(Line {
            text: *text,
            caller,
        })?;
    }
    Ok(History { lines, at: 0 })
}
