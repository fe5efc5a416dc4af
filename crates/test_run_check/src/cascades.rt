//! All that an event triggers, and what that triggers in turn, within a budget.
use crate::bodies::{Body, Event, Scene};
use crate::clauses::Clause;
use crate::lists::removed;
use crate::texts::{append, append_count};
use std::alloc::Global;
use tc_lists::NoMemory;
use tc_term::Term;

/// The clauses of a centre, in whose name they run, and how many reactions may be tried.
#[derive(Clone, Copy)]
pub struct Setting<'s> {
    pub clauses: &'s [Clause],
    pub scene: Scene<'s>,
    pub budget: usize,
}

/// What has come of an event so far: a line for each reaction that was tried, and the events that
/// were raised and not looked at yet.
#[derive(Drop)]
pub struct Cascade {
    pub lines: Vec<Vec<u8>>,
    events: Vec<Event>,
}

impl Cascade {
    /// An event of which nothing has come.
    pub fn new(alloc: Global, event: Event) -> Result<Cascade, NoMemory> {
        let mut events = Vec::new(alloc);
        append(&mut events, event)?;
        Ok(Cascade {
            lines: Vec::new(alloc),
            events,
        })
    }

    /// Goes on until no event is left. False where the budget is spent and a reaction is left.
    pub fn run(
        &mut self,
        alloc: Global,
        setting: Setting<'_>,
        tuples: &mut Vec<Term>,
    ) -> Result<bool, NoMemory> {
        for _ in 0..u64::MAX {
            let Some(event) = removed(&mut self.events, 0) else {
                return Ok(true);
            };
            if !self.answer(alloc, setting, &event, tuples)? {
                return Ok(false);
            }
        }
        Ok(false)
    }

    // Tries each reaction that the event triggers. False where the budget is spent and one is left.
    fn answer(
        &mut self,
        alloc: Global,
        setting: Setting<'_>,
        event: &Event,
        tuples: &mut Vec<Term>,
    ) -> Result<bool, NoMemory> {
        for (place, clause) in setting.clauses.iter().enumerate() {
            if let Some(mut body) = Body::begin(alloc, clause, event, tuples)? {
                if self.lines.len() >= setting.budget {
                    return Ok(false);
                }
                let stuck = body.run(alloc, &clause.goals, event, setting.scene)?;
                let line = line_of(alloc, place.saturating_add(1), stuck, &body)?;
                self.lines.push(line)?;
                if stuck.is_none() {
                    body.leave(alloc, tuples, &mut self.events)?;
                }
            }
        }
        Ok(true)
    }
}

// The line of a reaction.
fn line_of(
    alloc: Global,
    number: usize,
    stuck: Option<usize>,
    body: &Body,
) -> Result<Vec<u8>, NoMemory> {
    let mut line = Vec::new(alloc);
    match stuck {
        None => append_count(b"  1 fired ", number, b"", &mut line)?,
        Some(goal) => {
            append_count(b"  1 failed ", number, b"", &mut line)?;
            append_count(b" at ", goal, b"", &mut line)?;
        }
    }
    body.append_effects(alloc, &mut line)?;
    Ok(line)
}
