//! The steps that a text tells: the entries of all histories, and behind them what was refused.
use std::alloc::Global;
use tc_desk::{LogResult, Refusal};
use tc_histtext::{Text, TextRow};
use tc_lists::NoMemory;
use tc_model::{Entry, Item, Op, Outcome, Reply};
use tc_term::Name;

/// What was done in a step.
#[derive(Clone, Copy)]
pub enum Deed<'t> {
    Called {
        op: &'t Op,
        outcome: &'t Outcome,
        items: &'t [Item],
    },
    Gave {
        outcome: &'t Outcome,
        items: &'t [Item],
    },
    Looked {
        asked: u64,
        reply: &'t Option<Reply>,
    },
    /// It stands in no history: the centre of this name was not reached.
    Refused {
        centre: &'t Name,
        why: Refusal,
    },
}

/// A step of an agent, by the number of its call. The agent, and the centre whose history has the
/// step, are places, from 0.
#[derive(Clone, Copy)]
pub struct Step<'t> {
    pub agent: usize,
    pub number: u64,
    pub centre: Option<usize>,
    pub deed: Deed<'t>,
}

/// All steps: those of the first history, in order, then those of the second, and so on.
pub fn steps_of(alloc: Global, text: &Text) -> Result<Vec<Step<'_>>, NoMemory> {
    let mut steps = Vec::new(alloc);
    for (centre, history) in text.histories.items().iter().enumerate() {
        append_entries(centre, history.items(), &mut steps)?;
    }
    append_all_refused(text, &mut steps)?;
    Ok(steps)
}

// Appends the entries of a centre's history.
fn append_entries<'t>(
    centre: usize,
    history: &'t [Entry],
    steps: &mut Vec<Step<'t>>,
) -> Result<(), NoMemory> {
    for entry in history {
        steps.push(step_of(centre, entry))?;
    }
    Ok(())
}

// Appends what was refused to any agent.
fn append_all_refused<'t>(text: &'t Text, steps: &mut Vec<Step<'t>>) -> Result<(), NoMemory> {
    for (agent, log) in text.logs.items().iter().enumerate() {
        append_refused(agent, log.items(), steps)?;
    }
    Ok(())
}

// The step that an entry of a centre's history is.
fn step_of(centre: usize, entry: &Entry) -> Step<'_> {
    let (id, deed) = match entry {
        Entry::Called {
            id,
            op,
            outcome,
            items,
        } => {
            let items = items.items();
            (*id, Deed::Called { op, outcome, items })
        }
        Entry::Gave { id, outcome, items } => {
            let items = items.items();
            (*id, Deed::Gave { outcome, items })
        }
        Entry::Looked { id, asked, reply } => {
            let asked = *asked;
            (*id, Deed::Looked { asked, reply })
        }
    };
    Step {
        agent: id.agent as usize,
        number: id.number,
        centre: Some(centre),
        deed,
    }
}

// Appends what was refused to an agent.
fn append_refused<'t>(
    agent: usize,
    log: &'t [TextRow],
    steps: &mut Vec<Step<'t>>,
) -> Result<(), NoMemory> {
    for row in log {
        if let LogResult::Refused(why) = &row.result {
            let deed = Deed::Refused {
                centre: &row.centre,
                why: *why,
            };
            steps.push(Step {
                agent,
                number: row.number,
                centre: None,
                deed,
            })?;
        }
    }
    Ok(())
}

impl<'t> Step<'t> {
    /// Whether a call waits from this step on.
    pub fn is_pending(&self) -> bool {
        matches!(
            self.deed,
            Deed::Called {
                outcome: Outcome::Pending,
                ..
            }
        )
    }

    /// Whether this step gives a waiting call its answer.
    pub fn is_answer(&self) -> bool {
        matches!(self.deed, Deed::Gave { .. })
    }

    /// Whether this step is a call that is made only once an earlier one has its answer.
    pub fn comes_after_answers(&self) -> bool {
        match self.deed {
            Deed::Called { .. } => true,
            Deed::Gave { .. } | Deed::Looked { .. } => false,
            Deed::Refused { why, .. } => match why {
                Refusal::Denied | Refusal::TooBig | Refusal::NotGround | Refusal::BadSpec(_) =>
                    true,
                Refusal::UnknownCentre
                | Refusal::Waiting
                | Refusal::TurnsSpent
                | Refusal::Full { .. }
                | Refusal::NoMemory => false,
            },
        }
    }

    /// What became of it, where that is an outcome, and the reactions to it.
    pub fn effects(&self) -> Option<(&'t Outcome, &'t [Item])> {
        match self.deed {
            Deed::Called { outcome, items, .. } | Deed::Gave { outcome, items } => {
                Some((outcome, items))
            }
            Deed::Looked { .. } | Deed::Refused { .. } => None,
        }
    }
}
