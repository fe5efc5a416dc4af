//! What is counted of each centre and of each agent.
use crate::links::filled;
use crate::steps::{Deed, Step};
use crate::view::{View, Wait};
use tc_lists::NoMemory;
use tc_model::{Effect, Item, Op, Outcome};

/// What is counted of a centre.
#[derive(Clone, Copy)]
pub struct CentreCount {
    pub calls: u64,
    pub answers: u64,
    pub looks: u64,
    pub waits: u64,
    /// The most entries that a call waited for.
    pub longest: u64,
    pub still: u64,
    pub refused: u64,
    pub fired: u64,
    pub failed: u64,
    pub over: u64,
    /// How many tuples there are more than at the beginning: at the end, and at most.
    pub tuples: i64,
    pub most: i64,
}

/// What is counted of an agent.
#[derive(Clone, Copy)]
pub struct AgentCount {
    pub calls: u64,
    pub looks: u64,
    pub waits: u64,
    pub longest: u64,
    pub still: u64,
    pub refused: u64,
}

const NO_CENTRE: CentreCount = CentreCount {
    calls: 0,
    answers: 0,
    looks: 0,
    waits: 0,
    longest: 0,
    still: 0,
    refused: 0,
    fired: 0,
    failed: 0,
    over: 0,
    tuples: 0,
    most: 0,
};

const NO_AGENT: AgentCount = AgentCount {
    calls: 0,
    looks: 0,
    waits: 0,
    longest: 0,
    still: 0,
    refused: 0,
};

/// What is counted of so many centres.
pub fn centre_counts(view: &View<'_>, centres: usize) -> Result<Vec<CentreCount>, NoMemory> {
    let mut counts = filled(view.alloc, NO_CENTRE, centres)?;
    for (place, step) in view.steps.iter().enumerate() {
        let Some(centre) = view.centre(step) else {
            continue;
        };
        if let Some(count) = counts.get_mut(centre) {
            count.add(view, place, step);
        }
    }
    Ok(counts)
}

/// What is counted of so many agents.
pub fn agent_counts(view: &View<'_>, agents: usize) -> Result<Vec<AgentCount>, NoMemory> {
    let mut counts = filled(view.alloc, NO_AGENT, agents)?;
    for (place, step) in view.steps.iter().enumerate() {
        if let Some(count) = counts.get_mut(step.agent) {
            count.add(view, place, step);
        }
    }
    Ok(counts)
}

impl CentreCount {
    /// What the history weighs: one for each entry and each reaction that was tried.
    pub fn weight(&self) -> u64 {
        let entries = sum(self.calls, sum(self.answers, self.looks));
        sum(entries, sum(self.fired, self.failed))
    }

    // Counts a step.
    fn add(&mut self, view: &View<'_>, place: usize, step: &Step<'_>) {
        match step.deed {
            Deed::Called { .. } => self.calls = sum(self.calls, 1),
            Deed::Gave { .. } => self.answers = sum(self.answers, 1),
            Deed::Looked { .. } => self.looks = sum(self.looks, 1),
            Deed::Refused { .. } => self.refused = sum(self.refused, 1),
        }
        if let Some(wait) = view.wait(place, step) {
            add_wait(wait, &mut self.waits, &mut self.longest, &mut self.still);
        }
        if let Some((outcome, items)) = step.effects() {
            self.add_items(items);
            self.add_tuples(outcome, items, change_by(view, place, step));
        }
    }

    // Counts reactions.
    fn add_items(&mut self, items: &[Item]) {
        for item in items {
            match item {
                Item::Fired { .. } => self.fired = sum(self.fired, 1),
                Item::Failed { .. } => self.failed = sum(self.failed, 1),
            }
        }
    }

    // Counts tuples, where an operation itself has changed their number by so many. What went over
    // the budget has changed nothing.
    fn add_tuples(&mut self, outcome: &Outcome, items: &[Item], own: i64) {
        if let Outcome::Over(..) = outcome {
            self.over = sum(self.over, 1);
            return;
        }
        let mut tuples = self.tuples.saturating_add(own);
        for item in items {
            tuples = tuples.saturating_add(change_of(item));
        }
        self.tuples = tuples;
        self.most = tuples.max(self.most);
    }
}

impl AgentCount {
    // Counts a step.
    fn add(&mut self, view: &View<'_>, place: usize, step: &Step<'_>) {
        match step.deed {
            Deed::Called { .. } => self.calls = sum(self.calls, 1),
            Deed::Looked { .. } => self.looks = sum(self.looks, 1),
            Deed::Refused { .. } => self.refused = sum(self.refused, 1),
            Deed::Gave { .. } => {}
        }
        if let Some(wait) = view.wait(place, step) {
            add_wait(wait, &mut self.waits, &mut self.longest, &mut self.still);
        }
    }
}

// Counts a wait.
fn add_wait(wait: Wait, waits: &mut u64, longest: &mut u64, still: &mut u64) {
    *waits = sum(*waits, 1);
    match wait {
        Wait::Over(entries) => *longest = (entries as u64).max(*longest),
        Wait::Still => *still = sum(*still, 1),
    }
}

// By how many the operation of a step itself, which was not over the budget, changes the number of
// tuples.
fn change_by(view: &View<'_>, place: usize, step: &Step<'_>) -> i64 {
    match step.deed {
        Deed::Called {
            op: Op::Out(_),
            outcome: Outcome::Done,
            ..
        } => 1,
        Deed::Called {
            op: Op::Inp(_),
            outcome: Outcome::Took(_),
            ..
        } => -1,
        Deed::Gave {
            outcome: Outcome::Took(_),
            ..
        } => {
            let call = view.partner(place).and_then(|call| view.steps.get(call));
            match call {
                Some(call) if takes(call) => -1,
                Some(_) | None => 0,
            }
        }
        Deed::Called { .. } | Deed::Gave { .. } | Deed::Looked { .. } | Deed::Refused { .. } => 0,
    }
}

// Whether a step is a call that waits to take a tuple.
fn takes(step: &Step<'_>) -> bool {
    matches!(step.deed, Deed::Called { op: Op::In(_), .. })
}

// By how many a reaction changes the number of tuples.
fn change_of(item: &Item) -> i64 {
    let mut change: i64 = 0;
    if let Item::Fired { effects, .. } = item {
        for effect in effects.items() {
            change = match effect {
                Effect::Put(_) => change.saturating_add(1),
                Effect::Took(_) => change.saturating_sub(1),
                Effect::Read(_) => change,
            };
        }
    }
    change
}

fn sum(left: u64, right: u64) -> u64 {
    left.saturating_add(right)
}
