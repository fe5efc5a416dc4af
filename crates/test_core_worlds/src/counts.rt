//! What was seen of histories.
use tc_model::{Entry, Item, Outcome};

/// How many entries there were, reactions that were executed and ones that failed, phases over their
/// budget, calls that waited, that were told absence, looks, and worlds that were not as they have
/// to be.
#[derive(Clone, Copy)]
pub struct Counts {
    pub entries: u64,
    pub fired: u64,
    pub failed: u64,
    pub over: u64,
    pub wait: u64,
    pub absent: u64,
    pub looks: u64,
    pub faults: u64,
}

impl Counts {
    /// Nothing was seen.
    pub fn none() -> Counts {
        Counts {
            entries: 0,
            fired: 0,
            failed: 0,
            over: 0,
            wait: 0,
            absent: 0,
            looks: 0,
            faults: 0,
        }
    }

    /// Counts the entries of a history.
    pub fn add_history(&mut self, history: &[Entry]) {
        for entry in history {
            self.add(entry);
        }
    }

    /// Counts a world that is faulty, where it is.
    pub fn add_fault(&mut self, is_faulty: bool) {
        self.faults = self.faults.saturating_add(u64::from(is_faulty));
    }

    // Counts an entry.
    fn add(&mut self, entry: &Entry) {
        self.entries = self.entries.saturating_add(1);
        match entry {
            Entry::Called { outcome, items, .. } | Entry::Gave { outcome, items, .. } => {
                self.add_outcome(outcome);
                for item in items.items() {
                    self.add_item(item);
                }
            }
            Entry::Looked { .. } => self.looks = self.looks.saturating_add(1),
        }
    }

    // Counts an outcome.
    fn add_outcome(&mut self, outcome: &Outcome) {
        match outcome {
            Outcome::Pending => self.wait = self.wait.saturating_add(1),
            Outcome::Over(_, _) => self.over = self.over.saturating_add(1),
            Outcome::Absent => self.absent = self.absent.saturating_add(1),
            Outcome::Done | Outcome::Took(_) | Outcome::NoTuple => {}
            Outcome::Found(_) | Outcome::Spec(_) => {}
        }
    }

    // Counts a reaction.
    fn add_item(&mut self, item: &Item) {
        match item {
            Item::Fired { .. } => self.fired = self.fired.saturating_add(1),
            Item::Failed { .. } => self.failed = self.failed.saturating_add(1),
        }
    }
}
