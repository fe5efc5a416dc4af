//! An agent as this check sees it: what its scripts ask next, and the rows that it has so far.
use crate::centres::{Answer, Ask, Word, append_reply, spelled};
use crate::clauses::{Spelled, text_of_clauses};
use crate::fault::Fault;
use crate::texts::{append_all, append_count};
use crate::values::{Values, filled, meets};
use std::alloc::Global;
use tc_lists::{NoMemory, append_number};
use tc_print::print_name;
use tc_term::{Name, Term};

/// That agents of a role may use a word at a centre.
#[derive(Drop)]
pub struct Grant {
    pub role: Name,
    pub centre: Name,
    pub word: Word,
}

/// An item of a script, with the script's number, and the name and the place of its centre.
#[derive(Drop)]
pub struct Item {
    pub script: usize,
    pub centre: Name,
    pub place: usize,
    pub word: Word,
    pub operand: Term,
}

/// An agent, its items, how many of them have their row, and the rows.
#[derive(Drop)]
pub struct Agent {
    pub name: Name,
    role: Name,
    items: Vec<Item>,
    scripts: usize,
    at: usize,
    script: usize,
    values: Values,
    waits: bool,
    rows: Vec<Vec<u8>>,
}

impl Agent {
    /// An agent without a script.
    pub fn new(alloc: Global, name: Name, role: Name) -> Agent {
        Agent {
            name,
            role,
            items: Vec::new(alloc),
            scripts: 0,
            at: 0,
            script: 0,
            values: Values::none(alloc),
            waits: false,
            rows: Vec::new(alloc),
        }
    }

    /// The number of a further script.
    pub fn begin_script(&mut self) -> usize {
        self.scripts = self.scripts.saturating_add(1);
        self.scripts
    }

    /// Puts an item behind the others.
    pub fn add_item(&mut self, item: Item) -> Result<(), NoMemory> {
        self.items.push(item)?;
        Ok(())
    }

    /// Whether its last call has no answer yet.
    pub fn waits(&self) -> bool {
        self.waits
    }

    /// Its rows.
    pub fn rows(&self) -> &[Vec<u8>] {
        &self.rows
    }

    /// The call that it makes next, behind the rows of all that is refused before.
    pub fn next_ask(
        &mut self,
        alloc: Global,
        agent: usize,
        grants: &[Grant],
    ) -> Result<Option<Ask>, Fault> {
        for _ in 0..self.items.len() {
            let Some(ask) = self.ask_at(alloc, agent)? else {
                return Ok(None);
            };
            if let Some(why) = self.refusal(&ask, grants) {
                self.add_row(alloc, why)?;
            } else if let Some(ask) = self.with_clauses(alloc, ask)? {
                return Ok(Some(ask));
            }
        }
        Ok(self.ask_at(alloc, agent)?)
    }

    // What the item asks that has no row yet.
    fn ask_at(&mut self, alloc: Global, agent: usize) -> Result<Option<Ask>, NoMemory> {
        let Some(item) = self.items.get(self.at) else {
            return Ok(None);
        };
        if item.script != self.script {
            self.script = item.script;
            self.values = Values::none(alloc);
        }
        Ok(Some(Ask {
            agent,
            name: self.name.copy(alloc)?,
            number: (self.at as u64).saturating_add(1),
            centre: item.place,
            word: item.word,
            operand: filled(alloc, &item.operand, &self.values)?,
        }))
    }

    // Why the call is not made.
    fn refusal(&self, ask: &Ask, grants: &[Grant]) -> Option<&'static [u8]> {
        let item = self.items.get(self.at)?;
        if !is_permitted(grants, &self.role, &item.centre, item.word) {
            return Some(b"denied");
        }
        if ask.word == Word::Out && !ask.operand.is_ground() {
            return Some(b"not ground");
        }
        None
    }

    // The call, with the clauses that it sets as they are told; none behind the row that says why they
    // are no clauses.
    fn with_clauses(&mut self, alloc: Global, mut ask: Ask) -> Result<Option<Ask>, Fault> {
        if ask.word != Word::SetSpec {
            return Ok(Some(ask));
        }
        match spelled(alloc, &ask.operand)? {
            Some(Spelled::Clauses(clauses)) => {
                let text = text_of_clauses(alloc, &clauses)?;
                ask.operand = Term::Atom(Name::new(alloc, &text)?);
                Ok(Some(ask))
            }
            Some(Spelled::Bad(number, why)) => {
                self.add_bad_row(alloc, number, why)?;
                Ok(None)
            }
            None => Err(Fault::Beyond("clauses are set that are no text")),
        }
    }

    // Adds the row of clauses of which the one of this number is none, for this reason.
    fn add_bad_row(&mut self, alloc: Global, number: usize, why: &[u8]) -> Result<(), NoMemory> {
        let mut told = Vec::new(alloc);
        append_count(b"bad spec ", number, b" ", &mut told)?;
        told.extend_from_slice(why)?;
        self.add_row(alloc, &told)
    }

    /// Takes in what has come of the call that it made last.
    pub fn take(&mut self, alloc: Global, answer: &Answer) -> Result<(), NoMemory> {
        if let Answer::Pending = answer {
            self.waits = true;
            return Ok(());
        }
        self.waits = false;
        if let Answer::Tuple(tuple) = answer {
            self.learn(alloc, tuple)?;
        }
        let mut told = Vec::new(alloc);
        append_reply(alloc, answer, &mut told)?;
        self.add_row(alloc, &told)
    }

    // Gives the variables of the last template their values.
    fn learn(&mut self, alloc: Global, tuple: &Term) -> Result<(), NoMemory> {
        if let Some(item) = self.items.get(self.at) {
            let _ = meets(alloc, &item.operand, tuple, &mut self.values)?;
        }
        Ok(())
    }

    // Adds the row of the item that has none yet.
    fn add_row(&mut self, alloc: Global, told: &[u8]) -> Result<(), NoMemory> {
        if let Some(item) = self.items.get(self.at) {
            let mut row = Vec::new(alloc);
            append_number((self.at as u64).saturating_add(1), &mut row)?;
            row.extend_from_slice(b" ")?;
            print_name(alloc, &item.centre, &mut row)?;
            append_all(&[b" ", told], &mut row)?;
            self.rows.push(row)?;
            self.at = self.at.saturating_add(1);
        }
        Ok(())
    }

    /// Adds the row of a call that still waits. False where an item is left that should have been
    /// asked.
    pub fn end(&mut self, alloc: Global, agent: usize, grants: &[Grant]) -> Result<bool, Fault> {
        if self.waits {
            self.add_row(alloc, b"pending")?;
            return Ok(true);
        }
        Ok(self.next_ask(alloc, agent, grants)?.is_none())
    }
}

// Whether some grant permits it.
fn is_permitted(grants: &[Grant], role: &Name, centre: &Name, word: Word) -> bool {
    for grant in grants {
        if grant.word == word && grant.centre == *centre && grant.role == *role {
            return true;
        }
    }
    false
}
