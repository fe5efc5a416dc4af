//! Configurations as this check reads them.
use crate::agents::{Agent, Grant, Item};
use crate::centres::{Centre, Word};
use crate::clauses::clause_of;
use crate::fault::Fault;
use crate::texts::append;
use std::alloc::Global;
use tc_read::read_clause;
use tc_term::{Name, Term};

// The budget of a centre that is given none.
const BUDGET: i64 = 1000;

/// The centres and the agents, in the order of their clauses, and the grants.
#[derive(Drop)]
pub struct World {
    pub centres: Vec<Centre>,
    pub agents: Vec<Agent>,
    pub grants: Vec<Grant>,
}

/// The world that a configuration sets up, in which nothing has happened yet.
pub fn world_of(alloc: Global, configuration: &[u8]) -> Result<World, Fault> {
    let mut world = World {
        centres: Vec::new(alloc),
        agents: Vec::new(alloc),
        grants: Vec::new(alloc),
    };
    let mut from = 0;
    loop {
        match read_clause(alloc, configuration, from)? {
            Some((clause, behind)) => {
                world.add(alloc, clause.term())?;
                from = behind;
            }
            None => return Ok(world),
        }
    }
}

impl World {
    // Takes in a clause.
    fn add(&mut self, alloc: Global, clause: &Term) -> Result<(), Fault> {
        let Term::Comp(word, args) = clause else {
            return Err(Fault::Beyond("a clause is a compound"));
        };
        match (word.bytes(), args.items()) {
            (b"centre", [Term::Atom(name)]) => self.add_centre(alloc, name, BUDGET),
            (b"centre", [Term::Atom(name), Term::Int(budget)]) => {
                self.add_centre(alloc, name, *budget)
            }
            (b"spec", [Term::Atom(centre), clause]) => self.add_clause(alloc, centre, clause),
            (b"role", [Term::Atom(_)]) => Ok(()),
            (b"tuple", [Term::Atom(centre), tuple]) => self.add_tuple(alloc, centre, tuple),
            (b"grant", [Term::Atom(role), Term::Atom(centre), Term::Atom(word)]) => {
                self.add_grant(alloc, role, centre, word)
            }
            (b"agent", [Term::Atom(name), Term::Atom(role)]) => self.add_agent(alloc, name, role),
            (b"script", [Term::Atom(name), items]) => self.add_script(alloc, name, items),
            _ => Err(Fault::Beyond("a clause has another form")),
        }
    }

    fn add_centre(&mut self, alloc: Global, name: &Name, budget: i64) -> Result<(), Fault> {
        let Ok(budget) = usize::try_from(budget) else {
            return Err(Fault::Beyond("a budget is below 0"));
        };
        let centre = Centre::new(alloc, name.copy(alloc)?, budget);
        Ok(append(&mut self.centres, centre)?)
    }

    fn add_clause(&mut self, alloc: Global, centre: &Name, clause: &Term) -> Result<(), Fault> {
        let place = self.place_of(centre)?;
        let Ok(clause) = clause_of(alloc, clause)? else {
            return Err(Fault::Beyond("a reaction has another form"));
        };
        if let Some(centre) = self.centres.get_mut(place) {
            centre.add_clause(clause)?;
        }
        Ok(())
    }

    fn add_tuple(&mut self, alloc: Global, centre: &Name, tuple: &Term) -> Result<(), Fault> {
        let place = self.place_of(centre)?;
        let tuple = tuple.copy(alloc)?;
        if let Some(centre) = self.centres.get_mut(place) {
            centre.put(tuple)?;
        }
        Ok(())
    }

    fn add_grant(
        &mut self,
        alloc: Global,
        role: &Name,
        centre: &Name,
        word: &Name,
    ) -> Result<(), Fault> {
        let Some(word) = Word::of(word.bytes()) else {
            return Err(Fault::Beyond("a grant is of another word"));
        };
        let role = role.copy(alloc)?;
        let centre = centre.copy(alloc)?;
        Ok(append(&mut self.grants, Grant { role, centre, word })?)
    }

    fn add_agent(&mut self, alloc: Global, name: &Name, role: &Name) -> Result<(), Fault> {
        let agent = Agent::new(alloc, name.copy(alloc)?, role.copy(alloc)?);
        Ok(append(&mut self.agents, agent)?)
    }

    fn add_script(&mut self, alloc: Global, name: &Name, items: &Term) -> Result<(), Fault> {
        let Some(agent) = self.agents.iter().position(|agent| agent.name == *name) else {
            return Err(Fault::Beyond("a script is of another agent"));
        };
        let script = match self.agents.get_mut(agent) {
            Some(agent) => agent.begin_script(),
            None => 0,
        };
        let mut rest = items;
        while let Some((item, behind)) = rest.as_cell() {
            self.add_item(alloc, agent, script, item)?;
            rest = behind;
        }
        Ok(())
    }

    fn add_item(
        &mut self,
        alloc: Global,
        agent: usize,
        script: usize,
        item: &Term,
    ) -> Result<(), Fault> {
        let Some((centre, operation)) = as_item(item) else {
            return Err(Fault::Beyond("an item has another form"));
        };
        let place = self.place_of(centre)?;
        let centre = centre.copy(alloc)?;
        let (word, operand) = operation_of(alloc, operation)?;
        if let Some(agent) = self.agents.get_mut(agent) {
            agent.add_item(Item {
                script,
                centre,
                place,
                word,
                operand,
            })?;
        }
        Ok(())
    }

    // The place of the centre of this name.
    fn place_of(&self, name: &Name) -> Result<usize, Fault> {
        match self.centres.iter().position(|centre| centre.name == *name) {
            Some(place) => Ok(place),
            None => Err(Fault::Beyond("a name is of no centre")),
        }
    }
}

// The centre and the operation of an item `CENTRE ? OPERATION`.
fn as_item(item: &Term) -> Option<(&Name, &Term)> {
    let Term::Comp(name, args) = item else {
        return None;
    };
    match (name.bytes(), args.items()) {
        (b"?", [Term::Atom(centre), operation]) => Some((centre, operation)),
        _ => None,
    }
}

// The word and the operand of an operation.
fn operation_of(alloc: Global, operation: &Term) -> Result<(Word, Term), Fault> {
    let (name, operand) = match operation {
        Term::Atom(name) => (name, operation),
        Term::Comp(name, args) => match args.items() {
            [operand] => (name, operand),
            _ => return Err(Fault::Beyond("an operation has one operand")),
        },
        Term::Var(_) | Term::Int(_) => return Err(Fault::Beyond("an operation has a name")),
    };
    match Word::of(name.bytes()) {
        Some(word) => Ok((word, operand.copy(alloc)?)),
        None => Err(Fault::Beyond("an operation is none of those known")),
    }
}
