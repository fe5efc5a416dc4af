//! What a body does to a list of tuples, goal by goal.
use crate::clauses::Clause;
use crate::equations::{apart, equate};
use crate::lists::{chosen, copies};
use crate::numbers::{compare, worked_out};
use crate::texts::append_term;
use crate::values::{Values, filled, oldest};
use std::alloc::Global;
use tc_lists::NoMemory;
use tc_term::{Name, Term, fits};

/// When an event happens: when a tuple is asked for, when the operation has done its work, or when
/// it has found no tuple.
#[derive(Clone, Copy, PartialEq, Eq, Debug)]
pub enum Moment {
    Asked,
    Done,
    Missed,
}

/// An event, whose variables are none that a clause has.
#[derive(Drop)]
pub struct Event {
    operation: &'static [u8],
    moment: Moment,
    term: Term,
}

impl Event {
    /// The event that an operation has come to this moment, with this term.
    pub fn new(
        alloc: Global,
        operation: &'static [u8],
        moment: Moment,
        term: &Term,
    ) -> Result<Event, NoMemory> {
        Ok(Event {
            operation,
            moment,
            term: apart(alloc, term)?,
        })
    }

    // Whether a test of a guard holds.
    fn passes(&self, test: &Term) -> bool {
        match test {
            Term::Atom(name) => match name.bytes() {
                b"request" => self.moment == Moment::Asked,
                b"response" => self.moment != Moment::Asked,
                b"success" => self.moment == Moment::Done,
                b"failure" => self.moment == Moment::Missed,
                _ => false,
            },
            _ => false,
        }
    }

    // Whether a goal that asks for a kind of events is met.
    fn is(&self, kind: &[u8]) -> bool {
        match kind {
            b"pre" => self.moment == Moment::Asked,
            b"post" => self.moment != Moment::Asked,
            b"success" => self.moment == Moment::Done,
            b"failure" => self.moment == Moment::Missed,
            _ => kind == b"true".as_slice(),
        }
    }
}

/// In whose name bodies run, and at which centre.
#[derive(Clone, Copy)]
pub struct Scene<'s> {
    pub agent: &'s Name,
    pub centre: &'s Name,
}

// What a body does to a tuple.
#[derive(Clone, Copy, PartialEq, Eq, Debug)]
enum Deed {
    Put,
    Took,
    Read,
}

impl Deed {
    // How it is told.
    fn text(&self) -> &'static [u8] {
        match self {
            Deed::Put => b" put ",
            Deed::Took => b" took ",
            Deed::Read => b" read ",
        }
    }

    // The operation that it is.
    fn operation(&self) -> &'static [u8] {
        match self {
            Deed::Put => b"out_r",
            Deed::Took => b"in_r",
            Deed::Read => b"rd_r",
        }
    }
}

// What was done to which tuple.
#[derive(Drop)]
struct Effect {
    deed: Deed,
    tuple: Term,
}

/// How far a body has come: what its variables stand for, the tuples, and what was done to them.
#[derive(Drop)]
pub struct Body {
    values: Values,
    tuples: Vec<Term>,
    effects: Vec<Effect>,
}

impl Body {
    /// The body of a clause over these tuples, where the event triggers it.
    pub fn begin(
        alloc: Global,
        clause: &Clause,
        event: &Event,
        tuples: &[Term],
    ) -> Result<Option<Body>, NoMemory> {
        let mut values = Values::none(alloc);
        if clause.event.bytes() != event.operation
            || !clause.tests.iter().all(|test| event.passes(test))
            || !equate(alloc, &clause.head, &event.term, &mut values)?
        {
            return Ok(None);
        }
        Ok(Some(Body {
            values,
            tuples: copies(alloc, tuples)?,
            effects: Vec::new(alloc),
        }))
    }

    /// Goes through the goals. The number of the first that can't be met, if one can't.
    pub fn run(
        &mut self,
        alloc: Global,
        goals: &[Term],
        event: &Event,
        scene: Scene<'_>,
    ) -> Result<Option<usize>, NoMemory> {
        for (place, goal) in goals.iter().enumerate() {
            let goal = filled(alloc, goal, &self.values)?;
            if !self.meet(alloc, &goal, event, scene)? {
                return Ok(Some(place.saturating_add(1)));
            }
        }
        Ok(None)
    }

    // Meets a goal, if it can be met.
    fn meet(
        &mut self,
        alloc: Global,
        goal: &Term,
        event: &Event,
        scene: Scene<'_>,
    ) -> Result<bool, NoMemory> {
        match goal {
            Term::Atom(name) => Ok(event.is(name.bytes())),
            Term::Comp(name, args) => match args.items() {
                [term] => self.meet_one(alloc, name.bytes(), term, event, scene),
                [left, right] => self.meet_two(alloc, name.bytes(), left, right),
                _ => Ok(false),
            },
            Term::Var(_) | Term::Int(_) => Ok(false),
        }
    }

    // Meets a goal of one term.
    fn meet_one(
        &mut self,
        alloc: Global,
        name: &[u8],
        term: &Term,
        event: &Event,
        scene: Scene<'_>,
    ) -> Result<bool, NoMemory> {
        match name {
            b"out_r" | b"out" => self.put(alloc, term),
            b"in_r" | b"in" => self.find(alloc, term, Deed::Took),
            b"rd_r" | b"rd" => self.find(alloc, term, Deed::Read),
            b"no_r" | b"no" => Ok(oldest(alloc, &self.tuples, term)?.is_none()),
            b"current_tuple" => equate(alloc, term, &event.term, &mut self.values),
            b"current_agent" => self.meet_name(alloc, term, scene.agent.bytes()),
            b"current_tc" => self.meet_name(alloc, term, scene.centre.bytes()),
            b"current_op" => self.meet_name(alloc, term, event.operation),
            _ => Ok(false),
        }
    }

    // Meets a goal of two terms.
    fn meet_two(
        &mut self,
        alloc: Global,
        name: &[u8],
        left: &Term,
        right: &Term,
    ) -> Result<bool, NoMemory> {
        match name {
            b"=" => equate(alloc, left, right, &mut self.values),
            b"\\=" => Ok(!equate(alloc, left, right, &mut Values::none(alloc))?),
            b"is" => match worked_out(right) {
                Some(number) => equate(alloc, left, &Term::Int(number), &mut self.values),
                None => Ok(false),
            },
            _ => Ok(match (worked_out(left), worked_out(right)) {
                (Some(left), Some(right)) => compare(name, left, right),
                _ => false,
            }),
        }
    }

    // Makes a term the atom of this name.
    fn meet_name(&mut self, alloc: Global, term: &Term, name: &[u8]) -> Result<bool, NoMemory> {
        let name = Term::Atom(Name::new(alloc, name)?);
        equate(alloc, term, &name, &mut self.values)
    }

    // Puts a tuple, if the term is one.
    fn put(&mut self, alloc: Global, term: &Term) -> Result<bool, NoMemory> {
        if !term.is_ground() || !fits(term) {
            return Ok(false);
        }
        self.tuples.push(term.copy(alloc)?)?;
        self.note(alloc, Deed::Put, term)?;
        Ok(true)
    }

    // Takes or reads the oldest tuple that the template matches, if one does.
    fn find(&mut self, alloc: Global, template: &Term, deed: Deed) -> Result<bool, NoMemory> {
        let Some(place) = oldest(alloc, &self.tuples, template)? else {
            return Ok(false);
        };
        let Some(tuple) = chosen(alloc, &mut self.tuples, place, deed == Deed::Took)? else {
            return Ok(false);
        };
        self.note(alloc, deed, &tuple)?;
        equate(alloc, template, &tuple, &mut self.values)
    }

    // Notes what was done.
    fn note(&mut self, alloc: Global, deed: Deed, tuple: &Term) -> Result<(), NoMemory> {
        let tuple = tuple.copy(alloc)?;
        self.effects.push(Effect { deed, tuple })?;
        Ok(())
    }

    /// Appends what was done.
    pub fn append_effects(&self, alloc: Global, into: &mut Vec<u8>) -> Result<(), NoMemory> {
        for effect in &self.effects {
            into.extend_from_slice(effect.deed.text())?;
            append_term(alloc, &effect.tuple, into)?;
        }
        Ok(())
    }

    /// Leaves what was done: the tuples, and an event for each effect.
    pub fn leave(
        self,
        alloc: Global,
        tuples: &mut Vec<Term>,
        events: &mut Vec<Event>,
    ) -> Result<(), NoMemory> {
        let Body {
            values: _,
            tuples: left,
            effects,
        } = self;
        for effect in &effects {
            let operation = effect.deed.operation();
            let event = Event::new(alloc, operation, Moment::Done, &effect.tuple)?;
            events.push(event)?;
        }
        *tuples = left;
        Ok(())
    }
}
