//! What the rows of a table stand over, and their answers.
ghost use Rattle.std.specs.Prelude.{◌≡◌, ◌<◌, ◌≤◌, ◌+◌};
ghost use Rattle.tc_model.specs.declared.limits.TheConstants.{MOST_GOALS};

use crate::answers::{print_bad, print_count, print_lines, print_numbers, print_outcome};
use crate::events::event_of;
use crate::rows::{bag_of, tuples_of};
use anyhow::anyhow;
use std::alloc::Global;
use std::marker::Brand;
use std::sync::ledger::{Blank, Ledger};
use tc_bag::Bag;
use tc_body::execute;
use tc_lists::NoMemory;
use tc_model::{Clauses, Context, Event, Item, Reaction};
use tc_read::read_clause;
use tc_spec::{Spec, SpecFault, print_spec, read_spec};
use tc_steps::Steps;
use tc_term::{Ground, Name, Pattern};
use tc_unify::Store;
use test_texts::{parts, text_of};

/// The tuples, the event and the clauses that were named last.
#[derive(Drop)]
struct Stage {
    tuples: Vec<Ground>,
    event: Option<Event>,
    clauses: Clauses,
}

/// The table, with the answer of each row behind it.
pub fn answered(alloc: Global, table: &[u8]) -> anyhow::Result<Vec<u8>> {
    let mut stage = Stage {
        tuples: Vec::new(alloc),
        event: None,
        clauses: Clauses::new(alloc),
    };
    let mut into = Vec::new(alloc);
    let mut from = 0;
    while let Some((row, behind)) = read_clause(alloc, table, from)? {
        let source = &table[from..behind];
        into.extend_from_slice(source)?;
        stage.answer(alloc, &row, source, &mut into)?;
        from = behind;
    }
    into.extend_from_slice(&table[from..])?;
    Ok(into)
}

impl Stage {
    // Does what a row says, and appends its answer, if it has one.
    fn answer(
        &mut self,
        alloc: Global,
        row: &Pattern,
        source: &[u8],
        into: &mut Vec<u8>,
    ) -> anyhow::Result<()> {
        let (name, args) = parts(row.term());
        match name {
            b"tuples" => self.tuples = tuples_of(alloc, args)?,
            b"reaction" => self.react(alloc, source, into)?,
            b"text" => self.read(alloc, &text_of(alloc, args)?, into)?,
            b"printed" => self.print(alloc, into)?,
            b"triggered" => self.trigger(alloc, into)?,
            _ => self.event = Some(event_of(alloc, name, args)?.copy(alloc)?),
        }
        Ok(())
    }

    // What comes of the reaction that the text is.
    fn react(&self, alloc: Global, source: &[u8], into: &mut Vec<u8>) -> anyhow::Result<()> {
        let clauses = match read_spec(alloc, source) {
            Ok(clauses) => clauses,
            Err(SpecFault::Bad(bad)) => {
                print_bad(bad, into)?;
                return Ok(());
            }
            Err(fault) => return Err(anyhow::Error::from(fault)),
        };
        let [reaction] = clauses.items() else {
            return Err(anyhow!("a reaction is one clause"));
        };
        let Some(event) = &self.event else {
            return Err(anyhow!("a reaction needs an event"));
        };
        let context = Context::new(Name::new(alloc, b"ann")?, Name::new(alloc, b"desk")?);
        let context = context.copy(alloc)?;
        let mut bag = bag_of(alloc, &self.tuples)?;
        let blank = Blank::new(1);
        let done = body_done::<Brand>(alloc, reaction, event, &context, &mut bag, blank)?;
        let (item, events) = done;
        print_outcome(alloc, &item, &events, &bag, into)?;
        Ok(())
    }

    // Reads clauses, which are the clauses from here on.
    fn read(&mut self, alloc: Global, text: &[u8], into: &mut Vec<u8>) -> anyhow::Result<()> {
        match read_spec(alloc, text) {
            Ok(clauses) => {
                print_count(clauses.items().len(), into)?;
                self.clauses = clauses;
            }
            Err(SpecFault::Bad(bad)) => print_bad(bad, into)?,
            Err(fault) => return Err(anyhow::Error::from(fault)),
        }
        Ok(())
    }

    // The text of the clauses.
    fn print(&self, alloc: Global, into: &mut Vec<u8>) -> anyhow::Result<()> {
        let mut text = Vec::new(alloc);
        print_spec(alloc, &self.clauses, &mut text)?;
        print_lines(&text, into)?;
        Ok(())
    }

    // The clauses that the event triggers.
    fn trigger(&self, alloc: Global, into: &mut Vec<u8>) -> anyhow::Result<()> {
        let Some(event) = &self.event else {
            return Err(anyhow!("what is triggered needs an event"));
        };
        let spec = Spec::of(alloc, self.clauses.copy(alloc)?)?;
        let numbers = triggered::<Brand>(alloc, &spec, event, Blank::new(1))?;
        print_numbers(&numbers, into)?;
        Ok(())
    }
}

// What comes of the body of a reaction, and the events of its effects.
fn body_done<L: Ledger>(
    alloc: Global,
    reaction: &Reaction,
    event: &Event,
    context: &Context,
    bag: &mut Bag,
    blank: Blank,
) -> Result<(Item, Vec<Event>), NoMemory>
    requires next { bag.old.next + MOST_GOALS ≤ u64.MAX }
    requires name { blank.name ≡ L.name }
    requires parts { blank.parts ≡ L.parts }
    requires some { 0 < blank.parts }
{
    let mut store = Store::new(alloc, 0)?;
    let mut steps = Steps::<L>::none(blank);
    let done = execute(
        alloc, &mut store, reaction, 1, 1, event, context, bag, &mut steps,
    )?;
    Ok(done)
}

// The numbers of the clauses that an event triggers.
fn triggered<L: Ledger>(
    alloc: Global,
    spec: &Spec,
    event: &Event,
    blank: Blank,
) -> Result<Vec<u32>, NoMemory>
    requires name { blank.name ≡ L.name }
    requires parts { blank.parts ≡ L.parts }
    requires some { 0 < blank.parts }
{
    let mut store = Store::new(alloc, 0)?;
    let mut steps = Steps::<L>::none(blank);
    let numbers = spec.triggered(alloc, &mut store, event, &mut steps)?;
    Ok(numbers)
}
