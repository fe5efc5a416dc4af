//! A text while it is read, line by line.
ghost use Rattle.std.specs.Prelude.{◌≡◌, ◌≢◌, ◌<◌, ◌==◌, ◌++◌, [], ℕ, List, AllPairs, IfNone};
ghost use Rattle.std.specs.Prelude.{IfOk, IfSome, OnOk, drop, length};
ghost use Rattle.tc_histtext.specs.Machine.{IsBare};
ghost use Rattle.tc_histtext.specs.Machine as stage;
ghost use Rattle.tc_histtext.specs.Reading.{Answers, Comes, IsSound, IsStuck, IsWhole, MayReact};
ghost use Rattle.tc_histtext.specs.Reading.{PutLast, PutLastReactions, PutReactions, Reacts};
ghost use Rattle.tc_histtext.specs.Reading.{Settles, is_in_histories, is_in_history, is_next};
ghost use Rattle.tc_histtext.specs.Reading.{lines_so_far, may_tell, place_behind, stage_of};
ghost use Rattle.tc_histline.specs.declared.lines.Line.TheVariants as line;

use crate::read_texts::Text;
use std::alloc::Global;
use tc_histline::{Line, TextRow, Version, read_line, read_reaction};
use tc_lists::{NoMemory, Seq};
use tc_model::{Entry, Item};
use tc_names::Names;
use tc_term::Name;

/// Where the next line stands: before or behind the first, in a history, behind an entry that may
/// have reactions, in a log, or behind the last.
#[derive(Clone, Copy)]
pub enum Place {
    Start,
    Before,
    Within,
    Reacting,
    Telling,
    Done,
}

/// What the lines so far tell.
#[derive(Drop)]
pub struct Reading {
    pub place: Place,
    pub version: Version,
    pub histories: Vec<Seq<Entry>>,
    /// The reactions behind the last entry that it doesn't have yet.
    pub items: Vec<Item>,
    pub logs: Vec<Seq<TextRow>>,
    pub blocked: bool,
}

impl Reading {
    /// Before the first line.
    pub fn new(alloc: Global) -> Reading
        ensures start { (centres agents : List (List ℕ))
            → stage_of centres agents result ≡ stage.Start }
        ensures none { (centres agents : List (List ℕ)) → lines_so_far centres agents result ≡ [] }
        ensures sound { (centres agents : List (List ℕ)) → IsSound centres agents result }
    {
        Reading {
            place: Place::Start,
            version: Version::Two,
            histories: Vec::new(alloc),
            items: Vec::new(alloc),
            logs: Vec::new(alloc),
            blocked: false,
        }
    }

    /// Takes the next line, if one stands there that may come: how many bytes it has.
    ///
    /// A reaction is read apart: most lines are of one, and what holds a line of any kind is large.
    #[inline(always)]
    pub fn next(
        &mut self,
        alloc: Global,
        centres: &[Name],
        agents: &[Name],
        names: &Names,
        rest: &[u8],
    ) -> Result<Option<usize>, NoMemory>
        requires sound { IsSound centres.now agents.now self.old }
        requires differ { AllPairs ◌≢◌ agents.now }
        requires named { names.now ≡ agents.now }
        ensures come { IfOk result (λ r. IfSome r (λ size.
            Comes centres.now agents.now self.old rest.now size self.new)) }
        ensures stuck { IfOk result (λ r. IfNone r
            (IsStuck centres.now agents.now self.old rest.now)) }
    {
        if let [b' ', ..] = rest {
            if let Some((item, size)) = read_reaction(alloc, rest)? {
                return Ok(self.add_reaction(centres, agents, item)?.then_some(size));
            }
        }
        let Some((line, size)) = read_line(alloc, self.version, names, rest)? else {
            return Ok(None);
        };
        Ok(self.take(alloc, centres, agents, line)?.then_some(size))
    }

    /// Takes the next line, if it may come: whether it may.
    pub fn take(
        &mut self,
        alloc: Global,
        centres: &[Name],
        agents: &[Name],
        line: Line,
    ) -> Result<bool, NoMemory>
        requires sound { IsSound centres.now agents.now self.old }
        requires bare { IsBare line }
        ensures { IfOk result (λ taken.
            Answers centres.now agents.now self.old line taken self.new) }
    {
        match line {
            Line::First(version) => Ok(self.begin(centres, agents, version)),
            Line::Centre(name) => {
                self.settle(centres, agents)?;
                self.open_history(alloc, centres, agents, &name)
            }
            Line::Agent(name) => {
                self.settle(centres, agents)?;
                self.open_log(alloc, centres, agents, &name)
            }
            Line::Entry(entry) => {
                self.settle(centres, agents)?;
                self.add_entry(centres, agents, entry)
            }
            Line::Reaction(item) => self.add_reaction(centres, agents, item),
            Line::Row(row) => self.add_row(centres, agents, row),
            Line::End(blocked) => {
                self.settle(centres, agents)?;
                Ok(self.end(centres, agents, blocked))
            }
        }
    }

    // Gives the last entry its reactions.
    fn settle(&mut self, centres: &[Name], agents: &[Name]) -> Result<(), NoMemory>
        requires sound { IsSound centres.now agents.now self.old }
        ensures { OnOk result (Settles centres.now agents.now self.old self.new) }
    {
        if self.items.is_empty() {
            return Ok(());
        }
        push_reactions(&mut self.histories, &mut self.items)?;
        Ok(())
    }

    // Takes the first line.
    fn begin(&mut self, centres: &[Name], agents: &[Name], version: Version) -> bool
        requires sound { IsSound centres.now agents.now self.old }
        ensures { Answers centres.now agents.now self.old (line.First version) result self.new }
    {
        match self.place {
            Place::Start => {
                self.place = Place::Before;
                self.version = version;
                true
            }
            Place::Before | Place::Within | Place::Reacting | Place::Telling | Place::Done => false,
        }
    }

    // Takes the heading of a centre.
    fn open_history(
        &mut self,
        alloc: Global,
        centres: &[Name],
        agents: &[Name],
        name: &Name,
    ) -> Result<bool, NoMemory>
        requires sound { IsSound centres.now agents.now self.old }
        requires settled { self.old.items.items ≡ [] }
        ensures { IfOk result (λ taken. Answers centres.now agents.now self.old
            (line.Centre name.now) taken self.new) }
    {
        if !is_in_histories(self.place) || !is_next(centres, self.histories.len(), name) {
            return Ok(false);
        }
        self.histories.push(Seq::empty(alloc))?;
        self.place = Place::Within;
        Ok(true)
    }

    // Takes the heading of an agent.
    fn open_log(
        &mut self,
        alloc: Global,
        centres: &[Name],
        agents: &[Name],
        name: &Name,
    ) -> Result<bool, NoMemory>
        requires sound { IsSound centres.now agents.now self.old }
        requires settled { self.old.items.items ≡ [] }
        ensures { IfOk result (λ taken. Answers centres.now agents.now self.old
            (line.Agent name.now) taken self.new) }
    {
        if !self.may_tell(centres) || !is_next(agents, self.logs.len(), name) {
            return Ok(false);
        }
        self.logs.push(Seq::empty(alloc))?;
        self.place = Place::Telling;
        Ok(true)
    }

    // Takes the last line.
    fn end(&mut self, centres: &[Name], agents: &[Name], blocked: bool) -> bool
        requires sound { IsSound centres.now agents.now self.old }
        requires settled { self.old.items.items ≡ [] }
        ensures { Answers centres.now agents.now self.old (line.End blocked) result self.new }
    {
        if !self.may_tell(centres) || self.logs.len() != agents.len() {
            return false;
        }
        self.place = Place::Done;
        self.blocked = blocked;
        true
    }

    // Takes the line of an entry.
    fn add_entry(
        &mut self,
        centres: &[Name],
        agents: &[Name],
        entry: Entry,
    ) -> Result<bool, NoMemory>
        requires sound { IsSound centres.now agents.now self.old }
        requires settled { self.old.items.items ≡ [] }
        requires bare { IsBare (line.Entry entry) }
        ensures { IfOk result (λ taken. Answers centres.now agents.now self.old
            (line.Entry entry) taken self.new) }
    {
        if !is_in_history(self.place) {
            return Ok(false);
        }
        self.place = place_behind(&entry);
        push_last(&mut self.histories, entry)?;
        Ok(true)
    }

    // Takes the line of a reaction.
    fn add_reaction(
        &mut self,
        centres: &[Name],
        agents: &[Name],
        item: Item,
    ) -> Result<bool, NoMemory>
        requires sound { IsSound centres.now agents.now self.old }
        ensures { IfOk result (λ taken. Answers centres.now agents.now self.old
            (line.Reaction item) taken self.new) }
    {
        match self.place {
            Place::Reacting => {
                self.items.push(item)?;
                Ok(true)
            }
            Place::Start | Place::Before | Place::Within | Place::Telling | Place::Done => Ok(
                false,
            ),
        }
    }

    // Takes the line of a row.
    fn add_row(&mut self, centres: &[Name], agents: &[Name], row: TextRow) -> Result<bool, NoMemory>
        requires sound { IsSound centres.now agents.now self.old }
        ensures { IfOk result (λ taken. Answers centres.now agents.now self.old
            (line.Row row) taken self.new) }
    {
        match self.place {
            Place::Telling => {
                push_last(&mut self.logs, row)?;
                Ok(true)
            }
            Place::Start | Place::Before | Place::Within | Place::Reacting | Place::Done => Ok(
                false,
            ),
        }
    }

    // Whether no history is left, so that logs may come.
    fn may_tell(&self, centres: &[Name]) -> bool
        ensures { result ≡ may_tell self.now.place
            (length self.now.histories.items == length centres.now) }
    {
        match self.place {
            Place::Before | Place::Within | Place::Reacting => {
                self.histories.len() == centres.len()
            }
            Place::Telling => true,
            Place::Start | Place::Done => false,
        }
    }

    /// The text that the lines are, if the last one has come.
    pub fn finish(self) -> Option<Text>
        ensures text { IfSome result (λ t. (centres agents : List (List ℕ))
            → IsSound centres agents self → IsWhole centres agents self t) }
        ensures none { IfNone result ((centres agents : List (List ℕ))
            → stage_of centres agents self ≡ stage.Done → ⊥) }
    {
        match self.place {
            Place::Done => Some(Text {
                version: self.version,
                histories: Seq::new(self.histories),
                logs: Seq::new(self.logs),
                blocked: self.blocked,
            }),
            Place::Start | Place::Before | Place::Within | Place::Reacting | Place::Telling => None,
        }
    }
}

// Whether the place is in a history, or where the first may begin.
fn is_in_histories(place: Place) -> bool
    ensures { result ≡ is_in_histories place }
{
    match place {
        Place::Before | Place::Within | Place::Reacting => true,
        Place::Start | Place::Telling | Place::Done => false,
    }
}

// Whether the place is in a history.
fn is_in_history(place: Place) -> bool
    ensures { result ≡ is_in_history place }
{
    match place {
        Place::Within | Place::Reacting => true,
        Place::Start | Place::Before | Place::Telling | Place::Done => false,
    }
}

// Whether the name at this place is this one.
fn is_next(names: &[Name], place: usize, name: &Name) -> bool
    ensures { result ≡ is_next (drop place names.now) name.now }
{
    match names.get(place) {
        Some(due) => name == due,
        None => false,
    }
}

// The place behind the line of the entry.
fn place_behind(entry: &Entry) -> Place
    ensures { result ≡ place_behind entry.now }
{
    match entry {
        Entry::Called { .. } | Entry::Gave { .. } => Place::Reacting,
        Entry::Looked { .. } => Place::Within,
    }
}

// Puts a thing behind those of the last list.
fn push_last<T: Drop>(lists: &mut Vec<Seq<T>>, thing: T) -> Result<(), NoMemory>
    requires some { 0 < length lists.old.items }
    ensures { OnOk result (PutLast lists.old.items thing lists.new.items) }
{
    let Some(last) = lists.pop() else {
        unreachable!();
    };
    let mut last = last.into_vec();
    last.push(thing)?;
    lists.push(Seq::new(last))?;
    Ok(())
}

// Puts the reactions behind those of the last entry of the last history.
fn push_reactions(histories: &mut Vec<Seq<Entry>>, items: &mut Vec<Item>) -> Result<(), NoMemory>
    requires may { MayReact histories.old.items }
    ensures put { OnOk result
        (PutLastReactions histories.old.items items.old.items histories.new.items) }
    ensures none { OnOk result (items.new.items ≡ []) }
{
    let Some(history) = histories.pop() else {
        unreachable!();
    };
    let mut history = history.into_vec();
    let Some(entry) = history.pop() else {
        unreachable!();
    };
    history.push(with_reactions(entry, items)?)?;
    histories.push(Seq::new(history))?;
    Ok(())
}

// The entry, with the reactions behind its others.
fn with_reactions(entry: Entry, more: &mut Vec<Item>) -> Result<Entry, NoMemory>
    requires reacts { Reacts entry }
    ensures put { IfOk result (λ grown. PutReactions entry more.old.items grown) }
    ensures none { OnOk result (more.new.items ≡ []) }
{
    match entry {
        Entry::Called {
            id,
            op,
            outcome,
            items,
        } => Ok(Entry::Called {
            id,
            op,
            outcome,
            items: joined(items, more)?,
        }),
        Entry::Gave { id, outcome, items } => Ok(Entry::Gave {
            id,
            outcome,
            items: joined(items, more)?,
        }),
        Entry::Looked { .. } => unreachable!(),
    }
}

// The reactions, and more behind them.
fn joined(items: Seq<Item>, more: &mut Vec<Item>) -> Result<Seq<Item>, NoMemory>
    ensures all { IfOk result (λ grown. grown ≡ items ++ more.old.items) }
    ensures none { OnOk result (more.new.items ≡ []) }
{
    let mut items = items.into_vec();
    items.append(more)?;
    Ok(Seq::new(items))
}
