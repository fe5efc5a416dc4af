//! Lines of a history or of a log, by their places.
ghost use Rattle.std.specs.Prelude.{◌≡◌, ◌<◌, ◌≤◌, ◌++◌, [], OnErr, OnOk, drop, length, take};
ghost use Rattle.std.proofs.Common.{get_or};
ghost use Rattle.tc_writing.specs.Lines.{AreNamed, texts};

use std::alloc::Global;
use tc_desk::LogRow;
use tc_histtext::{Version, print_entry, print_row};
use tc_lists::NoMemory;
use tc_model::Entry;
use tc_term::Name;

/// The lines of a history, by the names of all agents; or those of a log.
#[derive(Clone, Copy)]
pub(crate) enum Lines<'a> {
    Entries(&'a [Name], &'a [Entry]),
    Rows(&'a [LogRow]),
}

impl<'a> Lines<'a> {
    pub(crate) fn len(self) -> usize
        ensures { result ≡ length (texts self.entry) }
    {
        match self {
            Lines::Entries(_, entries) => entries.len(),
            Lines::Rows(rows) => rows.len(),
        }
    }

    /// The first of the lines, so many of them, and the others.
    pub(crate) fn split_at(self, count: usize) -> (Lines<'a>, Lines<'a>)
        requires count { count ≤ length (texts self) }
        requires named { AreNamed self }
        ensures first { texts result.0 ≡ take count (texts self.entry) }
        ensures rest { texts result.1 ≡ drop count (texts self.entry) }
        ensures first_named { AreNamed result.0 }
        ensures rest_named { AreNamed result.1 }
    {
        match self {
            Lines::Entries(agents, entries) => {
                let (first, rest) = entries.split_at(count);
                (Lines::Entries(agents, first), Lines::Entries(agents, rest))
            }
            Lines::Rows(rows) => {
                let (first, rest) = rows.split_at(count);
                (Lines::Rows(first), Lines::Rows(rest))
            }
        }
    }

    /// Appends the line at a place.
    pub(crate) fn print(
        self,
        alloc: Global,
        place: usize,
        into: &mut Vec<u8>,
    ) -> Result<(), NoMemory>
        requires place { place < length (texts self) }
        requires named { AreNamed self }
        ensures appended { OnOk result
            (into.new.items ≡ into.old.items ++ get_or (texts self.entry) place []) }
        ensures same { OnErr result (into.new.items ≡ into.old.items) }
    {
        match self {
            Lines::Entries(agents, entries) => print_entry(alloc, agents, &entries[place], into),
            Lines::Rows(rows) => print_row(alloc, Version::Two, &rows[place], into),
        }
    }
}
