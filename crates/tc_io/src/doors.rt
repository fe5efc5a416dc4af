//! Links and a door in memory.
ghost use Rattle.std.specs.Prelude.{◌≡◌, Some, [], ◌∷◌, ◌++◌, map, take, drop, refl};
ghost use Rattle.std.specs.Prelude.{IsErr, IfOk, OnErr};
ghost use Rattle.std.specs.Result.{IsErrOf};
ghost use Rattle.tc_io.specs.Doors.{MemListening, Accepts, link_opened, copy_opened};
ghost use Rattle.tc_io.specs.Memory.{GivesPiece, MakesCall, TakesPiece, no_call};

use crate::calls::NumberedCalls;
use crate::links::{Door, Link, Stir};
use crate::memory::{MemSink, MemSource};
use crate::{Failed, Sink, SinkFault, Source};
use std::alloc::Global;
use std::collections::VecDeque;
use std::marker::Model;
use tc_lists::NoMemory;

/// A source and a sink in memory, as a link.
#[derive(Drop)]
pub struct MemLink {
    source: MemSource,
    sink: MemSink,
}

impl MemLink {
    /// A link of this source and this sink.
    pub fn new(source: MemSource, sink: MemSink) -> MemLink
        ensures { result ≡ record { source = source; sink = sink } }
    {
        MemLink { source, sink }
    }

    /// The bytes taken so far.
    pub fn taken(&self) -> &[u8]
        ensures { ⟦<MemLink as Sink>⟧.taken self.now ≡ Some result.now }
    {
        self.sink.taken()
    }

    // A copy of what is told of it.
    fn copied(&self, alloc: Global) -> Result<LinkCopy, NoMemory>
        ensures { IfOk result (λ copy. copy_opened copy ≡ link_opened self.now) }
    {
        Ok(LinkCopy {
            bytes: Vec::from_slice(alloc, self.source.left())?,
            sure: self.source.is_sure() && self.sink.is_sure(),
        })
    }
}

impl Source for MemLink {
    ghost use Rattle.tc_io.specs.Sinks.{sink_of};

    ghost left = { λ l. ⟦<MemSource as Source>⟧.left l.source };

    ghost read_faults = { λ l. ⟦<MemSource as Source>⟧.read_faults l.source };

    ghost sure = { λ l. ⟦<MemSource as Source>⟧.sure l.source };

    ghost other = { λ l. Some (sink_of ⟦<MemSink as Sink>⟧.taken ⟦<MemSink as Sink>⟧.write_faults
        ⟦<MemSink as Sink>⟧.sure l.sink) };

    fn read(&mut self, into: &mut [u8]) -> Result<usize, Failed>
        ensures call { MakesCall self.old.source.calls self.new.source.calls (IsErr result) }
        ensures piece { IfOk result (λ n.
            GivesPiece self.old.source self.new.source n into.old into.new) }
        ensures same { OnErr result (self.new.source.left ≡ self.old.source.left) }
        ensures buffer { OnErr result (into.new ≡ into.old) }
        ensures size { self.new.source.piece ≡ self.old.source.piece }
        ensures sink { self.new.sink ≡ self.old.sink }
    {
        self.source.read(into)
    }
}

impl Sink for MemLink {
    ghost use Rattle.tc_io.specs.Sources.{source_of};

    ghost taken = { λ l. ⟦<MemSink as Sink>⟧.taken l.sink };

    ghost write_faults = { λ l. ⟦<MemSink as Sink>⟧.write_faults l.sink };

    ghost sure = { λ l. ⟦<MemSink as Sink>⟧.sure l.sink };

    ghost other = { λ l. Some (source_of ⟦<MemSource as Source>⟧.left
        ⟦<MemSource as Source>⟧.read_faults ⟦<MemSource as Source>⟧.sure l.source) };

    fn write(&mut self, piece: &[u8]) -> Result<usize, SinkFault>
        ensures call { MakesCall self.old.sink.calls self.new.sink.calls
            (IsErrOf result SinkFault.Failed) }
        ensures piece { IfOk result (λ n. TakesPiece self.old.sink self.new.sink n piece.now) }
        ensures same { OnErr result (self.new.sink.taken ≡ self.old.sink.taken) }
        ensures size { self.new.sink.piece ≡ self.old.sink.piece }
        ensures source { self.new.source ≡ self.old.source }
    {
        self.sink.write(piece)
    }
}

impl Link for MemLink {
    ghost of_source = { λ l. refl };

    ghost of_sink = { λ l. refl };

    fn has_come(&mut self) -> bool {
        true
    }

    fn has_more(&self) -> bool {
        true
    }

    fn has_room(&mut self) -> bool {
        true
    }

    fn set_blocking(&mut self) -> bool {
        true
    }

    fn leave(&mut self) -> bool {
        true
    }
}

// What a door in memory keeps of a link: its bytes, and whether it is sure both ways.
#[derive(Drop)]
pub(crate) struct LinkCopy {
    bytes: Vec<u8>,
    sure: bool,
}

/// A door in memory that opens links in order. Some of its calls fail.
#[derive(Drop)]
pub struct MemDoor {
    // The links that are not opened yet.
    links: VecDeque<MemLink>,
    // Copies of all links, in order, how many of these are opened, and how many of those were told
    // of since the last rest.
    copies: Vec<LinkCopy>,
    count: usize,
    told: usize,
    calls: NumberedCalls,
}

impl Model for MemDoor {
    ghost Value = { MemListening };

    ghost view = { λ d. record {
      links = d.links.items;
      opened = take d.count (map copy_opened d.copies.items);
      calls = d.calls;
    } };

    ghost invariant = { λ d.
        map link_opened d.links.items ≡ drop d.count (map copy_opened d.copies.items) };
}

impl MemDoor {
    /// A door at which these links wait to be opened, in order.
    ///
    /// The k-th call, of `listen` or of `accept`, fails where k stands in `failing`, and an `accept`
    /// fails where no link is left. What is told of the links are copies, made here.
    pub fn new(alloc: Global, links: Vec<MemLink>, failing: Vec<u64>) -> Result<MemDoor, NoMemory>
        ensures begins { IfOk result (λ door. door
            ≡ record { links = links.items; opened = []; calls = no_call failing.items }) }
        ensures opened { IfOk result (λ door. ⟦<MemDoor as Door>⟧.opened door ≡ Some []) }
    {
        let copies = copies_of(alloc, &links)?;
        Ok(MemDoor {
            links: VecDeque::from_vec(links),
            copies,
            count: 0,
            told: 0,
            calls: NumberedCalls::new(failing),
        })
    }
}

impl Door for MemDoor {
    type Conn = MemLink;

    ghost door_faults = { λ d. d.calls.failed };

    ghost opened = { λ d. Some d.opened };

    ghost lent = { λ _. 0 };

    fn has_come(&mut self) -> bool {
        true
    }

    fn rest(&mut self, _most: Option<u64>) {
        self.told = 0;
    }

    fn next_stir(&mut self) -> Option<Stir> {
        if self.told >= self.count {
            return None;
        }
        let number = self.told;
        self.told += 1;
        Some(Stir {
            number,
            is_last: false,
        })
    }

    fn listen(&mut self, _port: u16) -> Result<(), Failed>
        ensures call { MakesCall self.old.calls self.new.calls (IsErr result) }
        ensures links { self.new.links ≡ self.old.links }
        ensures opened { self.new.opened ≡ self.old.opened }
    {
        if self.calls.next_fails() {
            return Err(Failed);
        }
        Ok(())
    }

    #[tactic(auto, using(crate::proofs::Openings::left_behind, crate::proofs::Openings::handed_more))]
    fn accept(&mut self) -> Result<MemLink, Failed>
        ensures call { Accepts self.old self.new (IsErr result) }
        ensures first { IfOk result (λ link. self.old.links ≡ link ∷ self.new.links) }
        ensures opened { IfOk result (λ link.
            self.new.opened ≡ self.old.opened ++ link_opened link ∷ []) }
        ensures links_stay { OnErr result (self.new.links ≡ self.old.links) }
        ensures opened_stay { OnErr result (self.new.opened ≡ self.old.opened) }
    {
        if self.calls.next_fails() {
            return Err(Failed);
        }
        match self.links.pop_front() {
            Some(link) => {
                self.count += 1;
                Ok(link)
            }
            None => {
                self.calls.fail();
                Err(Failed)
            }
        }
    }
}

// A copy of what is told of each link.
fn copies_of(alloc: Global, links: &[MemLink]) -> Result<Vec<LinkCopy>, NoMemory>
    ensures { IfOk result (λ copies.
        map copy_opened copies.items ≡ map link_opened links.now) }
{
    let mut copies = Vec::new(alloc);
    for link in links {
        copies.push(link.copied(alloc)?)?;
    }
    Ok(copies)
}
