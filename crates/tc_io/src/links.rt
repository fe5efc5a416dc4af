//! Objects that are read and written, as connections are, and what accepts them.
ghost use Rattle.std.specs.Prelude.{◌≡◌, ℕ, List, Some, IfOk, OnErr, IsErr};
ghost use Rattle.std.specs.declared.option.Option.{Option};
ghost use Rattle.tc_io.specs.Faults.{Counts};
ghost use Rattle.tc_io.specs.Links.{Connection, connection_of, opened_more};
ghost use Rattle.tc_io.specs.Sinks.{sink_of};
ghost use Rattle.tc_io.specs.Sources.{source_of};

use crate::{Failed, Sink, Source};

/// An object that is read and written.
///
/// A read leaves what it keeps as a sink, and a write what it keeps as a source.
pub trait Link: Source + Sink {
    /// Whether a read is answered without a wait, or may wait. Nothing is claimed of that: it is a
    /// hint, as what the next three calls tell is.
    fn has_come(&mut self) -> bool
        ensures source { source_of Self.Source.left Self.Source.read_faults Self.Source.sure self.new
            ≡ source_of Self.Source.left Self.Source.read_faults Self.Source.sure self.old }
        ensures sink { sink_of Self.Sink.taken Self.Sink.write_faults Self.Sink.sure self.new
            ≡ sink_of Self.Sink.taken Self.Sink.write_faults Self.Sink.sure self.old };

    /// Whether the last read may have left bytes that had come.
    fn has_more(&self) -> bool;

    /// Whether what was taken has gone on to the peer, as far as anybody knows.
    fn has_room(&mut self) -> bool
        ensures source { source_of Self.Source.left Self.Source.read_faults Self.Source.sure self.new
            ≡ source_of Self.Source.left Self.Source.read_faults Self.Source.sure self.old }
        ensures sink { sink_of Self.Sink.taken Self.Sink.write_faults Self.Sink.sure self.new
            ≡ sink_of Self.Sink.taken Self.Sink.write_faults Self.Sink.sure self.old };

    /// Has reads and writes block from now on, by who has nothing else to do meanwhile. Whether they
    /// do.
    fn set_blocking(&mut self) -> bool
        ensures source { source_of Self.Source.left Self.Source.read_faults Self.Source.sure self.new
            ≡ source_of Self.Source.left Self.Source.read_faults Self.Source.sure self.old }
        ensures sink { sink_of Self.Sink.taken Self.Sink.write_faults Self.Sink.sure self.new
            ≡ sink_of Self.Sink.taken Self.Sink.write_faults Self.Sink.sure self.old };

    /// Tells the peer that nothing more is written, and forgets what has come from it. Whether the
    /// peer has ended, too. It doesn't block.
    fn leave(&mut self) -> bool;

    ghost of_source: { (l : Self) → Self.Source.other l
        ≡ Some (sink_of Self.Sink.taken Self.Sink.write_faults Self.Sink.sure l) };

    ghost of_sink: { (l : Self) → Self.Sink.other l
        ≡ Some (source_of Self.Source.left Self.Source.read_faults Self.Source.sure l) };
}

/// A connection at which something may have come, or which has room again, by its number in the
/// order in which the door has opened them, from 0.
#[derive(Clone, Copy, Debug, PartialEq, Eq)]
pub struct Stir {
    pub number: usize,
    /// Nothing comes behind what has come.
    pub is_last: bool,
}

/// What accepts connections.
pub trait Door {
    type Conn: Link + Send + Drop;

    /// How often a call has failed.
    ghost door_faults: { Self → ℕ };

    /// The connections in the order in which they were opened, where they are told.
    ghost opened: { Self → Option (List Connection) };

    /// Which reference the door is, where it is one. No call changes it.
    ghost lent: { Self → ℕ };

    /// Whether `accept` is answered without a wait. It is a hint, as what the next two calls do.
    fn has_come(&mut self) -> bool
        ensures opened { opened self.new ≡ opened self.old }
        ensures faults { door_faults self.new ≡ door_faults self.old }
        ensures lent { lent self.new ≡ lent self.old };

    /// Sleeps until something may have come, at the door or at a connection that it has opened, or
    /// such a connection has room again; no longer than so many milliseconds, if that is given.
    fn rest(&mut self, most: Option<u64>)
        ensures opened { opened self.new ≡ opened self.old }
        ensures faults { door_faults self.new ≡ door_faults self.old }
        ensures lent { lent self.new ≡ lent self.old };

    /// A connection at which the latest rest has ended, each one once.
    fn next_stir(&mut self) -> Option<Stir>
        ensures opened { opened self.new ≡ opened self.old }
        ensures faults { door_faults self.new ≡ door_faults self.old }
        ensures lent { lent self.new ≡ lent self.old };

    /// Begins to listen at a port.
    fn listen(&mut self, port: u16) -> Result<(), Failed>
        ensures opened { opened self.new ≡ opened self.old }
        ensures counted { Counts (IsErr result) (door_faults self.old) (door_faults self.new) }
        ensures lent { lent self.new ≡ lent self.old };

    /// Waits for the next connection.
    fn accept(&mut self) -> Result<Self::Conn, Failed>
        ensures opened { IfOk result (λ conn. opened self.new ≡ opened_more (opened self.old)
            (connection_of Self.Conn.Source.left Self.Conn.Source.sure Self.Conn.Sink.sure conn)) }
        ensures same { OnErr result (opened self.new ≡ opened self.old) }
        ensures counted { Counts (IsErr result) (door_faults self.old) (door_faults self.new) }
        ensures lent { lent self.new ≡ lent self.old };
}

/// A door that is lent, whose owner sees afterwards what was opened.
impl<'a, D: Door> Door for &'a mut D {
    type Conn = D::Conn;

    ghost door_faults = { λ d. D.door_faults d.now };

    ghost opened = { λ d. D.opened d.now };

    ghost lent = { λ d. d.ghost_name };

    fn has_come(&mut self) -> bool {
        (**self).has_come()
    }

    fn rest(&mut self, most: Option<u64>) {
        (**self).rest(most)
    }

    fn next_stir(&mut self) -> Option<Stir> {
        (**self).next_stir()
    }

    fn listen(&mut self, port: u16) -> Result<(), Failed> {
        (**self).listen(port)
    }

    fn accept(&mut self) -> Result<D::Conn, Failed> {
        (**self).accept()
    }
}
