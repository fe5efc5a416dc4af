//! A TCP connection.
ghost use Rattle.std.specs.Prelude.{◌≡◌, ◌<◌, ◌≤◌, None, Some, IfSome, false, length, refl};

use crate::arrivals::Arrivals;
use crate::closing::close;
use crate::departures::Departures;
use std::alloc::Global;
use std::net::{Shutdown, TcpStream};
use tc_io::{Failed, Link, Sink, SinkFault, Source};

/// A connection, whose errors are counted. A call that a signal interrupts is made again.
///
/// No write waits, unless it is set to block: what the system doesn't take is kept, and goes on when
/// there is room. Where that fails, each later call does. A read waits until something has come.
/// Where the connection is dropped, what its peer has sent is read first, so that the peer gets the
/// last bytes.
pub struct TcpLink {
    stream: TcpStream,
    arrivals: Arrivals,
    departures: Departures,
    // Whether reads and writes block.
    is_blocking: bool,
    // Whether the peer was told that nothing more is written.
    is_shut: bool,
    read_faults: u64,
    write_faults: u64,
}

impl TcpLink {
    /// The connection of this stream, whose reads and writes don't wait. What is written is sent at
    /// once.
    pub(crate) fn new(alloc: Global, stream: TcpStream) -> TcpLink {
        // Without it a reply may come late, but it comes.
        let _ = stream.set_nodelay(true);
        TcpLink {
            stream,
            arrivals: Arrivals::new(),
            departures: Departures::new(alloc),
            is_blocking: false,
            is_shut: false,
            read_faults: 0,
            write_faults: 0,
        }
    }

    // Reads some bytes, or waits for some. How many, unless the connection has failed.
    fn receive(&mut self, into: &mut [u8]) -> Option<usize>
        ensures read { IfSome result (λ n. n ≤ length into.old) }
        ensures reads { self.new.read_faults ≡ self.old.read_faults }
        ensures writes { self.new.write_faults ≡ self.old.write_faults }
    {
        if self.departures.have_failed() {
            return None;
        }
        self.arrivals.give(&mut self.stream, into)
    }
}

impl Drop for TcpLink {
    fn drop(self) {
        let Self {
            stream,
            arrivals: _,
            departures: _,
            is_blocking: _,
            is_shut: _,
            read_faults: _,
            write_faults: _,
        } = self;
        close(stream);
    }
}

impl Source for TcpLink {
    ghost left = { λ _. None };

    ghost read_faults = { λ l. l.read_faults };

    ghost sure = { λ _. false };

    ghost other = { λ l.
        Some (record { taken = None; write_faults = l.write_faults; sure = false }) };

    fn read(&mut self, into: &mut [u8]) -> Result<usize, Failed> {
        match self.receive(into) {
            Some(n) => Ok(n),
            None => {
                self.read_faults = self.read_faults.saturating_add(1);
                Err(Failed)
            }
        }
    }
}

impl Sink for TcpLink {
    ghost taken = { λ _. None };

    ghost write_faults = { λ l. l.write_faults };

    ghost sure = { λ _. false };

    ghost other = { λ l.
        Some (record { left = None; read_faults = l.read_faults; sure = false }) };

    fn write(&mut self, piece: &[u8]) -> Result<usize, SinkFault> {
        match self.departures.take(&mut self.stream, piece) {
            Ok(n) => Ok(n),
            Err(SinkFault::NoMemory) => Err(SinkFault::NoMemory),
            Err(SinkFault::Failed) => {
                self.write_faults = self.write_faults.saturating_add(1);
                Err(SinkFault::Failed)
            }
        }
    }
}

impl Link for TcpLink {
    ghost of_source = { λ l. refl };

    ghost of_sink = { λ l. refl };

    fn has_come(&mut self) -> bool {
        self.is_blocking
            || self.departures.have_failed()
            || self.arrivals.have_come(&mut self.stream)
    }

    fn has_more(&self) -> bool {
        self.arrivals.are_full()
    }

    fn has_room(&mut self) -> bool {
        self.departures.are_gone(&mut self.stream)
    }

    fn set_blocking(&mut self) -> bool {
        self.is_blocking = self.is_blocking || self.stream.set_nonblocking(false).is_ok();
        self.is_blocking
    }

    fn leave(&mut self) -> bool {
        if self.is_blocking && self.stream.set_nonblocking(true).is_err() {
            return true;
        }
        self.is_blocking = false;
        // Each makes the connection stir once more, so a second one would never be the last.
        if !self.is_shut {
            self.is_shut = true;
            let _ = self.stream.shutdown(Shutdown::Write);
        }
        self.arrivals.forget(&mut self.stream)
    }
}
