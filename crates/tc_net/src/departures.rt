//! Bytes that were written to a connection, and that the system hasn't taken yet.
ghost use Rattle.std.specs.Prelude.{◌<◌, ◌≤◌, IfOk, length};

use crate::tries::{MOST_TRIES, is_interrupted};
use std::alloc::Global;
use std::io::{ErrorKind, Write};
use std::net::TcpStream;
use tc_io::SinkFault;

/// Bytes that the system hasn't taken yet, and whether the connection has failed.
#[derive(Drop)]
pub(crate) struct Departures {
    bytes: Vec<u8>,
    failed: bool,
}

/// Why nothing was sent.
enum Unsent {
    /// The system takes nothing at once.
    NoRoom,
    /// The connection has failed.
    Failed,
}

impl Departures {
    /// None, of a connection that hasn't failed.
    pub(crate) fn new(alloc: Global) -> Departures {
        Departures {
            bytes: Vec::new(alloc),
            failed: false,
        }
    }

    /// Takes a piece: the system does so, or it is kept. How much of it.
    pub(crate) fn take(&mut self, stream: &mut TcpStream, piece: &[u8]) -> Result<usize, SinkFault>
        requires { 0 < length piece.now }
        ensures { IfOk result (λ n. (0 < n) × (n ≤ length piece.now)) }
    {
        if self.failed {
            return Err(SinkFault::Failed);
        }
        if self.bytes.is_empty() {
            match send(stream, piece) {
                Ok(n) => return Ok(n),
                Err(Unsent::NoRoom) => {}
                Err(Unsent::Failed) => return Err(SinkFault::Failed),
            }
        }
        self.bytes.extend_from_slice(piece)?;
        Ok(piece.len())
    }

    /// Whether nothing is kept, or nothing of it can go on any more.
    pub(crate) fn are_gone(&mut self, stream: &mut TcpStream) -> bool {
        while !self.bytes.is_empty() {
            match send(stream, &self.bytes) {
                Ok(n) => {
                    self.bytes.drain(..n);
                }
                Err(Unsent::NoRoom) => return false,
                Err(Unsent::Failed) => {
                    self.failed = true;
                    self.bytes.clear();
                }
            }
        }
        true
    }

    /// Whether what was taken can't go on any more.
    pub(crate) fn have_failed(&self) -> bool {
        self.failed
    }
}

// Sends some bytes, as far as the system takes them at once. How many.
fn send(stream: &mut TcpStream, bytes: &[u8]) -> Result<usize, Unsent>
    ensures { IfOk result (λ n. (0 < n) × (n ≤ length bytes.now)) }
{
    for _ in 0..MOST_TRIES {
        match stream.write(bytes) {
            Ok(n) if n > 0 => return Ok(n),
            Err(error) if is_interrupted(&error) => {}
            Err(error) if error.kind() == ErrorKind::WouldBlock => return Err(Unsent::NoRoom),
            _ => return Err(Unsent::Failed),
        }
    }
    Err(Unsent::Failed)
}
