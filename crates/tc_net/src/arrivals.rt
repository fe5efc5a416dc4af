//! Bytes that have come over a connection and aren't read yet.
ghost use Rattle.std.specs.Prelude.{◌≤◌, IfSome, length};

use crate::tries::{MOST_TRIES, is_interrupted};
use std::io;
use std::io::{ErrorKind, Read};
use std::net::TcpStream;

/// How many bytes are taken from the system at most at a time: some dozen lines as agents send them.
const MOST_TAKEN: usize = 1_024;

/// How many pieces are dropped at most before nobody waits for the end any more.
const MOST_DROPPED: u32 = 64;

/// How many bytes such a piece has at most.
const PIECE_DROPPED: usize = 4_096;

/// How a connection stands, behind the bytes that have come.
#[derive(Clone, Copy, PartialEq, Eq)]
enum Standing {
    Open,
    Ended,
    Failed,
}

/// Bytes that have come and aren't read yet, those of one call of the system.
#[derive(Drop)]
pub(crate) struct Arrivals {
    bytes: [u8; MOST_TAKEN],
    from: usize,
    to: usize,
    standing: Standing,
    // How many pieces were dropped.
    dropped: u32,
}

impl Arrivals {
    /// None, of a connection that is open.
    pub(crate) fn new() -> Arrivals {
        Arrivals {
            bytes: [0; MOST_TAKEN],
            from: 0,
            to: 0,
            standing: Standing::Open,
            dropped: 0,
        }
    }

    /// Whether a read is answered at once, by bytes, the end or a fault.
    pub(crate) fn have_come(&mut self, stream: &mut TcpStream) -> bool {
        if self.from < self.to || self.standing != Standing::Open {
            return true;
        }
        let read = receive(stream, &mut self.bytes);
        self.note(read)
    }

    /// Whether the latest call of the system brought as much as it may.
    pub(crate) fn are_full(&self) -> bool {
        self.from < self.to || self.to >= MOST_TAKEN
    }

    /// Reads some of the bytes, or waits for some; none at the end. How many, unless the connection
    /// has failed.
    pub(crate) fn give(&mut self, stream: &mut TcpStream, into: &mut [u8]) -> Option<usize>
        ensures { IfSome result (λ n. n ≤ length into.old) }
    {
        if !self.have_come(stream) {
            self.wait(stream);
        }
        if self.standing == Standing::Failed {
            return None;
        }
        let come = self.bytes.get(self.from..self.to).unwrap_or(&[]);
        let n = come.len().min(into.len());
        into[..n].copy_from_slice(&come[..n]);
        self.from = self.from.saturating_add(n);
        Some(n)
    }

    /// Drops what has come. Whether nothing more comes, or too much has come.
    pub(crate) fn forget(&mut self, stream: &mut TcpStream) -> bool {
        let mut piece = [0; PIECE_DROPPED];
        self.to = self.from;
        for _ in self.dropped..MOST_DROPPED {
            if self.standing != Standing::Open {
                return true;
            }
            let read = receive(stream, &mut piece);
            if !self.note(read) {
                return false;
            }
            self.to = self.from;
            self.dropped = self.dropped.saturating_add(1);
        }
        true
    }

    // Waits until something has come.
    fn wait(&mut self, stream: &mut TcpStream) {
        let waits = stream.set_nonblocking(false).is_ok();
        let read = receive(stream, &mut self.bytes);
        if !self.note(read) || !waits || stream.set_nonblocking(true).is_err() {
            self.standing = Standing::Failed;
        }
    }

    // Notes what a call of the system has brought. Whether that is anything.
    fn note(&mut self, read: io::Result<usize>) -> bool {
        self.from = 0;
        self.to = 0;
        match read {
            Ok(0) => self.standing = Standing::Ended,
            Ok(n) => self.to = n,
            Err(error) if error.kind() == ErrorKind::WouldBlock => return false,
            Err(_) => self.standing = Standing::Failed,
        }
        true
    }
}

// Receives some bytes, none at the end.
fn receive(stream: &mut TcpStream, into: &mut [u8]) -> io::Result<usize> {
    for _ in 0..MOST_TRIES {
        match stream.read(into) {
            Err(error) if is_interrupted(&error) => {}
            read => return read,
        }
    }
    Err(io::Error::from(ErrorKind::Interrupted))
}
