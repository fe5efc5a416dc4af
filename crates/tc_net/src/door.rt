//! A TCP listener.
ghost use Rattle.std.specs.Prelude.{◌≡◌, None, IfOk};
ghost use Rattle.tc_io.specs.Faults.{CountRises};

use crate::link::TcpLink;
use crate::listening::Listening;
use crate::stirs::Stirs;
use std::alloc::Global;
use std::net::{Net, TcpListener, TcpStream};
use tc_io::{Door, Failed, Stir};
use tc_lists::NoMemory;

/// A listener on 127.0.0.1, whose errors are counted.
///
/// A peer that goes away before it is accepted is no connection.
#[derive(Drop)]
pub struct TcpDoor<'a, R: Net<Listener = TcpListener, Stream = TcpStream>> {
    net: &'a R,
    alloc: Global,
    listening: Option<Listening>,
    stirs: Stirs,
    faults: u64,
}

impl<'a, R: Net<Listener = TcpListener, Stream = TcpStream>> TcpDoor<'a, R> {
    /// A door that doesn't listen yet; no call has failed yet.
    ///
    /// All memory that it and its connections need to come about is found here, so what fails later
    /// is the system's.
    pub fn new(net: &'a R, alloc: Global) -> Result<TcpDoor<'a, R>, NoMemory>
        ensures { IfOk result (λ door. ⟦<TcpDoor<'a, R> as Door>⟧.door_faults door ≡ 0) }
    {
        Ok(TcpDoor {
            net,
            alloc,
            listening: None,
            stirs: Stirs::new(alloc)?,
            faults: 0,
        })
    }

    // Counts a failure.
    fn fail(&mut self) -> Failed
        ensures { CountRises self.old.faults self.new.faults }
    {
        self.faults = self.faults.saturating_add(1);
        Failed
    }

    // Opens the next connection, if it listens.
    fn open(&mut self) -> Option<TcpLink>
        ensures { self.new.faults ≡ self.old.faults }
    {
        match &mut self.listening {
            Some(listening) => listening.open(self.alloc),
            None => None,
        }
    }
}

impl<'a, R: Net<Listener = TcpListener, Stream = TcpStream>> Door for TcpDoor<'a, R> {
    type Conn = TcpLink;

    ghost door_faults = { λ d. d.faults };

    ghost opened = { λ _. None };

    ghost lent = { λ _. 0 };

    fn has_come(&mut self) -> bool {
        match &mut self.listening {
            Some(listening) => listening.has_come(),
            None => true,
        }
    }

    fn rest(&mut self, most: Option<u64>) {
        if let Some(listening) = &mut self.listening {
            listening.rest(&mut self.stirs, most);
        }
    }

    fn next_stir(&mut self) -> Option<Stir> {
        self.stirs.next()
    }

    fn listen(&mut self, port: u16) -> Result<(), Failed> {
        self.listening = Listening::new(self.net, port);
        if self.listening.is_none() {
            return Err(self.fail());
        }
        Ok(())
    }

    fn accept(&mut self) -> Result<TcpLink, Failed> {
        match self.open() {
            Some(link) => Ok(link),
            None => Err(self.fail()),
        }
    }
}
