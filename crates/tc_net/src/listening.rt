//! A listener, and what it has opened, watched together.
use crate::link::TcpLink;
use crate::stirs::{OWN_TOKEN, Stirs};
use crate::tries::{MOST_TRIES, is_passing};
use mio::unix::SourceFd;
use mio::{Interest, Poll, Token};
use std::alloc::Global;
use std::io;
use std::io::ErrorKind;
use std::net::{IpAddr, Ipv4Addr, Net, SocketAddr, TcpListener, TcpStream};
use std::os::fd::{AsRawFd, RawFd};

/// A listener, and who watches over it and the connections that it has opened.
#[derive(Drop)]
pub(crate) struct Listening {
    listener: TcpListener,
    // A connection that has come, or the system's refusal of one.
    come: Option<io::Result<TcpStream>>,
    // Whether one may have come since there was none.
    may_come: bool,
    opened: usize,
    poll: Poll,
}

impl Listening {
    /// A listener at a port of 127.0.0.1, if the system lends one.
    pub(crate) fn new<R: Net<Listener = TcpListener, Stream = TcpStream>>(
        net: &R,
        port: u16,
    ) -> Option<Listening> {
        let address = SocketAddr::new(IpAddr::V4(Ipv4Addr::LOCALHOST), port);
        let listener = TcpListener::bind(net, address).ok()?;
        listener.set_nonblocking(true).ok()?;
        let poll = Poll::new(net).ok()?;
        watch(&poll, listener.as_raw_fd(), OWN_TOKEN).ok()?;
        Some(Listening {
            listener,
            come: None,
            may_come: true,
            opened: 0,
            poll,
        })
    }

    /// Whether a connection has come, or none comes any more.
    pub(crate) fn has_come(&mut self) -> bool {
        if self.come.is_none() && self.may_come {
            match accepted(&self.listener) {
                Err(error) if error.kind() == ErrorKind::WouldBlock => self.may_come = false,
                come => self.come = Some(come),
            }
        }
        self.come.is_some()
    }

    /// Opens the next connection, for which it waits; none where the system refuses that.
    pub(crate) fn open(&mut self, alloc: Global) -> Option<TcpLink> {
        let stream = match self.come.take() {
            Some(come) => come.ok()?,
            None => self.wait()?,
        };
        stream.set_nonblocking(true).ok()?;
        let token = self.opened.checked_add(1)?;
        watch(&self.poll, stream.as_raw_fd(), token).ok()?;
        self.opened = token;
        Some(TcpLink::new(alloc, stream))
    }

    // Waits for the next connection.
    fn wait(&self) -> Option<TcpStream> {
        self.listener.set_nonblocking(false).ok()?;
        let stream = accepted(&self.listener).ok();
        self.listener.set_nonblocking(true).ok()?;
        stream
    }

    /// Sleeps until something stirs. What the rest before has told, and nobody asked for, is lost.
    pub(crate) fn rest(&mut self, stirs: &mut Stirs, most: Option<u64>) {
        if stirs.wait(&mut self.poll, most) {
            self.may_come = true;
        }
    }
}

// Has what is read and written by a descriptor watched over.
fn watch(poll: &Poll, fd: RawFd, token: usize) -> io::Result<()> {
    let interests = Interest::READABLE | Interest::WRITABLE;
    poll.registry()
        .register(&mut SourceFd(&fd), Token(token), interests)
}

// The next connection.
fn accepted(listener: &TcpListener) -> io::Result<TcpStream> {
    for _ in 0..MOST_TRIES {
        match listener.accept() {
            Ok((stream, _)) => return Ok(stream),
            Err(error) if is_passing(&error) => {}
            Err(error) => return Err(error),
        }
    }
    Err(io::Error::from(ErrorKind::Interrupted))
}
