//! A row, played: its sessions, one after another, and what has come of them.
ghost use Rattle.std.specs.Prelude.{◌≡◌};

use crate::desks::{Desks, close};
use crate::rows::{Half, Row, Session};
use crate::writing::{append_brief, append_text};
use anyhow::bail;
use std::alloc::Global;
use std::sync::Wait;
use std::thread::Threads;
use tc_config::{AgentConf, read_config};
use tc_io::{MemLink, MemSink, MemSource};
use tc_lists::NoMemory;
use tc_session::SessionEnd;
use tc_site::Site;

/// How many bytes a read and a write move at most, and which call of the last session's link fails.
#[derive(Clone, Copy)]
pub struct Cut {
    pub piece: u64,
    pub failing: Option<Failing>,
}

/// A call of a link that fails, by its number from 1.
#[derive(Clone, Copy)]
pub struct Failing {
    pub half: Half,
    pub number: u64,
}

impl Cut {
    /// Pieces of so many bytes. No call fails.
    pub fn sure(piece: u64) -> Cut {
        Cut {
            piece,
            failing: None,
        }
    }
}

/// What a row has come to: how its last session has ended, and what is told of all.
#[derive(Drop)]
pub struct Played {
    pub last: SessionEnd,
    pub told: Vec<u8>,
}

/// A session that was played: the place of its agent, and how it has ended.
#[derive(Clone, Copy)]
struct Ending {
    place: usize,
    end: SessionEnd,
}

/// Plays the sessions of a row, and then closes the site.
pub fn play<R: Threads + Wait + Sync>(
    rt: &R,
    alloc: Global,
    row: &Row<'_>,
    cut: Cut,
) -> anyhow::Result<Played> {
    let config = read_config(alloc, &row.configuration)?;
    if config.agents().is_empty() {
        bail!("a row has no agent");
    }
    let (site, kits) = Site::new(alloc, &config, config.roles().copy(alloc)?)?;
    let mut desks = Desks::new(alloc, &site, kits)?;
    let mut told = Vec::new(alloc);
    let last = play_sessions(rt, alloc, row, cut, config.agents(), &mut desks, &mut told)?;
    let ended = desks.end(alloc)?;
    let closed = close(alloc, &config, site, ended)?;
    if row.brief {
        append_brief(alloc, &closed, last.place, &mut told)?;
    } else {
        append_text(rt, alloc, config.agents(), &closed, &mut told)?;
    }
    Ok(Played {
        last: last.end,
        told,
    })
}

// Plays the sessions, and appends what is told of them. How the last one has ended.
fn play_sessions<R: Wait>(
    rt: &R,
    alloc: Global,
    row: &Row<'_>,
    cut: Cut,
    agents: &[AgentConf],
    desks: &mut Desks<'_>,
    into: &mut Vec<u8>,
) -> anyhow::Result<Ending>
    ensures { desks.new.site ≡ desks.old.site }
{
    let Some((last, before)) = row.sessions.split_last() else {
        bail!("a row has no session");
    };
    for session in before {
        let mut told = Vec::new(alloc);
        let sure = Cut::sure(cut.piece);
        play_session(rt, alloc, session, sure, agents, desks, &mut told)?;
        if !row.brief {
            into.extend_from_slice(&told)?;
        }
    }
    play_session(rt, alloc, last, cut, agents, desks, into)
}

// Plays a session, and appends whose it was, how it has ended, what was replied, and a line end,
// since that may stop anywhere.
fn play_session<R: Wait>(
    rt: &R,
    alloc: Global,
    session: &Session,
    cut: Cut,
    agents: &[AgentConf],
    desks: &mut Desks<'_>,
    into: &mut Vec<u8>,
) -> anyhow::Result<Ending>
    ensures { desks.new.site ≡ desks.old.site }
{
    let Some(place) = place_of(agents, &session.agent) else {
        bail!("a session is no agent's");
    };
    let mut link = link_of(alloc, &session.bytes, cut)?;
    let Some(end) = desks.serve(rt, alloc, place, &mut link) else {
        bail!("an agent has no desk");
    };
    into.extend_from_slice(b"session of ")?;
    into.extend_from_slice(&session.agent)?;
    into.extend_from_slice(b": ")?;
    into.extend_from_slice(word_of(end))?;
    into.extend_from_slice(b"\n")?;
    into.extend_from_slice(link.taken())?;
    into.extend_from_slice(b"\n")?;
    Ok(Ending { place, end })
}

// The place of the agent of this name.
fn place_of(agents: &[AgentConf], name: &[u8]) -> Option<usize> {
    agents.iter().position(|agent| agent.name.bytes() == name)
}

// A link that gives these bytes.
fn link_of(alloc: Global, bytes: &[u8], cut: Cut) -> Result<MemLink, NoMemory> {
    let mut reads = Vec::new(alloc);
    let mut writes = Vec::new(alloc);
    if let Some(Failing { half, number }) = cut.failing {
        match half {
            Half::Reads => reads.push(number)?,
            Half::Writes => writes.push(number)?,
        }
    }
    let piece = cut.piece as usize;
    let source = MemSource::new(bytes.to_vec(alloc)?, piece, reads);
    Ok(MemLink::new(source, MemSink::new(alloc, piece, writes)))
}

// The word for how a session has ended.
fn word_of(end: SessionEnd) -> &'static [u8] {
    match end {
        SessionEnd::Quit => b"quit",
        SessionEnd::EndOfInput => b"end of input",
        SessionEnd::ReadFault => b"read fault",
        SessionEnd::WriteFault => b"write fault",
        SessionEnd::LineTooLong => b"line too long",
        SessionEnd::NoMemory => b"no memory",
    }
}
