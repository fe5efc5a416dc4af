//! A row of two desks: one holds a turn at a centre, while the other makes a call at another centre.
ghost use Rattle.std.specs.Prelude.{◌≡◌, ◌<◌, true, length};
ghost use Rattle.tc_site.specs.Desks.{desk_of};

use crate::pairs::two_desks;
use anyhow::bail;
use std::alloc::Global;
use std::sync::Wait;
use tc_config::{Config, read_config};
use tc_desk::{Desk, LogResult, LogRow, Served};
use tc_model::{Ask, Reply};
use tc_policy::Roles;
use tc_site::{AgentDesk, Site};
use tc_term::{Name, Term};

/// Two centres, and two agents that may put tuples at the second one.
const CONFIGURATION: &[u8] =
    b"centre(a). centre(b). role(r). grant(r,b,out). agent(x,r). agent(y,r).";

/// The place of the centre at which a turn is held.
const HELD: u32 = 0;

/// One desk holds a turn at the first centre, and the other puts a tuple at the second one.
pub fn report_holding<R: Wait>(rt: &R, alloc: Global, into: &mut Vec<u8>) -> anyhow::Result<()> {
    let config = read_config(alloc, CONFIGURATION)?;
    let told = if is_served(rt, alloc, &config)? {
        &b"while a desk holds a turn at one centre, another desk is served at another: right\n"[..]
    } else {
        b"while a desk holds a turn at one centre, another desk is served at another: wrong\n"
    };
    into.extend_from_slice(told)?;
    Ok(())
}

// Whether the second desk's call is served while the first desk holds a turn elsewhere.
fn is_served<R: Wait>(rt: &R, alloc: Global, config: &Config) -> anyhow::Result<bool> {
    if config.agents().is_empty() || config.centres().is_empty() {
        bail!("the configuration has no agent, or no centre");
    }
    let roles = config.roles().copy(alloc)?;
    let (site, kits) = Site::new(alloc, config, roles)?;
    let (mut holder, mut caller) = two_desks(alloc, &site, kits)?;
    let centre = Name::new(alloc, b"b")?;
    let ask = Ask::Out(Term::Atom(Name::new(alloc, b"p")?));
    serve_beside(rt, alloc, &mut holder, &mut caller, &centre, ask)
}

// Whether the call is done while a turn is held. It is given back in any case.
fn serve_beside<R: Wait>(
    rt: &R,
    alloc: Global,
    holder: &mut AgentDesk<Roles>,
    caller: &mut AgentDesk<Roles>,
    centre: &Name,
    ask: Ask,
) -> anyhow::Result<bool>
    requires holder { (desk_of holder.old).free ≡ true }
    requires caller { (desk_of caller.old).free ≡ true }
    requires inside { 0 < length holder.old.site.names }
{
    let Ok(paused) = holder.pause(rt, HELD) else {
        bail!("no turn is left");
    };
    let served = caller.call(rt, alloc, centre, ask);
    holder.resume(paused);
    Ok(matches!(served, Ok(Served::Replied)) && is_done(caller.log()))
}

// Whether the last row's ask was done.
fn is_done(log: &[LogRow]) -> bool {
    match log.last() {
        Some(row) => matches!(row.result, LogResult::Replied(Reply::Done)),
        None => false,
    }
}
