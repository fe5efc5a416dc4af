//! A row of two desks: one polls for the reply to its pending ask, and then waits for another, while the
//! other desk puts the tuples.
ghost use Rattle.std.specs.Prelude.{◌≡◌, true};
ghost use Rattle.tc_site.specs.Desks.{desk_of};

use crate::logs::append_log;
use crate::pairs::two_desks;
use anyhow::bail;
use std::alloc::Global;
use std::sync::Wait;
use tc_config::{Config, read_config};
use tc_desk::{Desk, Seen, Served};
use tc_model::Ask;
use tc_policy::Roles;
use tc_read::read_term;
use tc_site::{AgentDesk, Site};
use tc_term::{Name, Term};

/// A centre, and two agents that may put and take tuples there.
const CONFIGURATION: &[u8] =
    b"centre(c). role(r). grant(r,c,out). grant(r,c,in). agent(x,r). agent(y,r).";

/// What the desks told, and their logs: the first after each poll and after its wait, and last the second.
const TOLD: &[u8] = b"asked: pending\n\
poll: still pending\n\
1 c pending\n2 c poll pending\n\
asked: replied\n\
poll: answered\n\
1 c tuple p(1)\n2 c poll pending\n3 c poll tuple p(1)\n\
asked: pending\n\
asked: replied\n\
wait: answered\n\
1 c tuple p(1)\n2 c poll pending\n3 c poll tuple p(1)\n4 c tuple q(2)\n\
1 c done\n2 c done\n";

/// One desk polls twice for the tuple that the other puts, and waits for another one.
pub fn report_polling<R: Wait>(rt: &R, alloc: Global, into: &mut Vec<u8>) -> anyhow::Result<()> {
    let config = read_config(alloc, CONFIGURATION)?;
    let told = told_at_desks(rt, alloc, &config)?;
    into.extend_from_slice(
        b"a desk polls before and after another puts the tuple, and waits for one: ",
    )?;
    if told.as_slice() == TOLD {
        into.extend_from_slice(b"right\n")?;
        return Ok(());
    }
    into.extend_from_slice(b"wrong\n")?;
    into.extend_from_slice(&told)?;
    Ok(())
}

// Seats both agents, and tells what comes of their asks.
fn told_at_desks<R: Wait>(rt: &R, alloc: Global, config: &Config) -> anyhow::Result<Vec<u8>> {
    if config.agents().is_empty() {
        bail!("the configuration has no agent");
    }
    let roles = config.roles().copy(alloc)?;
    let (site, kits) = Site::new(alloc, config, roles)?;
    let (mut taker, mut putter) = two_desks(alloc, &site, kits)?;
    let mut told = Vec::new(alloc);
    take_by_polls(rt, alloc, &mut taker, &mut putter, &mut told)?;
    take_by_wait(rt, alloc, &mut taker, &mut putter, &mut told)?;
    append_log(alloc, putter.log(), &mut told)?;
    Ok(told)
}

// The first desk polls for a tuple before the second puts it, and again.
fn take_by_polls<R: Wait>(
    rt: &R,
    alloc: Global,
    taker: &mut AgentDesk<Roles>,
    putter: &mut AgentDesk<Roles>,
    told: &mut Vec<u8>,
) -> anyhow::Result<()>
    requires taker { (desk_of taker.old).free ≡ true }
    requires putter { (desk_of putter.old).free ≡ true }
    ensures taker { (desk_of taker.new).free ≡ true }
    ensures putter { (desk_of putter.new).free ≡ true }
{
    let wanted = term(alloc, b"p(X)")?;
    let put = term(alloc, b"p(1)")?;
    make_ask(rt, alloc, taker, Ask::In(wanted), told)?;
    make_poll(rt, alloc, taker, told)?;
    make_ask(rt, alloc, putter, Ask::Out(put), told)?;
    make_poll(rt, alloc, taker, told)?;
    Ok(())
}

// The first desk waits for a tuple that the second has put meanwhile, and appends its log.
fn take_by_wait<R: Wait>(
    rt: &R,
    alloc: Global,
    taker: &mut AgentDesk<Roles>,
    putter: &mut AgentDesk<Roles>,
    told: &mut Vec<u8>,
) -> anyhow::Result<()>
    requires taker { (desk_of taker.old).free ≡ true }
    requires putter { (desk_of putter.old).free ≡ true }
{
    let wanted = term(alloc, b"q(X)")?;
    let put = term(alloc, b"q(2)")?;
    make_ask(rt, alloc, taker, Ask::In(wanted), told)?;
    make_ask(rt, alloc, putter, Ask::Out(put), told)?;
    taker.wait(rt, alloc)?;
    told.extend_from_slice(b"wait: answered\n")?;
    append_log(alloc, taker.log(), told)?;
    Ok(())
}

// The term of a text.
fn term(alloc: Global, text: &[u8]) -> anyhow::Result<Term> {
    Ok(read_term(alloc, text)?.into_term())
}

// Asks the centre, and appends how that was served.
fn make_ask<R: Wait>(
    rt: &R,
    alloc: Global,
    desk: &mut AgentDesk<Roles>,
    ask: Ask,
    told: &mut Vec<u8>,
) -> anyhow::Result<()>
    requires { (desk_of desk.old).free ≡ true }
    ensures { (desk_of desk.new).free ≡ true }
{
    let centre = Name::new(alloc, b"c")?;
    let line = match desk.call(rt, alloc, &centre, ask)? {
        Served::Pending => &b"asked: pending\n"[..],
        Served::Replied => b"asked: replied\n",
    };
    told.extend_from_slice(line)?;
    Ok(())
}

// Polls, and appends what that found and the desk's log.
fn make_poll<R: Wait>(
    rt: &R,
    alloc: Global,
    desk: &mut AgentDesk<Roles>,
    told: &mut Vec<u8>,
) -> anyhow::Result<()>
    requires { (desk_of desk.old).free ≡ true }
    ensures { (desk_of desk.new).free ≡ true }
{
    let line = match desk.poll(rt, alloc)? {
        Seen::StillPending => &b"poll: still pending\n"[..],
        Seen::Answered => b"poll: answered\n",
    };
    told.extend_from_slice(line)?;
    append_log(alloc, desk.log(), told)?;
    Ok(())
}
