//! One step of an agent.
ghost use Rattle.std.specs.Prelude.{◌≡◌, ◌<◌, ◌++◌, ◌∷◌, [], false, length};
ghost use Rattle.std.specs.Prelude.{IfOk, OnErr, vec_len, vec_capacity};
ghost use Rattle.tc_asks.specs.Nexts.{IsNextAsk};
ghost use Rattle.tc_desk.specs.Logs.{any_pending};
ghost use Rattle.tc_model.specs.Replies.{reply_in};
ghost use Rattle.tc_model.specs.Run.{HasCall};
ghost use Rattle.tc_runner.specs.Clients.{IsClient, waits_of};
ghost use Rattle.tc_runner.specs.Steps.{GoesOn, HasAsked, Looks, Moves, Touches};

use crate::clients::Client;
use crate::plans::Plan;
use crate::serving::serve;
use std::alloc::Global;
use tc_asks::{Next, asker_stays_fit};
use tc_bells::Roll;
use tc_centre::Core;
use tc_config::AgentConf;
use tc_desk::{Gate, LogResult, LogRow};
use tc_lists::NoMemory;
use tc_model::{CallId, Reply};

/// One step of an agent: a look whether its pending ask has a reply by now, or else its next ask.
/// Whether it moved; an agent that didn't has ended, or waits. Those whose requests are answered are
/// called on the roll.
pub(crate) fn step<G: Gate>(
    alloc: Global,
    plan: &Plan,
    a: &AgentConf,
    client: &mut Client,
    cores: &mut [Core],
    log: &mut Vec<LogRow>,
    gate: &G,
    roll: &Roll,
) -> Result<bool, NoMemory>
    requires goes { GoesOn plan.now client.old.agent a.now cores.old log.old.items }
    requires client { IsClient client.old.agent a.now.scripts log.old.items client.old }
    ensures goes { GoesOn plan.now client.old.agent a.now cores.new log.new.items }
    ensures client { IsClient client.old.agent a.now.scripts log.new.items client.new }
    ensures touches { Touches client.old.agent cores.old cores.new }
    ensures moves { IfOk result
        (Moves plan.now client.old.agent a.now cores.old cores.new log.old.items log.new.items) }
    ensures same { OnErr result (log.new.items ≡ log.old.items) }
{
    asker_stays_fit();
    let number = log.len() as u64;
    if let Some(place) = client.waits {
        let id = CallId {
            agent: client.agent,
            number,
        };
        if !look(alloc, &cores[place as usize], id, log)? {
            return Ok(false);
        }
        client.waits = None;
        return Ok(true);
    }
    let Some(next) = client.asker.next_ask(alloc, a.scripts.items(), log)? else {
        return Ok(false);
    };
    gate.pass(client.agent, number + 1);
    client.waits = ask(alloc, plan, a, client.agent, next, cores, log, roll)?;
    Ok(true)
}

// Makes the agent's next ask, and puts its row behind the others. Where it waits then, if it does.
//
// What the row needs is taken before the centre is asked.
fn ask(
    alloc: Global,
    plan: &Plan,
    a: &AgentConf,
    agent: u32,
    next: Next,
    cores: &mut [Core],
    log: &mut Vec<LogRow>,
    roll: &Roll,
) -> Result<Option<u32>, NoMemory>
    requires goes { GoesOn plan.now agent a.now cores.old log.old.items }
    requires settled { any_pending log.old.items ≡ false }
    requires next { IsNextAsk a.now.scripts log.old.items next }
    ensures goes { GoesOn plan.now agent a.now cores.new log.new.items }
    ensures touches { Touches agent cores.old cores.new }
    ensures asked { IfOk result (HasAsked a.now.scripts log.old.items log.new.items) }
    ensures same { OnErr result (log.new.items ≡ log.old.items) }
{
    let place = next.centre;
    let number = log.len() as u64 + 1;
    let centre = plan.centres()[place as usize].copy(alloc)?;
    let asked = next.ask.copy(alloc)?;
    log.reserve(1)?;
    let id = CallId { agent, number };
    let core = &mut cores[place as usize];
    let result = serve(alloc, plan.roles(), a.role, place, core, id, next.ask, roll)?;
    let waits = waits_at(&result, place);
    put(
        log,
        LogRow {
            number,
            centre,
            ask: Some(asked),
            result,
        },
    );
    Ok(waits)
}

// The place, if the ask is pending there.
fn waits_at(became: &LogResult, place: u32) -> Option<u32>
    ensures { result ≡ waits_of became.now place }
{
    match became {
        LogResult::Pending => Some(place),
        LogResult::Replied(_) | LogResult::Refused(_) | LogResult::Polled(_) => None,
    }
}

// Puts a row behind the others. There is room.
fn put(log: &mut Vec<LogRow>, row: LogRow)
    requires { vec_len log.old < vec_capacity log.old }
    ensures { log.new.items ≡ log.old.items ++ row ∷ [] }
{
    match log.push(row) {
        Ok(()) => {}
        Err(_) => unreachable!(),
    }
}

// Puts the reply to the last ask into its row, if it has one by now. Whether it has.
fn look(alloc: Global, core: &Core, id: CallId, log: &mut Vec<LogRow>) -> Result<bool, NoMemory>
    requires some { 0 < length log.old.items }
    requires called { HasCall id core.now.history }
    ensures looks { IfOk result
        (Looks (reply_in core.now.history id) log.old.items log.new.items) }
    ensures same { OnErr result (log.new.items ≡ log.old.items) }
{
    let Some(reply) = core.look(alloc, id)? else {
        return Ok(false);
    };
    let last = log.len() - 1;
    settle(&mut log[last], reply);
    Ok(true)
}

// The ask of the row has this reply.
fn settle(row: &mut LogRow, reply: Reply)
    ensures { row.new ≡ record row.old { result = LogResult.Replied reply } }
{
    row.result = LogResult::Replied(reply);
}
