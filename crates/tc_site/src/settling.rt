//! How logs are settled: a pending row gets the reply that its request has got by now.
ghost use Rattle.std.specs.Prelude.{◌≡◌, ◌<◌, ◌^◌, false, All, length, IfNone, IfSome, OnOk};
ghost use Rattle.std.specs.Prelude.{OnErr};
ghost use Rattle.tc_desk.specs.Agreeing.{Agrees};
ghost use Rattle.tc_desk.specs.Logs.{any_pending, rows_of};
ghost use Rattle.tc_site.specs.Settling.{AreNamed, AreSettled, AreSettledBelow};
ghost use Rattle.tc_site.specs.Settling.{IsSettled, PendsAlone};
ghost use Rattle.tc_site.specs.Sites.{AllAgree, PendsBehind, core_histories, core_origins};

use crate::judging::place_of;
use crate::kits::Closed;
use std::alloc::Global;
use tc_centre::Core;
use tc_desk::{LogResult, LogRow, put_reply};
use tc_lists::NoMemory;
use tc_model::CallId;
use tc_term::Name;

impl Closed {
    /// Gives each pending row the reply that its request has got by now, if it has got one. The
    /// names are those of the centres. Where memory ends, the first agents' rows have theirs.
    pub fn settle(&mut self, alloc: Global, names: &[Name]) -> Result<(), NoMemory>
        requires named { AreNamed names.now self.old.cores.items }
        requires few { length self.old.logs.items < 2 ^ 32 }
        requires agree { AllAgree names.now self.old.cores.items (rows_of self.old.logs.items) }
        requires pend { All PendsBehind (rows_of self.old.logs.items) }
        ensures settled { OnOk result (AreSettled names.now (core_histories self.old.cores.items)
            (rows_of self.old.logs.items) (rows_of self.new.logs.items)) }
        ensures part { OnErr result (AreSettledBelow names.now
            (core_histories self.old.cores.items)
            (rows_of self.old.logs.items) (rows_of self.new.logs.items)) }
        ensures agree { AllAgree names.now self.new.cores.items (rows_of self.new.logs.items) }
        ensures cores { self.new.cores ≡ self.old.cores }
    {
        settle_all(alloc, names, &self.cores, &mut self.logs)
    }
}

// Settles the log of each agent.
fn settle_all(
    alloc: Global,
    names: &[Name],
    cores: &[Core],
    logs: &mut [Vec<LogRow>],
) -> Result<(), NoMemory>
    requires named { AreNamed names.now cores.now }
    requires few { length logs.old < 2 ^ 32 }
    requires agree { AllAgree names.now cores.now (rows_of logs.old) }
    requires pend { All PendsBehind (rows_of logs.old) }
    ensures settled { OnOk result
        (AreSettled names.now (core_histories cores.now) (rows_of logs.old) (rows_of logs.new)) }
    ensures part { OnErr result (AreSettledBelow names.now (core_histories cores.now)
        (rows_of logs.old) (rows_of logs.new)) }
    ensures agree { AllAgree names.now cores.now (rows_of logs.new) }
{
    for agent in 0..logs.len() {
        settle_log(alloc, names, cores, agent as u32, &mut logs[agent])?;
    }
    Ok(())
}

// Settles the log of one agent.
fn settle_log(
    alloc: Global,
    names: &[Name],
    cores: &[Core],
    agent: u32,
    log: &mut Vec<LogRow>,
) -> Result<(), NoMemory>
    requires named { AreNamed names.now cores.now }
    requires agrees { Agrees (core_origins cores.now) names.now (core_histories cores.now) agent
        log.old.items }
    requires pends { PendsBehind log.old.items }
    ensures settled { OnOk result
        (IsSettled names.now (core_histories cores.now) agent log.old.items log.new.items) }
    ensures same { OnErr result (log.new.items ≡ log.old.items) }
    ensures agrees { Agrees (core_origins cores.now) names.now (core_histories cores.now) agent
        log.new.items }
{
    let Some(place) = pending_in(log) else {
        return Ok(());
    };
    let Some(centre) = place_of(names, &log[place].centre) else {
        unreachable!()
    };
    let id = CallId {
        agent,
        number: place as u64 + 1,
    };
    if let Some(reply) = cores[centre as usize].look(alloc, id)? {
        put_reply(log, place, reply);
    }
    Ok(())
}

// The place of the row that is pending, if one is: it is the last one that was served.
fn pending_in(log: &[LogRow]) -> Option<usize>
    requires { PendsBehind log.now }
    ensures some { IfSome result (PendsAlone log.now) }
    ensures none { IfNone result (any_pending log.now ≡ false) }
{
    for place in (0..log.len()).rev() {
        match log[place].result {
            LogResult::Pending => return Some(place),
            LogResult::Replied(_) => return None,
            LogResult::Refused(_) | LogResult::Polled(_) => {}
        }
    }
    None
}
