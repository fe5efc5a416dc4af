//! Polls for the reply to a pending row.
ghost use Rattle.std.specs.Prelude.{◌≡◌, ◌+◌, ◌<◌, All, Some, length, slice_get};
ghost use Rattle.tc_desk.specs.declared.rows.LogRow.{LogRow};
ghost use Rattle.tc_model.specs.Calls.{id_of};
ghost use Rattle.tc_shared.specs.Passes.{KeepsPass};
ghost use Rattle.tc_site.specs.Looking.{MayLook};
ghost use Rattle.tc_site.specs.Polling.{IsPolled};

use std::alloc::Global;
use std::sync::Wait;
use tc_centre::Poll;
use tc_desk::{DeskFault, LogResult, LogRow, Refusal, Seen, push_row, put_reply};
use tc_shared::{CentrePass, SharedCentre, SharedPollFault};

/// Polls in one turn for the reply to the call of the row at this place, and puts it there. The
/// poll has a row of its own. Its room and its copy are taken before the turn.
pub(crate) fn poll_for<R: Wait>(
    rt: &R,
    alloc: Global,
    centre: &SharedCentre,
    pass: &mut CentrePass,
    log: &mut Vec<LogRow>,
    place: usize,
) -> Result<Seen, DeskFault>
    requires may { MayLook centre.now pass.old log.old.items place }
    requires next { All (λ e. (id_of e).number < length log.old.items + 1) pass.old.mine }
    ensures polled { (row : LogRow) → slice_get log.old.items place ≡ Some row
        → IsPolled centre.now place pass.old row.centre log.old.items result
        pass.new log.new.items }
    ensures kept { KeepsPass centre.now pass.old pass.new }
{
    if log.reserve(1).is_err() {
        return Err(DeskFault::NoMemory);
    }
    let Ok(name) = log[place].centre.copy(alloc) else {
        return Err(DeskFault::NoMemory);
    };
    let number = log.len() as u64 + 1;
    match centre.poll(rt, alloc, pass, number, place as u64 + 1) {
        Ok(Poll::Answered(reply, again)) => {
            push_row(log, name, None, LogResult::Polled(Some(again)));
            put_reply(log, place, reply);
            Ok(Seen::Answered)
        }
        Ok(Poll::NotYet) => {
            push_row(log, name, None, LogResult::Polled(None));
            Ok(Seen::StillPending)
        }
        Err(SharedPollFault::Full { weight, pending }) => {
            push_row(
                log,
                name,
                None,
                LogResult::Refused(Refusal::Full { weight, pending }),
            );
            Err(DeskFault::Full { weight, pending })
        }
        Err(SharedPollFault::TurnsSpent) => Err(DeskFault::TurnsSpent),
        Err(SharedPollFault::NoMemory) => Err(DeskFault::NoMemory),
        Err(SharedPollFault::Stranger) => unreachable!(),
    }
}
