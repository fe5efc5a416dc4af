//! Looks for the reply to a pending row, and waits for it.
ghost use Rattle.std.specs.Prelude.{◌≡◌, Err};
ghost use Rattle.tc_shared.specs.Passes.{KeepsPass, WaitsInTurns};
ghost use Rattle.tc_site.specs.Looking.{IsLook, IsWait, MayLook, left_of, still_of};

use crate::waiting::WaitingAt;
use std::alloc::Global;
use std::sync::Wait;
use tc_desk::{DeskFault, LogRow, Seen, put_reply};
use tc_shared::{CentrePass, LookFault, SharedCentre};

/// Looks in one turn for the reply to the call of the row at this place, and puts it there.
pub(crate) fn look_for<R: Wait>(
    rt: &R,
    alloc: Global,
    centre: &SharedCentre,
    pass: &mut CentrePass,
    log: &mut Vec<LogRow>,
    place: usize,
) -> Result<Seen, DeskFault>
    requires may { MayLook centre.now pass.old log.old.items place }
    ensures looked { IsLook centre.now place pass.old log.old.items result pass.new log.new.items }
    ensures kept { KeepsPass centre.now pass.old pass.new }
{
    match centre.look(rt, alloc, pass, place as u64 + 1) {
        Ok(Some(reply)) => {
            put_reply(log, place, reply);
            Ok(Seen::Answered)
        }
        Ok(None) => Ok(Seen::StillPending),
        Err(LookFault::TurnsSpent) => Err(DeskFault::TurnsSpent),
        Err(LookFault::NoMemory) => Err(DeskFault::NoMemory),
    }
}

/// Waits for the reply to the call of the row at this place, and puts it there.
pub(crate) fn wait_for<R: Wait>(
    rt: &R,
    alloc: Global,
    centre: &SharedCentre,
    pass: &mut CentrePass,
    log: &mut Vec<LogRow>,
    place: usize,
) -> Result<(), DeskFault>
    requires may { MayLook centre.now pass.old log.old.items place }
    ensures waited { IsWait place pass.old log.old.items result pass.new log.new.items }
    ensures turns { WaitsInTurns centre.now pass.old pass.new }
    ensures spent { pass.old.turns ≡ 0 → result ≡ Err DeskFault.TurnsSpent }
    ensures kept { KeepsPass centre.now pass.old pass.new }
{
    match centre.wait(rt, alloc, pass, place as u64 + 1) {
        Ok(reply) => {
            put_reply(log, place, reply);
            Ok(())
        }
        Err(LookFault::TurnsSpent) => Err(DeskFault::TurnsSpent),
        Err(LookFault::NoMemory) => Err(DeskFault::NoMemory),
    }
}

/// Where a row is pending still, after a look.
pub(crate) fn still(at: WaitingAt, seen: &Result<Seen, DeskFault>) -> Option<WaitingAt>
    ensures { result ≡ still_of at seen.now }
{
    match seen {
        Ok(Seen::Answered) => None,
        Ok(Seen::StillPending) | Err(_) => Some(at),
    }
}

/// Where a row is pending still, after a wait.
pub(crate) fn left(at: WaitingAt, waited: &Result<(), DeskFault>) -> Option<WaitingAt>
    ensures { result ≡ left_of at waited.now }
{
    match waited {
        Ok(()) => None,
        Err(_) => Some(at),
    }
}
