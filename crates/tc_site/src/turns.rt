//! An agent's turns at a centre.
ghost use Rattle.std.specs.Prelude.{◌≡◌, ℕ, ◌+◌, ◌<◌, false, All};
ghost use Rattle.std.specs.Prelude.{IfOk, OnErr, vec_len, vec_capacity, Ok, Err};
ghost use Rattle.tc_desk.specs.Desks.{refused_log};
ghost use Rattle.tc_model.specs.Calls.{id_of};
ghost use Rattle.tc_shared.specs.Passes.{IsPassOf, KeepsPass, SeesRoom};
ghost use Rattle.tc_site.specs.Turns.{HasGrown, IsTurn, became_of, told_of, waiting_of};

use crate::waiting::WaitingAt;
use std::alloc::Global;
use std::sync::Wait;
use tc_centre::Answer;
use tc_desk::{LogResult, LogRow, Refusal, Served, push_row};
use tc_lists::NoMemory;
use tc_model::{Ask, Op};
use tc_shared::{CallFault, CentrePass, SharedCentre};
use tc_term::Name;

/// What a call of this number comes to at the centre. Where memory ends the turn is gone.
pub(crate) fn turn_at<R: Wait>(
    rt: &R,
    alloc: Global,
    centre: &SharedCentre,
    pass: &mut CentrePass,
    number: u64,
    op: Op,
) -> Result<LogResult, NoMemory>
    requires own { IsPassOf centre.now pass.old }
    requires free { pass.old.holds ≡ false }
    requires next { All (λ e. (id_of e).number < number) pass.old.mine }
    ensures turn { IfOk result (λ r. IsTurn centre.now pass.old number op r pass.new) }
    ensures room { OnErr result (SeesRoom centre.now pass.old pass.new) }
    ensures kept { KeepsPass centre.now pass.old pass.new }
    ensures grown { (top : ℕ) → number ≡ top + 1 → HasGrown top pass.old pass.new }
{
    let answer = centre.call(rt, alloc, pass, number, op);
    came_to(answer)
}

// What is told of a call that was answered so.
fn came_to(answer: Result<Answer, CallFault>) -> Result<LogResult, NoMemory>
    ensures { result ≡ became_of answer }
{
    match answer {
        Ok(Answer::Replied(reply)) => Ok(LogResult::Replied(reply)),
        Ok(Answer::Pending) => Ok(LogResult::Pending),
        Err(CallFault::TurnsSpent) => Ok(LogResult::Refused(Refusal::TurnsSpent)),
        Err(CallFault::Full { weight, pending }) => {
            Ok(LogResult::Refused(Refusal::Full { weight, pending }))
        }
        Err(CallFault::NoMemory) => Err(NoMemory),
    }
}

/// Puts the row of a refused call behind the others. There is room. For want of memory it has no
/// row.
pub(crate) fn push_refused(log: &mut Vec<LogRow>, centre: Name, ask: Ask, why: Refusal)
    requires { vec_len log.old < vec_capacity log.old }
    ensures { log.new.items ≡ refused_log log.old.items centre ask why }
{
    if why != Refusal::NoMemory {
        push_row(log, centre, Some(ask), LogResult::Refused(why));
    }
}

/// Where a row is pending that has come to this.
pub(crate) fn waiting(became: &LogResult, row: usize, centre: u32) -> Option<WaitingAt>
    ensures { result ≡ waiting_of became.now row centre }
{
    match became {
        LogResult::Pending => Some(WaitingAt { row, centre }),
        LogResult::Replied(_) | LogResult::Refused(_) | LogResult::Polled(_) => None,
    }
}

/// What is told of a call that has come to this.
pub(crate) fn told(became: &LogResult) -> Result<Served, Refusal>
    ensures { result ≡ told_of became.now }
{
    match became {
        LogResult::Pending => Ok(Served::Pending),
        LogResult::Replied(_) => Ok(Served::Replied),
        LogResult::Refused(why) => Err(*why),
        LogResult::Polled(_) => Ok(Served::Replied),
    }
}
