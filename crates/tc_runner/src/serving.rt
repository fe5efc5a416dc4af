//! What an ask comes to at a core.
ghost use Rattle.std.specs.Prelude.{◌≡◌, Contains, IfOk, OnErr};
ghost use Rattle.tc_centre.specs.Centre.{state_of};
ghost use Rattle.tc_desk.specs.Logs.{is_served};
ghost use Rattle.tc_desk.specs.Served.{IsResult, IsServedAs};
ghost use Rattle.tc_model.specs.Asks.{primitive_of};
ghost use Rattle.tc_model.specs.Run.{IsNext};
ghost use Rattle.tc_model.specs.State.{IsQuiescent};
ghost use Rattle.tc_policy.specs.Places.{grant};
ghost use Rattle.tc_runner.specs.Results.{Changes, refusal_of, result_of};

use std::alloc::Global;
use tc_asks::{OperandFault, op_of};
use tc_bells::Roll;
use tc_centre::{Answer, Core, TurnFault};
use tc_desk::{LogResult, Refusal};
use tc_lists::NoMemory;
use tc_model::{Ask, CallId, Entry};
use tc_policy::Roles;

/// What an ask of an agent of this role comes to at the centre of this place. The agents whose
/// requests are answered then are called on the roll.
pub(crate) fn serve(
    alloc: Global,
    roles: &Roles,
    role: u32,
    place: u32,
    core: &mut Core,
    id: CallId,
    ask: Ask,
    roll: &Roll,
) -> Result<LogResult, NoMemory>
    requires { IsNext core.old.origin core.old.history id }
    ensures result { IfOk result
        (IsResult (Contains roles.now (grant role place (primitive_of ask)))
        core.old.origin core.new.history id ask) }
    ensures change { IfOk result (λ r. Changes id core.old core.new (is_served r)) }
    ensures same { OnErr result (core.new ≡ core.old) }
{
    if roles.permits(role, place, ask.primitive()).is_none() {
        return Ok(LogResult::Refused(Refusal::Denied));
    }
    call(alloc, core, id, ask, roll)
}

// What an ask comes to that is permitted.
fn call(
    alloc: Global,
    core: &mut Core,
    id: CallId,
    ask: Ask,
    roll: &Roll,
) -> Result<LogResult, NoMemory>
    requires { IsNext core.old.origin core.old.history id }
    ensures result { IfOk result (IsServedAs core.old.origin core.new.history id ask) }
    ensures change { IfOk result (λ r. Changes id core.old core.new (is_served r)) }
    ensures same { OnErr result (core.new ≡ core.old) }
{
    rests(core);
    match op_of(alloc, ask) {
        Ok(op) => {
            let known = core.history().len();
            let answer = core.turn(alloc, id, op);
            call_answered(roll, core.history(), known);
            told(answer)
        }
        Err(fault) => Ok(LogResult::Refused(refused(fault)?)),
    }
}

// Calls the agents whose requests are answered by entries behind the first so many.
fn call_answered(roll: &Roll, history: &[Entry], known: usize) {
    for entry in history.get(known..).unwrap_or(&[]) {
        if let Entry::Gave { id, .. } = entry {
            roll.call(id.agent as usize);
        }
    }
}

// What holds of every core.
fn rests(core: &Core)
    ensures { IsQuiescent (state_of core.now) }
{
    let _ = core.history();
}

// What a turn says of the ask.
fn told(answer: Result<Answer, TurnFault>) -> Result<LogResult, NoMemory>
    ensures { result ≡ result_of answer }
{
    match answer {
        Ok(Answer::Replied(reply)) => Ok(LogResult::Replied(reply)),
        Ok(Answer::Pending) => Ok(LogResult::Pending),
        Err(TurnFault::Full { weight, pending }) => {
            Ok(LogResult::Refused(Refusal::Full { weight, pending }))
        }
        Err(TurnFault::NoMemory) => Err(NoMemory),
    }
}

// Why an ask is refused whose operand has this fault.
fn refused(fault: OperandFault) -> Result<Refusal, NoMemory>
    ensures { result ≡ refusal_of fault }
{
    match fault {
        OperandFault::TooBig => Ok(Refusal::TooBig),
        OperandFault::NotGround => Ok(Refusal::NotGround),
        OperandFault::BadSpec(bad) => Ok(Refusal::BadSpec(bad)),
        OperandFault::NoMemory => Err(NoMemory),
    }
}
