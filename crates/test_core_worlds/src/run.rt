//! A world, step by step.
ghost use Rattle.tc_model.specs.Run.{IsNext};

use crate::calls::{Act, Step, act_of, step_of};
use crate::centres::{centre_of, next_call};
use crate::counts::Counts;
use crate::fault::WorldFault;
use crate::lists::elements;
use crate::states::{is_right, print_entries, print_state, whole_text};
use crate::worlds::World;
use std::alloc::Global;
use tc_centre::{Core, PollFault, TurnFault};
use tc_lists::append_number;
use tc_model::{CallId, Op};
use tc_print::print_name;
use tc_term::Term;

/// Why a step left no entry.
#[derive(Clone, Copy)]
pub enum Refused {
    Stranger,
    Full { weight: u64, pending: u64 },
    NoMemory,
}

/// Prints the entries of a world as they come, and what the centre holds in the end.
pub fn show_world(
    alloc: Global,
    world: World,
    again: bool,
    into: &mut Vec<u8>,
) -> Result<(), WorldFault> {
    let steps = elements(alloc, world.steps)?;
    let mut core = centre_of(alloc, world, &steps)?;
    into.extend_from_slice(b"world ")?;
    print_name(alloc, world.name, into)?;
    into.extend_from_slice(b"\n")?;
    for term in steps {
        show_step(alloc, &mut core, term, again, into)?;
    }
    print_state(alloc, &core, into)?;
    if !is_right(&core) {
        into.extend_from_slice(b"which it can't hold\n")?;
    }
    Ok(into.extend_from_slice(b"\n")?)
}

/// Serves a world without a word, and counts what was seen of it: it is faulty where after some step the
/// centre isn't as it has to be.
pub fn count_world(alloc: Global, world: World, counts: &mut Counts) -> Result<(), WorldFault> {
    let steps = elements(alloc, world.steps)?;
    let mut core = centre_of(alloc, world, &steps)?;
    let mut right = true;
    for term in steps {
        take_all(alloc, &mut core, term)?;
        right = right && is_right(&core);
    }
    counts.add_history(core.history());
    counts.add_fault(!right);
    Ok(())
}

// Takes a step as often as it says.
fn take_all(alloc: Global, core: &mut Core, term: &Term) -> Result<(), WorldFault> {
    let Some(step) = step_of(term) else {
        return Err(WorldFault::NoWorld("a step is an agent's act"));
    };
    for _ in 0..step.times {
        let _refused = act(alloc, core, step)?;
    }
    Ok(())
}

// Takes a step, and prints the entries that come of it, or how many where it is taken many times.
fn show_step(
    alloc: Global,
    core: &mut Core,
    term: &Term,
    again: bool,
    into: &mut Vec<u8>,
) -> Result<(), WorldFault> {
    let Some(step) = step_of(term) else {
        return Err(WorldFault::NoWorld("a step is an agent's act"));
    };
    let before = core.history().len();
    if step.times == 1 {
        take(alloc, core, step, again, into)?;
        return Ok(print_entries(alloc, core, before, into)?);
    }
    for _ in 0..step.times {
        take(alloc, core, step, again, into)?;
    }
    append_number(core.history().len().saturating_sub(before) as u64, into)?;
    Ok(into.extend_from_slice(b" entries\n")?)
}

// Takes a step once, and prints why no entry comes of it where none does.
fn take(
    alloc: Global,
    core: &mut Core,
    step: Step,
    again: bool,
    into: &mut Vec<u8>,
) -> Result<(), WorldFault> {
    let refused = if again {
        take_again(alloc, core, step, into)?
    } else {
        act(alloc, core, step)?
    };
    match refused {
        None => Ok(()),
        Some(why) => print_refused(alloc, step, why, into),
    }
}

// Takes a step, and where it finds no memory, looks whether all is as before, and takes it again.
fn take_again(
    alloc: Global,
    core: &mut Core,
    step: Step,
    into: &mut Vec<u8>,
) -> Result<Option<Refused>, WorldFault> {
    let before = whole_text(alloc, core)?;
    let refused = act(alloc, core, step)?;
    if !matches!(refused, Some(Refused::NoMemory)) {
        return Ok(refused);
    }
    if whole_text(alloc, core)? != before {
        into.extend_from_slice(b"no memory, and a change\n")?;
    }
    act(alloc, core, step)
}

// Takes a step, and tells why no entry comes of it where none does.
fn act(alloc: Global, core: &mut Core, step: Step) -> Result<Option<Refused>, WorldFault> {
    let act = act_of(alloc, step.act)?;
    let Some(id) = next_call(core, step.agent) else {
        return Err(WorldFault::NoWorld("an agent has no further call"));
    };
    match act {
        Act::Call(op) => Ok(call(alloc, core, id, op.copy(alloc)?)),
        Act::Look(asked) => Ok(look(alloc, core, id, asked)),
    }
}

// Makes a call.
fn call(alloc: Global, core: &mut Core, id: CallId, op: Op) -> Option<Refused>
    requires { IsNext core.old.origin core.old.history id }
{
    match core.turn(alloc, id, op) {
        Ok(_) => None,
        Err(TurnFault::Full { weight, pending }) => Some(Refused::Full { weight, pending }),
        Err(TurnFault::NoMemory) => Some(Refused::NoMemory),
    }
}

// Looks at an earlier call.
fn look(alloc: Global, core: &mut Core, id: CallId, asked: u64) -> Option<Refused>
    requires { IsNext core.old.origin core.old.history id }
{
    match core.poll(alloc, id, asked) {
        Ok(_) => None,
        Err(PollFault::Stranger) => Some(Refused::Stranger),
        Err(PollFault::Full { weight, pending }) => Some(Refused::Full { weight, pending }),
        Err(PollFault::NoMemory) => Some(Refused::NoMemory),
    }
}

// Prints why a step left no entry.
fn print_refused(
    alloc: Global,
    step: Step,
    why: Refused,
    into: &mut Vec<u8>,
) -> Result<(), WorldFault> {
    into.extend_from_slice(b"refused ")?;
    print_name(alloc, step.agent, into)?;
    match why {
        Refused::Stranger => into.extend_from_slice(b" = stranger\n")?,
        Refused::NoMemory => into.extend_from_slice(b" = no memory\n")?,
        Refused::Full { weight, pending } => {
            into.extend_from_slice(b" = full ")?;
            append_number(weight, into)?;
            into.extend_from_slice(b" ")?;
            append_number(pending, into)?;
            into.extend_from_slice(b"\n")?;
        }
    }
    Ok(())
}
