//! Where agents sleep until their requests are answered. Nothing here is part of any claim: a bell
//! that rings for no reason does no harm.
use std::sync::Wait;
use tc_bells::{Bells, Roll};
use tc_model::Entry;

/// How often the agent's bell has rung.
pub(crate) fn rung(bells: &Bells, agent: u32) -> u64 {
    match bells.get(agent as usize) {
        Some(bell) => bell.rung(),
        None => 0,
    }
}

/// Sleeps until the agent's bell has rung since `rung` was read.
pub(crate) fn sleep<R: Wait>(rt: &R, bells: &Bells, agent: u32, rung: u64) {
    let Some(bell) = bells.get(agent as usize) else {
        return;
    };
    for _ in rt.forever() {
        if bell.rung() != rung {
            return;
        }
        bell.sleep(rt, rung);
    }
}

/// How many answered agents are noted. Where a turn answers more, all agents are woken.
const MOST_NOTED: usize = 4;

/// The agents whose requests a turn has answered.
#[derive(Drop)]
pub(crate) struct Answered {
    agents: [u32; MOST_NOTED],
    count: usize,
    are_more: bool,
}

/// The agents whose requests are answered by entries behind the first so many. Those that aren't
/// noted are called on the roll at once.
pub(crate) fn answered_since(history: &[Entry], known: u64, roll: Option<&Roll>) -> Answered {
    let mut answered = Answered {
        agents: [0; MOST_NOTED],
        count: 0,
        are_more: false,
    };
    for entry in history.get(known as usize..).unwrap_or(&[]) {
        if let Entry::Gave { id, .. } = entry {
            note(&mut answered, id.agent, roll);
        }
    }
    answered
}

// Notes one more agent, or calls it.
fn note(answered: &mut Answered, agent: u32, roll: Option<&Roll>) {
    match answered.agents.get_mut(answered.count) {
        Some(place) => {
            *place = agent;
            answered.count += 1;
        }
        None => {
            answered.are_more = true;
            call(roll, agent);
        }
    }
}

// Calls an agent on the roll, if there is one.
fn call(roll: Option<&Roll>, agent: u32) {
    if let Some(roll) = roll {
        roll.call(agent as usize);
    }
}

/// Wakes these agents, and calls them on the roll, once the turn that has answered them was passed
/// on. So whose request was answered is on the roll, and nobody else is called.
///
/// No wake-up is lost: an agent reads how often its bell has rung before it looks, and again before
/// it reads the count of entries, and the bell of an agent that is answered rings after that count
/// has risen. So it sees the answer, or the bell rings behind what it has read and ends its sleep.
pub(crate) fn wake(bells: &Bells, roll: Option<&Roll>, answered: &Answered) {
    if answered.are_more {
        bells.ring_all();
    }
    for agent in answered.agents.get(..answered.count).unwrap_or(&[]) {
        if !answered.are_more {
            ring(bells, *agent);
        }
        call(roll, *agent);
    }
}

// Rings an agent's bell.
fn ring(bells: &Bells, agent: u32) {
    if let Some(bell) = bells.get(agent as usize) {
        bell.ring();
    }
}
