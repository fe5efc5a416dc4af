//! Reactions that can't be triggered, or can't fire, whatever happens.
use std::alloc::Global;
use tc_lists::NoMemory;
use tc_model::{EventOp, Goal, GuardTest, Phase, Reaction, Sign};

/// Why a reaction does nothing, whatever happens.
#[derive(Clone, Copy)]
pub enum Idle {
    /// No event is of its head's operation.
    Head,
    /// No event of its operation meets its guard.
    Guard,
    /// No event that triggers it meets this goal.
    Goal(&'static [u8]),
}

const REQUEST: (Phase, Sign) = (Phase::Pre, Sign::Neither);

const SUCCESS: (Phase, Sign) = (Phase::Post, Sign::Success);

const FAILURE: (Phase, Sign) = (Phase::Post, Sign::Failure);

// The events of an operation.
fn events(op: EventOp) -> &'static [(Phase, Sign)] {
    match op {
        EventOp::In | EventOp::Rd | EventOp::No => &[REQUEST, SUCCESS],
        EventOp::Inp | EventOp::Rdp | EventOp::Nop => &[SUCCESS, FAILURE],
        EventOp::Out | EventOp::OutR | EventOp::InR | EventOp::RdR => &[SUCCESS],
        EventOp::NoR => &[],
    }
}

/// Why the reaction does nothing, if that can be seen.
pub fn why_idle(alloc: Global, reaction: &Reaction) -> Result<Option<Idle>, NoMemory> {
    let events = events(reaction.op());
    if events.is_empty() {
        return Ok(Some(Idle::Head));
    }
    let mut tests = Vec::new(alloc);
    tests.extend_from_slice(reaction.guard())?;
    if !may_hold(events, &tests) {
        return Ok(Some(Idle::Guard));
    }
    for goal in reaction.goals() {
        if let Some((test, name)) = test_of_goal(goal) {
            tests.push(test)?;
            if !may_hold(events, &tests) {
                return Ok(Some(Idle::Goal(name)));
            }
        }
    }
    Ok(None)
}

// The test that a goal is, with its name.
fn test_of_goal(goal: &Goal) -> Option<(GuardTest, &'static [u8])> {
    match goal {
        Goal::Pre => Some((GuardTest::Request, b"pre")),
        Goal::Post => Some((GuardTest::Response, b"post")),
        Goal::Success => Some((GuardTest::Success, b"success")),
        Goal::Failure => Some((GuardTest::Failure, b"failure")),
        _ => None,
    }
}

// Whether one of the events meets all tests.
fn may_hold(events: &[(Phase, Sign)], tests: &[GuardTest]) -> bool {
    for event in events {
        if all_hold(*event, tests) {
            return true;
        }
    }
    false
}

// Whether an event meets all tests.
fn all_hold(event: (Phase, Sign), tests: &[GuardTest]) -> bool {
    let (phase, sign) = event;
    for test in tests {
        let holds = match test {
            GuardTest::Request => phase == Phase::Pre,
            GuardTest::Response => phase == Phase::Post,
            GuardTest::Success => sign == Sign::Success,
            GuardTest::Failure => sign == Sign::Failure,
        };
        if !holds {
            return false;
        }
    }
    true
}
