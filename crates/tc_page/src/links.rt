//! Which answer belongs to which call.
use crate::steps::Step;
use std::alloc::Global;
use tc_lists::NoMemory;

/// For each step the place of its partner: of a call that waits that of its answer, and of an answer
/// that of its call.
pub fn partners(
    alloc: Global,
    steps: &[Step<'_>],
    agents: usize,
) -> Result<Vec<Option<usize>>, NoMemory> {
    let mut partners = filled(alloc, None, steps.len())?;
    let mut waiting: Vec<Option<usize>> = filled(alloc, None, agents)?;
    for (place, step) in steps.iter().enumerate() {
        if step.is_pending() {
            set(&mut waiting, step.agent, Some(place));
        } else if step.is_answer() {
            let call = waiting.get(step.agent).copied().flatten();
            if let Some(call) = call {
                if is_call_of(steps, call, step) {
                    set(&mut partners, call, Some(place));
                    set(&mut partners, place, Some(call));
                }
            }
        }
    }
    Ok(partners)
}

// Whether the step at this place is the call that this one answers.
fn is_call_of(steps: &[Step<'_>], call: usize, answer: &Step<'_>) -> bool {
    match steps.get(call) {
        Some(step) => step.centre == answer.centre && step.number == answer.number,
        None => false,
    }
}

/// So many times the same.
pub fn filled<T: Copy>(alloc: Global, value: T, count: usize) -> Result<Vec<T>, NoMemory> {
    let mut values = Vec::with_capacity(alloc, count)?;
    for _ in 0..count {
        values.push(value)?;
    }
    Ok(values)
}

/// Puts a value at a place, if there is one.
pub fn set<T: Copy + Drop>(values: &mut [T], place: usize, value: T) {
    if let Some(slot) = values.get_mut(place) {
        *slot = value;
    }
}
