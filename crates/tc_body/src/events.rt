//! The events of effects.
ghost use Rattle.std.specs.Prelude.{◌≡◌, map, IfOk};
ghost use Rattle.tc_model.specs.Events.{event_of};

use std::alloc::Global;
use tc_lists::NoMemory;
use tc_model::{Effect, Event, EventOp};

/// The events for which effects stand.
pub fn events_of(alloc: Global, effects: &[Effect]) -> Result<Vec<Event>, NoMemory>
    ensures { IfOk result (λ events. events.items ≡ map event_of effects.now) }
{
    let mut events = Vec::with_capacity(alloc, effects.len())?;
    for effect in effects {
        events.push(event(alloc, effect)?)?;
    }
    Ok(events)
}

// The event for which an effect stands.
fn event(alloc: Global, effect: &Effect) -> Result<Event, NoMemory>
    ensures { IfOk result (λ e. e ≡ event_of effect.now) }
{
    match effect {
        Effect::Put(tuple) => Event::success(alloc, EventOp::OutR, tuple),
        Effect::Took(tuple) => Event::success(alloc, EventOp::InR, tuple),
        Effect::Read(tuple) => Event::success(alloc, EventOp::RdR, tuple),
    }
}
