//! What has stirred at a listener and its connections, as the system told.
use mio::{Events, Poll};
use std::alloc::Global;
use std::time::Duration;
use tc_io::Stir;
use tc_lists::NoMemory;

/// How many events are told by a rest at most.
const MOST_EVENTS: usize = 64;

/// The token of the listener. A connection has its number and one more.
pub(crate) const OWN_TOKEN: usize = 0;

/// What the latest rest has told.
#[derive(Drop)]
pub(crate) struct Stirs {
    events: Events,
    // How many of the events were given.
    given: usize,
}

impl Stirs {
    /// None, with room for those of a rest.
    pub(crate) fn new(alloc: Global) -> Result<Stirs, NoMemory> {
        Ok(Stirs {
            events: Events::with_capacity(alloc, MOST_EVENTS)?,
            given: 0,
        })
    }

    /// Waits until something stirs, at most so many milliseconds. Whether the listener has.
    pub(crate) fn wait(&mut self, poll: &mut Poll, most: Option<u64>) -> bool {
        let most = most.map(Duration::from_millis);
        let _ = poll.poll(&mut self.events, most);
        self.given = 0;
        self.events.iter().any(|event| event.token().0 == OWN_TOKEN)
    }

    /// The next connection that has stirred.
    pub(crate) fn next(&mut self) -> Option<Stir> {
        for event in self.events.iter().skip(self.given) {
            self.given = self.given.saturating_add(1);
            if let Some(number) = event.token().0.checked_sub(1) {
                return Some(Stir {
                    number,
                    is_last: event.is_read_closed(),
                });
            }
        }
        None
    }
}
