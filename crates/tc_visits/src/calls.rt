//! Who is to be looked after. Nothing here is part of any claim: whoever is called for no reason is
//! looked after in vain.
ghost use Rattle.std.specs.Prelude.{◌<◌, ◌≤◌, IfSome};

use std::alloc::Global;
use tc_bells::Roll;
use tc_io::Stir;
use tc_lists::NoMemory;

/// Of some sessions by their numbers: at which something may be done, at which bytes may have come,
/// behind whose bytes none come, and the pending calls of whose agents were answered: some of these
/// were told of already.
#[derive(Drop)]
pub(crate) struct Calls<'s> {
    stirred: Roll,
    come: Roll,
    last: Roll,
    answered: &'s Roll,
    told: Roll,
}

impl<'s> Calls<'s> {
    /// Of so many sessions at which bytes may have come; of those that were answered this roll
    /// tells.
    pub(crate) fn new(
        alloc: Global,
        count: usize,
        answered: &'s Roll,
    ) -> Result<Calls<'s>, NoMemory> {
        let calls = Calls {
            stirred: Roll::new(alloc, count)?,
            come: Roll::new(alloc, count)?,
            last: Roll::new(alloc, count)?,
            answered,
            told: Roll::new(alloc, count)?,
        };
        for number in 0..count {
            calls.last.strike(number);
            calls.told.strike(number);
        }
        Ok(calls)
    }

    /// Has this session looked after.
    pub(crate) fn stir(&self, number: usize) {
        self.stirred.call(number);
    }

    /// Has the session looked after that has stirred so.
    pub(crate) fn note(&self, stir: Stir) {
        self.come.call(stir.number);
        self.stirred.call(stir.number);
        if stir.is_last {
            self.last.call(stir.number);
        }
    }

    /// Whether bytes may have come at a session.
    pub(crate) fn may_read(&self, number: usize) -> bool {
        self.come.has(number)
    }

    /// Notes that a session has read. Where more may have come it is looked after again.
    pub(crate) fn note_read(&self, number: usize, is_more: bool) {
        if is_more || self.last.has(number) {
            self.stirred.call(number);
        } else {
            self.come.strike(number);
        }
    }

    /// Whether the pending call of the agent was answered, if one is pending.
    ///
    /// While none is pending what was told before is forgotten. So who is told of later was
    /// answered since.
    pub(crate) fn is_answered(&self, number: usize, is_pending: bool) -> bool {
        if !self.answered.has(number) && !self.told.has(number) {
            return false;
        }
        if !is_pending {
            self.answered.strike(number);
            self.told.strike(number);
        }
        is_pending
    }

    /// The first session from this one on and below so many whose agent's pending call was
    /// answered. Each is told of once for that call.
    pub(crate) fn next_answered(&self, from: usize, count: usize) -> Option<usize>
        ensures { IfSome result (λ number. (from ≤ number) × (number < count)) }
    {
        let number = self.answered.next(from, count)?;
        self.told.call(number);
        self.answered.strike(number);
        Some(number)
    }

    /// The first session from this one on and below so many at which something may be done. It is
    /// forgotten.
    pub(crate) fn next_stirred(&self, from: usize, count: usize) -> Option<usize>
        ensures { IfSome result (λ number. (from ≤ number) × (number < count)) }
    {
        let number = self.stirred.next(from, count)?;
        self.stirred.strike(number);
        Some(number)
    }

    /// Whether something may be done at one of so many sessions.
    pub(crate) fn are_stirred(&self, count: usize) -> bool {
        self.stirred.next(0, count).is_some()
    }
}
