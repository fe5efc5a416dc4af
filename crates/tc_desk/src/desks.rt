//! Desks: what one agent makes its calls at, and what becomes of each.
ghost use Rattle.std.specs.Prelude.{◌≡◌, ◌<◌, ℕ, true, List, Err, MatchResult, Some};
ghost use Rattle.std.specs.Prelude.{length, slice_get};
ghost use Rattle.tc_desk.specs.Desks.{DeskState, HasNoTurnLeft, Keeps, Spends, Waits};
ghost use Rattle.tc_desk.specs.Desks.{Calls, Looks, Stays, Gets, Leaves, Polls};

use crate::rows::{LogRow, Refusal};
use std::alloc::Global;
use std::sync::Wait;
use tc_model::Ask;
use tc_term::Name;
use thiserror::Error;

/// What came of a call that was served. The reply stands in its row.
#[derive(Clone, Copy, Debug, PartialEq, Eq)]
pub enum Served {
    Replied,
    Pending,
}

/// What a look at the pending row found.
#[derive(Clone, Copy, Debug, PartialEq, Eq)]
pub enum Seen {
    Answered,
    StillPending,
}

/// Why a desk could not look, wait or poll.
#[derive(Clone, Copy, Debug, PartialEq, Eq, Error)]
pub enum DeskFault {
    /// No row is pending.
    #[error("no row is pending")]
    Idle,
    /// No turn is left at the pending row's centre.
    #[error("no turn is left at the centre of the pending row")]
    TurnsSpent,
    /// The centre's history is so heavy that it takes no entry of a poll: what it weighs, and how
    /// many requests are pending.
    #[error("the centre is full: its history weighs {weight}, and {pending} requests are pending")]
    Full { weight: u64, pending: u64 },
    /// Memory has run out.
    #[error("out of memory")]
    NoMemory,
}

/// What one agent makes its calls at: it keeps the agent's log.
///
/// A desk that holds a turn isn't free, and takes no call.
pub trait Desk {
    /// Whose desk it is.
    type Bond;

    /// Whose desk it is. No call changes it.
    ghost bond: { Self → Self.Bond };

    /// What contracts see of it.
    ghost state: { Self → DeskState };

    /// Each row is refused, or isn't, as the desk's access policy says.
    ghost sound: { Self → Type 0 };

    /// Makes a call, which is one row of the log.
    fn call<R: Wait>(
        &mut self,
        rt: &R,
        alloc: Global,
        centre: &Name,
        ask: Ask,
    ) -> Result<Served, Refusal>
        requires free { (state self.old).free ≡ true }
        ensures bond { bond self.new ≡ bond self.old }
        ensures kept { Keeps (state self.old) (state self.new) }
        ensures turns { Spends 1 (state self.old) (state self.new) }
        ensures sound { sound self.old → sound self.new }
        ensures became { Calls (state self.old) centre.now ask result (state self.new) };

    /// Makes a call at the centre of this place, from 0: what `call` does by its name.
    fn call_at<R: Wait>(
        &mut self,
        rt: &R,
        alloc: Global,
        place: u32,
        ask: Ask,
    ) -> Result<Served, Refusal>
        requires free { (state self.old).free ≡ true }
        requires inside { place < length (state self.old).names }
        ensures bond { bond self.new ≡ bond self.old }
        ensures kept { Keeps (state self.old) (state self.new) }
        ensures turns { Spends 1 (state self.old) (state self.new) }
        ensures sound { sound self.old → sound self.new }
        ensures became { (centre : List ℕ)
            → slice_get (state self.old).names place ≡ Some centre
            → Calls (state self.old) centre ask result (state self.new) };

    /// Looks whether the pending call has its reply, and puts it into its row.
    fn look<R: Wait>(&mut self, rt: &R, alloc: Global) -> Result<Seen, DeskFault>
        requires free { (state self.old).free ≡ true }
        ensures bond { bond self.new ≡ bond self.old }
        ensures kept { Keeps (state self.old) (state self.new) }
        ensures turns { Spends 1 (state self.old) (state self.new) }
        ensures sound { sound self.old → sound self.new }
        ensures became { MatchResult result
            (λ seen. Looks (state self.old) seen (state self.new))
            (λ why. Stays (state self.old) why (state self.new)) };

    /// Waits until the pending call has its reply, and puts it into its row. Where it begins with
    /// no turn left at that call's centre it doesn't wait.
    fn wait<R: Wait>(&mut self, rt: &R, alloc: Global) -> Result<(), DeskFault>
        requires free { (state self.old).free ≡ true }
        ensures bond { bond self.new ≡ bond self.old }
        ensures kept { Keeps (state self.old) (state self.new) }
        ensures turns { Waits (state self.old) (state self.new) }
        ensures spent { HasNoTurnLeft (state self.old) → result ≡ Err DeskFault.TurnsSpent }
        ensures sound { sound self.old → sound self.new }
        ensures became { MatchResult result
            (λ _. Gets (state self.old) (state self.new))
            (λ why. Leaves (state self.old) why (state self.new)) };

    /// Looks whether the pending call has its reply, which leaves an entry in the centre's history
    /// and a row; puts the reply into the pending row.
    fn poll<R: Wait>(&mut self, rt: &R, alloc: Global) -> Result<Seen, DeskFault>
        requires free { (state self.old).free ≡ true }
        ensures bond { bond self.new ≡ bond self.old }
        ensures kept { Keeps (state self.old) (state self.new) }
        ensures turns { Spends 1 (state self.old) (state self.new) }
        ensures sound { sound self.old → sound self.new }
        ensures became { Polls (state self.old) result (state self.new) };

    /// The rows so far.
    fn log(&self) -> &[LogRow]
        ensures { result.now ≡ (state self.now).log };
}
