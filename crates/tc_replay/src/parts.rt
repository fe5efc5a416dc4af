//! Parts that follow one another, the batches of a group or the groups of an agenda: which of them a
//! place lies in, and those at the front of which nothing is left.
ghost use Rattle.std.specs.Prelude.{◌≡◌, ◌≤◌, List, length, IfSome, IfNone};
ghost use Rattle.std.specs.List.{flat_map};
ghost use Rattle.tc_model.specs.Triggers.{Member};
ghost use Rattle.tc_replay.specs.Agendas.{LiesAt};

use std::collections::VecDeque;

/// A part of the triggered reactions, which knows how many are left of it.
pub trait Part {
    /// Those that are left of it, in order.
    ghost members: { Self → List Member };

    fn count(&self) -> usize
        ensures { result ≡ length (members self.now) };
}

/// The part that a place lies in, and the place there.
///
/// Takes a step for each part before it.
pub fn place_in<P: Part>(parts: &VecDeque<P>, place: usize) -> Option<(usize, usize)>
    ensures some { IfSome result (λ p. LiesAt P.members parts.now.items place p.0 p.1) }
    ensures none { IfNone result (length (flat_map P.members parts.now.items) ≤ place) }
{
    let mut left = place;
    for at in 0..parts.len() {
        let count = parts[at].count();
        if left < count {
            return Some((at, left));
        }
        left -= count;
    }
    None
}

/// Drops the first parts, as far as nothing is left of them.
pub fn drop_spent<P: Part + Drop>(parts: &mut VecDeque<P>)
    ensures { flat_map P.members parts.new.items ≡ flat_map P.members parts.old.items }
{
    while let Some(part) = parts.front() {
        if part.count() > 0 {
            return;
        }
        parts.pop_front();
    }
}
