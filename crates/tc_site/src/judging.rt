//! What is decided of a call before a turn is taken.
ghost use Rattle.std.specs.Prelude.{◌≡◌, ◌<◌, ◌^◌, IfSome, IfNone, IfOk, IfErr};
ghost use Rattle.std.specs.Prelude.{ℕ, List, Contains, Some, slice_get, length};
ghost use Rattle.tc_desk.specs.Operands.{OpOf, Sound};
ghost use Rattle.tc_site.specs.Judging.{IsAllowed, IsRefusedFor};

use crate::sites::Site;
use std::alloc::Global;
use tc_asks::op_of;
use tc_desk::{Refusal, Warden};
use tc_model::{Ask, Op};
use tc_term::Name;

/// Which operation an agent's ask of the centre at a place is; or the first reason why it is
/// refused.
pub(crate) fn judge<W: Warden>(
    alloc: Global,
    site: &Site<W>,
    agent: u32,
    waits: bool,
    place: u32,
    ask: Ask,
) -> Result<Op, Refusal>
    requires agent { agent < length site.now.roles }
    ensures allowed { (centre : List ℕ) → slice_get site.now.names place ≡ Some centre
        → IfOk result
        (λ op. IsAllowed W.permits site.now agent waits centre ask place × OpOf ask (Sound op)) }
    ensures refused { (centre : List ℕ) → slice_get site.now.names place ≡ Some centre
        → IfErr result
        (IsRefusedFor W.permits site.now agent waits centre ask) }
{
    if waits {
        return Err(Refusal::Waiting);
    }
    let role = site.role(agent);
    let Some(_number) = site.warden().may(role, place, ask.primitive()) else {
        return Err(Refusal::Denied);
    };
    match op_of(alloc, ask) {
        Ok(op) => Ok(op),
        Err(fault) => Err(fault.refusal()),
    }
}

/// The place of a name among those of the centres.
pub(crate) fn place_of(names: &[Name], name: &Name) -> Option<u32>
    requires { length names.now < 2 ^ 32 }
    ensures some { IfSome result (λ place. slice_get names.now place ≡ Some name.now) }
    ensures none { IfNone result (Contains names.now name.now → ⊥) }
{
    for place in 0..names.len() {
        if names[place] == *name {
            return Some(place as u32);
        }
    }
    None
}
