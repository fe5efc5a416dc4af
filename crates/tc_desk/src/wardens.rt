//! Wardens: who decides what agents of a role may do.
ghost use Rattle.std.specs.Prelude.{◌≡◌, ℕ, Option};
ghost use Rattle.tc_model.specs.declared.asks.Primitive.{Primitive};

use tc_model::Primitive;

/// An access policy: whether agents of a role may use a primitive on a centre. Roles and centres
/// are places, from 0.
pub trait Warden {
    /// The number of the grant that permits it, from 1; none where nothing does.
    ghost permits: { Self → ℕ → ℕ → Primitive → Option ℕ };

    /// The number of the grant that permits it, from 1.
    fn may(&self, role: u32, centre: u32, primitive: Primitive) -> Option<u32>
        ensures { result ≡ permits self.now role centre primitive };
}
