//! Grants, with their equality and hash.
ghost use Rattle.std.specs.Prelude.{◌≡◌};
ghost use Rattle.tc_policy.specs.Numbers.{number_of};

use std::hash::{Hash, Hasher};
use tc_model::Primitive;

/// The most grants that roles have.
pub const MOST_GRANTS: usize = 4_294_967_295;

/// That agents of a role may use a primitive on a centre. The role and the
/// centre are places, from 0.
#[derive(Clone, Copy, Debug)]
pub struct Grant {
    pub role: u32,
    pub centre: u32,
    pub primitive: Primitive,
}

impl PartialEq for Grant {
    ghost use Rattle.std.specs.Cmp.{partial_equiv_from_equiv};
    ghost use Rattle.tc_policy.specs.Same.{same_grant, same_grant_equiv};

    ghost eq = { same_grant };

    ghost laws = { partial_equiv_from_equiv same_grant_equiv };

    fn eq(&self, other: &Grant) -> bool {
        self.role == other.role
            && self.centre == other.centre
            && number_of(self.primitive) == number_of(other.primitive)
    }
}

impl Eq for Grant {
    ghost use Rattle.tc_policy.specs.Same.{same_grant_equiv};

    ghost laws = { same_grant_equiv };
}

impl Hash for Grant {
    ghost use Rattle.tc_policy.specs.Same.{hash_input, same_hashes};

    ghost hash_input = { hash_input };

    ghost respects_eq = { same_hashes };

    fn hash<H: Hasher>(&self, state: &mut H) {
        self.role.hash(state);
        self.centre.hash(state);
        number_of(self.primitive).hash(state);
    }
}

// A number for each primitive.
fn number_of(primitive: Primitive) -> u8
    ensures { result ≡ number_of primitive }
{
    match primitive {
        Primitive::Out => 0,
        Primitive::In => 1,
        Primitive::Rd => 2,
        Primitive::Inp => 3,
        Primitive::Rdp => 4,
        Primitive::No => 5,
        Primitive::Nop => 6,
        Primitive::SetSpec => 7,
        Primitive::GetSpec => 8,
    }
}
