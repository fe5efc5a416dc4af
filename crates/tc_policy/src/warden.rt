//! Roles as an access policy: a grant permits.
use crate::roles::Roles;
use tc_desk::Warden;
use tc_model::Primitive;

impl Warden for Roles {
    ghost use Rattle.tc_policy.specs.Places.{first_number, grant};

    ghost permits = { λ roles role centre primitive.
        first_number (grant role centre primitive) roles };

    fn may(&self, role: u32, centre: u32, primitive: Primitive) -> Option<u32> {
        self.permits(role, centre, primitive)
    }
}
