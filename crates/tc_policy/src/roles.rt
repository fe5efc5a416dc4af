//! The grants of all roles.
ghost use Rattle.std.specs.Prelude.{◌≡◌, ◌<◌, ◌++◌, ◌∷◌, [], Contains, length};
ghost use Rattle.std.specs.Prelude.{IfNone, IfOk, IfSome, OnErr, OnOk};
ghost use Rattle.tc_policy.specs.declared.grants.TheConstants.{MOST_GRANTS};

use crate::grants::Grant;
use crate::places::{Places, forget, note};
use std::alloc::Global;
use std::marker::Model;
use tc_lists::NoMemory;
use tc_model::Primitive;

/// Grants in order. Whether there is one is found in constant time.
#[derive(Drop)]
pub struct Roles {
    grants: Vec<Grant>,
    places: Places,
}

impl Model for Roles {
    ghost use Rattle.std.specs.Prelude.{◌≤◌, List, length};
    ghost use Rattle.tc_policy.specs.Places.{IsIndex, place_in};
    ghost use Rattle.tc_policy.specs.declared.grants.Grant.{Grant};
    ghost use Rattle.tc_policy.specs.declared.grants.TheConstants.{MOST_GRANTS};

    ghost Value = { List Grant };

    ghost view = { λ r. r.grants.items };

    ghost invariant = { λ r. IsIndex (place_in r.places) r.grants.items
        × (length r.grants.items ≤ MOST_GRANTS) };
}

impl Roles {
    ghost use Rattle.tc_policy.specs.Places.{IsFirstNumber, IsWithoutFirst, grant};

    /// No grant.
    pub fn new(alloc: Global) -> Roles
        ensures { result ≡ [] }
    {
        Roles {
            grants: Vec::new(alloc),
            places: Places::new(alloc),
        }
    }

    /// The grants, in order.
    pub fn grants(&self) -> &[Grant]
        ensures { result.now ≡ self.now }
    {
        &self.grants
    }

    /// The number, from 1, of the first grant by which the role may use the
    /// primitive on the centre.
    pub fn permits(&self, role: u32, centre: u32, primitive: Primitive) -> Option<u32>
        ensures first { IfSome result (IsFirstNumber (grant role centre primitive) self.now) }
        ensures none { IfNone result (Contains self.now (grant role centre primitive) → ⊥) }
    {
        let place = self.places.get(&Grant {
            role,
            centre,
            primitive,
        })?;
        Some(*place + 1)
    }

    /// Equal grants.
    pub fn copy(&self, alloc: Global) -> Result<Roles, NoMemory>
        ensures { IfOk result (λ roles. roles ≡ self.now) }
    {
        let mut roles = Roles::new(alloc);
        for grant in &self.grants {
            roles.add(*grant)?;
        }
        Ok(roles)
    }

    /// Appends a grant.
    pub fn add(&mut self, g: Grant) -> Result<(), NoMemory>
        requires { length self.old < MOST_GRANTS }
        ensures added { OnOk result (self.new ≡ self.old ++ g ∷ []) }
        ensures same { OnErr result (self.new ≡ self.old) }
    {
        let place = self.grants.len() as u32;
        self.places.reserve(1)?;
        self.grants.push(g)?;
        note(&mut self.places, g, place);
        Ok(())
    }

    /// Removes the first grant that is equal to this one, where there is one. No memory is taken.
    ///
    /// Takes time in the number of grants.
    pub fn remove(&mut self, g: &Grant)
        ensures { IsWithoutFirst g.now self.old self.new }
    {
        let Some(place) = self.places.get(g).copied() else {
            return;
        };
        self.grants.remove(place as usize);
        forget(&mut self.places, &self.grants, *g, place);
    }
}
