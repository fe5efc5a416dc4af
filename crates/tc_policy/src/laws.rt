//! Laws of grants and of their limit, for callers to cite.
ghost use Rattle.std.specs.Prelude.{◌≡◌, ℕ, Some, None, List, Contains};
ghost use Rattle.tc_policy.specs.Places.{IsFirstNumber, first_number};
ghost use Rattle.tc_policy.specs.declared.grants.Grant.{Grant};
ghost use Rattle.tc_policy.specs.declared.grants.TheConstants.{MOST_GRANTS};

/// A grant has a number exactly where it stands among the grants, and it is the first one's.
pub fn numbers_are_of_grants()
    ensures first { (g : Grant) (grants : List Grant) (number : ℕ)
        → first_number g grants ≡ Some number → IsFirstNumber g grants number }
    ensures stands { (g : Grant) (grants : List Grant) (number : ℕ)
        → first_number g grants ≡ Some number → Contains grants g }
    ensures has { (g : Grant) (grants : List Grant) → Contains grants g
        → (number : ℕ) × (first_number g grants ≡ Some number) }
    ensures none { (g : Grant) (grants : List Grant) → first_number g grants ≡ None
        → Contains grants g → ⊥ }
{}

/// The limits are these numbers.
pub fn limits_are_these()
    ensures grants { MOST_GRANTS ≡ 4294967295 }
{}
