//! The operators on numbers: each answers the exact number, where it has 64 bits.
ghost use Rattle.std.specs.Prelude.{◌≡◌, ◌≢◌, ◌+ℤ◌, ◌-ℤ◌, ◌*ℤ◌, neg_ℤ, int_div, pos};
ghost use Rattle.tc_term.specs.Arithmetic.{in_range, modulo};

/// The number with the other sign.
#[tactic(auto, using(crate::proofs::Ranges::in_range_is))]
pub fn opposite(x: i64) -> Option<i64>
    ensures { result ≡ in_range (neg_ℤ x) }
{
    x.checked_neg()
}

/// The sum of two numbers.
#[tactic(auto, using(crate::proofs::Ranges::in_range_is))]
pub fn sum(x: i64, y: i64) -> Option<i64>
    ensures { result ≡ in_range (x +ℤ y) }
{
    x.checked_add(y)
}

/// The first number less the second.
#[tactic(auto, using(crate::proofs::Ranges::in_range_is))]
pub fn difference(x: i64, y: i64) -> Option<i64>
    ensures { result ≡ in_range (x -ℤ y) }
{
    x.checked_sub(y)
}

/// The product of two numbers.
#[tactic(auto, using(crate::proofs::Ranges::in_range_is))]
pub fn product(x: i64, y: i64) -> Option<i64>
    ensures { result ≡ in_range (x *ℤ y) }
{
    x.checked_mul(y)
}

/// The quotient, truncated toward zero. Only the least number by -1 has none of 64 bits.
#[tactic(auto, using(crate::proofs::Ranges::in_range_quotient))]
pub fn quotient(x: i64, y: i64) -> Option<i64>
    requires { y ≢ pos 0 }
    ensures { result ≡ in_range (int_div x y) }
{
    x.checked_div(y)
}

/// The remainder that has the sign of the divisor.
#[tactic(auto, using(crate::proofs::Remainders::remainders))]
pub fn modulo(x: i64, y: i64) -> i64
    requires { y ≢ pos 0 }
    ensures { result ≡ modulo x y }
{
    if y == -1 {
        return 0;
    }
    let r = x.rem_euclid(y);
    if y < 0 && r != 0 { r + y } else { r }
}
