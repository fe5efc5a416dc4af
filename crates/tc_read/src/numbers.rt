//! The numbers that digits spell.
ghost use Rattle.std.specs.Prelude.{◌≡◌, ◌<◌, ◌≤◌, ◌^◌, IfNone, IfSome};
ghost use Rattle.tc_term.specs.Tokens.{decimal_from};

const LARGEST: u64 = 1 << 63;

/// The number, where it is at most 9223372036854775808.
pub fn number(digits: &[u8]) -> Option<u64>
    ensures some { IfSome result (λ n. (n ≡ decimal_from 0 digits.now) × (n ≤ 2 ^ 63)) }
    ensures none { IfNone result (2 ^ 63 < decimal_from 0 digits.now) }
{
    let mut number = 0;
    for digit in digits {
        if number > LARGEST / 10 {
            return None;
        }
        number = number * 10 + u64::from(digit.saturating_sub(b'0'));
        if number > LARGEST {
            return None;
        }
    }
    Some(number)
}
