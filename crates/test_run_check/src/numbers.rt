//! Numbers that terms stand for.
use tc_term::Term;

/// The number that a term without variables is worked out to, if it is one of 64 bits.
pub fn worked_out(term: &Term) -> Option<i64> {
    match term {
        Term::Int(number) => Some(*number),
        Term::Comp(name, args) => match args.items() {
            [one] => of_one(name.bytes(), worked_out(one)?),
            [left, right] => of_two(name.bytes(), worked_out(left)?, worked_out(right)?),
            _ => None,
        },
        Term::Var(_) | Term::Atom(_) => None,
    }
}

// What an operator makes of one number.
fn of_one(name: &[u8], number: i64) -> Option<i64> {
    match name {
        b"-" => number.checked_neg(),
        _ => None,
    }
}

// What an operator makes of two numbers.
fn of_two(name: &[u8], left: i64, right: i64) -> Option<i64> {
    match name {
        b"+" => left.checked_add(right),
        b"-" => left.checked_sub(right),
        b"*" => left.checked_mul(right),
        b"//" => left.checked_div(right),
        b"mod" => modulo(left, right),
        _ => None,
    }
}

// The remainder that has the sign of the divisor.
fn modulo(left: i64, right: i64) -> Option<i64> {
    if right == 0 {
        return None;
    }
    let rest = left.wrapping_rem(right);
    if rest != 0 && (rest < 0) != (right < 0) {
        rest.checked_add(right)
    } else {
        Some(rest)
    }
}

/// Whether two numbers compare as this comparison says.
pub fn compare(name: &[u8], left: i64, right: i64) -> bool {
    match name {
        b"=:=" => left == right,
        b"=\\=" => left != right,
        b"<" => left < right,
        b">" => left > right,
        b"=<" => left <= right,
        b">=" => left >= right,
        _ => false,
    }
}
