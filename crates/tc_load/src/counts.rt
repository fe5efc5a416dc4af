//! What a centre has counted, by its tuples.
ghost use Rattle.std.specs.Prelude.{◌≡◌};
ghost use Rattle.tc_load.specs.Counts.{count_of, counted_in};

use tc_term::{Ground, Term};

/// The number `n` of a tuple `count(n)`; `None` of every other tuple.
pub fn count_of(tuple: &Ground) -> Option<i64>
    ensures { result ≡ count_of tuple.now }
{
    match tuple.term() {
        Term::Comp(name, args) if name.bytes() == b"count".as_slice() => match args.items() {
            [Term::Int(number)] => Some(*number),
            _ => None,
        },
        _ => None,
    }
}

/// The number of the first tuple `count(n)` among these, oldest first.
pub fn counted_in(tuples: &[Ground]) -> Option<i64>
    ensures { result ≡ counted_in tuples.now }
{
    for tuple in tuples {
        let number = count_of(tuple);
        if number.is_some() {
            return number;
        }
    }
    None
}
