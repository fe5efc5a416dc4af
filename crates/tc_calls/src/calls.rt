//! The numbers of an agent's calls, which rise, each with a place.
ghost use Rattle.std.specs.Prelude.{◌≡◌, ◌<◌, None, IfSome, IfNone, vec_len};
ghost use Rattle.std.specs.Prelude.{vec_capacity};
ghost use Rattle.tc_calls.specs.Calls.{place_of, IsAbove, IsAt, Rises, SetsPlace};

/// The place of the call of this number.
pub fn place_of(calls: &[(u64, usize)], number: u64) -> Option<usize>
    requires { Rises calls.now }
    ensures { result ≡ place_of calls.now number }
{
    match position(calls, number) {
        Some(at) => Some(calls[at].1),
        None => None,
    }
}

/// Puts the place of a new call behind the others. No memory is taken.
pub fn put_behind(calls: &mut Vec<(u64, usize)>, number: u64, place: usize)
    requires room { vec_len calls.old < vec_capacity calls.old }
    requires rises { Rises calls.old.items }
    requires above { IsAbove number calls.old.items }
    ensures rises { Rises calls.new.items }
    ensures places { SetsPlace number place calls.old.items calls.new.items }
{
    calls.push_reserved((number, place));
}

/// Puts another place for a call that has one.
pub fn put_again(calls: &mut Vec<(u64, usize)>, number: u64, place: usize)
    requires rises { Rises calls.old.items }
    requires there { place_of calls.old.items number ≡ None → ⊥ }
    ensures rises { Rises calls.new.items }
    ensures places { SetsPlace number place calls.old.items calls.new.items }
{
    match position(calls, number) {
        Some(at) => calls[at] = (number, place),
        None => unreachable!(),
    }
}

// Where the call of this number stands. The newest is looked at first.
fn position(calls: &[(u64, usize)], number: u64) -> Option<usize>
    requires { Rises calls.now }
    ensures found { IfSome result (IsAt calls.now number) }
    ensures none { IfNone result (place_of calls.now number ≡ None) }
{
    if let Some((newest, _)) = calls.last() {
        if *newest == number {
            return Some(calls.len() - 1);
        }
    }
    calls.binary_search_by_key(&number, |call| call.0).ok()
}
