//! Lists of numbers that stand beside the requests.
ghost use Rattle.std.specs.Prelude.{ℕ, ◌≡◌, ◌<◌, ◌≤◌, [], ◌∷◌, ◌++◌};
ghost use Rattle.std.specs.Prelude.{length, slice_index_or};
ghost use Rattle.std.specs.Prelude.{insert, IfOk, IfSome, IfNone, vec_len, vec_capacity};
ghost use Rattle.tc_pending.specs.Rising.{NumbersRise, IsAbove, IsAt};

use tc_lists::NoMemory;

/// A number above the others, and of at least `least`. Only behind 2^64 - 1 there is none.
pub(crate) fn number_behind(numbers: &[u64], least: u64) -> Result<u64, NoMemory>
    requires { NumbersRise numbers.now }
    ensures above { IfOk result (IsAbove numbers.now) }
    ensures least { IfOk result (λ number. least ≤ number) }
{
    match numbers.last() {
        None => Ok(least),
        Some(last) => match last.checked_add(1) {
            Some(number) => Ok(number.max(least)),
            None => Err(NoMemory),
        },
    }
}

/// How many numbers are below this one, of numbers that rise.
pub(crate) fn count_below(numbers: &[u64], number: u64) -> usize
    requires { NumbersRise numbers.now }
    ensures inside { result ≤ length numbers.now }
    ensures below { (k : ℕ) → k < result → slice_index_or numbers.now k 0 < number }
    ensures above { (k : ℕ) → result ≤ k → k < length numbers.now
        → number ≤ slice_index_or numbers.now k 0 }
{
    match numbers.binary_search(&number) {
        Ok(place) => place,
        Err(place) => place,
    }
}

/// The place of a number among numbers that rise.
pub(crate) fn place_of(numbers: &[u64], number: u64) -> Option<usize>
    requires { NumbersRise numbers.now }
    ensures found { IfSome result (IsAt numbers.now number) }
    ensures none { IfNone result ((k : ℕ) → IsAt numbers.now number k → ⊥) }
{
    numbers.binary_search(&number).ok()
}

/// Puts a number behind the others. No memory is taken.
pub(crate) fn append(numbers: &mut Vec<u64>, number: u64)
    requires { vec_len numbers.old < vec_capacity numbers.old }
    ensures items { numbers.new.items ≡ numbers.old.items ++ number ∷ [] }
    ensures capacity { vec_capacity numbers.old ≤ vec_capacity numbers.new }
{
    let _ = numbers.push(number);
}

/// Puts a number at a place. No memory is taken.
pub(crate) fn put_back(numbers: &mut Vec<u64>, place: usize, number: u64)
    requires inside { place ≤ vec_len numbers.old }
    requires room { vec_len numbers.old < vec_capacity numbers.old }
    ensures items { numbers.new.items ≡ insert numbers.old.items place number }
    ensures capacity { vec_capacity numbers.old ≤ vec_capacity numbers.new }
{
    let _ = numbers.insert(place, number);
}
