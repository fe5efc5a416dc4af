//! Short names as numbers: the bytes are digits of base 256, and each digit counts one more.
ghost use Rattle.std.specs.Prelude.{◌≡◌, ◌<◌, ◌≤◌, length, IfOk};
ghost use Rattle.tc_unify.specs.Names.{name_at};

use std::alloc::Global;
use tc_lists::NoMemory;

/// The most bytes that a short name has.
pub(crate) const SHORT: usize = 7;

/// How many names there are of at most so many bytes.
pub(crate) const SHORT_NAMES: usize = 0x0101_0101_0101_0101;

/// The number of a short name. No other name has it.
pub(crate) fn code_of(name: &[u8]) -> usize
    requires { length name.now ≤ SHORT }
    ensures name { name_at result ≡ name.now }
    ensures small { result < SHORT_NAMES }
{
    let mut code = 0;
    let mut place = name.len();
    while place > 0 {
        place -= 1;
        code = code * 256 + name[place] as usize + 1;
    }
    code
}

/// The bytes of the short name that has this number.
pub(crate) fn name_of(alloc: Global, code: usize) -> Result<Vec<u8>, NoMemory>
    requires { code < SHORT_NAMES }
    ensures { IfOk result (λ bytes. bytes.items ≡ name_at code) }
{
    let mut bytes = Vec::new(alloc);
    let mut rest = code;
    while rest > 0 {
        bytes.push(((rest - 1) % 256) as u8)?;
        rest = (rest - 1) / 256;
    }
    Ok(bytes)
}
