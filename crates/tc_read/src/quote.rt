//! Quoted texts of any length, in the form in which they are printed.
ghost use Rattle.std.specs.Prelude.{◌≡◌, ◌≤◌, ◌∷◌, ◌++◌, List, IfNone};
ghost use Rattle.std.specs.Prelude.{IfOk, IfSome, drop, length, ℕ};
ghost use Rattle.tc_term.specs.Text.{quoted};
ghost use Rattle.tc_read.specs.Written.{IsQuotedAt, IsWritten};

use crate::begin::meant;
use crate::layout::next_byte;
use crate::lexeme::behind;
use crate::quoted::is_escaped;
use crate::read::rest_from;
use std::alloc::Global;
use tc_lists::NoMemory;

/// What stands at the front between quotes, as it is printed: the closing quote or a byte, and what
/// stands behind it, or neither.
#[derive(Clone, Copy)]
pub enum Written<'a> {
    Closing(&'a [u8]),
    Byte(u8, &'a [u8]),
    Fault,
}

fn first_written(text: &[u8]) -> Written<'_>
    ensures { IsWritten text.now result }
{
    match next_byte(text) {
        None => Written::Fault,
        Some((first, after)) => match first {
            b'\'' => Written::Closing(after),
            b'\\' => written_escape(after),
            b'\n' => Written::Fault,
            b'\t' => Written::Fault,
            _ => Written::Byte(first, after),
        },
    }
}

fn written_escape(after: &[u8]) -> Written<'_>
    ensures { IsWritten (92 ∷ after.now) result }
{
    match next_byte(after) {
        None => Written::Fault,
        Some((second, rest)) => {
            if is_escaped(second) {
                Written::Byte(meant(second), rest)
            } else {
                Written::Fault
            }
        }
    }
}

/// The bytes whose quoted text stands at this place, as it is printed, and the place behind it.
pub fn read_quoted(
    alloc: Global,
    text: &[u8],
    from: usize,
) -> Result<Option<(Vec<u8>, usize)>, NoMemory>
    requires { from ≤ length text.now }
    ensures found { IfOk result (λ r. IfSome r (λ q. IsQuotedAt text.now from q.0.items q.1)) }
    ensures none { IfOk result
        (λ r. IfNone r ((bytes rest : List ℕ)
        → drop from text.now ≡ quoted bytes ++ rest → ⊥)) }
{
    let mut rest = match behind(rest_from(text, from), b'\'') {
        None => return Ok(None),
        Some(after) => after,
    };
    let mut bytes = Vec::new(alloc);
    loop {
        match first_written(rest) {
            Written::Closing(after) => return Ok(Some((bytes, text.len() - after.len()))),
            Written::Fault => return Ok(None),
            Written::Byte(byte, after) => {
                bytes.push(byte)?;
                rest = after;
            }
        }
    }
}
