//! Names in canonical text: plain words, and quoted ones that cannot be written plainly.
ghost use Rattle.std.specs.Prelude.{◌≡◌, ◌∷◌, IfOk, List, true, ℕ};
ghost use Rattle.tc_lists.specs.Seen.{seen};
ghost use Rattle.tc_read.specs.Front.{name_at, quoted_at, unplain, word_at};
ghost use Rattle.tc_term.specs.Bytes.{is_name_start};

use crate::layout::next_byte;
use crate::lexeme::word_length;
use crate::quote::read_quoted;
use crate::read::rest_from;
use std::alloc::Global;
use tc_lists::NoMemory;
use tc_term::{Name, is_name};

/// A name, if one stands there, and what stands behind it.
pub type ReadName<'a> = Result<Option<(Name, &'a [u8])>, NoMemory>;

/// The name whose quoted text stands at the front, unless it can be written plainly.
fn quoted_name<'a>(alloc: Global, bytes: &'a [u8]) -> ReadName<'a>
    ensures { (s : List ℕ) → bytes.now ≡ 39 ∷ s
        → IfOk result (λ r. seen r ≡ unplain (quoted_at s)) }
{
    let Some((name, end)) = read_quoted(alloc, bytes, 0)? else {
        return Ok(None);
    };
    if is_name(&name) {
        return Ok(None);
    }
    Ok(Some((Name::from_vec(alloc, name)?, rest_from(bytes, end))))
}

/// The name of these bytes. One of one byte or two is made without a call.
#[inline(always)]
pub fn name_of(alloc: Global, bytes: &[u8]) -> Result<Name, NoMemory>
    ensures { IfOk result (λ name. name ≡ bytes.now) }
{
    match bytes {
        [a] => Name::new(alloc, &[*a]),
        [a, b] => Name::new(alloc, &[*a, *b]),
        _ => Name::new(alloc, bytes),
    }
}

/// The plain word at the front, of at most so many bytes, and what stands behind it.
#[inline(always)]
pub fn plain_word<'a>(
    bytes: &'a [u8],
    first: u8,
    after: &[u8],
    limit: usize,
) -> (&'a [u8], &'a [u8])
    requires bytes { bytes.now ≡ first ∷ after.now }
    requires first { is_name_start first ≡ true }
    ensures { (result.0.now, result.1.now) ≡ word_at limit bytes.now }
{
    bytes.split_at((word_length(after) + 1).min(limit))
}

/// The name at the front, as it is printed, and what stands behind it.
///
/// A plain one has at most so many bytes; one in quotes is any that can't be written plainly. `[]` is
/// none.
#[inline(always)]
pub fn name_at<'a>(alloc: Global, bytes: &'a [u8], limit: usize) -> ReadName<'a>
    ensures { IfOk result (λ r. seen r ≡ name_at limit bytes.now) }
{
    match next_byte(bytes) {
        None => Ok(None),
        Some((b'\'', _)) => quoted_name(alloc, bytes),
        Some((first, after)) => {
            if first.is_ascii_lowercase() && limit > 0 {
                let (word, rest) = plain_word(bytes, first, after, limit);
                return Ok(Some((name_of(alloc, word)?, rest)));
            }
            Ok(None)
        }
    }
}
