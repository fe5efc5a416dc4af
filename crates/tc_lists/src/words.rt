//! Words at the front of bytes.
//!
//! What is read at the front is a function on lists: `specs/AtFront` has those of which further
//! readers are made. So a reader has one clause, and its code has the shape of its function:
//!
//! ```rattle
//! /// The number in brackets at the front.
//! pub fn number_in_brackets(bytes: &[u8]) -> Option<(u64, &[u8])>
//!     ensures { seen result ≡ between (codes "(") (codes ")") (number_at 99) bytes.now }
//! {
//!     let rest = behind(bytes, b"(")?;
//!     let (number, rest) = read_number(rest, 99)?;
//!     let rest = behind(rest, b")")?;
//!     Some((number, rest))
//! }
//! ```
ghost use Rattle.std.specs.Prelude.{◌≡◌};
ghost use Rattle.std.specs.Option.{option_map};
ghost use Rattle.tc_lists.specs.Texts.{after};

/// What stands behind a word, where it stands at the front.
pub fn behind<'a>(bytes: &'a [u8], word: &[u8]) -> Option<&'a [u8]>
    ensures { option_map (λ rest. rest.now) result ≡ after word.now bytes.now }
{
    bytes.strip_prefix(word)
}
