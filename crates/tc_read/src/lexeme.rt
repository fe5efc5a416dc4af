//! The longest token at the front of a text.
ghost use Rattle.std.specs.Prelude.{◌≡◌, ◌<◌, ◌≤◌, ◌&&◌, ◌∷◌, ◌++◌};
ghost use Rattle.std.specs.Prelude.{false, IfNone, IfSome};
ghost use Rattle.std.specs.Prelude.{None, Some, length, true};
ghost use Rattle.std.specs.List.{prefix_len};
ghost use Rattle.std.specs.Char.{is_ascii_digit};
ghost use Rattle.tc_term.specs.Bytes.{is_word};
ghost use Rattle.tc_term.specs.Tokens.{mark_byte, sign_bytes};
ghost use Rattle.tc_read.specs.Lexemes.{mark_view};
ghost use Rattle.tc_read.specs.Lexing.{after_one, equal_sign};
ghost use Rattle.tc_read.specs.Lexing.{is_mark, leads_with, sign_at};
ghost use Rattle.tc_read.specs.Views.{sign_view};

use crate::layout::next_byte;
use crate::tokens::Sign;
use tc_term::is_word;

/// Punctuation.
#[derive(Clone, Copy)]
pub enum Mark {
    Open,
    Close,
    OpenList,
    CloseList,
    Comma,
    Bar,
}

/// A token as it is spelled. A quoted one is what stands between its quotes.
#[derive(Clone, Copy)]
pub enum Lexeme<'a> {
    Word(&'a [u8]),
    Variable(&'a [u8]),
    Number(&'a [u8]),
    Quoted(&'a [u8]),
    Symbol(Sign),
    Punctuation(Mark),
}

/// The punctuation mark that the byte is.
pub fn punctuation(byte: u8) -> Option<Mark>
    ensures some { IfSome result
        (λ m. (byte ≡ mark_byte (mark_view m)) × (is_mark byte ≡ true)) }
    ensures none { IfNone result (is_mark byte ≡ false) }
{
    match byte {
        b'(' => Some(Mark::Open),
        b')' => Some(Mark::Close),
        b'[' => Some(Mark::OpenList),
        b']' => Some(Mark::CloseList),
        b',' => Some(Mark::Comma),
        b'|' => Some(Mark::Bar),
        _ => None,
    }
}

/// How many word bytes stand at the front.
#[inline(always)]
pub fn word_length(text: &[u8]) -> usize
    ensures length { result ≡ prefix_len is_word text.now }
    ensures within { result ≤ length text.now }
{
    text.iter().take_while(|byte| is_word(**byte)).count()
}

/// How many digits stand at the front.
pub fn digits_length(text: &[u8]) -> usize
    ensures length { result ≡ prefix_len is_ascii_digit text.now }
    ensures within { result ≤ length text.now }
{
    text.iter().take_while(|byte| byte.is_ascii_digit()).count()
}

/// What stands behind this byte at the front.
pub fn behind(text: &[u8], byte: u8) -> Option<&[u8]>
    ensures some { IfSome result (λ r. text.now ≡ byte ∷ r.now) }
    ensures none { IfNone result (leads_with byte text.now ≡ false) }
{
    match next_byte(text) {
        None => None,
        Some((first, after)) => { if first == byte { Some(after) } else { None } }
    }
}

/// The longest symbol that begins with `=`, behind it.
fn equal_symbol(text: &[u8]) -> (Sign, &[u8])
    ensures sign { sign_view result.0 ≡ equal_sign text.now }
    ensures rest { 61 ∷ text.now ≡ sign_bytes (sign_view result.0) ++ result.1.now }
{
    if let Some(after) = behind_two(text, b':') {
        return (Sign::EqColonEq, after);
    }
    if let Some(after) = behind_two(text, b'\\') {
        return (Sign::EqBackEq, after);
    }
    match behind(text, b'<') {
        Some(after) => (Sign::EqLess, after),
        None => (Sign::Equal, text),
    }
}

/// What stands behind this byte and `=` at the front.
fn behind_two(text: &[u8], byte: u8) -> Option<&[u8]>
    ensures some { IfSome result (λ r. text.now ≡ byte ∷ 61 ∷ r.now) }
    ensures none { IfNone result
        ((leads_with byte text.now && leads_with 61 (after_one text.now)) ≡ false) }
{
    match behind(text, byte) {
        None => None,
        Some(after) => behind(after, b'='),
    }
}

/// The longest symbol that begins with this byte, and what stands behind it.
pub fn symbol(byte: u8, text: &[u8]) -> Option<(Sign, &[u8])>
    ensures some { IfSome result
        (λ r. (sign_at byte text.now ≡ Some (sign_view r.0))
        × (byte ∷ text.now ≡ sign_bytes (sign_view r.0) ++ r.1.now)) }
    ensures none { IfNone result (sign_at byte text.now ≡ None) }
{
    match byte {
        b'=' => Some(equal_symbol(text)),
        b'>' => match behind(text, b'=') {
            Some(after) => Some((Sign::GreaterEq, after)),
            None => Some((Sign::Greater, text)),
        },
        b'\\' => match behind(text, b'=') {
            Some(after) => Some((Sign::BackEq, after)),
            None => None,
        },
        b'/' => match behind(text, b'/') {
            Some(after) => Some((Sign::SlashSlash, after)),
            None => None,
        },
        b'<' => Some((Sign::Less, text)),
        b'+' => Some((Sign::Plus, text)),
        b'-' => Some((Sign::Minus, text)),
        b'*' => Some((Sign::Star, text)),
        b'?' => Some((Sign::Ask, text)),
        _ => None,
    }
}
