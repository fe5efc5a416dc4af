//! The longest token at the front of a text.
ghost use Rattle.std.specs.Prelude.{◌≡◌, ◌∷◌, IfNone, IfSome, drop, take};
ghost use Rattle.std.specs.Char.{is_ascii_digit};
ghost use Rattle.std.specs.List.{prefix_len};
ghost use Rattle.tc_term.specs.Bytes.{is_word};
ghost use Rattle.tc_term.specs.Tokens.{BeginsNone};
ghost use Rattle.tc_read.specs.Lexemes.{lexeme_view};
ghost use Rattle.tc_read.specs.Lexing.{Begins};

use crate::layout::next_byte;
use crate::lexeme::{Lexeme, digits_length, punctuation, symbol, word_length};
use crate::quoted::quoted_length;
use tc_term::is_variable_start;

/// The longest token at the front, and what stands behind it.
pub fn longest(text: &[u8]) -> Option<(Lexeme<'_>, &[u8])>
    ensures some { IfSome result (λ r. Begins text.now (lexeme_view r.0) r.1.now) }
    ensures none { IfNone result (BeginsNone text.now) }
{
    match next_byte(text) {
        None => None,
        Some((first, after)) => begun(text, first, after),
    }
}

/// The longest token that begins with this byte.
fn begun<'a>(text: &'a [u8], first: u8, after: &'a [u8]) -> Option<(Lexeme<'a>, &'a [u8])>
    requires { text.now ≡ first ∷ after.now }
    ensures some { IfSome result (λ r. Begins text.now (lexeme_view r.0) r.1.now) }
    ensures none { IfNone result (BeginsNone text.now) }
{
    if let Some(mark) = punctuation(first) {
        return Some((Lexeme::Punctuation(mark), after));
    }
    if first.is_ascii_lowercase() {
        let (bytes, rest) = words(text, first, after);
        return Some((Lexeme::Word(bytes), rest));
    }
    if is_variable_start(first) {
        let (bytes, rest) = words(text, first, after);
        return Some((Lexeme::Variable(bytes), rest));
    }
    if first.is_ascii_digit() {
        let (bytes, rest) = digits(text, first, after);
        return Some((Lexeme::Number(bytes), rest));
    }
    if first == b'\'' {
        return quoted(after);
    }
    match symbol(first, after) {
        Some((sign, rest)) => Some((Lexeme::Symbol(sign), rest)),
        None => None,
    }
}

/// The first byte and the word bytes behind it, and what stands behind them.
fn words<'a>(text: &'a [u8], first: u8, after: &[u8]) -> (&'a [u8], &'a [u8])
    requires { text.now ≡ first ∷ after.now }
    ensures bytes { result.0.now ≡ first ∷ take (prefix_len is_word after.now) after.now }
    ensures rest { result.1.now ≡ drop (prefix_len is_word after.now) after.now }
{
    text.split_at(word_length(after) + 1)
}

/// The first byte and the digits behind it, and what stands behind them.
fn digits<'a>(text: &'a [u8], first: u8, after: &[u8]) -> (&'a [u8], &'a [u8])
    requires { text.now ≡ first ∷ after.now }
    ensures bytes { result.0.now
        ≡ first ∷ take (prefix_len is_ascii_digit after.now) after.now }
    ensures rest { result.1.now ≡ drop (prefix_len is_ascii_digit after.now) after.now }
{
    text.split_at(digits_length(after) + 1)
}

/// The quoted token whose first quote has been read.
fn quoted(after: &[u8]) -> Option<(Lexeme<'_>, &[u8])>
    ensures some { IfSome result (λ r. Begins (39 ∷ after.now) (lexeme_view r.0) r.1.now) }
    ensures none { IfNone result (BeginsNone (39 ∷ after.now)) }
{
    match quoted_length(after) {
        None => None,
        Some(length) => {
            let (inside, _) = after.split_at(length - 1);
            let (_, rest) = after.split_at(length);
            Some((Lexeme::Quoted(inside), rest))
        }
    }
}
