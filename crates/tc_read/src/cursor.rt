//! What stands at the front of tokens.
ghost use Rattle.std.specs.Prelude.{◌≡◌, ◌∷◌, [], IfNone, IfSome, MatchOption, map};
ghost use Rattle.std.specs.Prelude.{true};
ghost use Rattle.tc_term.specs.Grammar.{CloseList, Integer, NotCalled, NotNumber, Open};
ghost use Rattle.tc_read.specs.Delimiters.{NoDelimiter, NotClosed, delimiter_view};
ghost use Rattle.tc_read.specs.Views.{token_view};

use crate::tokens::{Token, Tokens};

/// What may stand behind a whole term in an open place.
#[derive(Clone, Copy)]
pub enum Delimiter {
    Close,
    CloseList,
    Comma,
    Bar,
}

/// The first token and the others.
#[inline(always)]
pub fn next<'a>(tokens: Tokens<'a>) -> Option<(Token<'a>, Tokens<'a>)>
    ensures { MatchOption result (tokens.now ≡ []) (λ r. tokens.now ≡ r.0 ∷ r.1.now) }
{
    match tokens {
        [] => None,
        [first, rest @ ..] => Some((*first, rest)),
    }
}

/// What follows a round bracket that directly follows here.
pub fn called<'a>(tokens: Tokens<'a>) -> Option<Tokens<'a>>
    ensures some { IfSome result
        (λ after. map token_view tokens.now ≡ Open true ∷ map token_view after.now) }
    ensures none { IfNone result (NotCalled (map token_view tokens.now)) }
{
    match next(tokens) {
        Some((Token::Open(true), after)) => Some(after),
        _ => None,
    }
}

/// The size and the place of an integer that directly follows here, and what follows it.
pub fn direct_integer<'a>(tokens: Tokens<'a>) -> Option<(u64, usize, Tokens<'a>)>
    ensures some { IfSome result
        (λ r. map token_view tokens.now ≡ Integer true r.0 r.1 ∷ map token_view r.2.now) }
    ensures none { IfNone result (NotNumber (map token_view tokens.now)) }
{
    match next(tokens) {
        Some(
            (
                Token::Integer {
                    direct: true,
                    value,
                    place,
                },
                after,
            ),
        ) => Some((value, place, after)),
        _ => None,
    }
}

/// What follows a square bracket that closes here.
pub fn closed_list<'a>(tokens: Tokens<'a>) -> Option<Tokens<'a>>
    ensures some { IfSome result
        (λ after. map token_view tokens.now ≡ CloseList ∷ map token_view after.now) }
    ensures none { IfNone result (NotClosed (map token_view tokens.now)) }
{
    match next(tokens) {
        Some((Token::CloseList, after)) => Some(after),
        _ => None,
    }
}

/// The delimiter at the front, and what follows it.
#[inline(always)]
pub fn delimited<'a>(tokens: Tokens<'a>) -> Option<(Delimiter, Tokens<'a>)>
    ensures some { IfSome result
        (λ r. map token_view tokens.now ≡ delimiter_view r.0 ∷ map token_view r.1.now) }
    ensures none { IfNone result (NoDelimiter (map token_view tokens.now)) }
{
    match next(tokens) {
        Some((Token::Close, after)) => Some((Delimiter::Close, after)),
        Some((Token::CloseList, after)) => Some((Delimiter::CloseList, after)),
        Some((Token::Comma, after)) => Some((Delimiter::Comma, after)),
        Some((Token::Bar, after)) => Some((Delimiter::Bar, after)),
        _ => None,
    }
}
