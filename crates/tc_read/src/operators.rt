//! The operators between two terms.
ghost use Rattle.std.specs.Prelude.{◌≡◌, ◌<◌};
ghost use Rattle.tc_term.specs.Grammar.{infix_of, operator_named, operator_of, xfx, yfx};
ghost use Rattle.tc_term.specs.Tokens.{sign_bytes};
ghost use Rattle.tc_read.specs.Views.{operator_view, operator_option, sign_view, token_view};

use crate::tokens::{Sign, Token};

/// The highest priority of a term by itself and of one in round brackets, which is the comma's.
pub const WHOLE_PRIORITY: u16 = 1000;

/// The highest priority of an argument, and of an element of a list.
pub const ARGUMENT_PRIORITY: u16 = 999;

/// The priority of a minus with its term, and the highest one of that term.
pub const MINUS_PRIORITY: u16 = 200;

/// An operator: its name, its priority, and the highest priority of each side.
#[derive(Clone, Copy)]
pub struct Operator {
    pub name: &'static [u8],
    pub priority: u16,
    pub left: u16,
    pub right: u16,
}

/// The operator that the token is behind a term.
#[inline(always)]
pub fn infix(token: Token) -> Option<Operator>
    ensures { operator_option result ≡ infix_of (token_view token.entry) }
{
    match token {
        Token::Comma => Some(Operator {
            name: b",",
            priority: WHOLE_PRIORITY,
            left: ARGUMENT_PRIORITY,
            right: WHOLE_PRIORITY,
        }),
        Token::Symbol(sign) => Some(symbol_operator(sign)),
        Token::Word(name) => word_operator(name),
        _ => None,
    }
}

/// Both sides are of lower priority.
fn xfx(name: &'static [u8], priority: u16) -> Operator
    requires { 0 < priority }
    ensures { operator_view result ≡ xfx name.now priority }
{
    Operator {
        left: priority - 1,
        ..yfx(name, priority)
    }
}

/// The left side may have the same priority.
fn yfx(name: &'static [u8], priority: u16) -> Operator
    requires { 0 < priority }
    ensures { operator_view result ≡ yfx name.now priority }
{
    Operator {
        name,
        priority,
        left: priority,
        right: priority - 1,
    }
}

/// The name of a symbol.
pub fn symbol_name(sign: Sign) -> &'static [u8]
    ensures { result.now ≡ sign_bytes (sign_view sign) }
{
    match sign {
        Sign::Ask => b"?",
        Sign::Equal => b"=",
        Sign::BackEq => b"\\=",
        Sign::EqColonEq => b"=:=",
        Sign::EqBackEq => b"=\\=",
        Sign::Less => b"<",
        Sign::Greater => b">",
        Sign::EqLess => b"=<",
        Sign::GreaterEq => b">=",
        Sign::Plus => b"+",
        Sign::Minus => b"-",
        Sign::Star => b"*",
        Sign::SlashSlash => b"//",
    }
}

fn symbol_operator(sign: Sign) -> Operator
    ensures { operator_view result ≡ operator_of (sign_view sign) }
{
    let name = symbol_name(sign);
    match sign {
        Sign::Ask => xfx(name, 800),
        Sign::Plus | Sign::Minus => yfx(name, 500),
        Sign::Star | Sign::SlashSlash => yfx(name, 400),
        _ => xfx(name, 700),
    }
}

fn word_operator(name: &[u8]) -> Option<Operator>
    ensures { operator_option result ≡ operator_named name.now }
{
    match name {
        [b'i', b's'] => Some(xfx(b"is", 700)),
        [b'm', b'o', b'd'] => Some(yfx(b"mod", 400)),
        _ => None,
    }
}
