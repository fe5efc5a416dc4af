//! What is gathered from the tokens of a text.
ghost use Rattle.std.specs.Prelude.{◌≡◌, ◌∷◌, ◌++◌, [], IfOk, MatchOption, OnOk};
ghost use Rattle.std.specs.Prelude.{None, Some, List, ℕ};
ghost use Rattle.tc_term.specs.Faults.{or_else, wide_at};
ghost use Rattle.tc_term.specs.Grammar.{Integer};
ghost use Rattle.tc_term.specs.Layouts.{At};
ghost use Rattle.tc_term.specs.Tokens.{Number, Punctuation, decimal_from};
ghost use Rattle.tc_read.specs.Lexemes.{lexeme_view, mark_view};
ghost use Rattle.tc_read.specs.Views.{token_view};

use crate::brackets::Brackets;
use crate::lexeme::{Lexeme, Mark};
use crate::numbers::number;
use crate::tokens::Token;
use crate::variables::Variables;
use std::alloc::Global;
use tc_lists::NoMemory;

/// The tokens so far, their variables and brackets, the place of the first integer above
/// 9223372036854775808, and the place of the first token. Once there is such an integer, the tokens
/// are of no use.
#[derive(Drop)]
pub struct Scanner<'a> {
    pub tokens: Vec<Token<'a>>,
    pub variables: Variables<'a>,
    pub brackets: Brackets,
    pub wide: Option<usize>,
    pub first: Option<usize>,
}

/// The integer as the grammar sees it, if it is at most 9223372036854775808.
#[inline(always)]
fn integer(digits: &[u8], place: usize, direct: bool) -> Option<Token<'static>>
    ensures { MatchOption result (wide_at place (Number (decimal_from 0 digits.now)) ≡ Some place)
        (λ t. (wide_at place (Number (decimal_from 0 digits.now)) ≡ None)
        × (token_view t ≡ Integer direct (decimal_from 0 digits.now) place)) }
{
    match number(digits) {
        Some(value) => Some(Token::Integer {
            direct,
            value,
            place,
        }),
        None => None,
    }
}

/// The place that was found before, or this one.
fn earlier(found: Option<usize>, place: usize) -> Option<usize>
    ensures { result ≡ or_else found (Some place) }
{
    match found {
        Some(before) => Some(before),
        None => Some(place),
    }
}

impl<'a> Scanner<'a> {
    ghost use Rattle.tc_read.specs.Scanner.{Gathers, IsPushed, Takes};

    /// Nothing has been gathered.
    pub fn new(alloc: Global) -> Result<Scanner<'a>, NoMemory>
        ensures { IfOk result (λ s. Gathers s []) }
    {
        Ok(Scanner {
            tokens: Vec::with_capacity(alloc, 40)?,
            variables: Variables::new(alloc),
            brackets: Brackets::new(),
            wide: None,
            first: None,
        })
    }

    /// Adds the next token.
    #[inline(always)]
    pub fn add(&mut self, lexeme: Lexeme<'a>, place: usize, direct: bool) -> Result<(), NoMemory>
        ensures { OnOk result
            ((before : List At) → Gathers self.old before
            → Gathers self.new (before ++
            record { lexeme = lexeme_view lexeme.entry; place = place; glued = direct } ∷ [])) }
    {
        self.first = earlier(self.first, place);
        self.take(lexeme, place, direct)?;
        Ok(())
    }

    // All that the next token changes but for the place of the first. Each kind of token is written
    // in its own place, since the bytes that tell them apart have been looked at there.
    #[inline(always)]
    fn take(&mut self, lexeme: Lexeme<'a>, place: usize, direct: bool) -> Result<(), NoMemory>
        ensures { OnOk result (Takes self.old self.new
            (record { lexeme = lexeme_view lexeme.entry; place = place; glued = direct })) }
    {
        match lexeme {
            Lexeme::Word(name) => self.push(Token::Word(name)),
            Lexeme::Variable(name) => {
                let number = self.variables.number(name)?;
                self.push(Token::Variable(number))
            }
            Lexeme::Number(digits) => match integer(digits, place, direct) {
                Some(token) => self.push(token),
                None => {
                    self.wide = earlier(self.wide, place);
                    Ok(())
                }
            },
            Lexeme::Quoted(inside) => self.push(Token::Quoted(inside)),
            Lexeme::Symbol(sign) => self.push(Token::Symbol(sign)),
            Lexeme::Punctuation(mark) => self.mark(mark, direct),
        }
    }

    // The same of punctuation.
    #[inline(always)]
    fn mark(&mut self, mark: Mark, direct: bool) -> Result<(), NoMemory>
        ensures { OnOk result ((place : ℕ) → Takes self.old self.new
            (record { lexeme = Punctuation (mark_view mark); place = place; glued = direct })) }
    {
        match mark {
            Mark::Open => {
                self.brackets.opened();
                self.push(Token::Open(direct))
            }
            Mark::Close => {
                self.brackets.closed();
                self.push(Token::Close)
            }
            Mark::OpenList => {
                self.brackets.opened();
                self.push(Token::OpenList)
            }
            Mark::CloseList => {
                self.brackets.closed();
                self.push(Token::CloseList)
            }
            Mark::Comma => self.push(Token::Comma),
            Mark::Bar => self.push(Token::Bar),
        }
    }

    // The token behind those so far.
    #[inline(always)]
    fn push(&mut self, token: Token<'a>) -> Result<(), NoMemory>
        ensures { OnOk result (IsPushed self.old self.new token.entry) }
    {
        self.tokens.push(token)?;
        Ok(())
    }
}
