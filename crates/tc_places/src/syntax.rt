//! Where a text stops being a clause: at its first token that can't follow.
use crate::parts::begins_guard;
use crate::spans::{Span, line_start, part, rest};
use crate::tokens::{Kind, Token, next_token};
use crate::words::{begins_with_name, is_clause_word, most_arguments};
use std::alloc::Global;
use tc_lists::NoMemory;
use tc_term::MOST_BRACKETS;

/// Why the tokens can't go on.
#[derive(Clone, Copy, Debug, PartialEq, Eq)]
pub enum Why {
    /// They can.
    Fine,
    /// No token begins here.
    Byte,
    /// The text ends before the clause does.
    TextEnd,
    /// The full stop comes too early.
    ClauseEnd,
    /// A line begins as a further clause would.
    NextClause,
    /// A bracket closes none, or one of the other kind.
    Closing,
    /// A term stands behind a term.
    TwoTerms,
    /// A term is missing before this token.
    NoTerm,
    /// Two operators don't stand in a row.
    TwoOperators,
    /// A bar, or a comma behind one, stands where none may.
    Bar,
    /// Too many brackets are open.
    Deep,
}

/// Where tokens can't go on.
#[derive(Clone, Copy, Debug)]
pub struct Stuck {
    pub why: Why,
    /// The token here, or the end of the text, and the one before it.
    pub here: Token,
    pub before: Token,
    /// Whether a term has just ended.
    pub holds: bool,
    /// The innermost bracket that is open, and how many are.
    pub open: Option<Span>,
    pub count: usize,
    /// Where the brackets first can't be as they are meant.
    pub odd: Option<Odd>,
}

/// A token by which brackets can't be as they are meant.
#[derive(Clone, Copy, Debug)]
pub enum Odd {
    /// A comma behind which this name has more arguments than it may have.
    Excess(Span, Span),
    /// A comma that stands in no bracket.
    Outside(Span),
    /// A bracket before a first argument that has none.
    Doubled(Span),
}

// What a bracket that stands open is for.
#[derive(Clone, Copy, PartialEq, Eq)]
enum Bracket {
    Call,
    Group,
    List,
    Tail,
}

// A bracket that stands open, behind a name that may have so many arguments, with its commas.
#[derive(Clone, Copy)]
struct Frame {
    bracket: Bracket,
    at: Span,
    name: Span,
    most: usize,
    commas: usize,
    loose: Loose,
}

// Which operators that don't stand in a row have been there.
#[derive(Clone, Copy)]
struct Loose {
    compares: bool,
    asks: bool,
}

// A walk over the tokens of a clause.
#[derive(Drop)]
struct Walker<'a> {
    text: &'a [u8],
    indent: usize,
    frames: Vec<Frame>,
    top: Loose,
    holds: bool,
    name: Option<Span>,
    before: Token,
    odd: Option<Odd>,
}

const STRICT: Loose = Loose {
    compares: false,
    asks: false,
};

/// Where the clause stops that begins at a place.
pub fn clause_stop(alloc: Global, text: &[u8], from: usize) -> Result<Stuck, NoMemory> {
    let mut walker = Walker::new(alloc, text, from);
    let mut at = from;
    for _ in from..text.len() {
        let Some(token) = next_token(text, at) else {
            break;
        };
        let why = walker.step(token, from)?;
        if why != Why::Fine || token.kind == Kind::End {
            return Ok(walker.stop(why, token));
        }
        walker.before = token;
        at = token.span.to;
    }
    let end = end_token(at);
    Ok(walker.stop(Why::TextEnd, end))
}

// A token for the end of the text.
fn end_token(at: usize) -> Token {
    Token {
        kind: Kind::End,
        span: Span::at(at),
        direct: true,
    }
}

impl<'a> Walker<'a> {
    fn new(alloc: Global, text: &'a [u8], from: usize) -> Walker<'a> {
        Walker {
            text,
            indent: from.saturating_sub(line_start(text, from)),
            frames: Vec::new(alloc),
            top: STRICT,
            holds: false,
            name: None,
            before: end_token(from),
            odd: None,
        }
    }

    fn stop(&self, why: Why, here: Token) -> Stuck {
        let open = match self.frames.last() {
            Some(frame) => Some(frame.at),
            None => None,
        };
        Stuck {
            why,
            here,
            before: self.before,
            holds: self.holds,
            open,
            count: self.frames.len(),
            odd: self.odd,
        }
    }

    // Goes on by a token.
    fn step(&mut self, token: Token, from: usize) -> Result<Why, NoMemory> {
        if token.kind == Kind::Other {
            return Ok(Why::Byte);
        }
        if token.span.from > from && self.begins_clause(token) {
            return Ok(Why::NextClause);
        }
        if self.holds {
            return Ok(self.go_on(token));
        }
        self.begin(token)
    }

    // Whether the token begins a line as a clause does, no deeper than this one.
    fn begins_clause(&self, token: Token) -> bool {
        if token.kind != Kind::Name || !self.is_called(token) {
            return false;
        }
        let layout = Span {
            from: self.before.span.to,
            to: token.span.from,
        };
        let layout = part(self.text, layout);
        let indent = layout
            .iter()
            .rev()
            .take_while(|byte| **byte != b'\n')
            .count();
        indent < layout.len()
            && indent <= self.indent
            && is_clause_word(part(self.text, token.span))
    }

    // Whether a bracket directly follows.
    fn is_called(&self, token: Token) -> bool {
        matches!(rest(self.text, token.span.to), [b'(', ..])
    }

    // Goes on where a term is awaited.
    fn begin(&mut self, token: Token) -> Result<Why, NoMemory> {
        match token.kind {
            Kind::Variable | Kind::Number => self.holds = true,
            Kind::Name | Kind::Quoted => self.named(token),
            Kind::Symbol => return Ok(self.signed(token)),
            Kind::Open => return self.open(token),
            Kind::OpenList => return self.open_list(token),
            Kind::CloseList if self.before.kind == Kind::OpenList => {
                self.frames.pop();
                self.holds = true;
            }
            _ => return Ok(Why::NoTerm),
        }
        Ok(Why::Fine)
    }

    // A name is an atom, or its arguments follow.
    fn named(&mut self, token: Token) {
        if self.is_called(token) {
            self.name = Some(token.span);
        } else {
            self.holds = true;
        }
    }

    // A symbol has arguments, or is a minus before a term.
    fn signed(&mut self, token: Token) -> Why {
        if self.is_called(token) {
            self.name = Some(token.span);
            return Why::Fine;
        }
        if part(self.text, token.span) == b"-".as_slice() {
            Why::Fine
        } else {
            Why::NoTerm
        }
    }

    // A round bracket opens.
    fn open(&mut self, token: Token) -> Result<Why, NoMemory> {
        if self.name.is_some() {
            return self.push(Bracket::Call, token);
        }
        if self.is_doubled() {
            self.note(Odd::Doubled(token.span));
        }
        self.push(Bracket::Group, token)
    }

    // A square bracket opens.
    fn open_list(&mut self, token: Token) -> Result<Why, NoMemory> {
        if self.before.kind == Kind::OpenList {
            self.note(Odd::Doubled(token.span));
        }
        self.push(Bracket::List, token)
    }

    // Whether a bracket here stands before a first argument that has none, or in such a bracket.
    fn is_doubled(&self) -> bool {
        match self.frames.last() {
            Some(frame) if frame.bracket == Bracket::Call => {
                frame.commas == 0 && begins_with_name(part(self.text, frame.name))
            }
            Some(_) => matches!(self.before.kind, Kind::Open | Kind::OpenList),
            None => false,
        }
    }

    // Notes what is odd. The first counts; but a doubled bracket, which may be meant, least.
    fn note(&mut self, odd: Odd) {
        match self.odd {
            None => self.odd = Some(odd),
            Some(Odd::Doubled(_)) if !matches!(odd, Odd::Doubled(_)) => self.odd = Some(odd),
            _ => {}
        }
    }

    fn push(&mut self, bracket: Bracket, token: Token) -> Result<Why, NoMemory> {
        if self.frames.len() >= MOST_BRACKETS {
            return Ok(Why::Deep);
        }
        let name = self.name.unwrap_or(token.span);
        self.name = None;
        self.frames.push(Frame {
            bracket,
            at: token.span,
            name,
            most: most_arguments(part(self.text, name)),
            commas: 0,
            loose: STRICT,
        })?;
        Ok(Why::Fine)
    }

    // Goes on behind a term.
    fn go_on(&mut self, token: Token) -> Why {
        match token.kind {
            Kind::Symbol | Kind::Name => self.operator(token),
            Kind::Comma => self.comma(token),
            Kind::Bar => self.bar(),
            Kind::Close | Kind::CloseList => self.close(token.kind == Kind::Close),
            Kind::End if self.frames.is_empty() => Why::Fine,
            Kind::End => Why::ClauseEnd,
            _ => Why::TwoTerms,
        }
    }

    fn operator(&mut self, token: Token) -> Why {
        let loose = self.loose();
        let next = match part(self.text, token.span) {
            b"?" if loose.asks => return Why::TwoOperators,
            b"?" => Loose {
                compares: false,
                asks: true,
            },
            b"+" | b"-" | b"*" | b"//" | b"mod" => loose,
            b"is" if loose.compares => return Why::TwoOperators,
            word if token.kind == Kind::Name && word != b"is".as_slice() => return Why::TwoTerms,
            _ if loose.compares => return Why::TwoOperators,
            _ => Loose {
                compares: true,
                asks: loose.asks,
            },
        };
        self.set_loose(next);
        self.holds = false;
        Why::Fine
    }

    fn loose(&self) -> Loose {
        match self.frames.last() {
            Some(frame) => frame.loose,
            None => self.top,
        }
    }

    fn set_loose(&mut self, loose: Loose) {
        match self.frames.last_mut() {
            Some(frame) => frame.loose = loose,
            None => self.top = loose,
        }
    }

    fn comma(&mut self, token: Token) -> Why {
        self.set_loose(STRICT);
        self.holds = false;
        let text = self.text;
        let Some(frame) = self.frames.last_mut() else {
            self.note(Odd::Outside(token.span));
            return Why::Fine;
        };
        if frame.bracket == Bracket::Tail {
            return Why::Bar;
        }
        frame.commas = frame.commas.saturating_add(1);
        let name = frame.name;
        let is_reaction = part(text, name) == b"reaction".as_slice();
        if is_reaction && frame.commas == 1 && !begins_guard(text, token.span.to) {
            frame.most = 2;
        }
        if frame.bracket == Bracket::Call && frame.commas >= frame.most {
            self.note(Odd::Excess(token.span, name));
        }
        Why::Fine
    }

    fn bar(&mut self) -> Why {
        self.set_loose(STRICT);
        match self.frames.last_mut() {
            Some(frame) if frame.bracket == Bracket::List => frame.bracket = Bracket::Tail,
            _ => return Why::Bar,
        }
        self.holds = false;
        Why::Fine
    }

    fn close(&mut self, is_round: bool) -> Why {
        match self.frames.last() {
            Some(frame) if is_round_bracket(frame.bracket) == is_round => {
                self.frames.pop();
                Why::Fine
            }
            _ => Why::Closing,
        }
    }
}

fn is_round_bracket(bracket: Bracket) -> bool {
    match bracket {
        Bracket::Call | Bracket::Group => true,
        Bracket::List | Bracket::Tail => false,
    }
}
