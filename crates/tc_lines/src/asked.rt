//! Lines that ask at a centre, as clients write them: the centre's name, ` ? ` and canonical text.
ghost use Rattle.std.specs.Prelude.{◌≡◌, IfOk, IfSome, false};
ghost use Rattle.tc_term.specs.TreeView.{tree_of};
ghost use Rattle.tc_read.specs.Asked.{HasNoQuote, asked_of};
ghost use Rattle.tc_lines.specs.Asked.{IsAskedAt, IsTextOf};
ghost use Rattle.tc_lines.specs.Requests.{IsRequest, IsRequestAs};

use crate::requests::{BadLine, LineAsk};
use memchr::memchr;
use std::alloc::Global;
use tc_lists::NoMemory;
use tc_model::ask_of;
use tc_read::read_template;
use tc_term::{Name, Term, is_name};

/// The most bytes of a line that is read so: in a line so short no limit of a term is reached.
const MOST_SHORT: usize = 200;

/// What the line asks, where it is short, is written so and has no quote in it.
///
/// Takes time linear in the length of the line.
pub(crate) fn read_asked(alloc: Global, line: &[u8]) -> Option<Result<LineAsk, BadLine>>
    ensures { IfSome result (IsRequest line.now) }
{
    if line.len() > MOST_SHORT || has_quote(line) {
        return None;
    }
    let (name, text) = cut_asked(line)?;
    match template_of(alloc, text) {
        Ok(Some(t)) => Some(ask_at(alloc, name, t)),
        Ok(None) => None,
        Err(_) => Some(Err(BadLine::NoMemory)),
    }
}

// Whether a byte is a quote.
fn has_quote(line: &[u8]) -> bool
    ensures { result ≡ false → HasNoQuote line.now }
{
    memchr(b'\'', line).is_some()
}

// The name before ` ? `, and the bytes behind that.
fn cut_asked(line: &[u8]) -> Option<(&[u8], &[u8])>
    ensures { IfSome result (λ r. IsAskedAt line.now r.0.now r.1.now) }
{
    let at = memchr(b' ', line)?;
    let (name, rest) = line.split_at(at);
    match rest {
        [b' ', b'?', b' ', text @ ..] if is_name(name) => Some((name, text)),
        _ => None,
    }
}

// The template whose canonical text the bytes are.
fn template_of(alloc: Global, bytes: &[u8]) -> Result<Option<Term>, NoMemory>
    ensures { IfOk result (λ r. IfSome r (λ t. IsTextOf bytes.now (tree_of t))) }
{
    match read_template(alloc, bytes)? {
        Some((pattern, [])) => Ok(Some(pattern.into_term())),
        _ => Ok(None),
    }
}

// What is asked where this term is asked of the name.
fn ask_at(alloc: Global, name: &[u8], t: Term) -> Result<LineAsk, BadLine>
    ensures { IsRequestAs (asked_of name.now (tree_of t)) result }
{
    match ask_of(alloc, t) {
        Ok(Some(ask)) => match Name::new(alloc, name) {
            Ok(centre) => Ok(LineAsk::Call(centre, ask)),
            Err(_) => Err(BadLine::NoMemory),
        },
        Ok(None) => Err(BadLine::Shape),
        Err(_) => Err(BadLine::NoMemory),
    }
}
