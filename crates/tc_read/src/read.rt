//! Terms and clauses, read whole.
ghost use Rattle.std.specs.Prelude.{◌≡◌, ◌<◌, ◌≤◌, [], IfOk, IfSome, drop};
ghost use Rattle.std.specs.Prelude.{false, length, true, List, None, ℕ};
ghost use Rattle.std.specs.List.{range_with_len};
ghost use Rattle.tc_term.specs.Faults.{Ended, Judged, Reading, ReadsAs};
ghost use Rattle.tc_term.specs.Faults.{first_place, first_wide, place_behind};
ghost use Rattle.tc_term.specs.Layouts.{At};
ghost use Rattle.tc_term.specs.Limits.{most_variables};
ghost use Rattle.tc_term.specs.Layouts as text;
ghost use Rattle.tc_term.specs.Variables as tree;
ghost use Rattle.tc_read.specs.Items.{kept_item};
ghost use Rattle.tc_read.specs.Kept.{kept_of};
ghost use Rattle.tc_read.specs.Judging.{IsRead};
ghost use Rattle.tc_read.specs.ReadAnswers.{IsClauseAnswer, IsTermAnswer, place_by};
ghost use Rattle.tc_read.specs.Scanner.{Gathers};

use crate::fault::ReadFault;
use crate::measured::Item;
use crate::parse::parse;
use crate::scan::{Scanned, Stop, scan};
use crate::scanner::Scanner;
use std::alloc::Global;
use tc_term::{MOST_VARIABLES, Pattern};

/// The template of what was parsed, with so many variables, behind the first token at this place.
fn judge(item: Item, variables: usize, place: usize) -> Result<Pattern, ReadFault>
    requires { IsRead (kept_item item) variables }
    ensures { (behind : ℕ) (r : Reading) → kept_of r ≡ kept_item item
        → (variables ≤ most_variables → tree.variables r.term ≡ range_with_len 0 variables)
        → IsTermAnswer (Judged place behind variables r) behind result }
{
    match item {
        Item::Wide(wide) => Err(ReadFault::WideInt(wide)),
        Item::Large => {
            if variables > MOST_VARIABLES {
                Err(ReadFault::TooMany(place))
            } else {
                Err(ReadFault::TooBig(place))
            }
        }
        Item::Small(measured) => {
            if variables > MOST_VARIABLES {
                return Err(ReadFault::TooMany(place));
            }
            Ok(Pattern::known(measured.term, variables as u32))
        }
    }
}

/// This place, or the end.
fn place_or(place: Option<usize>, end: usize) -> usize
    ensures { result ≡ place_by place end }
{
    match place {
        Some(place) => place,
        None => end,
    }
}

/// The template that the tokens are, all of them, with what stands behind their end; `end` is the
/// place of the end token, or of the end of the text.
fn read_tokens(alloc: Global, gathered: &Scanner, end: usize) -> Result<Pattern, ReadFault>
    requires { (ts : List At) × Gathers gathered.now ts × (first_wide ts ≡ None) }
    ensures { (size behind : ℕ) (ts : List At) (stop : text.Stop) → Gathers gathered.now ts
        → first_wide ts ≡ None → first_place size [] stop ≡ end
        → place_behind size stop ≡ behind
        → IsTermAnswer (Ended size ts stop) behind result }
{
    let place = place_or(gathered.first, end);
    if gathered.brackets.too_many {
        return Err(ReadFault::TooBig(place));
    }
    match parse(alloc, &gathered.tokens)? {
        None => Err(ReadFault::Syntax(place)),
        Some(item) => judge(item, gathered.variables.len(), place),
    }
}

/// The term that the whole text is, with no end token.
///
/// Takes O(length) time.
pub fn read_term(alloc: Global, text: &[u8]) -> Result<Pattern, ReadFault>
    ensures { IsTermAnswer (ReadsAs false (length text.now) text.now) (length text.now) result }
{
    let size = text.len();
    let Scanned { gathered, stop } = scan(alloc, text, size, false)?;
    if let Some(place) = gathered.wide {
        return Err(ReadFault::WideInt(place));
    }
    match stop {
        Stop::NoToken(place) => Err(ReadFault::Syntax(place)),
        Stop::ClauseEnd(place) => Err(ReadFault::Syntax(place)),
        Stop::TextEnd => read_tokens(alloc, &gathered, size),
    }
}

/// The text from this place on.
#[inline(always)]
pub fn rest_from(text: &[u8], from: usize) -> &[u8]
    requires { from ≤ length text.now }
    ensures { result.now ≡ drop from text.now }
{
    let (_, rest) = text.split_at(from);
    rest
}

/// The clause that stands in the text from this place on, and the place behind its end token.
///
/// `None` says that nothing but layout is left. Places are counted from the start of the text.
/// Takes time in the length of what is read.
pub fn read_clause(
    alloc: Global,
    text: &[u8],
    from: usize,
) -> Result<Option<(Pattern, usize)>, ReadFault>
    requires { from ≤ length text.now }
    ensures read { IsClauseAnswer (ReadsAs true (length text.now) (drop from text.now)) result }
    ensures behind { IfOk result
        (λ r. IfSome r (λ found. (from < found.1) × (found.1 ≤ length text.now))) }
{
    let size = text.len();
    let Scanned { gathered, stop } = scan(alloc, rest_from(text, from), size, true)?;
    if let Some(place) = gathered.wide {
        return Err(ReadFault::WideInt(place));
    }
    match stop {
        Stop::NoToken(place) => Err(ReadFault::Syntax(place)),
        Stop::ClauseEnd(place) => match read_tokens(alloc, &gathered, place) {
            Ok(clause) => Ok(Some((clause, place + 1))),
            Err(fault) => Err(fault),
        },
        Stop::TextEnd => match gathered.first {
            None => Ok(None),
            Some(_) => Err(ReadFault::Syntax(size)),
        },
    }
}
