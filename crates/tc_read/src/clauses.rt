//! Texts of clauses, read one clause behind another.
ghost use Rattle.std.specs.Prelude.{◌≡◌, ◌<◌, ◌≤◌, ◌↔◌, IfErr, IfNone};
ghost use Rattle.std.specs.Prelude.{IfOk, IfSome, IsTrue};
ghost use Rattle.std.specs.Prelude.{List, None, length, ℕ};
ghost use Rattle.tc_term.specs.Faults.{Found, Nothing};
ghost use Rattle.tc_term.specs.NameBytes.{has_read_names};
ghost use Rattle.tc_read.specs.Clauses.{AnswersAt, IsUnreadOr};
ghost use Rattle.tc_read.specs.ReadAnswers.{IsFault};
ghost use Rattle.tc_read.specs.declared.fault.ReadFault.TheVariants.{NoMemory};

use crate::fault::ReadFault;
use crate::read::read_clause;
use std::alloc::Global;
use tc_term::Pattern;

/// Why no clause is read where text is left: what stands there is none, or it is too big for a
/// template.
#[derive(Clone, Copy, Debug, PartialEq, Eq)]
pub enum Unread {
    /// The tokens are no clause.
    Syntax,
    /// An integer is no 64-bit number, there are too many variables, or the term is too big.
    Size,
}

/// The clause that stands in the text from this place on, and the place behind it; or why none is
/// read, where `Err(None)` says that memory has run out.
///
/// `Ok(None)` says that nothing but layout is left. So a text is read in a loop, and what its
/// clauses lead to is said by the words of `specs/Clauses`, over any state.
pub fn next_clause(
    alloc: Global,
    text: &[u8],
    from: usize,
) -> Result<Option<(Pattern, usize)>, Option<Unread>>
    requires { from ≤ length text.now }
    ensures found { IfOk result (λ r. IfSome r (λ x. AnswersAt text.now from (Found x.0 x.1))) }
    ensures names { IfOk result (λ r. IfSome r (λ x. IsTrue (has_read_names x.0))) }
    ensures behind { IfOk result
        (λ r. IfSome r (λ x. (from < x.1) × (x.1 ≤ length text.now))) }
    ensures none { IfOk result (λ r. IfNone r (AnswersAt text.now from Nothing)) }
    ensures unread { IfErr result (IsUnreadOr text.now from) }
{
    match read_clause(alloc, text, from) {
        Ok(found) => Ok(found),
        Err(fault) => Err(why_unread(fault)),
    }
}

// Why the reader finds no clause; `None` where memory has run out.
fn why_unread(fault: ReadFault) -> Option<Unread>
    ensures why { (text : List ℕ) (from : ℕ) → IsFault (AnswersAt text from) fault
        → IsUnreadOr text from result }
    ensures want { result ≡ None ↔ fault ≡ NoMemory }
{
    match fault {
        ReadFault::Syntax(_) => Some(Unread::Syntax),
        ReadFault::WideInt(_) => Some(Unread::Size),
        ReadFault::TooMany(_) => Some(Unread::Size),
        ReadFault::TooBig(_) => Some(Unread::Size),
        ReadFault::NoMemory => None,
    }
}
