//! Clauses at their places in a text.
ghost use Rattle.std.specs.Prelude.{◌≡◌, ◌≤◌, IfErr, IfNone, IfOk, IfSome, length};
ghost use Rattle.tc_term.specs.Faults.{Nothing};
ghost use Rattle.tc_read.specs.Clauses.{AnswersAt, IsUnreadOr};
ghost use Rattle.tc_config.specs.Pieces.{IsPieceOf};

use crate::forms::{Form, form_of};
use std::alloc::Global;
use tc_read::{Unread, next_clause};

/// A clause of a text, from one place to another: how many variables it has, and its form, if it is
/// of one.
#[derive(Drop)]
pub struct Piece {
    pub from: usize,
    pub behind: usize,
    pub vars: u32,
    pub form: Option<Form>,
}

/// The clause that stands in the text from this place on, or why none is read, where `Err(None)` says
/// that memory has run out. `Ok(None)` says that nothing but layout is left.
///
/// That is so whatever stands before this place.
pub fn piece_at(alloc: Global, text: &[u8], from: usize) -> Result<Option<Piece>, Option<Unread>>
    requires { from ≤ length text.now }
    ensures piece { IfOk result (λ r. IfSome r (IsPieceOf text.now)) }
    ensures place { IfOk result (λ r. IfSome r (λ p. p.from ≡ from)) }
    ensures none { IfOk result (λ r. IfNone r (AnswersAt text.now from Nothing)) }
    ensures unread { IfErr result (IsUnreadOr text.now from) }
{
    let Some((clause, behind)) = next_clause(alloc, text, from)? else {
        return Ok(None);
    };
    let vars = clause.vars();
    match form_of(alloc, clause.into_term()) {
        Ok(form) => Ok(Some(Piece {
            from,
            behind,
            vars,
            form,
        })),
        Err(_) => Err(None),
    }
}
