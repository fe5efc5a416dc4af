//! Texts of clauses, read one clause behind another up to the end or the first faulty one.
ghost use Rattle.std.specs.Prelude.{◌≡◌, ◌<◌, ◌≤◌, ◌+◌, IfErr, IfNone, IfOk};
ghost use Rattle.std.specs.Prelude.{IfSome, IsTrue};
ghost use Rattle.std.specs.Prelude.{List, length, ℕ};
ghost use Rattle.tc_term.specs.Faults.{Nothing};
ghost use Rattle.tc_term.specs.NameBytes.{has_read_names};
ghost use Rattle.tc_term.specs.Tree.{Tree};
ghost use Rattle.tc_model.specs.Reactions.{Rule};
ghost use Rattle.tc_model.specs.declared.faults.BadSpec.{BadSpec};
ghost use Rattle.tc_model.specs.declared.limits.TheConstants.{MOST_CLAUSES};
ghost use Rattle.tc_read.specs.Clauses.{AnswersAt, IsUnreadOr};
ghost use Rattle.tc_spec.specs.Answers.{IsReactionFault};
ghost use Rattle.tc_spec.specs.TextAnswers.{IsClauseAt, IsFaultAt, IsFaultOfClause, IsTextFault};
ghost use Rattle.tc_spec.specs.TextAnswers.{IsTextWant, IsThisBad};
ghost use Rattle.tc_spec.specs.Texts.{HasBadSpec, IsSpelt};
ghost use Rattle.tc_spec.specs.Written.{IsWrittenAs};
ghost use Rattle.tc_spec.specs.declared.faults.SpecFault.TheVariants.{Bad};

use crate::faults::{ReactionFault, SpecFault};
use crate::reading::reaction_of;
use std::alloc::Global;
use tc_model::{BadSpec, Clauses, MOST_CLAUSES, Reaction, SpecCause};
use tc_read::{Unread, next_clause};
use tc_term::Pattern;

/// The clauses that the text spells, or its first faulty clause, counted from 1, with its first
/// cause.
///
/// A clause that the reader refuses has the cause `Syntax` or `Size`; the next causes are shape,
/// head, goal and count, and then the size of the clause as it is printed. The 1,001st clause is
/// one too many. Reading ends at the first faulty clause. Takes time linear in what is read.
pub fn read_spec(alloc: Global, text: &[u8]) -> Result<Clauses, SpecFault>
    ensures clauses { IfOk result (IsSpelt text.now) }
    ensures fault { IfErr result (IsTextFault text.now) }

    // Each answer comes exactly where it is due, but for want of memory.
    ensures spelt { (rules : List Rule) → IsSpelt text.now rules → IfErr result IsTextWant }
    ensures same { (rules : List Rule) → IsSpelt text.now rules
        → IfOk result (λ clauses. clauses ≡ rules) }
    ensures refused { (bad : BadSpec) → HasBadSpec text.now bad → IfOk result (λ _. ⊥) }
    ensures first { (bad : BadSpec) → HasBadSpec text.now bad → IfErr result (IsThisBad bad) }
{
    let read = read_clauses(alloc, text);
    read
}

// The same, with what each answer says.
fn read_clauses(alloc: Global, text: &[u8]) -> Result<Clauses, SpecFault>
    ensures clauses { IfOk result (IsSpelt text.now) }
    ensures fault { IfErr result (IsTextFault text.now) }
{
    let mut clauses = Clauses::new(alloc);
    let mut from = 0;
    while let Some((reaction, behind)) = clause_at(alloc, text, from, clauses.items().len())? {
        clauses.push(reaction)?;
        from = behind;
    }
    Ok(clauses)
}

// The clause at this place, behind so many others, as a reaction, and the place behind it. `None`
// says that nothing but layout is left.
fn clause_at(
    alloc: Global,
    text: &[u8],
    from: usize,
    count: usize,
) -> Result<Option<(Reaction, usize)>, SpecFault>
    requires place { from ≤ length text.now }
    requires few { count ≤ MOST_CLAUSES }
    ensures found { IfOk result (λ r. IfSome r (λ x. IsClauseAt text.now from x.0 x.1)) }
    ensures few { IfOk result (λ r. IfSome r (λ x. count < MOST_CLAUSES)) }
    ensures behind { IfOk result
        (λ r. IfSome r (λ x. (from < x.1) × (x.1 ≤ length text.now))) }
    ensures none { IfOk result (λ r. IfNone r (AnswersAt text.now from Nothing)) }
    ensures fault { IfErr result (IsFaultAt text.now from count) }
{
    match next_clause(alloc, text, from) {
        Ok(None) => Ok(None),
        Ok(Some((clause, behind))) => {
            let reaction = reaction_from(alloc, clause, count)?;
            Ok(Some((reaction, behind)))
        }
        Err(why) => Err(no_clause(why, count)),
    }
}

// The same as `reaction_behind`, of a clause that isn't needed any more.
fn reaction_from(alloc: Global, clause: Pattern, count: usize) -> Result<Reaction, SpecFault>
    requires names { IsTrue (has_read_names clause) }
    requires few { count ≤ MOST_CLAUSES }
    ensures reaction { IfOk result (IsWrittenAs clause) }
    ensures few { IfOk result (λ _. count < MOST_CLAUSES) }
    ensures fault { IfErr result (IsFaultOfClause count clause) }
{
    let read = reaction_behind(alloc, &clause, count);
    read
}

// The reaction that a clause behind so many others is written as, or its first fault.
fn reaction_behind(alloc: Global, clause: &Pattern, count: usize) -> Result<Reaction, SpecFault>
    requires names { IsTrue (has_read_names clause.now) }
    requires few { count ≤ MOST_CLAUSES }
    ensures reaction { IfOk result (IsWrittenAs clause.now) }
    ensures few { IfOk result (λ _. count < MOST_CLAUSES) }
    ensures fault { IfErr result (IsFaultOfClause count clause.now) }
{
    match reaction_of(alloc, clause) {
        Ok(reaction) => {
            if count < MOST_CLAUSES {
                Ok(reaction)
            } else {
                Err(bad(count, SpecCause::Count))
            }
        }
        Err(fault) => Err(refused(fault, count)),
    }
}

// What is told of text behind so many clauses in which the reader finds no clause.
fn no_clause(why: Option<Unread>, count: usize) -> SpecFault
    requires { count ≤ MOST_CLAUSES }
    ensures { (text : List ℕ) (from : ℕ) → IsUnreadOr text from why
        → IsFaultAt text from count result }
{
    match why {
        Some(Unread::Syntax) => bad(count, SpecCause::Syntax),
        Some(Unread::Size) => bad(count, SpecCause::Size),
        None => SpecFault::NoMemory,
    }
}

// What is told of a clause behind so many others that is no reaction.
fn refused(fault: ReactionFault, count: usize) -> SpecFault
    requires { count ≤ MOST_CLAUSES }
    ensures { (t : Tree) → IsReactionFault t fault → IsFaultOfClause count t result }
{
    match fault {
        ReactionFault::Bad(SpecCause::Size) => {
            if count < MOST_CLAUSES {
                bad(count, SpecCause::Size)
            } else {
                bad(count, SpecCause::Count)
            }
        }
        ReactionFault::Bad(cause) => bad(count, cause),
        ReactionFault::NoMemory => SpecFault::NoMemory,
    }
}

// The clause behind so many others, with its cause.
fn bad(count: usize, cause: SpecCause) -> SpecFault
    requires { count ≤ MOST_CLAUSES }
    ensures { result ≡ Bad (record { clause = count + 1; cause = cause }) }
{
    SpecFault::Bad(BadSpec {
        clause: count as u32 + 1,
        cause,
    })
}
