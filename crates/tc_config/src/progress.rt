//! A text of clauses, read up to a place.
ghost use Rattle.std.specs.Prelude.{◌≡◌, ◌<◌, ◌≤◌, ◌+◌, IfErr, IfNone, IfOk, IfSome, IsTrue, List};
ghost use Rattle.std.specs.Prelude.{OnOk, false, length, ℕ};
ghost use Rattle.tc_term.specs.Faults.{Found, Nothing};
ghost use Rattle.tc_term.specs.Tree.{Tree};
ghost use Rattle.tc_read.specs.Clauses.{AnswersAt, IsUnreadOr};
ghost use Rattle.tc_config.specs.Answers.{IsConfigFault, IsFaultAt, IsTermFault};
ghost use Rattle.tc_config.specs.Configurations.{Configuration};
ghost use Rattle.tc_config.specs.Pieces.{IsPieceOf, IsProgressIn};
ghost use Rattle.tc_config.specs.Texts.{Spells};
ghost use Rattle.tc_config.specs.declared.faults.ConfigFault.TheVariants.{Bad};
ghost use Rattle.tc_config.specs.declared.limits.TheConstants.{MOST_BYTES};

use crate::adding::add;
use crate::configs::Config;
use crate::draft::{Draft, finish, new_draft};
use crate::faults::{ClauseFault, ConfigCause, ConfigFault};
use crate::pieces::{Piece, piece_at};
use std::alloc::Global;
use tc_read::Unread;

/// What the clauses up to a place have set up, and how many they are.
#[derive(Drop)]
pub struct Progress {
    pub draft: Draft,
    pub from: usize,
    pub count: usize,
}

impl Progress {
    /// None so far.
    pub fn new(alloc: Global) -> Progress
        ensures { (text : List ℕ) → IsProgressIn text result }
    {
        Progress {
            draft: new_draft(alloc),
            from: 0,
            count: 0,
        }
    }
}

/// Adds the clause that stands where the text is read to, or tells what is wrong with it first.
///
/// Takes time in the clause, however much is set up.
pub fn add_piece(
    alloc: Global,
    text: &[u8],
    progress: &mut Progress,
    piece: Piece,
) -> Result<(), ConfigFault>
    requires progress { IsProgressIn text.now progress.old }
    requires short { length text.now ≤ MOST_BYTES }
    requires piece { IsPieceOf text.now piece }
    requires place { piece.from ≡ progress.old.from }
    ensures added { OnOk result (IsProgressIn text.now progress.new) }
    ensures behind { OnOk result (progress.new.from ≡ piece.behind) }
    ensures fault { IfErr result (IsConfigFault text.now) }
{
    let Piece {
        behind,
        vars,
        form,
        ..
    } = piece;
    let Some(form) = form else {
        return Err(bad(progress.count, ConfigCause::Shape));
    };
    if let Err(fault) = add(alloc, &mut progress.draft, vars, form) {
        return Err(refused(fault, progress.count));
    }
    progress.from = behind;
    progress.count += 1;
    Ok(())
}

/// Reads the next clause and adds it, or tells that nothing but layout is left.
pub fn read_next(alloc: Global, text: &[u8], progress: &mut Progress) -> Result<bool, ConfigFault>
    requires progress { IsProgressIn text.now progress.old }
    requires short { length text.now ≤ MOST_BYTES }
    ensures progress { OnOk result (IsProgressIn text.now progress.new) }
    ensures onward { OnOk result (progress.old.from ≤ progress.new.from) }
    ensures further { IfOk result (λ more. IsTrue more → progress.old.from < progress.new.from) }
    ensures nothing { IfOk result (λ more. more ≡ false
        → AnswersAt text.now progress.new.from Nothing) }
    ensures fault { IfErr result (IsConfigFault text.now) }
{
    match next_piece(alloc, text, progress.from, progress.count)? {
        Some(piece) => {
            add_piece(alloc, text, progress, piece)?;
            Ok(true)
        }
        None => Ok(false),
    }
}

/// Reads clauses up to the first that doesn't begin before this place.
pub fn read_to(
    alloc: Global,
    text: &[u8],
    progress: &mut Progress,
    to: usize,
) -> Result<(), ConfigFault>
    requires progress { IsProgressIn text.now progress.old }
    requires short { length text.now ≤ MOST_BYTES }
    ensures progress { OnOk result (IsProgressIn text.now progress.new) }
    ensures onward { OnOk result (progress.old.from ≤ progress.new.from) }
    ensures fault { IfErr result (IsConfigFault text.now) }
{
    while progress.from < to {
        if !read_next(alloc, text, progress)? {
            break;
        }
    }
    Ok(())
}

/// Reads clauses up to where a piece begins, and adds it if the next clause begins there.
pub fn add_due(
    alloc: Global,
    text: &[u8],
    progress: &mut Progress,
    piece: Piece,
) -> Result<(), ConfigFault>
    requires progress { IsProgressIn text.now progress.old }
    requires short { length text.now ≤ MOST_BYTES }
    requires piece { IsPieceOf text.now piece }
    ensures progress { OnOk result (IsProgressIn text.now progress.new) }
    ensures onward { OnOk result (progress.old.from ≤ progress.new.from) }
    ensures fault { IfErr result (IsConfigFault text.now) }
{
    read_to(alloc, text, progress, piece.from)?;
    if piece.from != progress.from {
        return Ok(());
    }
    add_piece(alloc, text, progress, piece)
}

/// Reads all clauses that are left.
pub fn read_rest(alloc: Global, text: &[u8], progress: Progress) -> Result<Config, ConfigFault>
    requires progress { IsProgressIn text.now progress }
    requires short { length text.now ≤ MOST_BYTES }
    ensures found { IfOk result (Spells text.now) }
    ensures fault { IfErr result (IsConfigFault text.now) }
{
    let mut progress = progress;
    while read_next(alloc, text, &mut progress)? {}
    Ok(finish(progress.draft))
}

// The clause at this place, behind so many others. `None` says that nothing but layout is left.
fn next_piece(
    alloc: Global,
    text: &[u8],
    from: usize,
    count: usize,
) -> Result<Option<Piece>, ConfigFault>
    requires place { from ≤ length text.now }
    requires few { count ≤ MOST_BYTES }
    ensures piece { IfOk result (λ r. IfSome r (IsPieceOf text.now)) }
    ensures place { IfOk result (λ r. IfSome r (λ p. p.from ≡ from)) }
    ensures none { IfOk result (λ r. IfNone r (AnswersAt text.now from Nothing)) }
    ensures fault { (c : Configuration) → IfErr result (IsFaultAt text.now from count c) }
{
    match piece_at(alloc, text, from) {
        Ok(found) => Ok(found),
        Err(why) => Err(no_clause(why, count)),
    }
}

// What is told of text behind so many clauses in which the reader finds no clause.
fn no_clause(why: Option<Unread>, count: usize) -> ConfigFault
    requires { count ≤ MOST_BYTES }
    ensures { (text : List ℕ) (from : ℕ) (c : Configuration) → IsUnreadOr text from why
        → IsFaultAt text from count c result }
{
    match why {
        Some(Unread::Syntax) => bad(count, ConfigCause::Syntax),
        Some(Unread::Size) => bad(count, ConfigCause::Size),
        None => ConfigFault::NoMemory,
    }
}

// What is told of a clause behind so many others that is refused.
fn refused(fault: ClauseFault, count: usize) -> ConfigFault
    requires { count ≤ MOST_BYTES }
    ensures { (text : List ℕ) (from behind : ℕ) (c : Configuration) (t : Tree)
        → AnswersAt text from (Found t behind) → IsTermFault c t fault
        → IsFaultAt text from count c result }
{
    match fault {
        ClauseFault::Bad(cause) => bad(count, cause),
        ClauseFault::NoMemory => ConfigFault::NoMemory,
    }
}

// The clause behind so many others, with its cause.
fn bad(count: usize, cause: ConfigCause) -> ConfigFault
    requires { count ≤ MOST_BYTES }
    ensures { result ≡ Bad (count + 1) cause }
{
    ConfigFault::Bad {
        clause: count as u32 + 1,
        cause,
    }
}
