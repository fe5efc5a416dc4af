//! The tables of calls and of answers: what each row demands of the tuples and of the reactions.
ghost use Rattle.tc_replay.specs.Demands.{IsOfAnswer, IsOfCall};

use self::Demand::{Never, NoReaction, Reactions, Text};
use crate::acts::Act::{self, Ask, Confirm, Miss, Put, Read, Refute, Take};
use crate::cascade::Ending::{self, Over, Whole};
use tc_lists::Seq;
use tc_model::Phase::{Post, Pre};
use tc_model::{EventOp, Op, Outcome, Wants};
use tc_term::Pattern;

/// What has to hold where an operation or a request has a certain outcome.
#[derive(Clone, Copy)]
pub enum Demand<'a> {
    /// The operation has acted, and the reactions to that have ended so.
    Reactions(EventOp, Act<'a>, Ending),
    /// There are no items.
    NoReaction,
    /// This is the text of the clauses, and there are no items.
    Text(&'a Seq<u8>),
    /// The table has no such row: it can't be.
    Never,
}

/// What the table of calls demands.
pub fn of_call<'a>(op: &'a Op, outcome: &'a Outcome) -> Demand<'a>
    ensures { IsOfCall op.now outcome.now result }
{
    match (op, outcome) {
        (Op::Out(t), Outcome::Done) => Reactions(EventOp::Out, Put(t), Whole),
        (Op::Out(t), Outcome::Over(Post, None)) => Reactions(EventOp::Out, Put(t), Over),
        (Op::In(t), Outcome::Pending) => Reactions(EventOp::In, Ask(t), Whole),
        (Op::In(t), Outcome::Over(Pre, None)) => Reactions(EventOp::In, Ask(t), Over),
        (Op::Rd(t), Outcome::Pending) => Reactions(EventOp::Rd, Ask(t), Whole),
        (Op::Rd(t), Outcome::Over(Pre, None)) => Reactions(EventOp::Rd, Ask(t), Over),
        (Op::No(t), Outcome::Pending) => Reactions(EventOp::No, Ask(t), Whole),
        (Op::No(t), Outcome::Over(Pre, None)) => Reactions(EventOp::No, Ask(t), Over),
        (Op::Inp(t), Outcome::Took(u)) => Reactions(EventOp::Inp, Take(t, u), Whole),
        (Op::Inp(t), Outcome::Over(Post, Some(u))) => Reactions(EventOp::Inp, Take(t, u), Over),
        (Op::Inp(t), Outcome::NoTuple) => Reactions(EventOp::Inp, Miss(t), Whole),
        (Op::Inp(t), Outcome::Over(Post, None)) => Reactions(EventOp::Inp, Miss(t), Over),
        (Op::Rdp(t), Outcome::Took(u)) => Reactions(EventOp::Rdp, Read(t, u), Whole),
        (Op::Rdp(t), Outcome::Over(Post, Some(u))) => Reactions(EventOp::Rdp, Read(t, u), Over),
        (Op::Rdp(t), Outcome::NoTuple) => Reactions(EventOp::Rdp, Miss(t), Whole),
        (Op::Rdp(t), Outcome::Over(Post, None)) => Reactions(EventOp::Rdp, Miss(t), Over),
        (Op::Nop(t), Outcome::Absent) => Reactions(EventOp::Nop, Confirm(t), Whole),
        (Op::Nop(t), Outcome::Over(Post, None)) => Reactions(EventOp::Nop, Confirm(t), Over),
        (Op::Nop(t), Outcome::Found(u)) => Reactions(EventOp::Nop, Refute(t, u), Whole),
        (Op::Nop(t), Outcome::Over(Post, Some(u))) => Reactions(EventOp::Nop, Refute(t, u), Over),
        (Op::SetSpec(_), Outcome::Done) => NoReaction,
        (Op::GetSpec, Outcome::Spec(text)) => Text(text),
        _ => Never,
    }
}

/// What the table of answers demands of a request.
pub fn of_answer<'a>(wants: Wants, t: &'a Pattern, outcome: &'a Outcome) -> Demand<'a>
    ensures { IsOfAnswer wants t.now outcome.now result }
{
    match (wants, outcome) {
        (Wants::Take, Outcome::Took(u)) => Reactions(EventOp::In, Take(t, u), Whole),
        (Wants::Take, Outcome::Over(Post, Some(u))) => Reactions(EventOp::In, Take(t, u), Over),
        (Wants::Look, Outcome::Took(u)) => Reactions(EventOp::Rd, Read(t, u), Whole),
        (Wants::Look, Outcome::Over(Post, Some(u))) => Reactions(EventOp::Rd, Read(t, u), Over),
        (Wants::Absence, Outcome::Absent) => Reactions(EventOp::No, Confirm(t), Whole),
        (Wants::Absence, Outcome::Over(Post, None)) => Reactions(EventOp::No, Confirm(t), Over),
        _ => Never,
    }
}
