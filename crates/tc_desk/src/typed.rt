//! What the types of rows promise, told to contracts.
ghost use Rattle.std.specs.Prelude.{All, IfSome};
ghost use Rattle.tc_term.specs.TreeView.{tree_of};
ghost use Rattle.tc_desk.specs.Typed.{IsTypedAsk, IsTypedRefusal, IsTypedResult, IsTypedRow};
ghost use Rattle.tc_desk.specs.Typed.{IsTypedTree};

use crate::rows::{LogResult, LogRow, Refusal};
use tc_model::{Ask, BadSpec, bytes_fit};
use tc_term::Term;

impl LogRow {
    /// Tells contracts what the row's type promises, and changes nothing.
    ///
    /// Walks the ask's term: takes time linear in its size, and recurses as deep as it is.
    pub fn typed(&self)
        ensures { IsTypedRow self.now }
    {
        let _number = self.number;
        bytes_fit(self.centre.bytes());
        ask_fits(&self.ask);
        result_fits(&self.result);
    }
}

/// Tells contracts what the types of a log's rows promise, and changes nothing.
///
/// Walks each ask's term, as `LogRow::typed` does.
pub fn rows_are_typed(log: &[LogRow])
    ensures { All IsTypedRow log.now }
{
    for row in log {
        row.typed();
    }
}

// The ask's operand, if there is one, is what its type promises.
fn ask_fits(ask: &Option<Ask>)
    ensures { IfSome ask.now IsTypedAsk }
{
    match ask {
        Some(Ask::Out(t) | Ask::In(t) | Ask::Rd(t) | Ask::Inp(t) | Ask::Rdp(t)) => term_fits(t),
        Some(Ask::No(t) | Ask::Nop(t) | Ask::SetSpec(t)) => term_fits(t),
        Some(Ask::GetSpec) | None => {}
    }
}

// So is the term, of any size: each of its parts is read for its proof alone.
fn term_fits(t: &Term)
    ensures { IsTypedTree (tree_of t.now) }
{
    match t {
        Term::Var(n) => {
            let _number = *n;
        }
        Term::Int(n) => {
            let _number = *n;
        }
        Term::Atom(name) => bytes_fit(name.bytes()),
        Term::Comp(name, args) => {
            bytes_fit(name.bytes());
            for arg in args.items() {
                term_fits(arg);
            }
        }
    }
}

// So is the result.
fn result_fits(became: &LogResult)
    ensures { IsTypedResult became.now }
{
    match became {
        LogResult::Replied(reply) | LogResult::Polled(Some(reply)) => reply.typed(),
        LogResult::Refused(why) => refusal_fits(why),
        LogResult::Pending | LogResult::Polled(None) => {}
    }
}

// So are the numbers that the refusal tells.
fn refusal_fits(why: &Refusal)
    ensures { IsTypedRefusal why.now }
{
    match why {
        Refusal::BadSpec(BadSpec { clause, cause: _ }) => {
            let _clause = *clause;
        }
        Refusal::Full { weight, pending } => {
            let _weight = *weight;
            let _pending = *pending;
        }
        Refusal::UnknownCentre
        | Refusal::Waiting
        | Refusal::Denied
        | Refusal::TooBig
        | Refusal::NotGround
        | Refusal::TurnsSpent
        | Refusal::NoMemory => {}
    }
}
