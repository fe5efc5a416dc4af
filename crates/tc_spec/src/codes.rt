//! Codes of heads, by which an event finds the clauses whose heads it could meet.
ghost use Rattle.std.specs.Prelude.{◌≡◌};
ghost use Rattle.tc_term.specs.TreeView.{tree_of};
ghost use Rattle.tc_spec.specs.Codes.{code_of, op_code};

use tc_lists::{mix, mix_all};
use tc_model::EventOp;
use tc_term::Term;

/// The code of an operation and of a term without its arguments; `None` where that is a variable.
///
/// Takes the time of the term's name.
pub fn code_of(op: EventOp, t: &Term) -> Option<u64>
    ensures { result ≡ code_of op (tree_of t.now) }
{
    let first = op_code(op);
    match t {
        Term::Var(_) => None,
        Term::Atom(name) => Some(mix_all(first, name.bytes())),
        Term::Int(n) => Some(mix(first, n.unsigned_abs())),
        Term::Comp(name, args) => {
            let count = args.items().len() as u64;
            Some(mix_all(mix(first, count), name.bytes()))
        }
    }
}

// The code of an operation.
fn op_code(op: EventOp) -> u64
    ensures { result ≡ op_code op }
{
    match op {
        EventOp::Out => 1,
        EventOp::In => 2,
        EventOp::Rd => 3,
        EventOp::Inp => 4,
        EventOp::Rdp => 5,
        EventOp::No => 6,
        EventOp::Nop => 7,
        EventOp::OutR => 8,
        EventOp::InR => 9,
        EventOp::RdR => 10,
        EventOp::NoR => 11,
    }
}
