//! Heads of clauses: the operation and the term.
ghost use Rattle.std.specs.Prelude.{IfNone, IfSome};
ghost use Rattle.tc_term.specs.TreeView.{tree_of};
ghost use Rattle.tc_spec.specs.Written.{IsHead, IsNoHead};

use tc_model::{EventOp, event_op_of};
use tc_term::Term;

/// Operation and term, where the term is a head.
pub fn as_head(t: &Term) -> Option<(EventOp, &Term)>
    ensures some { IfSome result (λ x. IsHead (tree_of t.now) x.0 (tree_of x.1.now)) }
    ensures none { IfNone result (IsNoHead (tree_of t.now)) }
{
    match t {
        Term::Comp(name, args) => match args.items() {
            [term] => match event_op_of(name) {
                Some(op) => Some((op, term)),
                None => None,
            },
            _ => None,
        },
        _ => None,
    }
}
