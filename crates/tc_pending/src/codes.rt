//! Codes of templates and requests, by which most requests that don't ask for a tuple are passed
//! over.
ghost use Rattle.std.specs.Prelude.{◌≡◌};
ghost use Rattle.tc_term.specs.TreeView.{tree_of};
ghost use Rattle.tc_pending.specs.Codes.{with_first, code_of, code_for, request_code};

use tc_bag::top_code;
use tc_lists::mix;
use tc_model::{Request, Wants};
use tc_term::Term;

/// With this number in front, codes tell requests that want absence from those that want a tuple.
pub const CODE_OF_ABSENCE: u64 = 0xd1b5_4a32_d192_ed03;

/// The code of a request: that of its template, for what it wants.
pub(crate) fn request_code(request: &Request) -> u64
    ensures { result ≡ request_code request.now }
{
    code_for(request.wants, code_of(request.template.term()))
}

/// The code for what is wanted, of a template or a part of it.
pub(crate) fn code_for(wants: Wants, code: u64) -> u64
    ensures { result ≡ code_for wants code }
{
    match wants {
        Wants::Take | Wants::Look => code,
        Wants::Absence => mix(CODE_OF_ABSENCE, code),
    }
}

/// The code of a term with its first argument; 0 of a variable.
pub(crate) fn code_of(term: &Term) -> u64
    ensures { result ≡ code_of (tree_of term.now) }
{
    let top = top_code(term);
    match term {
        Term::Comp(_, args) => with_first(top, &args.items()[0]),
        Term::Var(_) | Term::Atom(_) | Term::Int(_) => top,
    }
}

// A code with that of a first argument, where this is no variable.
fn with_first(top: u64, first: &Term) -> u64
    ensures { result ≡ with_first top (tree_of first.now) }
{
    match first {
        Term::Var(_) => top,
        Term::Atom(_) | Term::Int(_) | Term::Comp(_, _) => mix(top, top_code(first)),
    }
}
