//! Codes of terms: numbers by which rows are looked up. Terms of one code may differ.
ghost use Rattle.std.specs.Prelude.{◌≡◌};
ghost use Rattle.tc_term.specs.TreeView.{tree_of};
ghost use Rattle.tc_bag.specs.Lent.{lent_key, lent_tree};
ghost use Rattle.tc_bag.specs.Codes.{key_code, top_code, codes_of, code_like};

use crate::key::Lent;
use tc_lists::{mix, mix_all};
use tc_term::Term;

/// The codes of a tuple: that of its key, and that of its key and first argument, where it has
/// arguments.
#[derive(Clone, Copy)]
pub(crate) struct Codes {
    pub(crate) key: u64,
    pub(crate) first: Option<u64>,
}

/// What rows are looked up by: the code of a key, or that of a key and a first argument.
#[derive(Clone, Copy)]
pub(crate) enum Code {
    OfKey(u64),
    OfFirst(u64),
}

/// The codes of a tuple.
#[inline(always)]
pub(crate) fn codes_of(t: &Term) -> Codes
    ensures { result ≡ codes_of (tree_of t.now) }
{
    match t {
        Term::Int(_) => Codes {
            key: 1,
            first: None,
        },
        Term::Comp(_, args) => {
            let key = top_code(t);
            Codes {
                key,
                first: Some(mix(key, top_code(&args.items()[0]))),
            }
        }
        _ => Codes {
            key: top_code(t),
            first: None,
        },
    }
}

/// The code of the tuples with a key and, where one is given, a first argument.
pub(crate) fn code_like(key: Lent, first: Option<&Term>) -> Code
    ensures { result ≡ code_like (lent_key key.entry) (lent_tree first.entry) }
{
    let code = key_code(key);
    match first {
        None => Code::OfKey(code),
        Some(term) => Code::OfFirst(mix(code, top_code(term))),
    }
}

// The code of a key.
fn key_code(key: Lent) -> u64
    ensures { result ≡ key_code (lent_key key.entry) }
{
    match key {
        Lent::Any => 0,
        Lent::Int => 1,
        Lent::Atom(name) => mix_all(2, name.bytes()),
        Lent::Comp(name, count) => mix_all(mix(3, u64::from(count)), name.bytes()),
    }
}

/// The code of a term without its arguments; 0 of a variable.
pub fn top_code(t: &Term) -> u64
    ensures { result ≡ top_code (tree_of t.now) }
{
    match t {
        Term::Var(_) => 0,
        Term::Int(n) => mix(1, n.unsigned_abs()),
        Term::Atom(name) => mix_all(2, name.bytes()),
        Term::Comp(name, args) => mix_all(mix(3, args.items().len() as u64), name.bytes()),
    }
}
