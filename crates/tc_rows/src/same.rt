//! Operations and replies, compared.
ghost use Rattle.std.specs.Prelude.{◌≡◌, ◌↔◌, IfOk, IsTrue};

use std::alloc::Global;
use tc_lists::NoMemory;
use tc_model::{Clauses, Op, Reply};
use tc_spec::print_spec;
use tc_term::{Ground, Name, Pattern};

/// Whether the operations are equal. Clauses are compared by their texts, which take memory.
pub(crate) fn same_op(alloc: Global, a: &Op, b: &Op) -> Result<bool, NoMemory>
    ensures { IfOk result (λ same. IsTrue same ↔ (a.now ≡ b.now)) }
{
    match (a, b) {
        (Op::Out(t), Op::Out(u)) => Ok(same_tuple(t, u)),
        (Op::In(t), Op::In(u)) => Ok(same_template(t, u)),
        (Op::Rd(t), Op::Rd(u)) => Ok(same_template(t, u)),
        (Op::Inp(t), Op::Inp(u)) => Ok(same_template(t, u)),
        (Op::Rdp(t), Op::Rdp(u)) => Ok(same_template(t, u)),
        (Op::No(t), Op::No(u)) => Ok(same_template(t, u)),
        (Op::Nop(t), Op::Nop(u)) => Ok(same_template(t, u)),
        (Op::SetSpec(cs), Op::SetSpec(ds)) => same_clauses(alloc, cs, ds),
        (Op::GetSpec, Op::GetSpec) => Ok(true),
        _ => Ok(false),
    }
}

/// Whether the replies are equal.
pub(crate) fn same_reply(a: &Reply, b: &Reply) -> bool
    ensures { IsTrue result ↔ (a.now ≡ b.now) }
{
    match (a, b) {
        (Reply::Done, Reply::Done) => true,
        (Reply::Tuple(t), Reply::Tuple(u)) => same_tuple(t, u),
        (Reply::NoTuple, Reply::NoTuple) => true,
        (Reply::Absent, Reply::Absent) => true,
        (Reply::Found(t), Reply::Found(u)) => same_tuple(t, u),
        (Reply::Spec(text), Reply::Spec(other)) => text.items() == other.items(),
        (Reply::OverBudget(phase), Reply::OverBudget(other)) => phase == other,
        _ => false,
    }
}

/// Whether what was told of a call is the same.
pub(crate) fn same_told(a: &Option<Reply>, b: &Option<Reply>) -> bool
    ensures { IsTrue result ↔ (a.now ≡ b.now) }
{
    match (a, b) {
        (Some(reply), Some(other)) => same_reply(reply, other),
        (None, None) => true,
        _ => false,
    }
}

/// Whether the tuples are equal.
pub(crate) fn same_tuple(t: &Ground, u: &Ground) -> bool
    ensures { IsTrue result ↔ (t.now ≡ u.now) }
{
    t.term() == u.term()
}

// Whether the templates are equal.
fn same_template(t: &Pattern, u: &Pattern) -> bool
    ensures { IsTrue result ↔ (t.now ≡ u.now) }
{
    t.term() == u.term()
}

// Whether the clauses are equal: their texts are.
fn same_clauses(alloc: Global, cs: &Clauses, ds: &Clauses) -> Result<bool, NoMemory>
    ensures { IfOk result (λ same. IsTrue same ↔ (cs.now ≡ ds.now)) }
{
    let _cs = cs.items();
    let _ds = ds.items();
    let mut text = Vec::new(alloc);
    print_spec(alloc, cs, &mut text)?;
    let mut other = Vec::new(alloc);
    print_spec(alloc, ds, &mut other)?;
    Ok(text == other)
}

/// Whether the names are equal.
pub(crate) fn same_name(a: &Name, b: &Name) -> bool
    ensures { IsTrue result ↔ (a.now ≡ b.now) }
{
    *a == *b
}
