//! Operations, read at the front of bytes.
ghost use Rattle.std.specs.Prelude.{◌≡◌, IfOk};
ghost use Rattle.tc_lists.specs.Seen.{seen};
ghost use Rattle.tc_histline.specs.Operations.{common_op_at, further_op_at, op_at};

use crate::read_words::{Read, quote_in, template_in, tuple_in};
use crate::versions::Version;
use std::alloc::Global;
use tc_lists::{Seq, behind};
use tc_model::Op;

/// An operation as it is written: one that replaces the clauses has their text.
#[derive(Drop)]
pub enum WrittenOp {
    Plain(Op),
    Replaced(Seq<u8>),
}

// The operation at the front.
#[inline(always)]
pub(crate) fn read_op<'a>(alloc: Global, version: Version, bytes: &'a [u8]) -> Read<'a, WrittenOp>
    ensures { IfOk result (λ r. seen r ≡ op_at version bytes.now) }
{
    if let Some(found) = common_op(alloc, bytes)? {
        return Ok(Some(found));
    }
    match version {
        Version::One => Ok(None),
        Version::Two => further_op(alloc, bytes),
    }
}

// The operation at the front, of those that each version has.
fn common_op<'a>(alloc: Global, bytes: &'a [u8]) -> Read<'a, WrittenOp>
    ensures { IfOk result (λ r. seen r ≡ common_op_at bytes.now) }
{
    if let Some((tuple, rest)) = tuple_in(alloc, b"out(", b")", bytes)? {
        return Ok(Some((WrittenOp::Plain(Op::Out(tuple)), rest)));
    }
    if let Some((template, rest)) = template_in(alloc, b"in(", b")", bytes)? {
        return Ok(Some((WrittenOp::Plain(Op::In(template)), rest)));
    }
    if let Some((template, rest)) = template_in(alloc, b"rd(", b")", bytes)? {
        return Ok(Some((WrittenOp::Plain(Op::Rd(template)), rest)));
    }
    if let Some((template, rest)) = template_in(alloc, b"inp(", b")", bytes)? {
        return Ok(Some((WrittenOp::Plain(Op::Inp(template)), rest)));
    }
    if let Some((template, rest)) = template_in(alloc, b"rdp(", b")", bytes)? {
        return Ok(Some((WrittenOp::Plain(Op::Rdp(template)), rest)));
    }
    if let Some((text, rest)) = quote_in(alloc, b"set_spec(", b")", bytes)? {
        return Ok(Some((WrittenOp::Replaced(text), rest)));
    }
    match behind(bytes, b"get_spec") {
        Some(rest) => Ok(Some((WrittenOp::Plain(Op::GetSpec), rest))),
        None => Ok(None),
    }
}

// The operation at the front, of those that version 2 has besides.
fn further_op<'a>(alloc: Global, bytes: &'a [u8]) -> Read<'a, WrittenOp>
    ensures { IfOk result (λ r. seen r ≡ further_op_at bytes.now) }
{
    if let Some((template, rest)) = template_in(alloc, b"no(", b")", bytes)? {
        return Ok(Some((WrittenOp::Plain(Op::No(template)), rest)));
    }
    match template_in(alloc, b"nop(", b")", bytes)? {
        Some((template, rest)) => Ok(Some((WrittenOp::Plain(Op::Nop(template)), rest))),
        None => Ok(None),
    }
}
