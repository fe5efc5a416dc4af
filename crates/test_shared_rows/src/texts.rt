//! Operations from texts, and replies as texts.
use crate::fault::Fault;
use crate::moves::Request;
use std::alloc::Global;
use tc_lists::NoMemory;
use tc_model::{Op, Reply};
use tc_print::print_term;
use tc_read::read_term;
use tc_term::Ground;

/// The operation of a request.
pub fn operation(alloc: Global, request: Request) -> Result<Op, Fault> {
    match request {
        Request::Out(text) => Ok(Op::Out(tuple(alloc, text)?)),
        Request::In(text) => Ok(Op::In(read_term(alloc, text)?)),
        Request::Inp(text) => Ok(Op::Inp(read_term(alloc, text)?)),
    }
}

// The tuple of a text.
fn tuple(alloc: Global, text: &[u8]) -> Result<Ground, Fault> {
    match Ground::of(read_term(alloc, text)?.into_term()) {
        Ok(tuple) => Ok(tuple),
        Err(_) => Err(Fault::Setup("a tuple has a variable")),
    }
}

/// The text of a reply.
pub fn reply_text(alloc: Global, reply: &Reply) -> Result<Vec<u8>, NoMemory> {
    match reply {
        Reply::Done => b"done".to_vec(alloc),
        Reply::Tuple(tuple) => tuple_text(alloc, tuple),
        Reply::NoTuple => b"none".to_vec(alloc),
        Reply::Absent => b"absent".to_vec(alloc),
        Reply::Found(tuple) => found_text(alloc, tuple),
        Reply::Spec(_) => b"clauses".to_vec(alloc),
        Reply::OverBudget(_) => b"over the budget".to_vec(alloc),
    }
}

// The text of a reply that tells of a tuple.
fn found_text(alloc: Global, tuple: &Ground) -> Result<Vec<u8>, NoMemory> {
    let mut text = b"found ".to_vec(alloc)?;
    print_term(alloc, tuple.term(), &mut text)?;
    Ok(text)
}

/// The text of a tuple.
pub fn tuple_text(alloc: Global, tuple: &Ground) -> Result<Vec<u8>, NoMemory> {
    let mut text = Vec::new(alloc);
    print_term(alloc, tuple.term(), &mut text)?;
    Ok(text)
}
