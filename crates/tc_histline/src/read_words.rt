//! Terms, names and quoted texts, read at the front of bytes.
ghost use Rattle.std.specs.Prelude.{◌≡◌, ◌≤◌, IfOk, drop, length};
ghost use Rattle.tc_lists.specs.AtFront.{behind, between};
ghost use Rattle.tc_lists.specs.Seen.{seen};
ghost use Rattle.tc_lists.specs.Texts.{after};
ghost use Rattle.tc_histline.specs.Words.{atom_at, quote_at, template_at, tuple_at};

use std::alloc::Global;
use tc_lists::{NoMemory, Seq, behind};
use tc_read::{name_at, read_quoted, read_template};
use tc_term::{Ground, Name, Pattern};

// What is read at the front, and what stands behind it, unless memory runs out.
pub(crate) type Read<'a, T> = Result<Option<(T, &'a [u8])>, NoMemory>;

// The template at the front.
#[inline(always)]
pub(crate) fn template<'a>(alloc: Global, bytes: &'a [u8]) -> Read<'a, Pattern>
    ensures { IfOk result (λ r. seen r ≡ template_at bytes.now) }
{
    read_template(alloc, bytes)
}

// The tuple at the front.
#[inline(always)]
pub(crate) fn tuple<'a>(alloc: Global, bytes: &'a [u8]) -> Read<'a, Ground>
    ensures { IfOk result (λ r. seen r ≡ tuple_at bytes.now) }
{
    let Some((template, rest)) = template(alloc, bytes)? else {
        return Ok(None);
    };
    match Ground::of_pattern(template) {
        Some(tuple) => Ok(Some((tuple, rest))),
        None => Ok(None),
    }
}

// The text in quotes at the front.
pub(crate) fn quote<'a>(alloc: Global, bytes: &'a [u8]) -> Read<'a, Seq<u8>>
    ensures { IfOk result (λ r. seen r ≡ quote_at bytes.now) }
{
    let Some((text, place)) = read_quoted(alloc, bytes, 0)? else {
        return Ok(None);
    };
    Ok(Some((Seq::new(text), rest_from(bytes, place))))
}

// The template between two words.
#[inline(always)]
pub(crate) fn template_in<'a>(
    alloc: Global,
    first: &[u8],
    close: &[u8],
    bytes: &'a [u8],
) -> Read<'a, Pattern>
    ensures { IfOk result (λ r. seen r ≡ between first.now close.now template_at bytes.now) }
{
    let Some(rest) = behind(bytes, first) else {
        return Ok(None);
    };
    let Some((template, rest)) = template(alloc, rest)? else {
        return Ok(None);
    };
    let Some(rest) = behind(rest, close) else {
        return Ok(None);
    };
    Ok(Some((template, rest)))
}

// The tuple between two words.
#[inline(always)]
pub(crate) fn tuple_in<'a>(
    alloc: Global,
    first: &[u8],
    close: &[u8],
    bytes: &'a [u8],
) -> Read<'a, Ground>
    ensures { IfOk result (λ r. seen r ≡ between first.now close.now tuple_at bytes.now) }
{
    let Some(rest) = behind(bytes, first) else {
        return Ok(None);
    };
    let Some((tuple, rest)) = tuple(alloc, rest)? else {
        return Ok(None);
    };
    let Some(rest) = behind(rest, close) else {
        return Ok(None);
    };
    Ok(Some((tuple, rest)))
}

// The name of an atom between two words.
#[inline(always)]
pub(crate) fn atom_in<'a>(
    alloc: Global,
    first: &[u8],
    close: &[u8],
    bytes: &'a [u8],
) -> Read<'a, Name>
    ensures { IfOk result (λ r. seen r ≡ between first.now close.now atom_at bytes.now) }
{
    let Some(rest) = behind(bytes, first) else {
        return Ok(None);
    };
    let Some((name, rest)) = atom(alloc, rest)? else {
        return Ok(None);
    };
    let Some(rest) = behind(rest, close) else {
        return Ok(None);
    };
    Ok(Some((name, rest)))
}

// The text in quotes between two words.
#[inline(always)]
pub(crate) fn quote_in<'a>(
    alloc: Global,
    first: &[u8],
    close: &[u8],
    bytes: &'a [u8],
) -> Read<'a, Seq<u8>>
    ensures { IfOk result (λ r. seen r ≡ between first.now close.now quote_at bytes.now) }
{
    let Some(rest) = behind(bytes, first) else {
        return Ok(None);
    };
    let Some((text, rest)) = quote(alloc, rest)? else {
        return Ok(None);
    };
    let Some(rest) = behind(rest, close) else {
        return Ok(None);
    };
    Ok(Some((text, rest)))
}

// The tuple behind a word.
#[inline(always)]
pub(crate) fn tuple_behind<'a>(alloc: Global, word: &[u8], bytes: &'a [u8]) -> Read<'a, Ground>
    ensures { IfOk result (λ r. seen r ≡ behind (after word.now bytes.now) tuple_at) }
{
    let Some(rest) = behind(bytes, word) else {
        return Ok(None);
    };
    tuple(alloc, rest)
}

// The text in quotes behind a word.
#[inline(always)]
pub(crate) fn quote_behind<'a>(alloc: Global, word: &[u8], bytes: &'a [u8]) -> Read<'a, Seq<u8>>
    ensures { IfOk result (λ r. seen r ≡ behind (after word.now bytes.now) quote_at) }
{
    let Some(rest) = behind(bytes, word) else {
        return Ok(None);
    };
    quote(alloc, rest)
}

// The name of an atom at the front, of any length.
#[inline(always)]
pub(crate) fn atom<'a>(alloc: Global, bytes: &'a [u8]) -> Read<'a, Name>
    ensures { IfOk result (λ r. seen r ≡ atom_at bytes.now) }
{
    match bytes {
        [first, ..] if first.is_ascii_lowercase() => name_at(alloc, bytes, bytes.len()),
        _ => atom_apart(alloc, bytes),
    }
}

// The same of a name that may be in brackets or in quotes.
#[inline(never)]
fn atom_apart<'a>(alloc: Global, bytes: &'a [u8]) -> Read<'a, Name>
    ensures { IfOk result (λ r. seen r ≡ atom_at bytes.now) }
{
    if let Some(rest) = behind(bytes, b"[]") {
        return Ok(Some((Name::new(alloc, b"[]")?, rest)));
    }
    let Some((name, rest)) = name_at(alloc, bytes, bytes.len())? else {
        return Ok(None);
    };
    if name.bytes() == b"[]".as_slice() {
        return Ok(None);
    }
    Ok(Some((name, rest)))
}

// What stands from this place on.
fn rest_from(bytes: &[u8], place: usize) -> &[u8]
    requires { place ≤ length bytes.now }
    ensures { result.now ≡ drop place bytes.now }
{
    let (_, rest) = bytes.split_at(place);
    rest
}
