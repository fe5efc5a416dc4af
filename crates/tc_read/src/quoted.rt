//! Quoted tokens: the longest inside that a closing quote ends.
ghost use Rattle.std.specs.Prelude.{◌≡◌, ◌∷◌, is_some};
ghost use Rattle.tc_read.specs.Lexing.{quoted_end};
ghost use Rattle.tc_read.specs.Parts.{IsPart};
ghost use Rattle.tc_term.specs.Tokens.{escape};

use crate::layout::next_byte;

/// What stands at the front of a text between quotes: the closing quote, two quotes, a backslash
/// with the byte that it escapes, another byte, or none of these. All but the first and the last
/// have what stands behind them.
#[derive(Clone, Copy)]
pub enum Part<'a> {
    Closing,
    Pair(&'a [u8]),
    Escape(&'a [u8]),
    Byte(&'a [u8]),
    Fault,
}

/// Whether the byte may stand behind a backslash.
pub fn is_escaped(byte: u8) -> bool
    ensures { result ≡ is_some (escape byte) }
{
    match byte {
        b'\'' => true,
        b'\\' => true,
        b'n' => true,
        b't' => true,
        _ => false,
    }
}

fn first_part(text: &[u8]) -> Part<'_>
    ensures { IsPart text.now result }
{
    match next_byte(text) {
        None => Part::Fault,
        Some((first, after)) => match first {
            b'\'' => quote(after),
            b'\\' => backslash(after),
            _ => {
                if first < 32 {
                    Part::Fault
                } else {
                    Part::Byte(after)
                }
            }
        },
    }
}

fn quote(after: &[u8]) -> Part<'_>
    ensures { IsPart (39 ∷ after.now) result }
{
    match next_byte(after) {
        None => Part::Closing,
        Some((second, rest)) => {
            if second == b'\'' {
                Part::Pair(rest)
            } else {
                Part::Closing
            }
        }
    }
}

fn backslash(after: &[u8]) -> Part<'_>
    ensures { IsPart (92 ∷ after.now) result }
{
    match next_byte(after) {
        None => Part::Fault,
        Some((second, rest)) => {
            if is_escaped(second) {
                Part::Escape(rest)
            } else {
                Part::Fault
            }
        }
    }
}

/// How many bytes the longest inside at the front has, with its closing quote.
pub fn quoted_length(text: &[u8]) -> Option<usize>
    ensures { result ≡ quoted_end text.now }
{
    let mut rest = text;
    let mut count = 0;
    let mut best = None;
    loop {
        match first_part(rest) {
            Part::Closing => return Some(count + 1),
            Part::Fault => return best,
            Part::Pair(after) => {
                best = Some(count + 1);
                count += 2;
                rest = after;
            }
            Part::Escape(after) => {
                count += 2;
                rest = after;
            }
            Part::Byte(after) => {
                count += 1;
                rest = after;
            }
        }
    }
}
