//! Bytes as literals of JSON that may stand in a script of a page.
use tc_lists::NoMemory;

const DIGITS: &[u8] = b"0123456789abcdef";

/// Appends bytes as a string: letters of UTF-8 as they are, and each other byte as `\xNN`.
///
/// No `<` stands in it, so nothing in it ends the script. Takes time linear in the bytes.
pub fn append_string(bytes: &[u8], into: &mut Vec<u8>) -> Result<(), NoMemory> {
    into.push(b'"')?;
    let mut rest = bytes;
    for _ in 0..bytes.len() {
        let (letter, behind) = rest.split_at(letter_length(rest).min(rest.len()));
        match letter {
            [] => break,
            [byte] => append_byte(*byte, into)?,
            _ => into.extend_from_slice(letter)?,
        }
        rest = behind;
    }
    into.push(b'"')?;
    Ok(())
}

// How many bytes the letter at the front has; a byte with which none begins counts as one.
fn letter_length(bytes: &[u8]) -> usize {
    match bytes {
        [0xc2..=0xdf, 0x80..=0xbf, ..] => 2,
        [0xe0, 0xa0..=0xbf, 0x80..=0xbf, ..] => 3,
        [0xe1..=0xec | 0xee | 0xef, 0x80..=0xbf, 0x80..=0xbf, ..] => 3,
        [0xed, 0x80..=0x9f, 0x80..=0xbf, ..] => 3,
        [0xf0, 0x90..=0xbf, 0x80..=0xbf, 0x80..=0xbf, ..] => 4,
        [0xf1..=0xf3, 0x80..=0xbf, 0x80..=0xbf, 0x80..=0xbf, ..] => 4,
        [0xf4, 0x80..=0x8f, 0x80..=0xbf, 0x80..=0xbf, ..] => 4,
        [_, ..] => 1,
        [] => 0,
    }
}

// Appends a byte that is a letter of its own, or none.
fn append_byte(byte: u8, into: &mut Vec<u8>) -> Result<(), NoMemory> {
    match byte {
        b'"' => into.extend_from_slice(b"\\\""),
        b'\\' => into.extend_from_slice(b"\\\\"),
        b'<' | b'>' | b'&' | 0..=31 | 127 => append_code(b"\\u00", byte, into),
        128..=255 => append_code(b"\\\\x", byte, into),
        _ => {
            into.push(byte)?;
            Ok(())
        }
    }
}

// Appends a byte as two digits behind a mark.
fn append_code(mark: &[u8], byte: u8, into: &mut Vec<u8>) -> Result<(), NoMemory> {
    into.extend_from_slice(mark)?;
    append_digit(byte / 16, into)?;
    append_digit(byte % 16, into)
}

fn append_digit(digit: u8, into: &mut Vec<u8>) -> Result<(), NoMemory> {
    if let Some(byte) = DIGITS.get(digit as usize) {
        into.push(*byte)?;
    }
    Ok(())
}
