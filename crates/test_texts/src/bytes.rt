//! Bytes that rows spell.
use anyhow::anyhow;
use tc_lists::append_number;

/// Appends the bytes that a text spells: `\n` is an LF, `\r` a CR, `\0` a zero byte, `\s` a blank
/// and `\\` a backslash; `#` is the number.
pub fn append_bytes(text: &[u8], number: u64, into: &mut Vec<u8>) -> anyhow::Result<()> {
    let mut escaped = false;
    for byte in text {
        if escaped {
            into.push(escaped_byte(*byte)?)?;
            escaped = false;
        } else if *byte == b'\\' {
            escaped = true;
        } else if *byte == b'#' {
            append_number(number, into)?;
        } else {
            into.push(*byte)?;
        }
    }
    Ok(())
}

// The byte that is written so, behind a backslash.
fn escaped_byte(letter: u8) -> anyhow::Result<u8> {
    match letter {
        b'n' => Ok(b'\n'),
        b'r' => Ok(b'\r'),
        b'0' => Ok(0),
        b's' => Ok(b' '),
        b'\\' => Ok(b'\\'),
        _ => Err(anyhow!("a row has an escape that isn't there")),
    }
}
