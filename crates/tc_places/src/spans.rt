//! Places in a text: spans of bytes, lines and columns.

/// The bytes from one place up to another.
#[derive(Clone, Copy, Debug)]
pub struct Span {
    pub from: usize,
    pub to: usize,
}

impl Span {
    /// The place itself, as wide as one byte.
    pub fn at(place: usize) -> Span {
        Span {
            from: place,
            to: place.saturating_add(1),
        }
    }
}

/// The bytes of a span. None, where it isn't in the text.
pub fn part(text: &[u8], span: Span) -> &[u8] {
    text.get(span.from..span.to).unwrap_or(&[])
}

/// The text from a place on.
pub fn rest(text: &[u8], from: usize) -> &[u8] {
    text.get(from..).unwrap_or(&[])
}

/// The text before a place.
pub fn front(text: &[u8], to: usize) -> &[u8] {
    text.get(..to).unwrap_or(text)
}

/// How many lines end in the bytes.
pub fn line_ends(bytes: &[u8]) -> usize {
    bytes.iter().filter(|byte| **byte == b'\n').count()
}

/// The number of the line in which a place stands, from 1.
pub fn line_number(text: &[u8], place: usize) -> usize {
    line_ends(front(text, place)).saturating_add(1)
}

/// Where the line of a place begins.
pub fn line_start(text: &[u8], place: usize) -> usize {
    let before = front(text, place);
    let length = before
        .iter()
        .rev()
        .take_while(|byte| **byte != b'\n')
        .count();
    before.len().saturating_sub(length)
}

/// Where the line of a place ends, before its line feed.
pub fn line_end(text: &[u8], place: usize) -> usize {
    let behind = rest(text, place);
    let length = behind.iter().take_while(|byte| **byte != b'\n').count();
    place.saturating_add(length)
}

/// The number of the column in which a place stands, from 1, in letters of UTF-8.
pub fn column(text: &[u8], place: usize) -> usize {
    let from = line_start(text, place);
    letters(part(text, Span { from, to: place })).saturating_add(1)
}

/// How many letters of UTF-8 the bytes are.
pub fn letters(bytes: &[u8]) -> usize {
    bytes.iter().filter(|byte| is_letter_start(**byte)).count()
}

/// Whether a letter of UTF-8 begins with the byte.
pub fn is_letter_start(byte: u8) -> bool {
    byte & 0xc0 != 0x80
}
