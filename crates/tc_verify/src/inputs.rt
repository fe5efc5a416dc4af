//! An input of two parts.
ghost use Rattle.std.specs.Prelude.{◌≡◌, ◌≤◌, ◌↔◌, drop, length, take, IfNone, IfSome, IsTrue};
ghost use Rattle.tc_histline.specs.Lines.{HasNoFeed};
ghost use Rattle.tc_verify.specs.Inputs.{EndsLine, IsParted, mark};

use memchr::memchr;

const MARK: &[u8] = b"%%";

/// What stands before the first line that is `%%`, and what stands behind it; without such a line
/// all, and nothing.
///
/// The last line may lack its end. Takes time linear in the input, and no memory.
pub fn parted(input: &[u8]) -> (&[u8], &[u8])
    ensures { IsParted input.now result.0.now result.1.now }
{
    let mut from = 0;
    while let Some(end) = line_end(input, from) {
        if is_mark(&input[from..end]) {
            return (&input[..from], &input[end + 1..]);
        }
        from = end + 1;
    }
    if is_mark(&input[from..]) {
        return (&input[..from], &input[input.len()..]);
    }
    (input, &input[input.len()..])
}

// Where the line ends that begins at a place.
fn line_end(input: &[u8], from: usize) -> Option<usize>
    requires { from ≤ length input.now }
    ensures some { IfSome result (EndsLine input.now from) }
    ensures none { IfNone result (HasNoFeed (drop from input.now)) }
{
    match memchr(b'\n', &input[from..]) {
        Some(length) => Some(from + length),
        None => None,
    }
}

// Whether a line is the one that parts.
fn is_mark(line: &[u8]) -> bool
    ensures { IsTrue result ↔ (line.now ≡ mark) }
{
    line == MARK
}
