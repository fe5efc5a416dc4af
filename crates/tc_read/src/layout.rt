//! Layout: blanks and comments.
ghost use Rattle.std.specs.Prelude.{◌≡◌, ◌∷◌, [], IfNone, IfSome, List, MatchOption};
ghost use Rattle.std.specs.Prelude.{ℕ};
ghost use Rattle.tc_term.specs.Layouts.{ClosesBlock, Layout, NoPiece, Piece, ToBlockEnd};
ghost use Rattle.tc_term.specs.Layouts.{ToLineEnd, is_blank};

/// The first byte and the others.
#[inline(always)]
pub fn next_byte(text: &[u8]) -> Option<(u8, &[u8])>
    ensures { MatchOption result (text.now ≡ []) (λ r. text.now ≡ r.0 ∷ r.1.now) }
{
    match text {
        [] => None,
        [first, rest @ ..] => Some((*first, rest)),
    }
}

fn is_blank(byte: u8) -> bool
    ensures { result ≡ is_blank byte }
{
    byte == b' ' || byte == b'\t' || byte == b'\n' || byte == b'\r'
}

/// What stands behind the line.
fn behind_line(text: &[u8]) -> &[u8]
    ensures { ToLineEnd text.now result.now }
{
    let mut rest = text;
    loop {
        match next_byte(rest) {
            None => return rest,
            Some((byte, after)) => {
                if byte == b'\n' {
                    return after;
                }
                rest = after;
            }
        }
    }
}

/// What stands behind an end of a comment at the front.
fn closed_comment(text: &[u8]) -> Option<&[u8]>
    ensures some { IfSome result (λ r. text.now ≡ 42 ∷ 47 ∷ r.now) }
    ensures none { IfNone result (ClosesBlock text.now → ⊥) }
{
    let (first, after) = next_byte(text)?;
    let (second, behind) = next_byte(after)?;
    if first == b'*' && second == b'/' {
        Some(behind)
    } else {
        None
    }
}

/// What stands behind the next end of a comment in the text.
fn behind_comment(text: &[u8]) -> Option<&[u8]>
    ensures some { IfSome result (λ r. ToBlockEnd text.now r.now) }
    ensures none { IfNone result ((r : List ℕ) → ToBlockEnd text.now r → ⊥) }
{
    let mut rest = text;
    loop {
        match closed_comment(rest) {
            Some(behind) => return Some(behind),
            None => match next_byte(rest) {
                None => return None,
                Some((_, after)) => rest = after,
            },
        }
    }
}

/// What stands behind a first piece of layout.
pub fn behind_piece(text: &[u8]) -> Option<&[u8]>
    ensures some { IfSome result (λ r. Piece text.now r.now) }
    ensures none { IfNone result (NoPiece text.now) }
{
    let (first, after) = next_byte(text)?;
    if is_blank(first) {
        return Some(after);
    }
    match first {
        b'%' => Some(behind_line(after)),
        b'/' => behind_slash(after),
        _ => None,
    }
}

/// What stands behind a comment whose first byte has been read.
fn behind_slash(text: &[u8]) -> Option<&[u8]>
    ensures some { IfSome result (λ r. Piece (47 ∷ text.now) r.now) }
    ensures none { IfNone result (NoPiece (47 ∷ text.now)) }
{
    let (second, inside) = next_byte(text)?;
    if second == b'*' {
        behind_comment(inside)
    } else {
        None
    }
}

/// What stands behind all the layout at the front.
pub fn behind_layout(text: &[u8]) -> &[u8]
    ensures { Layout text.now result.now }
{
    let mut rest = text;
    loop {
        match behind_piece(rest) {
            None => return rest,
            Some(after) => rest = after,
        }
    }
}
