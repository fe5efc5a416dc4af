//! Limits of lines.
ghost use Rattle.std.specs.Prelude.{◌≡◌};

/// The most bytes that a line may have, without the LF behind it.
pub const MOST_LINE: usize = 131_072;

/// The most bytes of room that are kept where nothing is held.
pub const MOST_SPARE: usize = 65_536;

/// The limit as a number.
pub fn most_line_is_this()
    ensures { MOST_LINE ≡ 131_072 }
{}
