//! What holds of lines, for callers to cite.
ghost use Rattle.std.specs.Prelude.{◌≡◌, ◌++◌, ℕ, List, All};
ghost use Rattle.tc_lines.specs.Lines.{HasNoBreak, IsLine, lines_text};

/// Bytes hold one list of lines, with one rest behind them: so it doesn't matter in which pieces
/// they come.
pub fn lines_are_unique()
    ensures { (raws others : List (List ℕ)) (rest more : List ℕ)
        → All IsLine raws → All IsLine others → HasNoBreak rest → HasNoBreak more
        → lines_text raws ++ rest ≡ lines_text others ++ more
        → (raws ≡ others) × (rest ≡ more) }
{}
