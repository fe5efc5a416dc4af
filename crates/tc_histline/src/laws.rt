//! What is read of lines is what is written there, for callers to cite.
ghost use Rattle.std.specs.Prelude.{◌≡◌, ◌≢◌, ◌++◌, AllPairs, List, ℕ};
ghost use Rattle.tc_lists.specs.AtFront.{AlwaysTakes, IsReadAgain};
ghost use Rattle.tc_histline.specs.Items.{HasItemLine, item_at};
ghost use Rattle.tc_histline.specs.Lines.{EndsOnce, HasLine, line_text};
ghost use Rattle.tc_histline.specs.Operations.{IsWrittenIn, op_at, written_text};
ghost use Rattle.tc_histline.specs.Outcomes.{IsOutcomeIn, IsToldIn, ended, ended_text, outcome_at};
ghost use Rattle.tc_histline.specs.Outcomes.{told_at};
ghost use Rattle.tc_histline.specs.Text.{item_text, outcome_text, told_text};
ghost use Rattle.tc_histline.specs.declared.lines.Line.{Line};
ghost use Rattle.tc_histline.specs.declared.versions.Version.{Version};

/// Parts of lines at the front of bytes: what is read has a text in this version, which stands
/// there; and what is written is read again, an outcome and what an agent is told up to the end of
/// the line.
pub fn parts_of_lines_are_read_again()
    ensures op { (v : Version) → AlwaysTakes (IsWrittenIn v) written_text (op_at v) }
    ensures op_again { (v : Version) → IsReadAgain (IsWrittenIn v) written_text (op_at v) }
    ensures outcome { (v : Version) → AlwaysTakes (IsOutcomeIn v) outcome_text (outcome_at v) }
    ensures outcome_again { (v : Version)
        → IsReadAgain (IsOutcomeIn v) (ended_text outcome_text) (ended (outcome_at v)) }
    ensures told { (v : Version) → AlwaysTakes (IsToldIn v) told_text (told_at v) }
    ensures told_again { (v : Version)
        → IsReadAgain (IsToldIn v) (ended_text told_text) (ended (told_at v)) }
{}

/// The lines of reactions at the front of bytes: what is read has a line, which stands there; and
/// what is written is read again.
pub fn items_are_read_again()
    ensures item { AlwaysTakes HasItemLine item_text item_at }
    ensures again { IsReadAgain HasItemLine item_text item_at }
{}

/// Of the lines of a version and of agents whose names differ, one at most stands at the front of
/// bytes, with one rest behind it.
pub fn lines_of_one_text_are_one()
    ensures { (v : Version) (agents : List (List ℕ)) (l m : Line) (rest more : List ℕ)
        → AllPairs ◌≢◌ agents → HasLine v agents l → HasLine v agents m
        → line_text v agents l ++ rest ≡ line_text v agents m ++ more → (l ≡ m) × (rest ≡ more) }
{}

/// A line has one line feed, its last byte.
pub fn lines_end_once()
    ensures { (v : Version) (agents : List (List ℕ)) (l : Line) → HasLine v agents l
        → EndsOnce (line_text v agents l) }
{}
