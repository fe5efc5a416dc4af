//! What holds of sessions, for callers to cite.
ghost use Rattle.std.specs.Prelude.{◌≡◌, ◌+◌, ◌≤◌, ◌++◌, ℕ, List, Result, length, slice_index};
ghost use Rattle.tc_desk.specs.Desks.{DeskState};
ghost use Rattle.tc_lines.specs.declared.requests.BadLine.{BadLine};
ghost use Rattle.tc_lines.specs.declared.requests.LineAsk.{LineAsk};
ghost use Rattle.tc_session.specs.Answers.{Answers};
ghost use Rattle.tc_session.specs.Sessions.{LeadTo};
ghost use Rattle.tc_session.specs.Staying.{HasOneCall, LogStays};

/// A line that is answered leaves the log as it was in these cases alone: it asks no call of the
/// desk; it polls or waits where no call is pending; it polls where no turn is left at the
/// pending call's centre; it waits, and at its end no turn is left there and the call is pending
/// still.
pub fn a_log_stays_in_few_cases()
    ensures only { (d : DeskState) (asked : Result LineAsk BadLine) (reply : List ℕ)
        (e : DeskState) → Answers d asked reply e → e.log ≡ d.log → LogStays d asked e }
    ensures always { (d : DeskState) (asked : Result LineAsk BadLine) (reply : List ℕ)
        (e : DeskState) → Answers d asked reply e → HasOneCall d → LogStays d asked e
        → e.log ≡ d.log }
{}

/// At each centre the turns fall by no more than the lines and the entries that are newly seen.
///
/// So one who begins with 4,294,967,295 turns, at a centre of which at most 4,000,000 entries are
/// seen, has none left only after 4,290,000,000 lines.
pub fn turns_fall_by_lines_and_entries()
    ensures fall { (d : DeskState) (raws : List (List ℕ)) (text : List ℕ) (e : DeskState)
        → LeadTo d raws text e → (k : ℕ) → slice_index d.turns k + slice_index d.seen k
        ≤ slice_index e.turns k + slice_index e.seen k + length raws }
    ensures last_long { (d : DeskState) (raws : List (List ℕ)) (text : List ℕ) (e : DeskState)
        → LeadTo d raws text e → (k : ℕ) → slice_index d.turns k ≡ 4_294_967_295
        → slice_index e.seen k ≤ 4_000_000 → slice_index e.turns k ≡ 0
        → 4_290_000_000 ≤ length raws }
{}

/// What is replied to lines begins with what is replied to the first of them.
pub fn replies_of_a_front_are_a_front()
    ensures { (d : DeskState) (raws more : List (List ℕ)) (text : List ℕ) (e : DeskState)
        → LeadTo d (raws ++ more) text e
        → (mid : DeskState) × (front : List ℕ) × (rest : List ℕ)
        × LeadTo d raws front mid × LeadTo mid more rest e × (text ≡ front ++ rest) }
{}
