//! What can be printed, and how texts grow, for callers to cite.
ghost use Rattle.std.specs.Prelude.{◌≡◌, ◌≢◌, ◌<◌, ◌++◌, ◌∷◌, [], ℕ, List, All, AllPairs};
ghost use Rattle.std.specs.Prelude.{length};
ghost use Rattle.tc_model.specs.Calls.{id_of};
ghost use Rattle.tc_model.specs.Entries.{IsWellFormed};
ghost use Rattle.tc_model.specs.Run.{IsRun};
ghost use Rattle.tc_model.specs.State.{Origin};
ghost use Rattle.tc_model.specs.Typed.{IsTyped};
ghost use Rattle.tc_model.specs.declared.entries.Entry.{Entry};
ghost use Rattle.tc_desk.specs.declared.rows.LogRow.{LogRow};
ghost use Rattle.tc_histline.specs.Text.{agent_heading, centre_heading, entry_text, row_text};
ghost use Rattle.tc_histline.specs.declared.versions.Version.{Version};
ghost use Rattle.tc_histtext.specs.Lines.{HasLines, HaveLines};
ghost use Rattle.tc_histtext.specs.Text.{histories_text, history_text, log_text, logs_text};
ghost use Rattle.tc_histtext.specs.Text.{run_text};

/// Each entry of a run can be printed: its agent is one of the centre's.
pub fn entries_of_runs_have_agents()
    ensures { (origin : Origin) (history : List Entry) → IsRun origin history
        → All (λ e. (id_of e).agent < length origin.agents) history }
{}

/// The text of histories goes on with a heading, and then with one entry after another; and so does
/// that of logs, with rows.
pub fn text_grows_by_parts()
    ensures history { (agents : List (List ℕ)) (name : List ℕ)
        → history_text agents name [] ≡ centre_heading name }
    ensures entry { (agents : List (List ℕ)) (name : List ℕ) (history : List Entry) (e : Entry)
        → history_text agents name (history ++ e ∷ [])
        ≡ history_text agents name history ++ entry_text agents e }
    ensures histories { (agents names : List (List ℕ)) (histories : List (List Entry))
        (name : List ℕ) (history : List Entry) → length names ≡ length histories
        → histories_text agents (names ++ name ∷ []) (histories ++ history ∷ [])
        ≡ histories_text agents names histories ++ history_text agents name history }

    ensures log { (v : Version) (name : List ℕ) → log_text v name [] ≡ agent_heading name }
    ensures row { (v : Version) (name : List ℕ) (log : List LogRow) (r : LogRow)
        → log_text v name (log ++ r ∷ []) ≡ log_text v name log ++ row_text v r }
    ensures logs { (v : Version) (names : List (List ℕ)) (logs : List (List LogRow))
        (name : List ℕ)
        (log : List LogRow) → length names ≡ length logs
        → logs_text v (names ++ name ∷ []) (logs ++ log ∷ [])
        ≡ logs_text v names logs ++ log_text v name log }
{}

/// A text tells its version and its histories: two different lists of histories, of these centres
/// and of agents whose names differ, never have the same text, whatever their logs are.
pub fn texts_tell_their_histories()
    ensures one { (v w : Version) (centres agents : List (List ℕ))
        (histories others : List (List Entry)) (logs more : List (List LogRow))
        → AllPairs ◌≢◌ agents
        → HaveLines centres agents histories → HaveLines centres agents others
        → run_text v centres agents histories logs ≡ run_text w centres agents others more
        → (v ≡ w) × (histories ≡ others) }
    ensures lines { (agents : List (List ℕ)) (e : Entry) → IsTyped e → IsWellFormed e
        → (id_of e).agent < length agents → HasLines agents e }
{}
