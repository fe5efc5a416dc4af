//! Laws of verdicts and of inputs, for callers to cite.
ghost use Rattle.std.specs.Prelude.{◌≡◌, ◌≢◌, ℕ, AllPairs, List};
ghost use Rattle.tc_config.specs.Configurations.{Configuration, agent_names};
ghost use Rattle.tc_verify.specs.Inputs.{IsParted};
ghost use Rattle.tc_verify.specs.RunTexts.{IsTextOfRun};
ghost use Rattle.tc_verify.specs.Verdicts.{IsAudit, IsVerdict};
ghost use Rattle.tc_verify.specs.declared.verdicts.Verdict.{Verdict};

/// A text is verified yes exactly where it is that of a run of the configuration, whatever was
/// chosen in it.
pub fn yes_is_told_of_texts_of_runs()
    ensures run { (c : Configuration) (bytes : List ℕ) → IsVerdict c bytes Verdict.Yes
        → IsTextOfRun c bytes }
    ensures yes { (c : Configuration) (bytes : List ℕ) → IsTextOfRun c bytes
        → IsVerdict c bytes Verdict.Yes }
{}

/// A text has one verdict as that of a run, and one as that of a service, where agents' names
/// differ.
pub fn a_text_has_one_verdict()
    ensures run { (c : Configuration) (bytes : List ℕ) (v w : Verdict)
        → AllPairs ◌≢◌ (agent_names c) → IsVerdict c bytes v → IsVerdict c bytes w → v ≡ w }
    ensures service { (c : Configuration) (bytes : List ℕ) (v w : Verdict)
        → AllPairs ◌≢◌ (agent_names c) → IsAudit c bytes v → IsAudit c bytes w → v ≡ w }
{}

/// An input is parted in one way.
pub fn an_input_is_parted_in_one_way()
    ensures { (input first second other rest : List ℕ) → IsParted input first second
        → IsParted input other rest → (first ≡ other) × (second ≡ rest) }
{}
