//! What the limits of a call are, and what a text tells.
ghost use Rattle.std.specs.Prelude.{◌≡◌, ◌-◌, ◌^◌, ℕ, Bool, List};
ghost use Rattle.tc_config.specs.Configurations.{Configuration, IsConfig};
ghost use Rattle.tc_config.specs.Good.{IsGood};
ghost use Rattle.tc_model.specs.Choices.{TheFirst};
ghost use Rattle.tc_verify.specs.Verdicts.{IsAudit, IsVerdict};
ghost use Rattle.tc_verify.specs.declared.verdicts.Verdict.{Verdict};
ghost use Rattle.tc_visits.specs.Service.{DoorState, IsServiceBy};
ghost use Rattle.tucson.specs.Answer.{IsTextOf};
ghost use Rattle.tucson.specs.Texts.{whole_text};
ghost use Rattle.tucson.specs.declared.limits.TheConstants.{MOST_AGENTS, MOST_INPUT, MOST_PORT};
ghost use Rattle.tucson.specs.declared.limits.TheConstants.{MOST_START, MOST_WORKERS, USUAL_WORKERS};

/// The limits are these numbers.
pub fn limits_are_these()
    ensures usual { USUAL_WORKERS ≡ 4 }
    ensures workers { MOST_WORKERS ≡ 64 }
    ensures agents { MOST_AGENTS ≡ 1000 }
    ensures start { MOST_START ≡ 2 ^ 64 - 1 }
    ensures port { MOST_PORT ≡ 65535 }
    ensures input { MOST_INPUT ≡ 268435456 }
{}

/// A text tells its histories: whoever finds in it a run of a configuration, or a service of its
/// agents, finds the same histories, whatever logs, connections and sessions he finds beside them.
pub fn a_text_tells_its_histories()
    ensures run { (c : Configuration) (text : List ℕ) (waits others : Bool) → IsConfig c
        → (a : IsTextOf (IsGood TheFirst c) (whole_text c) waits text)
        → (b : IsTextOf (IsGood TheFirst c) (whole_text c) others text)
        → a.histories ≡ b.histories }
    ensures service { (c : Configuration) (text : List ℕ) (waits others : Bool) → IsConfig c
        → (door after first last : DoorState) (all enough every ample : Bool)
        → (a : IsTextOf (IsServiceBy door after all enough c) (whole_text c) waits text)
        → (b : IsTextOf (IsServiceBy first last every ample c) (whole_text c) others text)
        → a.histories ≡ b.histories }
{}

/// What `run` writes is verified yes.
pub fn what_run_writes_is_verified_yes()
    ensures { (c : Configuration) (waits : Bool) (text : List ℕ) → IsConfig c
        → IsTextOf (IsGood TheFirst c) (whole_text c) waits text → IsVerdict c text Verdict.Yes }
{}

/// What `serve` writes is audited yes.
pub fn what_serve_writes_is_audited_yes()
    ensures { (door after : DoorState) (all enough : Bool) (c : Configuration) (waits : Bool)
        (text : List ℕ) → IsConfig c
        → IsTextOf (IsServiceBy door after all enough c) (whole_text c) waits text
        → IsAudit c text Verdict.Yes }
{}
