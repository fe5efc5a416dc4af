//! Laws of texts of configurations, of good runs and of limits, for callers to cite.
ghost use Rattle.std.specs.Prelude.{◌≡◌, List, ℕ};
ghost use Rattle.tc_model.specs.Choices.{AnyOne, TheFirst};
ghost use Rattle.tc_model.specs.declared.entries.Entry.{Entry};
ghost use Rattle.tc_desk.specs.declared.rows.LogRow.{LogRow};
ghost use Rattle.tc_config.specs.Configurations.{Configuration};
ghost use Rattle.tc_config.specs.Good.{IsGood};
ghost use Rattle.tc_config.specs.Texts.{IsRefused, Spells};
ghost use Rattle.tc_config.specs.declared.faults.ConfigCause.{ConfigCause};
ghost use Rattle.tc_config.specs.declared.limits.TheConstants.{MOST_AGENTS, MOST_BYTES};
ghost use Rattle.tc_config.specs.declared.limits.TheConstants.{MOST_CENTRES, MOST_ITEMS};
ghost use Rattle.tc_config.specs.declared.limits.TheConstants.{MOST_ROLES, USUAL_BUDGET};

/// A text spells one configuration at most.
pub fn configuration_of_a_text_is_unique()
    ensures { (text : List ℕ) (c other : Configuration) → Spells text c → Spells text other
        → c ≡ other }
{}

/// A text that is refused for some clause spells none.
pub fn a_refused_text_spells_nothing()
    ensures { (text : List ℕ) (c : Configuration) (clause : ℕ) (why : ConfigCause)
        → Spells text c → IsRefused text clause why → ⊥ }
{}

/// A good run in which every choice is the first is a good run.
pub fn first_good_run_is_good()
    ensures { (c : Configuration) (histories : List (List Entry)) (logs : List (List LogRow))
        → IsGood TheFirst c histories logs → IsGood AnyOne c histories logs }
{}

/// The limits are these numbers.
pub fn limits_are_these()
    ensures bytes { MOST_BYTES ≡ 16777216 }
    ensures centres { MOST_CENTRES ≡ 64 }
    ensures roles { MOST_ROLES ≡ 64 }
    ensures agents { MOST_AGENTS ≡ 1024 }
    ensures items { MOST_ITEMS ≡ 100000 }
    ensures budget { USUAL_BUDGET ≡ 1000 }
{}
