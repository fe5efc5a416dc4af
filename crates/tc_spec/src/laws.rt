//! Laws of reactions as terms and of texts of clauses, for callers to cite.
ghost use Rattle.std.specs.Prelude.{◌≡◌, List, ℕ};
ghost use Rattle.tc_term.specs.Tree.{Tree};
ghost use Rattle.tc_model.specs.Reactions.{AreClauses, Rule, clauses_text};
ghost use Rattle.tc_model.specs.declared.faults.BadSpec.{BadSpec};
ghost use Rattle.tc_model.specs.declared.faults.SpecCause.{SpecCause};
ghost use Rattle.tc_spec.specs.Texts.{HasBadSpec, IsSpelt};
ghost use Rattle.tc_spec.specs.Written.{IsCausedBy, IsWrittenAs};

/// A term is written as a reaction, as one alone, or has a cause why it is none, and one alone.
pub fn a_term_is_a_reaction_or_has_one_cause()
    ensures reaction { (t : Tree) (r other : Rule) → IsWrittenAs t r → IsWrittenAs t other
        → r ≡ other }
    ensures cause { (t : Tree) (why other : SpecCause) → IsCausedBy t why → IsCausedBy t other
        → why ≡ other }
    ensures not_both { (t : Tree) (r : Rule) (why : SpecCause) → IsWrittenAs t r
        → IsCausedBy t why → ⊥ }
    ensures not_neither { (t : Tree) → ((r : Rule) → IsWrittenAs t r → ⊥)
        → ((why : SpecCause) → IsCausedBy t why → ⊥) → ⊥ }
{}

/// What is printed is read back: the text of a centre's clauses spells them.
pub fn printed_clauses_are_read_back()
    ensures { (rules : List Rule) → AreClauses rules → IsSpelt (clauses_text rules) rules }
{}

/// A text spells one list of clauses at most.
pub fn clauses_of_a_text_are_unique()
    ensures { (text : List ℕ) (rules others : List Rule) → IsSpelt text rules
        → IsSpelt text others → rules ≡ others }
{}

/// A text spells clauses or has a first faulty one with its first cause, of which it has one alone.
pub fn a_text_is_clauses_or_has_one_fault()
    ensures fault { (text : List ℕ) (bad other : BadSpec) → HasBadSpec text bad
        → HasBadSpec text other → bad ≡ other }
    ensures not_both { (text : List ℕ) (rules : List Rule) (bad : BadSpec) → IsSpelt text rules
        → HasBadSpec text bad → ⊥ }
    ensures not_neither { (text : List ℕ) → ((rules : List Rule) → IsSpelt text rules → ⊥)
        → ((bad : BadSpec) → HasBadSpec text bad → ⊥) → ⊥ }
{}
