//! Laws of cascades, each the contract of a function that does nothing.
ghost use Rattle.std.specs.Prelude.{ℕ, List};
ghost use Rattle.tc_term.specs.Tree.{Tree};
ghost use Rattle.tc_model.specs.Cascades.{IsWhole, IsOver};
ghost use Rattle.tc_model.specs.Choices.{TheFirst};
ghost use Rattle.tc_model.specs.Events.{Occurrence, Setting};
ghost use Rattle.tc_model.specs.Reactions.{Rule};
ghost use Rattle.tc_model.specs.declared.items.Item.{Item};

/// No cascade is without an end: it can't be that it is neither whole within the budget nor over
/// it.
pub fn cascade_has_an_end()
    ensures { (clauses : List Rule) (setting : Setting) (budget : ℕ) (e : Occurrence)
        (tuples : List Tree)
        → ((items : List Item)
        → IsWhole TheFirst clauses setting budget e tuples items → ⊥)
        → ((items : List Item)
        → IsOver TheFirst clauses setting budget e tuples items → ⊥)
        → ⊥ }
{}
