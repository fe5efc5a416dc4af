//! Laws of bodies, each the contract of a function that does nothing.
ghost use Rattle.std.specs.Prelude.{ℕ, ◌≡◌, ◌≤◌, List, [], ◌∷◌, Some};
ghost use Rattle.tc_term.specs.Tree.{Tree};
ghost use Rattle.tc_steps.specs.Tops.{agreeing};
ghost use Rattle.tc_model.specs.Bodies.{IsFired, IsFailed};
ghost use Rattle.tc_model.specs.Choices.{TheFirst};
ghost use Rattle.tc_model.specs.Events.{Occurrence, Setting};
ghost use Rattle.tc_model.specs.Reactions.{Rule};
ghost use Rattle.tc_model.specs.declared.goals.Goal.{Goal};
ghost use Rattle.tc_model.specs.declared.items.Effect.{Effect};
ghost use Rattle.tc_model.specs.declared.items.Item.{Item};
ghost use Rattle.tc_body.specs.Costs.{sought, body_steps};

/// No body is without an outcome: it can't be that it neither fires nor fails at a goal.
pub fn body_has_an_outcome()
    ensures { (r : Rule) (e : Occurrence) (setting : Setting) (tuples : List Tree)
        → ((effects : List Effect) → IsFired TheFirst r e setting tuples effects → ⊥)
        → ((goal : ℕ) (effects : List Effect)
        → IsFailed TheFirst r e setting tuples goal effects → ⊥)
        → ⊥ }
{}

/// A body of one goal that seeks a term with which one tuple alone agrees at its top makes four
/// steps at most, however many tuples there are.
pub fn only_match_is_found_in_four_steps()
    ensures { (r : Rule) (item : Item) (tuples : List Tree) (goal : Goal) (t : Tree)
        → r.goals ≡ goal ∷ [] → sought goal ≡ Some t → agreeing t tuples ≡ 1
        → body_steps r item tuples ≤ 4 }
{}
