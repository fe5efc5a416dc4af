//! Laws of operations, each the contract of a function that does nothing.
ghost use Rattle.std.specs.Prelude.{List};
ghost use Rattle.tc_model.specs.Choices.{TheFirst};
ghost use Rattle.tc_model.specs.State.{IsAnswerable, Origin, State};
ghost use Rattle.tc_model.specs.Tables.{IsGiven, IsServed};
ghost use Rattle.tc_model.specs.declared.calls.CallId.{CallId};
ghost use Rattle.tc_model.specs.declared.calls.Op.{Op};
ghost use Rattle.tc_model.specs.declared.calls.Request.{Request};
ghost use Rattle.tc_model.specs.declared.items.Item.{Item};
ghost use Rattle.tc_model.specs.declared.outcomes.Outcome.{Outcome};

/// No operation is without an outcome: in no state the table of calls has none for it. And no
/// request is without one while what it wants is there.
pub fn operation_has_an_outcome()
    ensures served { (origin : Origin) (s : State) (id : CallId) (op : Op)
        → ((result : Outcome) (items : List Item) → IsServed TheFirst origin s id op result items → ⊥)
        → ⊥ }
    ensures given { (origin : Origin) (s : State) (r : Request)
        → ((result : Outcome) (items : List Item) → IsGiven TheFirst origin s r result items → ⊥)
        → IsAnswerable s.tuples r → ⊥ }
{}
