//! What recorded choices fix.
ghost use Rattle.std.specs.Prelude.{◌≡◌, ◌≢◌, ◌≤◌, ◌++◌, ◌∷◌, [], false, List, Some, ℕ, length};
ghost use Rattle.std.specs.Prelude.{take, slice_get};
ghost use Rattle.tc_term.specs.Tree.{Tree};
ghost use Rattle.tc_model.specs.Cascades.{Begins, Wave};
ghost use Rattle.tc_model.specs.Choices.{Choice, AnyOne};
ghost use Rattle.tc_model.specs.Goals.{Scene, Moment, Move, Does, moved};
ghost use Rattle.tc_model.specs.declared.goals.Goal.{Goal};
ghost use Rattle.tc_model.specs.declared.items.Effect.{Effect};
ghost use Rattle.tc_model.specs.State.{IsQuiescent, Origin, after_history, opening};
ghost use Rattle.tc_model.specs.declared.entries.Entry.{Entry};
ghost use Rattle.tc_replay.specs.Bad.{IsBadAt, IsGave, IsNoGave, IsQuietRun};
ghost use Rattle.tc_replay.specs.Following.{HasNoStep, IsFollowed, LeadsNowhere, LeadsThere};
ghost use Rattle.tc_replay.specs.Following.{has_effect};
ghost use Rattle.tc_model.specs.Events.{Occurrence, Setting};
ghost use Rattle.tc_model.specs.Reactions.{Rule};
ghost use Rattle.tc_model.specs.declared.items.Item.{Item};

/// The items of a cascade fix where it leads.
pub fn items_fix_the_cascade()
    ensures { (choice : Choice) (clauses : List Rule) (setting : Setting) (e : Occurrence)
        (tuples : List Tree) (items : List Item) (x y : Wave)
        → Begins choice clauses setting e tuples items x
        → Begins choice clauses setting e tuples items y → x ≡ y }
{}

/// Goals lead to one end by the effects that are recorded: so a body is followed goal by goal.
pub fn a_body_is_followed_goal_by_goal()
    ensures begun { (scene : Scene) (recorded : List Effect) (m : Moment)
        → LeadsThere scene [] m m recorded }
    ensures more { (scene : Scene) (recorded : List Effect) (m : Moment) (gs : List Goal) (g : Goal)
        (k end : Moment) (n : ℕ) → n ≤ length recorded → k.effects ≡ take n recorded
        → LeadsThere scene gs m k recorded → IsFollowed scene g (slice_get recorded n) k end
        → LeadsThere scene (gs ++ g ∷ []) m end recorded }
    ensures none { (scene : Scene) (recorded : List Effect) (m : Moment) (gs : List Goal) (g : Goal)
        (hs : List Goal) (k : Moment) (n : ℕ) → n ≤ length recorded → k.effects ≡ take n recorded
        → LeadsThere scene gs m k recorded → HasNoStep scene g (slice_get recorded n) k
        → LeadsNowhere scene (gs ++ g ∷ hs) m recorded }
    ensures left_over { (scene : Scene) (recorded : List Effect) (m : Moment) (gs : List Goal)
        (k : Moment) (n : ℕ) → n ≤ length recorded → k.effects ≡ take n recorded
        → n ≢ length recorded → LeadsThere scene gs m k recorded
        → LeadsNowhere scene gs m recorded }
{}

/// A goal without an effect does one thing at a moment.
pub fn plain_goals_do_one_thing()
    ensures { (scene : Scene) (g : Goal) → has_effect g ≡ false → (m : Moment) (a b : Move)
        → Does AnyOne scene g m a → Does AnyOne scene g m b → moved a m ≡ moved b m }
{}

/// At most one entry of a history is the first that isn't legal, and a run to a quiet state has
/// none.
pub fn one_entry_is_the_first_bad_one()
    ensures one { (origin : Origin) (history : List Entry) (n m : ℕ) → IsBadAt origin history n
        → IsBadAt origin history m → n ≡ m }
    ensures none { (origin : Origin) (history : List Entry) (n : ℕ) → IsQuietRun origin history
        → IsBadAt origin history n → ⊥ }
{}

/// In a run to a quiet state, the state before an entry is quiet exactly where the entry is no
/// answer to a request.
pub fn entries_tell_quiet_points()
    ensures before { (origin : Origin) (history : List Entry) → IsQuietRun origin history → (n : ℕ)
        (e : Entry) → slice_get history n ≡ Some e → IsNoGave e
        → IsQuiescent (after_history (opening origin) (take n history)) }
    ensures gave { (origin : Origin) (history : List Entry) → IsQuietRun origin history → (n : ℕ)
        (e : Entry) → slice_get history n ≡ Some e → IsGave e
        → IsQuiescent (after_history (opening origin) (take n history)) → ⊥ }
    ensures end { (origin : Origin) (history : List Entry) → IsQuietRun origin history → (n : ℕ)
        → n ≡ length history → IsQuiescent (after_history (opening origin) (take n history)) }
{}
