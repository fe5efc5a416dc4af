//! What holds of every run and of every history.
ghost use Rattle.std.specs.Prelude.{◌≡◌, ◌<◌, ◌+◌, List, [], ◌++◌, All, AllPairs};
ghost use Rattle.std.specs.Prelude.{Some, IfSome, ℕ};
ghost use mathlib.Core.List.{IsPrefix};
ghost use Rattle.tc_model.specs.declared.limits.TheConstants.{MOST_NAME_BYTES, MOST_BUDGET};
ghost use Rattle.tc_model.specs.declared.limits.TheConstants.{MOST_TUPLES};
ghost use Rattle.tc_model.specs.declared.limits.TheConstants.{MOST_CLAUSES, MOST_GOALS, MOST_TESTS};
ghost use Rattle.tc_model.specs.declared.limits.TheConstants.{MOST_WEIGHT};
ghost use Rattle.tc_model.specs.declared.asks.Ask.{Ask};
ghost use Rattle.tc_model.specs.declared.asks.Primitive.{Primitive};
ghost use Rattle.tc_model.specs.declared.calls.CallId.{CallId};
ghost use Rattle.tc_model.specs.declared.entries.Entry.{Entry};
ghost use Rattle.tc_model.specs.declared.lines.Line.{Line};
ghost use Rattle.tc_model.specs.declared.outcomes.Reply.{Reply};
ghost use Rattle.tc_model.specs.Asks.{primitive_name};
ghost use Rattle.tc_model.specs.Lines.{ask_term, line_term};
ghost use Rattle.tc_model.specs.Choices.{Choice};
ghost use Rattle.tc_model.specs.State.{State, Origin, IsOrigin, IsTypedState, opening};
ghost use Rattle.tc_model.specs.State.{after_history};
ghost use Rattle.tc_model.specs.Waiting.{NeverWaits, GivesNothing, AreWaiting};
ghost use Rattle.tc_model.specs.Events.{Occurrence, Setting};
ghost use Rattle.tc_model.specs.Reactions.{Rule};
ghost use Rattle.tc_model.specs.Tuples.{after_effects, after_items};
ghost use Rattle.tc_model.specs.Goals.{Scene, Moment, Leads};
ghost use Rattle.tc_model.specs.Cascades.{Wave, Begins};
ghost use Rattle.tc_model.specs.declared.goals.Goal.{Goal};
ghost use Rattle.tc_model.specs.declared.items.Item.{Item};
ghost use Rattle.tc_term.specs.Tree.{Tree};
ghost use Rattle.tc_model.specs.Calls.{id_of, calls_of};
ghost use Rattle.tc_model.specs.Replies.{reply_in};
ghost use Rattle.tc_model.specs.Run.{IsRunBy, IsRun, IsFirstRun};
ghost use Rattle.tc_model.specs.Entries.{IsWellFormed, weight};
ghost use Rattle.tc_model.specs.Typed.{IsTyped, IsTypedCall, IsTypedReply};

/// The limits are these numbers.
pub fn limits_are_these()
    ensures name_bytes { MOST_NAME_BYTES ≡ 65535 }
    ensures budget { MOST_BUDGET ≡ 10000 }
    ensures tuples { MOST_TUPLES ≡ 16777216 }
    ensures clauses { MOST_CLAUSES ≡ 1000 }
    ensures goals { MOST_GOALS ≡ 64 }
    ensures tests { MOST_TESTS ≡ 16 }
    ensures weight { MOST_WEIGHT ≡ 4000000 }
{}

/// A name is of one primitive at most, and a term is written for one ask and for one line at most.
pub fn what_is_written_is_asked_once()
    ensures primitive { (p q : Primitive) → primitive_name p ≡ primitive_name q → p ≡ q }
    ensures ask { (a b : Ask) → ask_term a ≡ ask_term b → a ≡ b }
    ensures line { (l m : Line) → line_term l ≡ line_term m → l ≡ m }
{}

/// A run in which every choice is the first is a run.
pub fn first_run_is_run()
    ensures { (origin : Origin) (history : List Entry)
        → IsFirstRun origin history → IsRun origin history }
{}

/// Each beginning of a run is a run, by the same choice.
pub fn beginning_is_run()
    ensures { (choice : Choice) (origin : Origin) (before history : List Entry)
        → IsPrefix before history → IsRunBy choice origin history
        → IsRunBy choice origin before }
{}

/// In a run the numbers of one agent rise.
pub fn numbers_rise()
    ensures { (origin : Origin) (history : List Entry) (agent : ℕ) → IsRun origin history
        → AllPairs (λ d e. (id_of d).number < (id_of e).number) (calls_of agent history) }
{}

/// The entries of a run are well formed.
pub fn run_is_well_formed()
    ensures { (origin : Origin) (history : List Entry)
        → IsRun origin history → All IsWellFormed history }
{}

/// A run of first choices whose calls are typed is typed, with all the reactions that it records.
pub fn first_run_is_typed()
    ensures { (origin : Origin) (history : List Entry) → IsOrigin origin
        → IsFirstRun origin history → All IsTypedCall history → All IsTyped history }
{}

/// A typed history leads from an origin to a typed state: all its tuples are tuples.
pub fn typed_history_leads_to_a_typed_state()
    ensures { (origin : Origin) (history : List Entry) → IsOrigin origin → All IsTyped history
        → IsTypedState (after_history (opening origin) history) }
{}

/// The replies of a typed history are typed.
pub fn replies_are_typed()
    ensures { (history : List Entry) (id : CallId) → All IsTyped history
        → IfSome (reply_in history id) IsTypedReply }
{}

/// A reply stays the same however the history goes on.
pub fn reply_stays()
    ensures { (before history : List Entry) (id : CallId) (reply : Reply)
        → IsPrefix before history → reply_in before id ≡ Some reply
        → reply_in history id ≡ Some reply }
{}

/// A history weighs what its parts weigh.
pub fn weights_add()
    ensures { (history more : List Entry)
        → weight (history ++ more) ≡ weight history + weight more }
{}

/// What entries record fixes where they lead: a body to the tuples after its effects, a cascade to
/// those after its items, and a history to the state after its parts, one after the other.
pub fn entries_fix_the_state()
    ensures body { (choice : Choice) (scene : Scene) (goals : List Goal) (begin end : Moment)
        → begin.effects ≡ [] → Leads choice scene goals begin end
        → end.tuples ≡ after_effects end.effects begin.tuples }
    ensures cascade { (choice : Choice) (clauses : List Rule) (setting : Setting) (e : Occurrence)
        (tuples : List Tree) (items : List Item) (end : Wave)
        → Begins choice clauses setting e tuples items end
        → end.tuples ≡ after_items items tuples }
    ensures history { (s : State) (history more : List Entry)
        → after_history s (history ++ more) ≡ after_history (after_history s history) more }
{}

/// In a run the requests that wait are the calls that have no reply yet, each once.
pub fn waiting_calls_have_no_reply()
    ensures { (origin : Origin) (history : List Entry) → IsRun origin history
        → AreWaiting history (after_history (opening origin) history).pending }
{}

/// Where no call may have to wait, no request waits, and none is answered later.
pub fn nothing_waits_uncalled()
    ensures none_waits { (origin : Origin) (history : List Entry) → IsRun origin history
        → All NeverWaits history → (after_history (opening origin) history).pending ≡ [] }
    ensures none_given { (origin : Origin) (history : List Entry) → IsRun origin history
        → All NeverWaits history → All GivesNothing history }
{}
