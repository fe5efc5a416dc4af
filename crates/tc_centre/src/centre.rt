//! The centre and its history.
ghost use Rattle.std.specs.Prelude.{◌≡◌, ◌↔◌, ◌+◌, ◌*◌, ◌<◌, ◌≤◌, []};
ghost use Rattle.std.specs.Prelude.{◌∷◌, ◌++◌, IsTrue};
ghost use Rattle.std.specs.Prelude.{IfOk, OnOk, OnErr};
ghost use Rattle.tc_model.specs.Replies.{reply_in};
ghost use Rattle.tc_model.specs.declared.limits.TheConstants.{MOST_BUDGET, MOST_WEIGHT};
ghost use Rattle.tc_model.specs.Calls.{call_of};
ghost use Rattle.tc_model.specs.Run.{HasCall};
ghost use Rattle.tc_calls.specs.Places.{lists_of, ArePlaces};
ghost use Rattle.tc_centre.specs.Turns.{IsPoll};

use crate::answers::{Answer, Poll, PollFault, TurnFault};
use crate::founding::{Founding, fill};
use crate::holdings::Holdings;
use crate::serving::{serve, typed_id};
use crate::weights::weigh;
use std::alloc::Global;
use std::marker::Model;
use std::snapshot::Snapshot;
use tc_calls::{
    Places, has_call, make_room, no_numbers, no_places, note_number, note_turn, reply_to_call,
};
use tc_lists::NoMemory;
use tc_model::{CallId, Clauses, Entry, MOST_WEIGHT, Op, Reply, Request};
use tc_pending::Pending;
use tc_spec::Spec;
use tc_term::{Ground, Name};
use tc_unify::Store;

/// A tuple centre: what it began with, its tuples, the requests that wait, and its history, with
/// the places in it that tell what became of its calls.
///
/// What it holds stands in a box, so that little is copied where a core is moved.
#[derive(Drop)]
pub struct Core {
    held: Box<Holdings>,
    places: Places,
    numbers: Vec<Option<u64>>,
    weight: u64,
}

impl Model for Core {
    ghost use Rattle.std.specs.Coded.{codes};
    ghost use Rattle.tc_term.specs.TreeCode.{coded_tree, coded_trees};
    ghost use Rattle.tc_centre.specs.Centre.{Centre};

    ghost Value = { Centre };

    ghost coded = { Prim.hlevel (codes, coded_tree, coded_trees) };

    ghost use Rattle.tc_centre.specs.Core.{centre_of, IsSound};

    ghost view = { centre_of };

    ghost invariant = { IsSound };
}

impl Core {
    ghost use Rattle.std.specs.Prelude.{◌≡◌, ◌≤◌, ◌↔◌, ◌<◌, ℕ, All, length};
    ghost use Rattle.std.specs.Prelude.{slice_get, IsTrue};
    ghost use Rattle.std.specs.Prelude.{◌+◌, ◌-◌, ◌^◌, ◌⊎◌, IfOk, IfErr, IfSome};
    ghost use Rattle.std.specs.Prelude.{IfNone, OnErr, Some};
    ghost use Rattle.std.specs.Option.{option_copied};
    ghost use Rattle.tc_model.specs.Replies.{reply_in};
    ghost use Rattle.tc_model.specs.declared.limits.TheConstants.{MOST_WEIGHT};
    ghost use Rattle.tc_model.specs.State.{IsOrigin, IsQuiescent, origin_from};
    ghost use Rattle.tc_model.specs.Run.{IsNext, IsRun, IsFirstRun, HasCall};
    ghost use Rattle.tc_centre.specs.Centre.{centre_from, state_of, weight_in, waiting_in};
    ghost use Rattle.tc_centre.specs.Centre.{IsFullCentre};
    ghost use Rattle.tc_model.specs.Typed.{IsTyped};
    ghost use Rattle.tc_calls.specs.Numbers.{IsLast, IsAbove, IsNextCall};
    ghost use Rattle.tc_centre.specs.Turns.{Serves, IsFullFault, Tells, IsPollRefused};

    /// A centre of these clauses and these tuples, oldest first, with an empty history.
    ///
    /// Its reactions are as many as the budget at most in each phase of a call or of an answer.
    pub fn new(
        alloc: Global,
        name: Name,
        agents: Vec<Name>,
        budget: u32,
        clauses: Clauses,
        tuples: Vec<Ground>,
    ) -> Result<Core, NoMemory>
        requires { IsOrigin (origin_from name agents.items budget tuples.items clauses) }
        ensures { IfOk result
            (λ core. core ≡ centre_from name agents.items budget tuples.items clauses) }
    {
        let founding = Founding {
            name,
            agents,
            budget,
            tuples: Snapshot::of(&tuples),
            clauses: Snapshot::of(&clauses),
        };
        let places = no_places(alloc, founding.agents.len())?;
        let numbers = no_numbers(alloc, founding.agents.len())?;
        let bag = fill(alloc, tuples)?;
        let held = Holdings {
            founding,
            spec: Spec::of(alloc, clauses)?,
            store: Store::new(alloc, 0)?,
            bag,
            pending: Pending::new(alloc),
            history: Vec::new(alloc),
        };
        Ok(Core {
            held: Box::new(alloc, held)?,
            places,
            numbers,
            weight: 0,
        })
    }

    /// Serves a call: appends its entry, and then answers the requests that can be answered, the
    /// oldest first, each with the oldest tuple that matches, or where it wants absence, once none
    /// does.
    ///
    /// Where the history is too heavy for another call, it is refused. Takes the time of one search
    /// among the tuples where one is asked for, some nanoseconds for each request that waits where
    /// a tuple is put, that of one search for each request that wants the absence of a tuple that
    /// was taken, and that of the answers, however long the history is.
    pub fn turn(&mut self, alloc: Global, id: CallId, op: Op) -> Result<Answer, TurnFault>
        requires { IsNext self.old.origin self.old.history id }
        ensures served { IfOk result (Serves self.old self.new id op) }
        ensures refused { IfErr result (IsFullFault self.old) }
        ensures full { IsFullCentre self.old
            → result ≡ Err (TurnFault.Full (weight_in self.old) (waiting_in self.old)) }
        ensures same { OnErr result (self.new ≡ self.old) }
    {
        let held = &mut *self.held;
        let waiting = held.pending.list().len() as u64;
        if is_full(self.weight, waiting, held.founding.budget) {
            return Err(TurnFault::Full {
                weight: self.weight,
                pending: waiting,
            });
        }
        if make_room(&mut self.places, id.agent).is_err() {
            return Err(TurnFault::NoMemory);
        }
        let before = held.history.len();
        match serve(alloc, held, id, op) {
            Ok(answer) => {
                self.weight += weigh(&held.history[before..]);
                note_turn(&mut self.places, &held.history, id, before);
                note_number(&mut self.numbers, id);
                Ok(answer)
            }
            Err(_) => Err(TurnFault::NoMemory),
        }
    }

    /// Tells an agent the reply to its earlier call of the number `asked`, and appends an entry of
    /// that.
    ///
    /// Takes about the same time however long the history is.
    pub fn poll(&mut self, alloc: Global, id: CallId, asked: u64) -> Result<Poll, PollFault>
        requires { IsNext self.old.origin self.old.history id }
        ensures told { IfOk result (Tells self.old self.new id asked) }
        ensures refused { IfErr result (IsPollRefused self.old id asked) }
        ensures stranger { (HasCall (call_of id.agent asked) self.old.history → ⊥)
            → result ≡ Err PollFault.Stranger }
        ensures full { HasCall (call_of id.agent asked) self.old.history → IsFullCentre self.old
            → result ≡ Err (PollFault.Full (weight_in self.old) (waiting_in self.old)) }
        ensures same { OnErr result (self.new ≡ self.old) }
    {
        let held = &mut *self.held;
        let call = CallId {
            agent: id.agent,
            number: asked,
        };
        if !has_call(&self.places, &held.history, call) {
            return Err(PollFault::Stranger);
        }
        let waiting = held.pending.list().len() as u64;
        if is_full(self.weight, waiting, held.founding.budget) {
            return Err(PollFault::Full {
                weight: self.weight,
                pending: waiting,
            });
        }
        typed_id(id);
        match look_up(alloc, id, asked, &self.places, &mut held.history) {
            Ok(poll) => {
                self.weight += 1;
                note_number(&mut self.numbers, id);
                Ok(poll)
            }
            Err(_) => Err(PollFault::NoMemory),
        }
    }

    /// The reply to a call of the history; `None` while it waits. Takes about the same time however
    /// long the history is.
    pub fn look(&self, alloc: Global, id: CallId) -> Result<Option<Reply>, NoMemory>
        requires { HasCall id self.now.history }
        ensures { IfOk result (λ reply. reply ≡ reply_in self.now.history id) }
    {
        reply_to_call(alloc, &self.places, &self.held.history, id)
    }

    /// The entries so far, oldest first.
    pub fn history(&self) -> &[Entry]
        ensures history { result.now ≡ self.now.history }
        ensures origin { IsOrigin self.now.origin }
        ensures run { IsRun self.now.origin self.now.history }
        ensures first { IsFirstRun self.now.origin self.now.history }
        ensures quiescent { IsQuiescent (state_of self.now) }
        ensures typed { All IsTyped self.now.history }
        ensures light { weight_in self.now ≤ MOST_WEIGHT }
    {
        &self.held.history
    }

    /// The requests that wait, oldest first.
    pub fn pending(&self) -> &[Request]
        ensures { result.now ≡ (state_of self.now).pending }
    {
        self.held.pending.list()
    }

    /// What the history weighs: each entry 1, and 1 for each of its reactions.
    pub fn weight(&self) -> u64
        ensures { result ≡ weight_in self.now }
    {
        self.weight
    }

    /// Whether the history has this call. Takes about the same time however long the history is.
    pub fn has_call(&self, id: CallId) -> bool
        ensures { IsTrue result ↔ HasCall id self.now.history }
    {
        has_call(&self.places, &self.held.history, id)
    }

    /// The greatest number of the agent's entries; `None` where it has made none. Takes O(1) time.
    ///
    /// A greater number is one for the agent's next call.
    pub fn last_number(&self, agent: u32) -> Option<u64>
        ensures last { IsLast agent self.now.history result }
        ensures next { (number : ℕ) → agent < length self.now.origin.agents
            → IsAbove result number
            → IsNext self.now.origin self.now.history
            (record { agent = agent; number = number }) }
    {
        match self.numbers.get(agent as usize) {
            Some(number) => *number,
            None => None,
        }
    }

    /// The agent's next call: its number is one above its last, or 1. Takes O(1) time.
    ///
    /// There is none where the centre has no such agent, or its last number is the greatest that
    /// there is.
    pub fn next_call(&self, agent: u32) -> Option<CallId>
        ensures next { IfSome result (IsNext self.now.origin self.now.history) }
        ensures number { IfSome result (IsNextCall agent self.now.history) }
        ensures none { IfNone result ((length self.now.origin.agents ≤ agent)
            ⊎ IsLast agent self.now.history (Some (2 ^ 64 - 1))) }
    {
        if agent as usize >= self.agents().len() {
            return None;
        }
        let number = match self.last_number(agent) {
            Some(last) => last.checked_add(1)?,
            None => 1,
        };
        Some(CallId { agent, number })
    }

    /// How many tuples there are. Takes O(1) time.
    pub fn tuples(&self) -> usize
        ensures { result ≡ length (state_of self.now).tuples }
    {
        self.held.bag.len()
    }

    /// The tuple of this place, from 0, oldest first.
    pub fn tuple(&self, i: usize) -> Option<&Ground>
        ensures { option_copied result ≡ slice_get (state_of self.now).tuples i }
    {
        self.held.bag.nth(i)
    }

    /// The centre's name.
    pub fn name(&self) -> &Name
        ensures { result.now ≡ self.now.origin.name }
    {
        &self.held.founding.name
    }

    /// The names of the agents, in the order of their numbers.
    pub fn agents(&self) -> &[Name]
        ensures { result.now ≡ self.now.origin.agents }
    {
        &self.held.founding.agents
    }
}

// Another call, with all the answers that it may lead to, could make the history too heavy.
fn is_full(weight: u64, waiting: u64, budget: u32) -> bool
    requires weight { weight ≤ MOST_WEIGHT }
    requires waiting { waiting ≤ MOST_WEIGHT }
    requires budget { budget ≤ MOST_BUDGET }
    ensures { IsTrue result ↔ (MOST_WEIGHT < weight + (waiting + 2) * (budget + 1)) }
{
    weight + (waiting + 2) * (budget as u64 + 1) > MOST_WEIGHT
}

// Appends an entry of what an earlier call came to, and tells it.
fn look_up(
    alloc: Global,
    id: CallId,
    asked: u64,
    places: &Places,
    history: &mut Vec<Entry>,
) -> Result<Poll, NoMemory>
    requires places { ArePlaces (lists_of places.now.items) history.old.items }
    requires called { HasCall (call_of id.agent asked) history.old.items }
    ensures poll { IfOk result (IsPoll (reply_in history.old.items (call_of id.agent asked))) }
    ensures appended { OnOk result (history.new.items ≡ history.old.items
        ++ Entry.Looked id asked (reply_in history.old.items (call_of id.agent asked)) ∷ []) }
    ensures same { OnErr result (history.new.items ≡ history.old.items) }
{
    let call = CallId {
        agent: id.agent,
        number: asked,
    };
    let Some(reply) = reply_to_call(alloc, places, history, call)? else {
        history.push(Entry::Looked {
            id,
            asked,
            reply: None,
        })?;
        return Ok(Poll::NotYet);
    };
    let first = reply.copy(alloc)?;
    let again = reply.copy(alloc)?;
    history.push(Entry::Looked {
        id,
        asked,
        reply: Some(reply),
    })?;
    Ok(Poll::Answered(first, again))
}
