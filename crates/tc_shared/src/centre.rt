//! The centre, its passes, and a turn that is kept.
ghost use Rattle.std.specs.Prelude.{◌≡◌, [], ◌<◌, ◌≤◌, ℕ, false, Some, length};
ghost use Rattle.std.specs.Prelude.{IfOk, IfErr, OnErr, All};
ghost use Rattle.tc_model.specs.Calls.{id_of, calls_of, call_of};
ghost use Rattle.tc_model.specs.Run.{HasCall};
ghost use Rattle.tc_model.specs.Replies.{reply_in};
ghost use Rattle.tc_centre.specs.Owners.{owner_of};
ghost use Rattle.tc_turn.specs.Owners.{entries_of};
ghost use Rattle.tc_turn.specs.Passes.{end_of, new_passes, ended_count, AgreesWith};
ghost use Rattle.tc_shared.specs.Passes.{IsPassOf, IsFreshPassOf, IsAtRest, KeepsPass, CallsInTurn};
ghost use Rattle.tc_shared.specs.Passes.{PollsInTurn, Sees, Rests, WaitsInTurns};
ghost use Rattle.tc_shared.specs.Passes.{IsSharedPollRefused};
ghost use Rattle.tc_shared.specs.Passes.{IsCallRefused, IsLookRefused, IsWaitRefused};
ghost use Rattle.tc_shared.specs.Passes.{IsSpent, IsPaused, IsPausedOf};

use crate::answers::{CallFault, LookFault, SharedPollFault, call_fault, poll_fault};
use crate::waking::{answered_since, rung, sleep, wake};
use std::alloc::Global;
use std::marker::Model;
use std::sync::{Arc, Wait};
use tc_bells::{Bells, Roll};
use tc_centre::{Answer, Core, Poll};
use tc_lists::NoMemory;
use tc_model::{CallId, Op, Reply};
use tc_turn::{Ended, Held, Pass, TurnsSpent, Turnstile};

/// The pass of one of the centre's agents, whose number is the pass's.
pub type CentrePass = Pass<Core>;

/// A pass that has ended.
pub type EndedPass = Ended<Core>;

/// A tuple centre that threads share.
///
/// Its core is served by one pass at a time, in turns. A pass that is dropped while it holds a turn
/// stops all others.
#[derive(Drop)]
pub struct SharedCentre {
    turnstile: Turnstile<Core>,
    bells: Bells,
    // On which agents are called once their requests are answered, if there is one.
    roll: Option<Arc<Roll>>,
}

impl Model for SharedCentre {
    ghost use Rattle.std.specs.Coded.{codes};
    ghost use Rattle.tc_term.specs.TreeCode.{coded_tree, coded_trees};
    ghost use Rattle.tc_model.specs.State.{Origin};
    ghost use Rattle.tc_turn.specs.Passes.{TurnstileState};

    ghost Value = { TurnstileState Origin };

    ghost coded = { Prim.hlevel (codes, coded_tree, coded_trees) };

    ghost view = { λ c. c.turnstile };
}

/// A turn that a pass holds, with the core. It lends nothing of it, and is given back by `resume`.
pub struct Paused {
    held: Held<Core>,
}

impl Model for Paused {
    ghost use Rattle.std.specs.Coded.{codes};
    ghost use Rattle.tc_term.specs.TreeCode.{coded_tree, coded_trees};
    ghost use Rattle.tc_centre.specs.Centre.{Centre};

    ghost Value = { Centre };

    ghost coded = { Prim.hlevel (codes, coded_tree, coded_trees) };

    ghost view = { λ p. p.held.value };
}

/// Tells contracts what holds of every core, and does nothing.
pub fn vouch(core: &Core)
    ensures { IsAtRest core.now.origin core.now.history }
{
    let _ = core.history();
}

impl SharedCentre {
    /// A centre round a core that has served nothing, and its passes: one for each agent, in order,
    /// each with so many turns. Where memory ends the core is dropped.
    pub fn new(
        alloc: Global,
        core: Core,
        turns: u32,
    ) -> Result<(SharedCentre, Vec<CentrePass>), NoMemory>
        requires empty { core.history ≡ [] }
        ensures centre { IfOk result (λ r. (r.0.origin ≡ core.origin)
            × (r.0.passes ≡ length core.origin.agents)) }
        ensures passes { IfOk result (λ r. r.1.items
            ≡ new_passes r.0.table core.origin turns 0 (length core.origin.agents)) }
        ensures fresh { IfOk result (λ r. All (IsFreshPassOf r.0) r.1.items) }
    {
        SharedCentre::made(alloc, core, turns, None)
    }

    /// The same with a roll, on which it calls each agent whose request was answered.
    pub fn with_roll(
        alloc: Global,
        core: Core,
        turns: u32,
        roll: Arc<Roll>,
    ) -> Result<(SharedCentre, Vec<CentrePass>), NoMemory>
        requires empty { core.history ≡ [] }
        ensures centre { IfOk result (λ r. (r.0.origin ≡ core.origin)
            × (r.0.passes ≡ length core.origin.agents)) }
        ensures passes { IfOk result (λ r. r.1.items
            ≡ new_passes r.0.table core.origin turns 0 (length core.origin.agents)) }
        ensures fresh { IfOk result (λ r. All (IsFreshPassOf r.0) r.1.items) }
    {
        SharedCentre::made(alloc, core, turns, Some(roll))
    }

    // A centre, with a roll if there is one, and its passes.
    fn made(
        alloc: Global,
        core: Core,
        turns: u32,
        roll: Option<Arc<Roll>>,
    ) -> Result<(SharedCentre, Vec<CentrePass>), NoMemory>
        requires empty { core.history ≡ [] }
        ensures centre { IfOk result (λ r. (r.0.origin ≡ core.origin)
            × (r.0.passes ≡ length core.origin.agents)) }
        ensures passes { IfOk result (λ r. r.1.items
            ≡ new_passes r.0.table core.origin turns 0 (length core.origin.agents)) }
        ensures fresh { IfOk result (λ r. All (IsFreshPassOf r.0) r.1.items) }
    {
        vouch(&core);
        let agents = number_of_agents(&core);
        let bells = Bells::new(alloc, agents as usize)?;
        let (turnstile, passes) = Turnstile::new(alloc, core, agents, turns)?;
        let centre = SharedCentre {
            turnstile,
            bells,
            roll,
        };
        Ok((centre, passes))
    }

    /// Makes a call of the pass's agent, in one turn.
    ///
    /// The number has to be above those of all the agent's entries. Where the call has to wait,
    /// `Pending` is told, and `wait` with its number tells the reply later. After a fault the
    /// agent's entries are as before; a turn was taken unless none was left.
    pub fn call<R: Wait>(
        &self,
        rt: &R,
        alloc: Global,
        pass: &mut CentrePass,
        number: u64,
        op: Op,
    ) -> Result<Answer, CallFault>
        requires own { IsPassOf self.now pass.old }
        requires free { pass.old.holds ≡ false }
        requires next { All (λ e. (id_of e).number < number) pass.old.mine }
        ensures served { IfOk result
            (λ told. CallsInTurn self.now pass.old number op told pass.new) }
        ensures refused { IfErr result (λ fault. IsCallRefused self.now pass.old fault pass.new) }
        ensures spent { pass.old.turns ≡ 0 → result ≡ Err CallFault.TurnsSpent }
        ensures kept { KeepsPass self.now pass.old pass.new }
        ensures called { IfOk result
            (λ _. HasCall (call_of pass.new.number number) pass.new.seen) }
    {
        let Ok(mut held) = self.turnstile.enter(rt, pass) else {
            return Err(CallFault::TurnsSpent);
        };
        let id = CallId {
            agent: pass.number(),
            number,
        };
        let known = pass.known();
        let served = held.value.turn(alloc, id, op);
        vouch(&held.value);
        let answered = answered_since(held.value.history(), known, self.roll.as_deref());
        self.turnstile.leave(pass, held);
        wake(&self.bells, self.roll.as_deref(), &answered);
        match served {
            Ok(answer) => Ok(answer),
            Err(fault) => Err(call_fault(fault)),
        }
    }

    /// Takes a turn that adds nothing, and tells the reply to the agent's call of this number;
    /// `None` while it waits.
    pub fn look<R: Wait>(
        &self,
        rt: &R,
        alloc: Global,
        pass: &mut CentrePass,
        number: u64,
    ) -> Result<Option<Reply>, LookFault>
        requires own { IsPassOf self.now pass.old }
        requires free { pass.old.holds ≡ false }
        requires called { HasCall (call_of pass.old.number number) pass.old.seen }
        ensures seen { IfOk result (λ reply. Sees self.now pass.old pass.new
            × (reply ≡ reply_in pass.new.seen (call_of pass.old.number number))) }
        ensures refused { IfErr result (λ fault. IsLookRefused self.now pass.old fault pass.new) }
        ensures spent { pass.old.turns ≡ 0 → result ≡ Err LookFault.TurnsSpent }
        ensures kept { KeepsPass self.now pass.old pass.new }
    {
        let Ok(held) = self.turnstile.enter(rt, pass) else {
            return Err(LookFault::TurnsSpent);
        };
        let id = CallId {
            agent: pass.number(),
            number,
        };
        let reply = held.value.look(alloc, id);
        vouch(&held.value);
        self.turnstile.leave(pass, held);
        match reply {
            Ok(reply) => Ok(reply),
            Err(_) => Err(LookFault::NoMemory),
        }
    }

    /// Waits until the agent's call of this number has its reply.
    ///
    /// It takes a turn, and a further one each time that it is woken and there are more entries. In
    /// between it sleeps. It is woken where a request of the agent was answered, so it mostly takes
    /// two turns, however many other calls are served. But a turn that answers more than four
    /// agents wakes all, and a bell may ring late, for an earlier request. Where no turn is left,
    /// and there is no reply yet, it doesn't wait.
    pub fn wait<R: Wait>(
        &self,
        rt: &R,
        alloc: Global,
        pass: &mut CentrePass,
        number: u64,
    ) -> Result<Reply, LookFault>
        requires own { IsPassOf self.now pass.old }
        requires free { pass.old.holds ≡ false }
        requires called { HasCall (call_of pass.old.number number) pass.old.seen }
        ensures answered { IfOk result (λ reply.
            reply_in pass.new.seen (call_of pass.old.number number) ≡ Some reply) }
        ensures waited { WaitsInTurns self.now pass.old pass.new }
        ensures refused { IfErr result (λ fault. IsWaitRefused pass.old number fault pass.new) }
        ensures spent { pass.old.turns ≡ 0 → result ≡ Err LookFault.TurnsSpent }
        ensures kept { KeepsPass self.now pass.old pass.new }
    {
        for _ in rt.forever() {
            let heard = rung(&self.bells, pass.number());
            if let Some(reply) = self.look(rt, alloc, pass, number)? {
                return Ok(reply);
            }
            if pass.turns() == 0 {
                return Err(LookFault::TurnsSpent);
            }
            self.rest(rt, pass, heard);
        }
        unreachable!()
    }

    /// Tells the agent what became of its earlier call, and appends an entry of that, in one turn.
    ///
    /// The number has to be above those of all the agent's entries. After a fault the agent's
    /// entries are as before.
    pub fn poll<R: Wait>(
        &self,
        rt: &R,
        alloc: Global,
        pass: &mut CentrePass,
        number: u64,
        asked: u64,
    ) -> Result<Poll, SharedPollFault>
        requires own { IsPassOf self.now pass.old }
        requires free { pass.old.holds ≡ false }
        requires next { All (λ e. (id_of e).number < number) pass.old.mine }
        ensures told { IfOk result
            (λ told. PollsInTurn self.now pass.old number asked told pass.new) }
        ensures refused { IfErr result (λ fault.
            IsSharedPollRefused self.now pass.old asked fault pass.new) }
        ensures spent { pass.old.turns ≡ 0 → result ≡ Err SharedPollFault.TurnsSpent }
        ensures kept { KeepsPass self.now pass.old pass.new }
    {
        let Ok(mut held) = self.turnstile.enter(rt, pass) else {
            return Err(SharedPollFault::TurnsSpent);
        };
        let id = CallId {
            agent: pass.number(),
            number,
        };
        let polled = held.value.poll(alloc, id, asked);
        vouch(&held.value);
        self.turnstile.leave(pass, held);
        match polled {
            Ok(poll) => Ok(poll),
            Err(fault) => Err(poll_fault(fault)),
        }
    }

    // Sleeps until the agent's bell has rung since, and more entries stand than the pass knows.
    // Where there are none it sleeps on, and takes no turn.
    fn rest<R: Wait>(&self, rt: &R, pass: &mut CentrePass, heard: u64)
        requires own { IsPassOf self.now pass.old }
        requires free { pass.old.holds ≡ false }
        ensures { Rests self.now pass.old pass.new }
    {
        let known = pass.known();
        let mut heard = heard;
        for _ in rt.forever() {
            sleep(rt, &self.bells, pass.number(), heard);
            heard = rung(&self.bells, pass.number());
            if self.turnstile.count(pass) > known {
                return;
            }
        }
        unreachable!()
    }

    /// Takes a turn and keeps it, with the core, until `resume`. All others wait meanwhile.
    pub fn pause<R: Wait>(&self, rt: &R, pass: &mut CentrePass) -> Result<Paused, TurnsSpent>
        requires own { IsPassOf self.now pass.old }
        requires free { pass.old.holds ≡ false }
        ensures paused { IfOk result (λ paused. IsPaused self.now pass.old paused pass.new) }
        ensures spent { OnErr result (IsSpent pass.old pass.new) }
    {
        let held = self.turnstile.enter(rt, pass)?;
        vouch(&held.value);
        Ok(Paused { held })
    }

    /// Gives the core back, as it was, and passes the turn on.
    pub fn resume(&self, pass: &mut CentrePass, paused: Paused)
        requires own { IsPausedOf self.now paused pass.old }
        ensures own { IsPassOf self.now pass.new }
        ensures after { pass.new ≡ record pass.old { holds = false } }
    {
        let Paused { held } = paused;
        self.turnstile.leave(pass, held);
    }

    /// Ends the pass. The turns that it has left are gone.
    pub fn end(&self, pass: CentrePass) -> EndedPass
        requires own { IsPassOf self.now pass }
        requires free { pass.holds ≡ false }
        ensures { result ≡ end_of pass }
    {
        self.turnstile.end(pass)
    }

    /// Ends the centre, once each of its passes has ended, and gives its core. The list may have
    /// any order. Takes no memory.
    pub fn close(self, ended: Vec<EndedPass>) -> Core
        requires own { All (λ e. e.table ≡ self.table) ended.items }
        requires whole { (n : ℕ) → n < self.passes → 0 < ended_count n ended.items }
        ensures origin { result.origin ≡ self.origin }
        ensures seen { All (AgreesWith owner_of result.history) ended.items }
        ensures calls { All (λ e. calls_of e.number result.history ≡ e.mine) ended.items }
        ensures others { (n : ℕ) → self.passes ≤ n
            → entries_of owner_of n result.history ≡ [] }
    {
        let SharedCentre {
            turnstile,
            bells: _,
            roll: _,
        } = self;
        turnstile.close(ended)
    }
}

// How many agents the core has.
fn number_of_agents(core: &Core) -> u32
    ensures { result ≡ length core.now.origin.agents }
{
    let _ = core.history();
    core.agents().len() as u32
}
