//! Actors: each makes the asks of one agent's scripts, one after another.
ghost use Rattle.std.specs.Prelude.{◌≡◌, ◌<◌, ◌↔◌, [], true, false, length};
ghost use Rattle.std.specs.Prelude.{IfNone, IfOk, IfSome, IsErr, OnErr};
ghost use Rattle.tc_asks.specs.Nexts.{IsNextAsk};
ghost use Rattle.tc_desk.specs.Asks.{steps_of};
ghost use Rattle.tc_desk.specs.Logs.{any_pending};
ghost use Rattle.tc_sched.specs.Clients.{IsOfScripts};
ghost use Rattle.tc_sched.specs.Steps.{IsReady, Steps, Went, left_of};

use std::alloc::Global;
use std::marker::Model;
use std::sync::Wait;
use tc_asks::{Asker, Next};
use tc_desk::{Desk, DeskFault, Gate, Refusal, Seen, Served};
use tc_lists::NoMemory;
use tc_model::Script;
use tc_term::Name;

/// What a step did.
#[derive(Clone, Copy, Debug, PartialEq, Eq)]
pub enum Step {
    /// The next ask was made, or the pending one has its reply.
    Moved,
    /// The last ask is still pending.
    Blocked,
    /// Each item has its row, and none is pending.
    Ended,
}

/// An agent with its scripts, which are lent, at its desk.
///
/// The rows of the desk's log are those of the scripts' first items, whatever came of its steps.
#[derive(Drop)]
pub struct Actor<'a, D: Desk> {
    desk: D,
    agent: u32,
    scripts: &'a [Script],
    // None before the first step.
    asker: Option<Asker>,
}

impl<'a, D: Desk> Model for Actor<'a, D> {
    ghost use Rattle.std.specs.Coded.{codes};
    ghost use Rattle.tc_term.specs.TreeCode.{coded_tree, coded_trees};
    ghost use Rattle.tc_sched.specs.Clients.{Client, IsActor};

    ghost Value = { Client D };

    ghost coded = { Prim.hlevel (codes, coded_tree, coded_trees) };

    ghost view = { λ a. record { desk = a.desk; agent = a.agent; scripts = a.scripts.now } };

    ghost invariant = { λ a. IsActor (D.state a.desk) a.scripts.now a.asker };
}

impl<'a, D: Desk> Actor<'a, D> {
    /// An actor that has asked nothing yet: the agent of this place, from 0, with its scripts.
    pub fn new(desk: D, agent: u32, scripts: &'a [Script]) -> Actor<'a, D>
        requires empty { (D.state desk).log ≡ [] }
        ensures { result ≡ record { desk = desk; agent = agent; scripts = scripts.now } }
    {
        Actor {
            desk,
            agent,
            scripts,
            asker: None,
        }
    }

    /// The desk.
    pub fn finish(self) -> D
        ensures desk { result ≡ self.entry.desk }
        ensures rows { IsOfScripts (D.state result).names self.entry.scripts
            (D.state result).log }
    {
        self.desk
    }

    /// The agent's place, from 0.
    pub fn agent(&self) -> u32
        ensures { result ≡ self.now.agent }
    {
        self.agent
    }

    /// Looks once whether the last ask has its reply, if it is pending; else makes the next ask, if
    /// there is one. `names` are those of the desk's centres, among which each item's centre has
    /// its place. The gate is passed before an ask.
    ///
    /// After `NoMemory` the step can be made again. Takes the time of one call of the desk and of
    /// the item; no step takes longer as the log grows.
    pub fn step<R: Wait, G: Gate>(
        &mut self,
        rt: &R,
        alloc: Global,
        names: &[Name],
        gate: &G,
    ) -> Result<Step, NoMemory>
        requires ready { IsReady D.state 1 names.now self.old }
        ensures went { Went D.state D.bond D.sound 1 self.old self.new }
        ensures steps { IfOk result (λ step. Steps D.state self.old step self.new) }
        ensures less { IfOk result (λ step. step ≡ Step.Moved
            → left_of D.state self.new < left_of D.state self.old) }
        ensures same { OnErr result ((D.state self.new.desk).log ≡ (D.state self.old.desk).log) }
    {
        if self.is_waiting() {
            match self.desk.look(rt, alloc) {
                Ok(Seen::Answered) => return Ok(Step::Moved),
                Ok(Seen::StillPending) => return Ok(Step::Blocked),
                Err(DeskFault::NoMemory) => return Err(NoMemory),
                Err(DeskFault::Idle) => unreachable!(),
                Err(DeskFault::TurnsSpent) => unreachable!(),
                Err(DeskFault::Full { .. }) => unreachable!(),
            }
        }
        let Some(next) = self.next_ask(alloc)? else {
            return Ok(Step::Ended);
        };
        gate.pass(self.agent, self.desk.log().len() as u64 + 1);
        let called = self.desk.call_at(rt, alloc, next.centre, next.ask);
        moved(called)
    }

    /// Whether the last ask is pending.
    pub(crate) fn is_waiting(&self) -> bool
        ensures { result ≡ any_pending (D.state self.now.desk).log }
    {
        let log = self.desk.log();
        let count = log.len();
        count > 0 && log[count - 1].is_pending()
    }

    // The ask of the first item that has no row.
    fn next_ask(&mut self, alloc: Global) -> Result<Option<Next>, NoMemory>
        requires { any_pending (D.state self.old.desk).log ≡ false }
        ensures some { IfOk result
            (λ next. IfSome next (IsNextAsk self.old.scripts (D.state self.old.desk).log)) }
        ensures none { IfOk result
            (λ next. IfNone next
            (length (D.state self.old.desk).log ≡ length (steps_of self.old.scripts))) }
        ensures same { self.new ≡ self.old }
    {
        let mut asker = match self.asker.take() {
            Some(asker) => asker,
            None => Asker::new(alloc, self.scripts)?,
        };
        let next = asker.next_ask(alloc, self.scripts, self.desk.log());
        self.asker = Some(asker);
        next
    }
}

// What a call came to: a step that moved, but where memory ran out.
fn moved(called: Result<Served, Refusal>) -> Result<Step, NoMemory>
    ensures moved { IfOk result (λ step. step ≡ Step.Moved) }
    ensures memory { IsErr result ↔ (called ≡ Err Refusal.NoMemory) }
{
    match called {
        Err(Refusal::NoMemory) => Err(NoMemory),
        Err(Refusal::UnknownCentre | Refusal::Waiting | Refusal::Denied) => Ok(Step::Moved),
        Err(Refusal::TooBig | Refusal::NotGround | Refusal::BadSpec(_)) => Ok(Step::Moved),
        Err(Refusal::TurnsSpent | Refusal::Full { .. }) => Ok(Step::Moved),
        Ok(Served::Replied | Served::Pending) => Ok(Step::Moved),
    }
}
