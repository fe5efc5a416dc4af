//! Actors at desks of one centre that deny each ask: each item has its row all the same.
ghost use Rattle.std.specs.Prelude.{◌≡◌, ◌<◌, ◌∷◌, ℕ, List, [], false, IfOk, OnErr, OnOk};
ghost use Rattle.std.specs.Prelude.{Some, length, slice_get};
ghost use Rattle.tc_desk.specs.Asks.{steps_of};
ghost use Rattle.tc_desk.specs.Desks.{with_row};
ghost use Rattle.tc_desk.specs.Logs.{any_pending};
ghost use Rattle.tc_sched.specs.Steps.{ArePlaced, IsReady, left_of};

use std::alloc::Global;
use std::sync::Wait;
use std::test::Fail;
use tc_desk::{Desk, DeskFault, LogResult, LogRow, NoGate, Refusal, Seen, Served};
use tc_lists::NoMemory;
use tc_model::{Ask, Script, ScriptItem};
use tc_sched::{Actor, Step, drive};
use tc_term::{Name, Term};

// A desk that denies each ask.
#[derive(Drop)]
struct ClosedDesk {
    names: Vec<Name>,
    turns: Vec<u64>,
    log: Vec<LogRow>,
    ghost settled: { any_pending log.items ≡ false },
}

impl ClosedDesk {
    // Puts the row of an ask that was denied at the centre of this place behind the others.
    fn deny(&mut self, alloc: Global, place: usize, ask: Ask) -> Result<(), NoMemory>
        requires inside { place < length self.old.names.items }
        ensures log { OnOk result ((centre : List ℕ)
            → slice_get self.old.names.items place ≡ Some centre
            → self.new.log.items ≡ with_row self.old.log.items centre (Some ask)
            (LogResult.Refused Refusal.Denied)) }
        ensures same { OnErr result (self.new.log.items ≡ self.old.log.items) }
        ensures names { self.new.names ≡ self.old.names }
        ensures turns { self.new.turns ≡ self.old.turns }
    {
        let row = LogRow {
            number: self.log.len() as u64 + 1,
            centre: self.names[place].copy(alloc)?,
            ask: Some(ask),
            result: LogResult::Refused(Refusal::Denied),
        };
        self.log.push(row)?;
        Ok(())
    }
}

impl Desk for ClosedDesk {
    ghost use Rattle.std.specs.Prelude.{[], true, false};

    type Bond = ();

    ghost bond = { λ _. tt };

    ghost state = { λ d. record {
      log = d.log.items;
      names = d.names.items;
      turns = d.turns.items;
      seen = [];
      waits = false;
      free = true;
    } };

    ghost sound = { λ _. Unit {0} };

    // No actor asks by a name.
    fn call<R: Wait>(
        &mut self,
        _rt: &R,
        _alloc: Global,
        _centre: &Name,
        _ask: Ask,
    ) -> Result<Served, Refusal> {
        Err(Refusal::NoMemory)
    }

    fn call_at<R: Wait>(
        &mut self,
        _rt: &R,
        alloc: Global,
        place: u32,
        ask: Ask,
    ) -> Result<Served, Refusal> {
        match self.deny(alloc, place as usize, ask) {
            Ok(()) => Err(Refusal::Denied),
            Err(_) => Err(Refusal::NoMemory),
        }
    }

    fn look<R: Wait>(&mut self, _rt: &R, _alloc: Global) -> Result<Seen, DeskFault> {
        Err(DeskFault::Idle)
    }

    fn wait<R: Wait>(&mut self, _rt: &R, _alloc: Global) -> Result<(), DeskFault> {
        Err(DeskFault::Idle)
    }

    fn poll<R: Wait>(&mut self, _rt: &R, _alloc: Global) -> Result<Seen, DeskFault> {
        Err(DeskFault::Idle)
    }

    fn log(&self) -> &[LogRow] {
        &self.log
    }
}

// Scripts of one ask.
fn one_ask(alloc: Global) -> Result<Vec<Script>, NoMemory>
    ensures { IfOk result (λ scripts. ArePlaced 1 scripts.items
        × (length (steps_of scripts.items) ≡ 1)) }
{
    let mut items = Vec::with_capacity(alloc, 1)?;
    items.push(ScriptItem {
        centre: 0,
        ask: Ask::GetSpec,
    })?;
    let mut scripts = Vec::with_capacity(alloc, 1)?;
    scripts.push(Script::new(0, items))?;
    Ok(scripts)
}

// The first agent, with scripts of one ask, at a desk of its own with ten turns.
fn actor<'a>(alloc: Global, scripts: &'a [Script]) -> Result<Actor<'a, ClosedDesk>, NoMemory>
    requires placed { ArePlaced 1 scripts.now }
    requires one { length (steps_of scripts.now) ≡ 1 }
    ensures { IfOk result (λ a. IsReady ⟦<ClosedDesk as Desk>⟧.state 10 ((99 ∷ []) ∷ []) a
        × (left_of ⟦<ClosedDesk as Desk>⟧.state a ≡ 2)) }
{
    let mut names = Vec::with_capacity(alloc, 1)?;
    names.push(Name::new(alloc, b"c")?)?;
    let mut turns = Vec::with_capacity(alloc, 1)?;
    turns.push(10)?;
    let log = Vec::new(alloc);
    Ok(Actor::new(ClosedDesk { names, turns, log }, 0, scripts))
}

#[test]
fn a_refused_ask_has_its_row(rt: HostRuntime) -> Result<(), Fail> {
    let alloc = rt.alloc();
    let names = [Name::new(alloc, b"c")?];
    let scripts = one_ask(alloc)?;
    let mut one = actor(alloc, &scripts)?;
    assert!(rt; one.step(&rt, alloc, &names, &NoGate)? == Step::Moved);
    let desk = one.finish();
    let denied = match desk.log() {
        [row] => row.number == 1 && matches!(row.result, LogResult::Refused(Refusal::Denied)),
        _ => false,
    };
    assert!(rt; denied);
    Ok(())
}

#[test]
fn agents_are_driven_to_their_ends(rt: HostRuntime) -> Result<(), Fail> {
    let alloc = rt.alloc();
    let names = [Name::new(alloc, b"c")?];
    let scripts = one_ask(alloc)?;
    let mut alone = [actor(alloc, &scripts)?];
    drive(&rt, &mut alone, alloc, &names, 2, &NoGate)?;
    let rows = match alone.into_iter().next() {
        Some(alone) => alone.finish().log().len(),
        None => 0,
    };
    assert!(rt; rows == 1);
    Ok(())
}
