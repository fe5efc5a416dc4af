//! Desks of agents.
ghost use Rattle.std.specs.Prelude.{◌≡◌, ◌≤◌, ◌<◌, true, ℕ, List, Some, length};
ghost use Rattle.std.specs.Prelude.{slice_get, slice_index, IfOk, OnErr};
ghost use Rattle.tc_desk.specs.Desks.{Calls, Keeps, Polls, Spends};
ghost use Rattle.tc_model.specs.declared.limits.TheConstants.{MOST_WEIGHT};
ghost use Rattle.tc_site.specs.Desks.{IsDesk, IsNewDesk, IsDecidedLog, desk_of};
ghost use Rattle.tc_site.specs.Pausing.{HasNoneLeft, HoldsTurn, Pauses, Resumes};
ghost use Rattle.tc_site.specs.There.{IsCallThere, IsPollThere, bond_of};

use crate::judging::{judge, place_of};
use crate::kits::{DeskKit, EndedDesk};
use crate::looking::{left, look_for, still, wait_for};
use crate::polling::poll_for;
use crate::sites::Site;
use crate::turns::{push_refused, told, turn_at, waiting};
use crate::waiting::WaitingAt;
use std::alloc::Global;
use std::marker::Model;
use std::snapshot::Snapshot;
use std::sync::Wait;
use tc_desk::{Desk, DeskFault, LogRow, Refusal, Seen, Served, Warden, push_row};
use tc_model::Ask;
use tc_shared::{CentrePass, Paused};
use tc_term::Name;
use tc_turn::TurnsSpent;

/// The desk of one agent at the centres of a site.
#[derive(Drop)]
pub struct AgentDesk<'a, W: Warden> {
    site: &'a Site<W>,
    agent: u32,
    passes: Vec<CentrePass>,
    log: Vec<LogRow>,
    pending: Option<WaitingAt>,
    held: Option<u32>,
}

impl<'a, W: Warden> Model for AgentDesk<'a, W> {
    ghost use Rattle.std.specs.Coded.{codes};
    ghost use Rattle.tc_term.specs.TreeCode.{coded_tree, coded_trees};
    ghost use Rattle.tc_site.specs.Desks.{AgentState, IsDesk};

    ghost Value = { AgentState W };

    ghost coded = { Prim.hlevel (codes, coded_tree, coded_trees) };

    ghost view = { λ d. record {
      site = d.site.now;
      agent = d.agent;
      passes = d.passes.items;
      log = d.log.items;
      pending = d.pending;
      held = d.held;
    } };

    ghost invariant = { λ d. IsDesk (view d) };
}

impl<'a, W: Warden + Drop> AgentDesk<'a, W> {
    /// The desk of the kit's agent. It has made no call.
    pub fn new(alloc: Global, site: &'a Site<W>, kit: DeskKit<W>) -> AgentDesk<'a, W>
        requires { kit.site ≡ site.now }
        ensures new { IsNewDesk site.now.names (desk_of result) }
        ensures site { result.site ≡ site.now }
        ensures agent { result.agent ≡ kit.agent }
        ensures sound { IsDecidedLog W.permits result.site result.agent result.log }
    {
        // For what it ensures of the site, which the desk promises too.
        let _ = site.names();
        let DeskKit { agent, passes, .. } = kit;
        AgentDesk {
            site,
            agent,
            passes,
            log: Vec::new(alloc),
            pending: None,
            held: None,
        }
    }

    /// How many entries it has seen at the centre of this place. Places are those of the site's
    /// names, from 0.
    pub fn seen(&self, centre: u32) -> u64
        requires inside { centre < length self.now.site.names }
        ensures count { result ≡ slice_index (desk_of self.now).seen centre }
        ensures few { result ≤ MOST_WEIGHT }
        ensures agrees { IsDesk self.now }
    {
        self.passes[centre as usize].known()
    }

    /// Takes a turn at the centre of this place and holds it, with the core, until `resume`. Nobody
    /// else is served there meanwhile, and the desk makes no call.
    pub fn pause<R: Wait>(&mut self, rt: &R, centre: u32) -> Result<Paused, TurnsSpent>
        requires free { (desk_of self.old).free ≡ true }
        requires inside { centre < length self.old.site.names }
        ensures paused { IfOk result (λ core. Pauses self.old centre core self.new) }
        ensures spent { OnErr result (HasNoneLeft self.old centre self.new) }
    {
        let pass = &mut self.passes[centre as usize];
        let paused = self.site.centre(centre).pause(rt, pass)?;
        self.held = Some(centre);
        Ok(paused)
    }

    /// Gives back the turn that the desk holds, with the core as it was.
    pub fn resume(&mut self, paused: Paused)
        requires held { (place : ℕ) × HoldsTurn self.old place paused }
        ensures resumed { Resumes self.old self.new }
        ensures state { desk_of self.new ≡ record (desk_of self.old) { free = true } }
    {
        let Some(place) = self.held else {
            unreachable!()
        };
        let pass = &mut self.passes[place as usize];
        self.site.centre(place).resume(pass, paused);
        self.held = None;
    }

    /// Ends the desk. The turns that it has left are gone.
    pub fn end(self) -> EndedDesk<W>
        requires free { (desk_of self).free ≡ true }
        ensures { result ≡ record {
          site = self.entry.site;
          agent = self.entry.agent;
          log = self.entry.log;
        } }
    {
        let site = Snapshot::of(self.site);
        let AgentDesk {
            site: _,
            agent,
            passes,
            log,
            pending: _,
            held: _,
        } = self;
        EndedDesk {
            site,
            agent,
            passes,
            log,
        }
    }
}

impl<'a, W: Warden + Drop> Desk for AgentDesk<'a, W> {
    type Bond = (Site<W>, u32);

    ghost use Rattle.tc_site.specs.Desks.{IsDecidedLog, desk_of};

    ghost bond = { λ d. (d.site, d.agent) };

    ghost state = { λ d. desk_of d };

    ghost sound = { λ d. IsDecidedLog W.permits d.site d.agent d.log };

    fn call<R: Wait>(
        &mut self,
        rt: &R,
        alloc: Global,
        centre: &Name,
        ask: Ask,
    ) -> Result<Served, Refusal>
        requires free { (desk_of self.old).free ≡ true }
        ensures bond { bond_of self.new ≡ bond_of self.old }
        ensures kept { Keeps (desk_of self.old) (desk_of self.new) }
        ensures turns { Spends 1 (desk_of self.old) (desk_of self.new) }
        ensures sound { IsDecidedLog W.permits self.old.site self.old.agent self.old.log
            → IsDecidedLog W.permits self.new.site self.new.agent self.new.log }
        ensures became { Calls (desk_of self.old) centre.now ask result (desk_of self.new) }

        // What it came to at the centre of this name, and what the warden says of it.
        ensures there { IsCallThere W.permits self.old centre.now ask result self.new }
    {
        if let Some(place) = place_of(self.site.names(), centre) {
            return self.call_at(rt, alloc, place, ask);
        }
        self.log.reserve(1).map_err(|_| Refusal::NoMemory)?;
        let name = centre.copy(alloc).map_err(|_| Refusal::NoMemory)?;
        push_refused(&mut self.log, name, ask, Refusal::UnknownCentre);
        Err(Refusal::UnknownCentre)
    }

    fn call_at<R: Wait>(
        &mut self,
        rt: &R,
        alloc: Global,
        place: u32,
        ask: Ask,
    ) -> Result<Served, Refusal>
        requires free { (desk_of self.old).free ≡ true }
        requires inside { place < length (desk_of self.old).names }
        ensures bond { bond_of self.new ≡ bond_of self.old }
        ensures kept { Keeps (desk_of self.old) (desk_of self.new) }
        ensures turns { Spends 1 (desk_of self.old) (desk_of self.new) }
        ensures sound { IsDecidedLog W.permits self.old.site self.old.agent self.old.log
            → IsDecidedLog W.permits self.new.site self.new.agent self.new.log }
        ensures became { (centre : List ℕ)
            → slice_get (desk_of self.old).names place ≡ Some centre
            → Calls (desk_of self.old) centre ask result (desk_of self.new) }

        // The same as of `call`, at the centre of this place.
        ensures there { (centre : List ℕ)
            → slice_get (desk_of self.old).names place ≡ Some centre
            → IsCallThere W.permits self.old centre ask result self.new }
    {
        self.log.reserve(1).map_err(|_| Refusal::NoMemory)?;
        let centre = self.site.name(place);
        let name = centre.copy(alloc).map_err(|_| Refusal::NoMemory)?;
        let asked = ask.copy(alloc).map_err(|_| Refusal::NoMemory)?;
        let waits = self.pending.is_some();
        let op = match judge(alloc, self.site, self.agent, waits, place, ask) {
            Ok(op) => op,
            Err(why) => {
                push_refused(&mut self.log, name, asked, why);
                return Err(why);
            }
        };
        let row = self.log.len();
        let pass = &mut self.passes[place as usize];
        let turn = turn_at(rt, alloc, self.site.centre(place), pass, row as u64 + 1, op);
        let became = turn.map_err(|_| Refusal::NoMemory)?;
        let told = told(&became);
        self.pending = waiting(&became, row, place);
        push_row(&mut self.log, name, Some(asked), became);
        told
    }

    fn look<R: Wait>(&mut self, rt: &R, alloc: Global) -> Result<Seen, DeskFault> {
        let at = self.pending.ok_or(DeskFault::Idle)?;
        let pass = &mut self.passes[at.centre as usize];
        let centre = self.site.centre(at.centre);
        let seen = look_for(rt, alloc, centre, pass, &mut self.log, at.row);
        self.pending = still(at, &seen);
        seen
    }

    fn wait<R: Wait>(&mut self, rt: &R, alloc: Global) -> Result<(), DeskFault> {
        let at = self.pending.ok_or(DeskFault::Idle)?;
        let pass = &mut self.passes[at.centre as usize];
        let centre = self.site.centre(at.centre);
        let waited = wait_for(rt, alloc, centre, pass, &mut self.log, at.row);
        self.pending = left(at, &waited);
        waited
    }

    fn poll<R: Wait>(&mut self, rt: &R, alloc: Global) -> Result<Seen, DeskFault>
        requires free { (desk_of self.old).free ≡ true }
        ensures bond { bond_of self.new ≡ bond_of self.old }
        ensures kept { Keeps (desk_of self.old) (desk_of self.new) }
        ensures turns { Spends 1 (desk_of self.old) (desk_of self.new) }
        ensures sound { IsDecidedLog W.permits self.old.site self.old.agent self.old.log
            → IsDecidedLog W.permits self.new.site self.new.agent self.new.log }
        ensures became { Polls (desk_of self.old) result (desk_of self.new) }

        // What it came to at the centre of the pending row.
        ensures there { IsPollThere self.old result self.new }
    {
        let at = self.pending.ok_or(DeskFault::Idle)?;
        let pass = &mut self.passes[at.centre as usize];
        let centre = self.site.centre(at.centre);
        let polled = poll_for(rt, alloc, centre, pass, &mut self.log, at.row);
        self.pending = still(at, &polled);
        polled
    }

    fn log(&self) -> &[LogRow] {
        &self.log
    }
}
