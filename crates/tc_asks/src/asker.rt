//! Askers: how far an agent has come in its scripts, and what it asks next.
use crate::asking::filled_ask;
use crate::bindings::Bindings;
use crate::next::Next;
use crate::places::{Place, item_at, next_place, vars_at};
use crate::telling::tell;
use std::alloc::Global;
use std::marker::Model;
use tc_desk::LogRow;
use tc_lists::NoMemory;
use tc_model::{Script, ScriptItem};

/// How far an agent has come in its scripts. It keeps what the rows of the log say of the variables
/// of the script at hand, so that each row is looked at once.
///
/// The scripts and the log are handed in at each call: they have to be those of the calls before,
/// the log with what has come since.
#[derive(Drop)]
pub struct Asker {
    rows: usize,
    place: Place,
    bindings: Bindings,
}

impl Model for Asker {
    ghost use Rattle.std.specs.Coded.{codes};
    ghost use Rattle.tc_term.specs.TreeCode.{coded_tree};
    ghost use Rattle.tc_asks.specs.Progress.{Progress};

    ghost Value = { Progress };

    ghost coded = { Prim.hlevel (codes, coded_tree) };

    ghost view = { λ a. record {
      rows = a.rows;
      script = a.place.script;
      item = a.place.item;
      known = a.bindings;
    } };
}

impl Asker {
    ghost use Rattle.std.specs.Prelude.{◌≡◌, ◌≢◌, ◌<◌, ◌≤◌, ◌+◌, ◌^◌};
    ghost use Rattle.std.specs.Prelude.{false, List, length};
    ghost use Rattle.std.specs.Prelude.{IfNone, IfOk, IfSome, OnErr, OnOk, Some, slice_get};
    ghost use Rattle.tc_model.specs.Asks.{operand_of};
    ghost use Rattle.tc_model.specs.Scripts.{Lines};
    ghost use Rattle.tc_desk.specs.Asks.{steps_of};
    ghost use Rattle.tc_desk.specs.Logs.{any_pending, is_pending};
    ghost use Rattle.tc_desk.specs.declared.rows.LogRow.{LogRow};
    ghost use Rattle.tc_asks.specs.Nexts.{IsNextAsk};
    ghost use Rattle.tc_asks.specs.Bindings.{HasBounds};
    ghost use Rattle.tc_asks.specs.Places.{IsItemAt, IsPlaced};
    ghost use Rattle.tc_asks.specs.Progress.{HasTakenIn};

    /// An asker that has taken in no row, of whatever log.
    pub fn new(alloc: Global, scripts: &[Script]) -> Result<Asker, NoMemory>
        ensures { IfOk result (λ asker. (log : List LogRow) → HasTakenIn scripts.now log asker) }
    {
        let place = Place { script: 0, item: 0 };
        Ok(Asker {
            rows: 0,
            place,
            bindings: Bindings::new(alloc, vars_at(scripts, 0))?,
        })
    }

    /// What the agent asks next: the first item of its scripts that has no row, with each variable
    /// replaced that has a value by the tuples that came in the same script. `None` where each item
    /// has its row.
    ///
    /// Whatever is answered, the asker can be asked again. Takes the time of the rows that have
    /// come since the last call and of what is asked.
    pub fn next_ask(
        &mut self,
        alloc: Global,
        scripts: &[Script],
        log: &[LogRow],
    ) -> Result<Option<Next>, NoMemory>
        requires taken { HasTakenIn scripts.now log.now self.old }
        requires settled { any_pending log.now ≡ false }
        ensures some { IfOk result (λ next. IfSome next (IsNextAsk scripts.now log.now)) }
        ensures none { IfOk result
            (λ next. IfNone next (length (steps_of scripts.now) ≤ length log.now)) }
        ensures taken { HasTakenIn scripts.now log.now self.new }
    {
        while self.rows < log.len() {
            let Some(item) = self.reach(alloc, scripts)? else {
                return Ok(None);
            };
            self.take_in(item, &log[self.rows])?;
        }
        let Some(item) = self.reach(alloc, scripts)? else {
            return Ok(None);
        };
        self.bindings.has_values();
        Ok(Some(Next {
            centre: item.centre,
            ask: filled_ask(alloc, &self.bindings, &item.ask)?,
        }))
    }

    // Goes on to the script in which the next item stands, if there is one. Tells that item.
    fn reach<'a>(
        &mut self,
        alloc: Global,
        scripts: &'a [Script],
    ) -> Result<Option<&'a ScriptItem>, NoMemory>
        requires { IsPlaced scripts.now self.old.script self.old.item self.old.rows }
        ensures item { IfOk result (λ item. IfSome item
            (λ i. IsItemAt scripts.now self.new.script self.new.item i.now)) }
        ensures room { IfOk result (λ item. IfSome item (λ _. self.new.item + 1 < 2 ^ 64)) }
        ensures none { IfOk result (λ item. IfNone item
            (length (steps_of scripts.now) ≡ self.new.rows)) }
        ensures taken { (log : List LogRow) → HasTakenIn scripts.now log self.old
            → HasTakenIn scripts.now log self.new }
        ensures rows { self.new.rows ≡ self.old.rows }
    {
        let place = next_place(scripts, self.place);
        self.go_to(alloc, scripts, place)?;
        let Some(item) = item_at(scripts, place) else {
            return Ok(None);
        };
        Ok(Some(item))
    }

    // Goes to the next item, in the script at hand or at the beginning of another.
    fn go_to(&mut self, alloc: Global, scripts: &[Script], place: Place) -> Result<(), NoMemory>
        requires placed { IsPlaced scripts.now place.script place.item self.old.rows }
        requires same { place.script ≡ self.old.script → place.item ≡ self.old.item }
        requires first { place.script ≢ self.old.script → place.item ≡ 0 }
        ensures place { OnOk result ((self.new.script ≡ place.script)
            × (self.new.item ≡ place.item)) }
        ensures taken { (log : List LogRow) → HasTakenIn scripts.now log self.old
            → HasTakenIn scripts.now log self.new }
        ensures rows { self.new.rows ≡ self.old.rows }
    {
        if place.script == self.place.script {
            return Ok(());
        }
        self.bindings = Bindings::new(alloc, vars_at(scripts, place.script))?;
        self.place = place;
        Ok(())
    }

    // Takes in the row of the next item.
    fn take_in(&mut self, item: &ScriptItem, row: &LogRow) -> Result<(), NoMemory>
        requires bounds { IfSome (operand_of item.now.ask) (HasBounds self.old.known) }
        requires item { self.old.item + 1 < 2 ^ 64 }
        requires rows { self.old.rows + 1 < 2 ^ 64 }
        ensures taken { OnOk result ((scripts : List Lines) (log : List LogRow)
            → IsItemAt scripts self.old.script self.old.item item.now
            → slice_get log self.old.rows ≡ Some row.now
            → is_pending row.now.result ≡ false
            → HasTakenIn scripts log self.old → HasTakenIn scripts log self.new) }
        ensures rows { OnOk result (self.new.rows ≡ self.old.rows + 1) }
        ensures same { OnErr result (self.new ≡ self.old) }
    {
        tell(&mut self.bindings, &item.ask, &row.result)?;
        self.place.item += 1;
        self.rows += 1;
        Ok(())
    }
}
