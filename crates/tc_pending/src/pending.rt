//! The list of requests that wait.
use crate::answering::{Known, answerable_from, newly_answerable};
use crate::asking::with_absence;
use crate::changes::{Change, forget_removed, go_back, make_room, note};
use crate::codes::request_code;
use crate::index::{Index, file};
use crate::numbers::{append, number_behind};
use crate::waiters::Waiters;
use std::alloc::Global;
use std::marker::Model;
use std::sync::ledger::Ledger;
use tc_bag::Bag;
use tc_lists::NoMemory;
use tc_model::Request;
use tc_steps::Steps;

/// Requests that wait, oldest first; and marks to which the list goes back.
///
/// Beside each request stand its code, so that those that don't ask for a tuple are passed over,
/// and its serial number, by which an index names the requests of a code. The index has the
/// requests of serial numbers below `filed`; the newer ones are few. It changes only where there is
/// no mark. Where no request ever wanted absence, `absences` is false. A mark copies nothing: each
/// change after it is noted, and can be taken back. A mark is the number of changes before it, and
/// where there is no mark none is noted.
#[derive(Drop)]
pub struct Pending {
    requests: Vec<Request>,
    request_codes: Vec<u64>,
    serials: Vec<u64>,
    index: Index,
    filed: u64,
    absences: bool,
    changes: Vec<Change>,
    marks: Vec<usize>,
}

impl Model for Pending {
    ghost use Rattle.std.specs.Coded.{codes};
    ghost use Rattle.tc_term.specs.TreeCode.{coded_tree};
    ghost use Rattle.tc_pending.specs.Waiting.{Waiting};

    ghost Value = { Waiting };

    ghost coded = { Prim.hlevel (codes, coded_tree) };

    ghost use Rattle.tc_pending.specs.Changes.{saved_at, IsSound};

    ghost view = { λ p. record {
      now = p.requests.items;
      saved = saved_at p.marks.items p.changes.items p.requests.items;
    } };

    ghost invariant = { λ p. IsSound p.requests p.request_codes p.serials
        p.index p.filed p.absences p.changes p.marks.items };
}

impl Pending {
    ghost use Rattle.std.specs.Prelude.{◌≡◌, ◌<◌, ◌≤◌, ◌+◌, ◌++◌, ◌∷◌, []};
    ghost use Rattle.std.specs.Prelude.{length, remove};
    ghost use Rattle.std.specs.Prelude.{IfOk, IfSome, IfNone, OnOk, OnErr};
    ghost use Rattle.tc_lists.specs.Firsts.{NoneOf};
    ghost use Rattle.tc_bag.specs.Stock.{begun, tuples_of};
    ghost use Rattle.tc_model.specs.State.{IsAnswerable};
    ghost use Rattle.tc_lists.specs.Marks.{IsBack, IsGivenUp};
    ghost use Rattle.tc_pending.specs.Waiting.{marked_requests};
    ghost use Rattle.tc_pending.specs.Answers.{IsNextAnswer, IsKnown};
    ghost use Rattle.tc_pending.specs.Costs.{requests_steps};

    /// No request and no mark.
    pub fn new(alloc: Global) -> Pending
        ensures { result ≡ record { now = []; saved = [] } }
    {
        Pending {
            requests: Vec::new(alloc),
            request_codes: Vec::new(alloc),
            serials: Vec::new(alloc),
            index: Index::new(alloc),
            filed: 0,
            absences: false,
            changes: Vec::new(alloc),
            marks: Vec::new(alloc),
        }
    }

    /// The requests, oldest first.
    pub fn list(&self) -> &[Request]
        ensures { result.now ≡ self.now.now }
    {
        &self.requests
    }

    /// The place, from 0, of the request that is answered next, and what answers it: the oldest
    /// request that can be answered, by the age of the oldest tuple that matches, or by no tuple,
    /// where it wants absence and none matches.
    ///
    /// `None` says that no request can be answered. Takes no memory, and so never fails, and
    /// O(requests × tuples) time.
    pub fn oldest_answerable<L: Ledger>(
        &self,
        bag: &Bag,
        steps: &mut Steps<L>,
    ) -> Result<Option<(usize, Option<u64>)>, NoMemory>
        ensures found { IfOk result (λ found. IfSome found
            (λ r. IsNextAnswer bag.now.now self.now.now r.0 r.1)) }
        ensures none { IfOk result (λ found. IfNone found
            (NoneOf (IsAnswerable (tuples_of bag.now.now)) self.now.now)) }
        ensures never_fails { OnErr result ⊥ }
        ensures counted { steps.new
            ≤ steps.old + requests_steps (tuples_of bag.now.now) self.now.now }
        ensures rises { steps.old ≤ steps.new }
    {
        Ok(answerable_from(&self.requests, bag, 0, steps))
    }

    /// The same as `oldest_answerable`, where it is known what no longer has to be looked at.
    ///
    /// Tuples of an age from `known.age` on are new to all requests, and requests from the place
    /// `known.requests` on are new to all tuples. For each new tuple the known requests that want
    /// one are looked up by its code, in O(log requests) for each that has it; for each new request
    /// the bag is searched once.
    ///
    /// Known requests that want absence are looked for where a tuple was taken since the bag's
    /// first mark, and only where some request of this list ever wanted absence. For each tuple
    /// that was taken those of its code are looked up, in O(log requests) for each, and for each
    /// that it matches the bag is searched once. Where no fewer tuples were taken than requests are
    /// known, each known request is looked at instead, and for each that wants absence the bag is
    /// searched once.
    ///
    /// No memory is taken.
    pub fn next_answerable<L: Ledger>(
        &self,
        bag: &Bag,
        known: Known,
        steps: &mut Steps<L>,
    ) -> Option<(usize, Option<u64>)>
        requires known { IsKnown known (begun bag.now) bag.now.now self.now.now }
        requires inside { known.requests ≤ length self.now.now }
        ensures found { IfSome result (λ r. IsNextAnswer bag.now.now self.now.now r.0 r.1) }
        ensures none { IfNone result
            (NoneOf (IsAnswerable (tuples_of bag.now.now)) self.now.now) }
        ensures rises { steps.old ≤ steps.new }
    {
        let waiters = Waiters {
            requests: &self.requests,
            codes: &self.request_codes,
            serials: &self.serials,
            index: &self.index,
            filed: self.filed,
            absences: self.absences,
        };
        if let Some(next) = newly_answerable(&waiters, bag, known, steps) {
            return Some(next);
        }
        answerable_from(&self.requests, bag, known.requests, steps)
    }

    /// Appends a request. Memory is taken for its removal, too, and for its return.
    pub fn add(&mut self, request: Request) -> Result<(), NoMemory>
        ensures added { OnOk result
            (self.new ≡ record self.old { now = self.old.now ++ request ∷ [] }) }
        ensures same { OnErr result (self.new ≡ self.old) }
    {
        make_room(
            &mut self.requests,
            &mut self.request_codes,
            &mut self.serials,
            &mut self.changes,
        )?;
        let code = request_code(&request);
        let absences = with_absence(self.absences, &request);
        let serial = number_behind(&self.serials, self.filed)?;
        self.requests.push(request)?;
        self.absences = absences;
        append(&mut self.request_codes, code);
        append(&mut self.serials, serial);
        note(&mut self.changes, !self.marks.is_empty(), Change::Added);
        Ok(())
    }

    /// Removes the request at a place, from 0. No memory is taken.
    pub fn remove(&mut self, place: usize)
        requires { place < length self.old.now }
        ensures { self.new ≡ record self.old { now = remove self.old.now place } }
    {
        let request = self.requests.remove(place);
        let code = self.request_codes.remove(place);
        let serial = self.serials.remove(place);
        let removed = Change::Removed {
            place,
            request,
            serial,
        };
        note(&mut self.changes, !self.marks.is_empty(), removed);
        if self.marks.is_empty() {
            self.index.leave(&self.serials, code, serial);
        }
    }

    /// Sets a mark. It takes memory for a number, and where it is the only one, for the index of
    /// some requests that are new since the last.
    pub fn mark(&mut self) -> Result<(), NoMemory>
        ensures marked { OnOk result (self.new ≡ marked_requests self.old) }
        ensures same { OnErr result (self.new ≡ self.old) }
    {
        let is_marked = !self.marks.is_empty();
        file(
            &mut self.index,
            &mut self.filed,
            &self.request_codes,
            &self.serials,
            is_marked,
        )?;
        self.marks.push(self.changes.len())?;
        Ok(())
    }

    /// Goes back to the latest mark, and removes it. No memory is taken.
    ///
    /// Takes the time of the changes since, each at most O(requests).
    pub fn undo(&mut self)
        ensures back { IsBack self.old.saved self.new.now self.new.saved }
        ensures unmarked { self.old.saved ≡ [] → self.new ≡ self.old }
    {
        if let Some(count) = self.marks.pop() {
            go_back(
                &mut self.requests,
                &mut self.request_codes,
                &mut self.serials,
                &mut self.changes,
                count,
            );
        }
    }

    /// Removes the latest mark, and leaves the requests as they are. No memory is taken.
    ///
    /// Takes O(1) time; where it is the only mark, that of the changes since.
    pub fn keep(&mut self)
        ensures now { self.new.now ≡ self.old.now }
        ensures given_up { IsGivenUp self.old.saved self.new.saved }
        ensures unmarked { self.old.saved ≡ [] → self.new ≡ self.old }
    {
        let _count = self.marks.pop();
        if self.marks.is_empty() {
            forget_removed(
                &mut self.index,
                &mut self.changes,
                &self.serials,
                self.filed,
            );
        }
    }
}
