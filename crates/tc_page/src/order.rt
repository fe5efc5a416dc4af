//! The order in which steps are shown: one in which all of them can have happened.
//!
//! A step comes after the one before it in its history and after what its agent did before. Its
//! level is the number of steps on the longest way to it; steps of one level need not have waited
//! for each other.
use crate::links::{filled, set};
use crate::steps::Step;
use std::alloc::Global;
use tc_lists::NoMemory;

/// A step by its place, at its level.
#[derive(Clone, Copy, Debug, PartialEq, Eq, PartialOrd, Ord)]
pub struct Shown {
    pub level: usize,
    pub place: usize,
}

// A step of an agent, by the number of its call.
#[derive(Clone, Copy, Debug, PartialEq, Eq, PartialOrd, Ord)]
struct Turn {
    agent: usize,
    number: u64,
    place: usize,
}

// What is known of the steps while levels are found, for each by its place.
#[derive(Drop)]
struct Levels {
    /// The next step of its history.
    next_there: Vec<Option<usize>>,
    /// The next step of its agent.
    next_own: Vec<Option<usize>>,
    /// How many steps right before it have no level yet.
    missing: Vec<usize>,
    level: Vec<usize>,
    done: Vec<bool>,
}

/// The steps in the order in which they are shown.
pub fn shown_order(
    alloc: Global,
    steps: &[Step<'_>],
    partners: &[Option<usize>],
) -> Result<Vec<Shown>, NoMemory> {
    let mut levels = Levels::new(alloc, steps.len())?;
    levels.link_histories(steps);
    levels.link_agents(alloc, steps, partners)?;
    levels.find(alloc)?;
    levels.find_others(steps);
    let mut order = Vec::with_capacity(alloc, steps.len())?;
    for (place, level) in levels.level.iter().enumerate() {
        order.push(Shown {
            level: *level,
            place,
        })?;
    }
    order.sort()?;
    Ok(order)
}

impl Levels {
    fn new(alloc: Global, count: usize) -> Result<Levels, NoMemory> {
        Ok(Levels {
            next_there: filled(alloc, None, count)?,
            next_own: filled(alloc, None, count)?,
            missing: filled(alloc, 0, count)?,
            level: filled(alloc, 0, count)?,
            done: filled(alloc, false, count)?,
        })
    }

    // Each entry of a history comes before the next one.
    fn link_histories(&mut self, steps: &[Step<'_>]) {
        let mut last: Option<(usize, usize)> = None;
        for (place, step) in steps.iter().enumerate() {
            let Some(centre) = step.centre else {
                continue;
            };
            if let Some((before, its)) = last {
                if its == centre {
                    set(&mut self.next_there, before, Some(place));
                    add_one(&mut self.missing, place);
                }
            }
            last = Some((place, centre));
        }
    }

    // Each step of an agent comes before its next one, and an answer before its next call.
    fn link_agents(
        &mut self,
        alloc: Global,
        steps: &[Step<'_>],
        partners: &[Option<usize>],
    ) -> Result<(), NoMemory> {
        let mut last: Option<Turn> = None;
        let mut answer: Option<usize> = None;
        for turn in turns(alloc, steps)? {
            let before = last.filter(|other| other.agent == turn.agent);
            let is_call = match steps.get(turn.place) {
                Some(step) => step.comes_after_answers(),
                None => false,
            };
            if let Some(before) = before {
                self.link_own(before.place, turn.place);
                if is_call {
                    self.link_answer(answer, turn.place);
                }
            }
            if is_call || before.is_none() {
                answer = partners.get(turn.place).copied().flatten();
            }
            last = Some(turn);
        }
        Ok(())
    }

    fn link_answer(&mut self, answer: Option<usize>, next: usize) {
        if let Some(answer) = answer {
            self.link_own(answer, next);
        }
    }

    fn link_own(&mut self, before: usize, next: usize) {
        set(&mut self.next_own, before, Some(next));
        add_one(&mut self.missing, next);
    }

    // Finds the level of each step that no ring of steps comes before.
    fn find(&mut self, alloc: Global) -> Result<(), NoMemory> {
        let mut ready = self.first_ones(alloc)?;
        for _ in 0..self.missing.len() {
            let Some(place) = ready.pop() else {
                break;
            };
            set(&mut self.done, place, true);
            let level = self.level_behind(place);
            self.raise_next(self.there(place), level, &mut ready)?;
            self.raise_next(self.own(place), level, &mut ready)?;
        }
        Ok(())
    }

    // The steps that none comes right before.
    fn first_ones(&self, alloc: Global) -> Result<Vec<usize>, NoMemory> {
        let mut places = Vec::new(alloc);
        for (place, missing) in self.missing.iter().enumerate() {
            if *missing == 0 {
                places.push(place)?;
            }
        }
        Ok(places)
    }

    // One step right before this one has its level: this one is ready once all have.
    fn raise_next(
        &mut self,
        next: Option<usize>,
        level: usize,
        ready: &mut Vec<usize>,
    ) -> Result<(), NoMemory> {
        if let Some(next) = next {
            if self.raise(next, level) {
                ready.push(next)?;
            }
        }
        Ok(())
    }

    // The next step of the history of the one at this place.
    fn there(&self, place: usize) -> Option<usize> {
        self.next_there.get(place).copied().flatten()
    }

    // The next step of its agent.
    fn own(&self, place: usize) -> Option<usize> {
        self.next_own.get(place).copied().flatten()
    }

    // The least level of a step right behind the one at this place.
    fn level_behind(&self, place: usize) -> usize {
        match self.level.get(place) {
            Some(level) => level.saturating_add(1),
            None => 0,
        }
    }

    // One step right before this one has its level: whether all have.
    fn raise(&mut self, place: usize, level: usize) -> bool {
        if let Some(own) = self.level.get_mut(place) {
            *own = level.max(*own);
        }
        match self.missing.get_mut(place) {
            Some(missing) => {
                *missing = missing.saturating_sub(1);
                *missing == 0
            }
            None => false,
        }
    }

    // Gives the steps that are left, as there are only where a text is of no run, the order of
    // their histories.
    fn find_others(&mut self, steps: &[Step<'_>]) {
        for place in 0..steps.len() {
            let is_done = self.done.get(place).copied().unwrap_or(true);
            if is_done {
                continue;
            }
            let level = self.level_behind(place);
            if let Some(next) = self.there(place) {
                self.raise(next, level);
            }
        }
    }
}

// The steps but answers, agent by agent, in the order of their numbers.
fn turns(alloc: Global, steps: &[Step<'_>]) -> Result<Vec<Turn>, NoMemory> {
    let mut turns = Vec::new(alloc);
    for (place, step) in steps.iter().enumerate() {
        if !step.is_answer() {
            turns.push(Turn {
                agent: step.agent,
                number: step.number,
                place,
            })?;
        }
    }
    turns.sort()?;
    Ok(turns)
}

// Adds one to the number at a place.
fn add_one(counts: &mut [usize], place: usize) {
    if let Some(count) = counts.get_mut(place) {
        *count = count.saturating_add(1);
    }
}
