//! Turns of several threads, to their end.
ghost use Rattle.std.specs.Prelude.{◌≡◌, ℕ, ◌<◌, ◌++◌, [], ◌∷◌, false, OnOk, OnErr};
ghost use Rattle.std.specs.Prelude.{IfOk, All, length, slice_index_or, sum_by};
ghost use Rattle.tc_turn.specs.Order.{one_if_same};
ghost use Rattle.tc_turn.specs.Passes.{ended_count};
ghost use Rattle.crate_tests.specs.Turns.{IsFree, StaysFree};

use std::alloc::{AllocError, Global};
use std::sync::Wait;
use std::test::Fail;
use std::thread;
use std::thread::Threads;
use tc_turn::{Chronicle, Ended, Pass, TurnsSpent, Turnstile};

/// A history in which each entry is the number of its owner.
#[derive(Drop)]
struct Owners {
    entries: Vec<u32>,
}

impl Chronicle for Owners {
    ghost use Rattle.std.specs.Prelude.{Some};

    type Entry = u32;

    type Origin = u32;

    ghost origin = { λ _. 0 };

    ghost history = { λ o. o.entries.items };

    ghost owner = { λ e. Some e };

    fn entries(&self) -> u64 {
        self.entries.len() as u64
    }
}

impl Owners {
    fn new(alloc: Global) -> Owners
        ensures { result.entries.items ≡ [] }
    {
        Owners {
            entries: Vec::new(alloc),
        }
    }

    fn add(&mut self, owner: u32) -> Result<(), AllocError>
        ensures ok { OnOk result (self.new.entries.items ≡ self.old.entries.items ++ owner ∷ []) }
        ensures err { OnErr result (self.new.entries.items ≡ self.old.entries.items) }
    {
        self.entries.push(owner)?;
        Ok(())
    }

    fn count_of(&self, owner: u32) -> usize {
        self.entries.iter().filter(|e| **e == owner).count()
    }
}

// One turn, which adds an entry of the pass's own.
fn take_turn<R: Wait>(
    rt: &R,
    turnstile: &Turnstile<Owners>,
    pass: &mut Pass<Owners>,
) -> Result<bool, TurnsSpent>
    requires { IsFree turnstile.now pass.old }
    ensures { StaysFree turnstile.now pass.old pass.new }
{
    let mut held = turnstile.enter(rt, pass)?;
    let added = held.value.add(pass.number()).is_ok();
    turnstile.leave(pass, held);
    Ok(added)
}

// So many turns: whether each added its entry.
fn take_turns<R: Wait>(
    rt: &R,
    turnstile: &Turnstile<Owners>,
    pass: &mut Pass<Owners>,
    turns: u32,
) -> bool
    requires { IsFree turnstile.now pass.old }
    ensures { StaysFree turnstile.now pass.old pass.new }
{
    for _ in 0..turns {
        if take_turn(rt, turnstile, pass) != Ok(true) {
            return false;
        }
    }
    true
}

// Every pass takes so many turns, in so many threads.
fn in_threads<R: Threads + Wait + Sync>(
    rt: &R,
    turnstile: &Turnstile<Owners>,
    passes: &mut [Pass<Owners>],
    turns: u32,
    threads: usize,
)
    requires some { 0 < threads }
    requires free { All (IsFree turnstile.now) passes.old }
    ensures free { All (IsFree turnstile.now) passes.new }
    ensures numbers { (k : ℕ) (d : _) → k < length passes.old
        → (slice_index_or passes.new k d).number ≡ (slice_index_or passes.old k d).number }
{
    thread::for_each_mut(
        rt,
        passes,
        threads,
        &|_, pass: &mut Pass<Owners>|
            requires { IsFree turnstile.now pass.old }
            ensures { StaysFree turnstile.entry.now pass.old pass.new }
        {
            take_turns(rt, turnstile, pass, turns);
        },
    );
}

// Whether the pass counts all entries, and has no turn left.
fn is_done<R: Wait>(
    rt: &R,
    turnstile: &Turnstile<Owners>,
    pass: &mut Pass<Owners>,
    total: u64,
) -> bool
    requires { IsFree turnstile.now pass.old }
    ensures { StaysFree turnstile.now pass.old pass.new }
{
    let count = turnstile.count(pass);
    let spent = take_turn(rt, turnstile, pass) == Err(TurnsSpent);
    spent && count == total
}

// Ends all passes, and says whether each was done.
fn end_all<R: Wait>(
    rt: &R,
    alloc: Global,
    turnstile: &Turnstile<Owners>,
    mut passes: Vec<Pass<Owners>>,
    total: u64,
) -> Result<(bool, Vec<Ended<Owners>>), AllocError>
    requires free { All (IsFree turnstile.now) passes.items }
    ensures own { IfOk result (λ r. All (λ e. e.table ≡ turnstile.now.table) r.1.items) }
    ensures numbers { IfOk result (λ r. (n : ℕ)
        → ended_count n r.1.items ≡ sum_by (λ p. one_if_same p.number n) passes.items) }
{
    let mut ended = Vec::with_capacity(alloc, passes.len())?;
    let mut done = true;
    while let Some(mut pass) = passes.pop() {
        done = is_done(rt, turnstile, &mut pass, total) && done;
        ended.push_reserved(turnstile.end(pass));
    }
    Ok((done, ended))
}

// The history that so many passes make in so many threads, and whether each was done at the end.
fn history_of<R: Threads + Wait + Sync>(
    rt: &R,
    alloc: Global,
    passes: u32,
    turns: u32,
    threads: usize,
) -> Result<(bool, Owners), AllocError>
    requires { 0 < threads }
{
    let (turnstile, mut all) = Turnstile::new(alloc, Owners::new(alloc), passes, turns)?;
    in_threads(rt, &turnstile, all.as_mut_slice(), turns, threads);
    let total = u64::from(passes) * u64::from(turns);
    let (done, ended) = end_all(rt, alloc, &turnstile, all, total)?;
    Ok((done, turnstile.close(ended)))
}

// Two passes of three turns in two threads, and 64 passes of a hundred turns in eight.
#[test]
fn each_pass_owns_its_entries_in_the_closed_history(rt: HostRuntime) -> Result<(), Fail> {
    for (passes, turns, threads) in [(1u32, 2u32, 1usize), (2, 3, 2), (64, 100, 8)] {
        let (done, owners) = history_of(&rt, rt.alloc(), passes, turns, threads.max(1))?;
        assert!(rt; done, "at {passes} passes");
        assert_eq!(rt; owners.entries(), u64::from(passes) * u64::from(turns));
        for number in 0..passes {
            assert_eq!(rt; owners.count_of(number), turns as usize, "of pass {number}");
        }
    }
    Ok(())
}
