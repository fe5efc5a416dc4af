//! One measurement: so many threads make turns, at the turnstile or under a `Mutex`, or sleep.
ghost use Rattle.std.specs.Prelude.{◌≡◌, ◌<◌, false};
ghost use Rattle.tc_turn.specs.Passes.{IsPassOfTurnstile};

use crate::tally::Tally;
use std::alloc::Global;
use std::sync::{Mutex, Wait};
use std::thread::Threads;
use std::time::{Clock, CpuClock, Duration};
use std::{io, thread};
use tc_bells::Bell;
use tc_turn::{Pass, Turnstile};

/// How many threads make how many turns each, of how many rounds of work each.
#[derive(Drop)]
pub struct Load {
    pub threads: u32,
    pub turns: u32,
    pub rounds: u32,
}

/// How many turns were made, in what time, and at what processor time of all threads.
#[derive(Drop)]
pub struct Measured {
    pub turns: u64,
    pub wall: Duration,
    pub processor: Duration,
}

fn take_turn<R: Wait>(rt: &R, turnstile: &Turnstile<Tally>, pass: &mut Pass<Tally>, rounds: u32)
    requires own { IsPassOfTurnstile turnstile.now pass.old }
    requires free { pass.old.holds ≡ false }
    ensures own { IsPassOfTurnstile turnstile.now pass.new }
    ensures free { pass.new.holds ≡ false }
{
    let Ok(mut held) = turnstile.enter(rt, pass) else {
        return;
    };
    held.value.work(rounds);
    turnstile.leave(pass, held);
}

// The load's turns with one pass.
fn take_turns<R: Wait>(rt: &R, turnstile: &Turnstile<Tally>, pass: &mut Pass<Tally>, load: &Load)
    requires own { IsPassOfTurnstile turnstile.now pass.old }
    requires free { pass.old.holds ≡ false }
{
    for _ in 0..load.turns {
        take_turn(rt, turnstile, pass, load.rounds);
    }
}

// How many turns were made, read in one more turn.
fn turns_made<R: Wait>(rt: &R, turnstile: &Turnstile<Tally>, pass: &mut Pass<Tally>) -> u64
    requires own { IsPassOfTurnstile turnstile.now pass.old }
    requires free { pass.old.holds ≡ false }
{
    let Ok(held) = turnstile.enter(rt, pass) else {
        return 0;
    };
    let turns = held.value.turns;
    turnstile.leave(pass, held);
    turns
}

/// What the clocks showed.
#[derive(Drop)]
struct Moment {
    wall: Duration,
    processor: Duration,
}

impl Moment {
    fn now<R: Clock + CpuClock>(rt: &R) -> io::Result<Moment> {
        Ok(Moment {
            wall: rt.monotonic()?,
            processor: rt.process_cpu_time()?,
        })
    }

    fn until(&self, end: &Moment, turns: u64) -> Measured {
        Measured {
            turns,
            wall: end.wall.saturating_sub(self.wall),
            processor: end.processor.saturating_sub(self.processor),
        }
    }
}

/// The threads take turns at a turnstile.
pub fn at_turnstile<R: Threads + Wait + Clock + CpuClock + Sync>(
    rt: &R,
    alloc: Global,
    load: &Load,
) -> anyhow::Result<Measured> {
    let passes = load.threads.saturating_add(1);
    let (turnstile, mut passes) = Turnstile::new(alloc, Tally::new(), passes, load.turns)?;
    let Some(mut reader) = passes.pop() else {
        anyhow::bail!("no pass")
    };
    let turnstile = &turnstile;
    let threads = load.threads.max(1) as usize;
    let start = Moment::now(rt)?;
    thread::for_each_mut(
        rt,
        passes.as_mut_slice(),
        threads,
        &|_, pass: &mut Pass<Tally>|
            requires { IsPassOfTurnstile turnstile.now pass.old × (pass.old.holds ≡ false) }
        { take_turns(rt, turnstile, pass, load) },
    );
    let end = Moment::now(rt)?;
    Ok(start.until(&end, turns_made(rt, turnstile, &mut reader)))
}

fn lock_turns<R: Wait>(rt: &R, tally: &Mutex<Tally>, load: &Load) {
    for _ in 0..load.turns {
        tally.lock(rt).work(load.rounds);
    }
}

/// The threads take turns under a mutex.
pub fn under_mutex<R: Threads + Wait + Clock + CpuClock + Sync>(
    rt: &R,
    alloc: Global,
    load: &Load,
) -> anyhow::Result<Measured> {
    let tally = Mutex::new(Tally::new());
    let tally = &tally;
    let threads = load.threads.max(1) as usize;
    let mut workers = vec![in alloc; 0u8; threads]?;
    let start = Moment::now(rt)?;
    thread::for_each_mut(
        rt,
        workers.as_mut_slice(),
        threads,
        &|_, _: &mut u8| { lock_turns(rt, tally, load) },
    );
    let end = Moment::now(rt)?;
    let turns = tally.lock(rt).turns;
    Ok(start.until(&end, turns))
}

/// What a thread does while others sleep.
#[derive(Clone, Copy)]
enum Part {
    Sleeps,
    Rings,
}

// Sleeps until the bell has rung.
fn sleep_at<R: Wait>(rt: &R, bell: &Bell) {
    for _ in rt.forever() {
        if bell.rung() > 0 {
            return;
        }
        bell.sleep(rt, 0);
    }
}

/// So many threads sleep at a bell, which rings after this time.
pub fn asleep<R: Threads + Wait + Clock + CpuClock + Sync>(
    rt: &R,
    alloc: Global,
    threads: usize,
    time: Duration,
) -> anyhow::Result<Measured> {
    let bell = Bell::new();
    let bell = &bell;
    let mut parts = vec![in alloc; Part::Sleeps; threads]?;
    parts.push(Part::Rings)?;
    let all = parts.len();
    let start = Moment::now(rt)?;
    thread::for_each_mut(
        rt,
        parts.as_mut_slice(),
        all,
        &|_, part: &mut Part| {
            match *part {
                Part::Sleeps => sleep_at(rt, bell),
                Part::Rings => {
                    let _ = thread::sleep(rt, time);
                    bell.ring();
                }
            }
        },
    );
    let end = Moment::now(rt)?;
    Ok(start.until(&end, 0))
}
