//! The table of all measurements.
use crate::measure::{Load, Measured, asleep, at_turnstile, under_mutex};
use std::alloc::Global;
use std::sync::Wait;
use std::thread::Threads;
use std::time::{Clock, CpuClock, Duration};

/// How many turns a measurement makes in all, where they have no work and where they have.
const TURNS_WITHOUT_WORK: u32 = 4_000_000;

const TURNS_WITH_WORK: u32 = 200_000;

/// So many rounds of work take about two microseconds.
const ROUNDS: u32 = 1_000;

/// How many threads sleep, and for how many seconds.
const SLEEPERS: usize = 64;

const SECONDS: u64 = 2;

/// Prints how many turns a second each lock gives, and the processor time of one; and that of threads
/// that sleep.
pub fn print<R: Threads + Wait + Clock + CpuClock + Print + Sync>(
    rt: &R,
    alloc: Global,
) -> anyhow::Result<()> {
    println!(rt; "threads  rounds  turnstile turns/s  cpu ns/turn  mutex turns/s  cpu ns/turn")?;
    for (rounds, turns) in [(0, TURNS_WITHOUT_WORK), (ROUNDS, TURNS_WITH_WORK)] {
        for threads in [1u32, 2, 4, 8, 16, 64] {
            let load = Load {
                threads,
                turns: turns / threads,
                rounds,
            };
            let ours = at_turnstile(rt, alloc, &load)?;
            let mutex = under_mutex(rt, alloc, &load)?;
            print_row(rt, &load, &ours, &mutex)?;
        }
    }
    print_sleep(rt, alloc)
}

fn print_sleep<R: Threads + Wait + Clock + CpuClock + Print + Sync>(
    rt: &R,
    alloc: Global,
) -> anyhow::Result<()> {
    let slept = asleep(rt, alloc, SLEEPERS, Duration::from_secs(SECONDS))?;
    println!(rt;
        "{} threads asleep at a bell for {} seconds: {} us of processor time",
        SLEEPERS,
        SECONDS,
        nanos(&slept.processor) / 1_000
    )?;
    Ok(())
}

fn print_row<R: Print>(
    rt: &R,
    load: &Load,
    ours: &Measured,
    mutex: &Measured,
) -> anyhow::Result<()> {
    println!(rt;
        "{:>7}  {:>6}  {:>17}  {:>11}  {:>13}  {:>11}",
        load.threads,
        load.rounds,
        turns_a_second(ours),
        nanos_a_turn(ours),
        turns_a_second(mutex),
        nanos_a_turn(mutex)
    )?;
    Ok(())
}

fn nanos(time: &Duration) -> u64 {
    time.as_secs()
        .saturating_mul(1_000_000_000)
        .saturating_add(u64::from(time.subsec_nanos()))
}

fn turns_a_second(m: &Measured) -> u64 {
    m.turns.saturating_mul(1_000_000_000) / nanos(&m.wall).max(1)
}

// Nanoseconds of processor time.
fn nanos_a_turn(m: &Measured) -> u64 {
    nanos(&m.processor) / m.turns.max(1)
}
