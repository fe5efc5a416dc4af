//! What is run, and a line on what has come of each run.
use crate::gates::Held;
use crate::lines::{append_line, append_verdict, append_workers};
use crate::rows::{Row, rows};
use crate::running::run;
use std::alloc::Global;
use std::sync::Wait;
use std::thread::Threads;
use tc_desk::NoGate;
use test_run_check::{
    Draws, Fault, append_all, append_count, barrier, counter, crowd, lock, meeting, next_drawn,
    pairs, philosophers, replaced, ring,
};

/// With how many workers each configuration is run.
const WORKERS: [u64; 5] = [1, 2, 4, 8, 64];

/// How many configurations are drawn.
const DRAWN: usize = 24;

/// Parts of lines that tell what reactions have done.
const KINDS: [&[u8]; 10] = [
    b" fired",
    b" failed",
    b" put",
    b" took",
    b" read",
    b" over pre",
    b" over post",
    b" bad spec",
    b" absent",
    b" found",
];

/// Runs configurations that are drawn.
pub fn report_drawn<R: Threads + Wait + Sync>(
    rt: &R,
    alloc: Global,
    into: &mut Vec<u8>,
) -> Result<(), Fault> {
    let mut draws = Draws::new(2026, false);
    report_draws(rt, alloc, b"drawn ", &mut draws, into)?;
    let mut draws = Draws::new(2027, true);
    report_draws(rt, alloc, b"drawn with reactions ", &mut draws, into)?;
    report_kinds(rt, alloc, Draws::new(2027, true), into)
}

// Tells how often each kind of line stands in the texts that one worker has written.
fn report_kinds<R: Threads + Wait + Sync>(
    rt: &R,
    alloc: Global,
    mut draws: Draws,
    into: &mut Vec<u8>,
) -> Result<(), Fault> {
    let mut texts = Vec::new(alloc);
    for _ in 0..DRAWN {
        let drawn = next_drawn(alloc, &mut draws)?;
        let ran = run(rt, alloc, &drawn.text, 1, &NoGate)?;
        texts.extend_from_slice(&ran.text)?;
    }
    into.extend_from_slice(b"in the texts of these with 1 worker:")?;
    for kind in KINDS {
        append_count(b" ", occurrences(kind, &texts), kind, into)?;
    }
    into.extend_from_slice(b"\n")?;
    Ok(())
}

// How often this stands in a text.
fn occurrences(this: &[u8], text: &[u8]) -> usize {
    let mut count: usize = 0;
    for place in 0..text.len() {
        let (_, behind) = text.split_at(place.min(text.len()));
        if behind.starts_with(this) {
            count = count.saturating_add(1);
        }
    }
    count
}

// Runs configurations that are drawn so.
fn report_draws<R: Threads + Wait + Sync>(
    rt: &R,
    alloc: Global,
    name: &[u8],
    draws: &mut Draws,
    into: &mut Vec<u8>,
) -> Result<(), Fault> {
    for number in 0..DRAWN {
        let drawn = next_drawn(alloc, draws)?;
        for workers in WORKERS {
            append_count(name, number, b" (", into)?;
            append_count(b"", drawn.centres, b" centres, ", into)?;
            append_count(b"", drawn.agents, b" agents, ", into)?;
            append_count(b"", drawn.items, b" items), ", into)?;
            append_workers(workers, into)?;
            let ran = run(rt, alloc, &drawn.text, workers, &NoGate)?;
            append_all(&[b": status 0 or 3, "], into)?;
            append_verdict(alloc, &drawn.text, &ran, into)?;
            into.extend_from_slice(b"\n")?;
        }
    }
    Ok(())
}

/// Runs configurations whose logs don't depend on the order of calls.
pub fn report_fixed<R: Threads + Wait + Sync>(
    rt: &R,
    alloc: Global,
    into: &mut Vec<u8>,
) -> Result<(), Fault> {
    let rows: [(&[u8], Vec<u8>); 8] = [
        (b"ring of 12 agents, 5 rounds", ring(alloc, 12, 5)?),
        (b"a lock for 16 agents, 4 times", lock(alloc, 16, 4)?),
        (b"20 pairs with 10 numbers each", pairs(alloc, 20, 10)?),
        (b"a meeting of 100 agents", meeting(alloc, 100)?),
        (b"9 philosophers, 4 meals", philosophers(alloc, 9, 4)?),
        (
            b"a counter that 16 agents raise 20 times, to 320",
            counter(alloc, 16, 20)?,
        ),
        (b"a barrier of 30 agents", barrier(alloc, 30)?),
        (b"reactions replaced at 12 centres", replaced(alloc, 12)?),
    ];
    for (name, configuration) in rows {
        let first = run(rt, alloc, &configuration, 1, &NoGate)?;
        for workers in WORKERS {
            let ran = run(rt, alloc, &configuration, workers, &NoGate)?;
            append_line(alloc, name, workers, &configuration, &ran, into)?;
            let same: &[u8] = if logs(&ran.text) == logs(&first.text) {
                b", the same logs\n"
            } else {
                b", other logs\n"
            };
            into.extend_from_slice(same)?;
        }
    }
    Ok(())
}

// The logs of a text.
fn logs(text: &[u8]) -> &[u8] {
    for place in 0..text.len() {
        let (_, behind) = text.split_at(place.min(text.len()));
        if behind.starts_with(b"\nagent ") {
            return behind;
        }
    }
    b""
}

/// Runs many agents at many centres.
pub fn report_crowd<R: Threads + Wait + Sync>(
    rt: &R,
    alloc: Global,
    into: &mut Vec<u8>,
) -> Result<(), Fault> {
    let configuration = crowd(alloc, 1000, 64, 14)?;
    let ran = run(rt, alloc, &configuration, 8, &NoGate)?;
    append_line(
        alloc,
        b"1000 agents with 42 calls each at 64 centres",
        8,
        &configuration,
        &ran,
        into,
    )?;
    into.extend_from_slice(b"\n")?;
    Ok(())
}

/// Two agents, of which the first is held at the gate until the second comes to its second call.
const TWO_AGENTS: &[u8] = b"centre(c).\nrole(r).\ngrant(r,c,out).\nagent(a,r).\nagent(b,r).\n\
script(a,[c ? out(x)]).\nscript(b,[c ? out(y), c ? out(z)]).\n";

/// Runs two agents with a gate.
pub fn report_gate<R: Threads + Wait + Sync>(
    rt: &R,
    alloc: Global,
    into: &mut Vec<u8>,
) -> Result<(), Fault> {
    let rows: [(u64, u64); 2] = [(2, 50_000_000), (1, 100_000)];
    for (workers, turns) in rows {
        let gate = Held::new(turns);
        let ran = run(rt, alloc, TWO_AGENTS, workers, &gate)?;
        append_line(
            alloc,
            b"one agent is held until the other is at its second call",
            workers,
            TWO_AGENTS,
            &ran,
            into,
        )?;
        let passed: &[u8] = if gate.has_passed() {
            b", passed\n"
        } else {
            b", the turns ran out\n"
        };
        into.extend_from_slice(passed)?;
    }
    Ok(())
}

/// Runs the configurations of a table.
pub fn report_rows<R: Threads + Wait + Sync>(
    rt: &R,
    alloc: Global,
    table: &[u8],
    into: &mut Vec<u8>,
) -> Result<(), Fault> {
    for row in rows(alloc, table)? {
        report_row(rt, alloc, &row, into)?;
    }
    Ok(())
}

// Runs a configuration with each number of workers. What its status is may depend on the order of calls.
fn report_row<R: Threads + Wait + Sync>(
    rt: &R,
    alloc: Global,
    row: &Row<'_>,
    into: &mut Vec<u8>,
) -> Result<(), Fault> {
    for workers in WORKERS {
        let ran = run(rt, alloc, &row.configuration, workers, &NoGate)?;
        append_all(&[row.name, b", "], into)?;
        append_workers(workers, into)?;
        append_all(&[b": status 0 or 3, "], into)?;
        append_verdict(alloc, &row.configuration, &ran, into)?;
        into.extend_from_slice(b"\n")?;
    }
    Ok(())
}
