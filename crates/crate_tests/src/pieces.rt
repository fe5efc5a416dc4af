//! A text that is handed on once it is long, one that several workers print, and a sink that fails.
ghost use Rattle.std.specs.Prelude.{◌<◌};

use std::alloc::Global;
use std::test::Fail;
use std::thread::Threads;
use tc_desk::{LogResult, LogRow};
use tc_io::{MemSink, SinkFault, SureSink};
use tc_lists::NoMemory;
use tc_term::Name;
use tc_writing::{write_end, write_log, write_version};

// A name of so many letters.
fn name(alloc: Global, letters: usize) -> Result<Name, NoMemory> {
    Name::from_vec(alloc, vec![in alloc; b'a'; letters]?)
}

// A log of one row, that of an ask which waits at a centre with a name of so many letters.
fn log(alloc: Global, letters: usize) -> Result<Vec<LogRow>, NoMemory> {
    let mut log = Vec::new(alloc);
    log.push(LogRow {
        number: 1,
        centre: name(alloc, letters)?,
        ask: None,
        result: LogResult::Pending,
    })?;
    Ok(log)
}

#[test]
fn a_text_is_written_once_it_is_long(rt: HostRuntime) -> Result<(), Fail> {
    let alloc = rt.alloc();
    let mut sink = SureSink::new(alloc);
    let mut kept = Vec::new(alloc);
    write_version(&mut sink, &mut kept)?;
    write_log(
        &rt,
        alloc,
        1,
        &name(alloc, 1)?,
        &log(alloc, 1)?,
        &mut sink,
        &mut kept,
    )?;
    assert!(rt; sink.taken().is_empty());
    write_log(
        &rt,
        alloc,
        1,
        &name(alloc, 1)?,
        &log(alloc, 65_500)?,
        &mut sink,
        &mut kept,
    )?;
    assert_eq!(rt; sink.taken().len(), 9 + 8 + 12 + 8 + 65_511);
    write_end(true, &mut sink, &mut kept)?;
    assert!(rt;
        sink.taken()
            .starts_with(b"tucson 2\nagent a\n1 a pending\nagent a\n1 aaa")
    );
    assert!(rt; sink.taken().ends_with(b"aaa pending\nend blocked\n"));
    Ok(())
}

// A log of so many rows, each of an ask at a centre with a name of so many letters.
fn long_log(alloc: Global, rows: u64, letters: usize) -> Result<Vec<LogRow>, NoMemory> {
    let mut log = Vec::new(alloc);
    for number in 1..=rows {
        log.push(LogRow {
            number,
            centre: name(alloc, letters)?,
            ask: None,
            result: LogResult::Pending,
        })?;
    }
    Ok(log)
}

// The text of a log, printed by so many workers.
fn text_by<R: Threads + Sync>(
    rt: &R,
    alloc: Global,
    workers: usize,
    log: &[LogRow],
) -> Result<SureSink, SinkFault>
    requires { 0 < workers }
{
    let mut sink = SureSink::new(alloc);
    let mut kept = Vec::new(alloc);
    write_log(
        rt,
        alloc,
        workers,
        &name(alloc, 1)?,
        log,
        &mut sink,
        &mut kept,
    )?;
    write_end(false, &mut sink, &mut kept)?;
    Ok(sink)
}

// Several waves, of which the last is short, and lines that no worker prints.
#[test]
fn a_long_text_is_the_same_by_any_workers(rt: HostRuntime) -> Result<(), Fail> {
    let alloc = rt.alloc();
    let log = long_log(alloc, 9_001, 1)?;
    let alone = text_by(&rt, alloc, 1, &log)?;
    assert_eq!(rt;
        alone.taken().iter().filter(|b| **b == b'\n').count(),
        9_003
    );
    for workers in 2..=3 {
        let text = text_by(&rt, alloc, workers, &log)?;
        assert!(rt; text.taken() == alone.taken());
    }
    Ok(())
}

// A share of 1,100 lines has more than a megabyte here: its worker stops, and the rest is printed
// behind what it has printed.
#[test]
fn long_lines_are_printed_to_the_last(rt: HostRuntime) -> Result<(), Fail> {
    let alloc = rt.alloc();
    let log = long_log(alloc, 2_200, 1_000)?;
    let alone = text_by(&rt, alloc, 1, &log)?;
    let text = text_by(&rt, alloc, 2, &log)?;
    assert_eq!(rt; text.taken().len(), 8 + 2_200 * (1_000 + 10) + 7_693 + 10);
    assert!(rt; text.taken() == alone.taken());
    Ok(())
}

#[test]
fn a_fault_stops_the_writing(rt: HostRuntime) -> Result<(), Fail> {
    let alloc = rt.alloc();
    let mut sink = MemSink::new(alloc, 4, vec![in alloc; 3]?);
    let mut kept = Vec::new(alloc);
    write_version(&mut sink, &mut kept)?;
    let ended = write_end(false, &mut sink, &mut kept);
    assert!(rt; ended == Err(SinkFault::Failed));
    assert_eq!(rt; sink.taken(), b"tucson 2".as_slice());
    Ok(())
}
