//! Rows of logs that no whole run has: refusals that no script meets, and polls with replies that no
//! request gets.
use std::alloc::Global;
use std::test::Fail;
use tc_desk::{LogResult, LogRow, Refusal};
use tc_histtext::{Version, print_row};
use tc_lists::NoMemory;
use tc_model::Reply;
use tc_term::{Ground, Name, Term};

// A row at the centre `c`.
fn row(alloc: Global, number: u64, outcome: LogResult) -> Result<LogRow, NoMemory> {
    Ok(LogRow {
        number,
        centre: Name::new(alloc, b"c")?,
        ask: None,
        result: outcome,
    })
}

const ROWS: &[u8] = b"3 c unknown centre
3 c waiting
3 c turns spent
5 c poll none
6 c poll found 7
";

#[test]
fn rows_of_no_script_are_printed(rt: HostRuntime) -> Result<(), Fail> {
    let alloc = rt.alloc();
    let mut text = Vec::new(alloc);
    for why in [
        Refusal::UnknownCentre,
        Refusal::Waiting,
        Refusal::TurnsSpent,
    ] {
        let refused = row(alloc, 3, LogResult::Refused(why))?;
        print_row(alloc, Version::One, &refused, &mut text)?;
    }
    let polled = row(alloc, 5, LogResult::Polled(Some(Reply::NoTuple)))?;
    print_row(alloc, Version::One, &polled, &mut text)?;
    let tuple = Ground::of(Term::Int(7)).ok().ok_or("a tuple")?;
    let polled = row(alloc, 6, LogResult::Polled(Some(Reply::Found(tuple))))?;
    print_row(alloc, Version::Two, &polled, &mut text)?;
    assert_eq!(rt; text.as_slice(), ROWS);
    Ok(())
}
