//! Variables have the values that came in the same script, while these can be.
ghost use Rattle.std.specs.Prelude.{◌≡◌, false, IfOk};
ghost use Rattle.tc_desk.specs.Logs.{any_pending, is_pending};
ghost use Rattle.tc_asks.specs.Progress.{HasTakenIn};

use std::alloc::Global;
use std::test::Fail;
use tc_asks::{Asker, asker_stays_fit};
use tc_config::read_config;
use tc_desk::{LogResult, LogRow, Refusal};
use tc_lists::NoMemory;
use tc_model::{Ask, Reply, Script};
use tc_term::{Ground, Name, Term};

// What has become of an ask.
#[derive(Clone, Copy)]
enum Told {
    Came(i64),
    Found(i64),
    Done,
    Absent,
    Refused,
}

// What is asked: with this number, with a variable, or nothing more.
#[derive(Clone, Copy, Debug, PartialEq, Eq)]
enum Asked {
    Number(i64),
    Variable,
    Nothing,
}

// The result as a log has it.
fn result_of(told: Told) -> Result<LogResult, Fail>
    ensures { IfOk result (λ r. is_pending r ≡ false) }
{
    let reply = match told {
        Told::Came(number) => Reply::Tuple(tuple(number)?),
        Told::Found(number) => Reply::Found(tuple(number)?),
        Told::Done => Reply::Done,
        Told::Absent => Reply::Absent,
        Told::Refused => return Ok(LogResult::Refused(Refusal::NotGround)),
    };
    Ok(LogResult::Replied(reply))
}

// The number as a tuple.
fn tuple(number: i64) -> Result<Ground, Fail> {
    let tuple = Ground::of(Term::Int(number)).ok().ok_or("a tuple")?;
    Ok(tuple)
}

// What is asked next, after the last ask has come to this.
fn after(
    alloc: Global,
    asker: &mut Asker,
    scripts: &[Script],
    log: &mut Vec<LogRow>,
    came: LogResult,
) -> Result<Asked, NoMemory>
    requires taken { HasTakenIn scripts.now log.old.items asker.old }
    requires settled { any_pending log.old.items ≡ false }
    requires came { is_pending came ≡ false }
    ensures taken { HasTakenIn scripts.now log.new.items asker.new }
    ensures settled { any_pending log.new.items ≡ false }
{
    let row = LogRow {
        number: 0,
        centre: Name::new(alloc, b"c")?,
        ask: None,
        result: came,
    };
    asker_stays_fit();
    log.push(row)?;
    match asker.next_ask(alloc, scripts, log)? {
        Some(next) => Ok(operand(next.ask)),
        None => Ok(Asked::Nothing),
    }
}

// What an ask is made with.
fn operand(ask: Ask) -> Asked {
    match ask {
        Ask::Out(Term::Int(number)) | Ask::In(Term::Int(number)) => Asked::Number(number),
        Ask::Nop(Term::Int(number)) | Ask::No(Term::Int(number)) => Asked::Number(number),
        _ => Asked::Variable,
    }
}

// What is asked after each ask, where they come to these.
fn asks_after(alloc: Global, scripts: &[Script], told: &[Told]) -> Result<Vec<Asked>, Fail> {
    let mut asker = Asker::new(alloc, scripts)?;
    let mut log = Vec::new(alloc);
    let mut asked = Vec::new(alloc);
    for one in told {
        let result = result_of(*one)?;
        asked.push(after(alloc, &mut asker, scripts, &mut log, result)?)?;
    }
    Ok(asked)
}

// The same for the agent of a configuration.
fn asked_by(alloc: Global, configuration: &[u8], told: &[Told]) -> Result<Vec<Asked>, Fail> {
    let config = read_config(alloc, configuration)
        .ok()
        .ok_or("a configuration")?;
    let agent = config.agents().first().ok_or("an agent")?;
    asks_after(alloc, agent.scripts.items(), told)
}

#[test]
fn values_are_those_of_the_same_script(rt: HostRuntime) -> Result<(), Fail> {
    let told = [
        Told::Came(7),
        Told::Done,
        Told::Came(8),
        Told::Done,
        Told::Done,
    ];
    let asked = asked_by(
        rt.alloc(),
        b"centre(c). role(r). agent(a,r).
        script(a,[c ? in(X), c ? out(X), c ? in(X), c ? out(X)]). script(a,[c ? out(X)]).",
        &told,
    )?;
    // No value of the variable is both.
    assert_eq!(rt;
        asked.as_slice(),
        [
            Asked::Number(7),
            Asked::Number(7),
            Asked::Variable,
            Asked::Variable,
            Asked::Nothing,
        ]
        .as_slice()
    );
    Ok(())
}

#[test]
fn absence_and_what_is_found_give_no_value(rt: HostRuntime) -> Result<(), Fail> {
    let told = [
        Told::Found(7),
        Told::Refused,
        Told::Absent,
        Told::Came(8),
        Told::Found(9),
    ];
    let asked = asked_by(
        rt.alloc(),
        b"centre(c). role(r). agent(a,r).
        script(a,[c ? nop(X), c ? out(X), c ? no(X), c ? in(X), c ? nop(X), c ? no(X)]).",
        &told,
    )?;
    // A tuple that came does, and what is found behind it changes nothing.
    assert_eq!(rt;
        asked.as_slice(),
        [
            Asked::Variable,
            Asked::Variable,
            Asked::Variable,
            Asked::Number(8),
            Asked::Number(8),
        ]
        .as_slice()
    );
    Ok(())
}
