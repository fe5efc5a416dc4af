//! The check: a text is gone through call by call, in an order in which they can have been made.
use crate::agents::{Agent, Grant};
use crate::centres::{Answer, Ask, Centre, Outcome, Request, append_answer, append_operation};
use crate::fault::Fault;
use crate::parts::{History, Parts, parts_of};
use crate::worlds::{World, world_of};
use std::alloc::Global;
use tc_lists::{NoMemory, append_number};
use tc_print::print_name;
use tc_term::Name;

/// Whether the text is one that the configuration may lead to, with this number as status.
///
/// The next call at a centre is made once it is the one that its agent's script asks next. Which
/// agent calls next at a centre is all that is taken from the text; all else is worked out here, and
/// the text has to have just that.
pub fn check(alloc: Global, configuration: &[u8], text: &[u8], status: u8) -> Result<(), Fault> {
    let mut world = world_of(alloc, configuration)?;
    let mut parts = parts_of(alloc, &world, text)?;
    go_through(alloc, &mut world, &mut parts.histories)?;
    let is_blocked = check_logs(alloc, &mut world, &parts)?;
    check_end(is_blocked, parts.end, status)
}

// Goes through all histories, as far as calls can be made.
fn go_through(
    alloc: Global,
    world: &mut World,
    histories: &mut [History<'_>],
) -> Result<(), Fault> {
    let World {
        centres,
        agents,
        grants,
    } = world;
    for _ in 0..=lines_of(histories) {
        let mut moved = false;
        for (place, history) in histories.iter_mut().enumerate() {
            if let Some(centre) = centres.get_mut(place) {
                moved |= go_on(alloc, place, centre, agents, grants, history)?;
            }
        }
        if !moved {
            break;
        }
    }
    if histories.iter().all(|history| history.is_done()) {
        return Ok(());
    }
    Err(Fault::Wrong("a call stands where its agent can't have made it"))
}

// How many lines all histories have.
fn lines_of(histories: &[History<'_>]) -> usize {
    let mut lines: usize = 0;
    for history in histories {
        lines = lines.saturating_add(history.len());
    }
    lines
}

// Goes on with the history of a centre, as far as calls can be made. Whether one was.
fn go_on(
    alloc: Global,
    place: usize,
    centre: &mut Centre,
    agents: &mut [Agent],
    grants: &[Grant],
    history: &mut History<'_>,
) -> Result<bool, Fault> {
    let mut moved = false;
    for _ in 0..history.len() {
        let Some(ask) = next_call(alloc, place, agents, grants, history)? else {
            return Ok(moved);
        };
        make(alloc, ask, centre, agents, history)?;
        moved = true;
    }
    Ok(moved)
}

// The call that stands next in a history, where its agent comes to it now.
fn next_call(
    alloc: Global,
    place: usize,
    agents: &mut [Agent],
    grants: &[Grant],
    history: &History<'_>,
) -> Result<Option<Ask>, Fault> {
    let Some(line) = history.front() else {
        return Ok(None);
    };
    let Some(caller) = line.caller else {
        return Err(Fault::Wrong("a line stands in a history that says nothing there"));
    };
    let Some(agent) = agents.get_mut(caller) else {
        return Err(Fault::Wrong("a call is of no agent"));
    };
    if agent.waits() {
        return Ok(None);
    }
    match agent.next_ask(alloc, caller, grants)? {
        Some(ask) => Ok(if ask.centre == place { Some(ask) } else { None }),
        None => Err(Fault::Wrong("a call is one that no script asks for")),
    }
}

// Makes a call, and answers all requests that can be answered then.
fn make(
    alloc: Global,
    ask: Ask,
    centre: &mut Centre,
    agents: &mut [Agent],
    history: &mut History<'_>,
) -> Result<(), Fault> {
    let Some(agent) = agents.get_mut(ask.agent) else {
        return Err(Fault::Wrong("a call is of no agent"));
    };
    let mut line = entry(alloc, b"call ", &agent.name, ask.number)?;
    line.extend_from_slice(b" ")?;
    append_operation(alloc, ask.word, &ask.operand, &mut line)?;
    let outcome = centre.serve(alloc, ask)?;
    end_entry(alloc, &outcome.answer, &mut line)?;
    history.take(
        &line,
        "a call isn't the one that was asked, or its answer isn't right",
    )?;
    take_reactions(&outcome, history)?;
    agent.take(alloc, &outcome.answer)?;
    for _ in 0..centre.waiting() {
        let Some((request, outcome)) = centre.answer_next(alloc)? else {
            return Ok(());
        };
        give(alloc, &request, &outcome, agents, history)?;
    }
    Ok(())
}

// Takes the lines of all reactions.
fn take_reactions(outcome: &Outcome, history: &mut History<'_>) -> Result<(), Fault> {
    for line in &outcome.lines {
        history.take(
            line,
            "a reaction isn't the one that was triggered, or does something else",
        )?;
    }
    Ok(())
}

// Gives a request its tuple.
fn give(
    alloc: Global,
    request: &Request,
    outcome: &Outcome,
    agents: &mut [Agent],
    history: &mut History<'_>,
) -> Result<(), Fault> {
    let Some(agent) = agents.get_mut(request.agent) else {
        return Err(Fault::Wrong("a request is of no agent"));
    };
    let mut line = entry(alloc, b"give ", &agent.name, request.number)?;
    end_entry(alloc, &outcome.answer, &mut line)?;
    history.take(
        &line,
        "a request isn't answered, or not in its turn, or by another tuple",
    )?;
    take_reactions(outcome, history)?;
    agent.take(alloc, &outcome.answer)?;
    Ok(())
}

// The beginning of an entry.
fn entry(alloc: Global, word: &[u8], agent: &Name, number: u64) -> Result<Vec<u8>, NoMemory> {
    let mut line = word.to_vec(alloc)?;
    print_name(alloc, agent, &mut line)?;
    line.push(b' ')?;
    append_number(number, &mut line)?;
    Ok(line)
}

// Appends what came of an entry.
fn end_entry(alloc: Global, answer: &Answer, line: &mut Vec<u8>) -> Result<(), NoMemory> {
    line.extend_from_slice(b" = ")?;
    append_answer(alloc, answer, line)
}

// Whether some agent waits at the end. Each log has to be that of its agent.
fn check_logs(alloc: Global, world: &mut World, parts: &Parts<'_>) -> Result<bool, Fault> {
    let World { agents, grants, .. } = world;
    let mut is_blocked = false;
    for (place, agent) in agents.iter_mut().enumerate() {
        is_blocked |= agent.waits();
        if !agent.end(alloc, place, grants)? {
            return Err(Fault::Wrong("an agent has come to no end of its scripts"));
        }
        if !parts
            .logs
            .get(place)
            .is_some_and(|log| is_log(agent.rows(), log))
        {
            return Err(Fault::Wrong("a log has other rows"));
        }
    }
    Ok(is_blocked)
}

// Whether the lines are these rows.
fn is_log(rows: &[Vec<u8>], lines: &[&[u8]]) -> bool {
    if rows.len() != lines.len() {
        return false;
    }
    for (row, line) in rows.iter().zip(lines) {
        if row.as_slice() != *line {
            return false;
        }
    }
    true
}

// The last line and the status have to tell whether some agent waits.
fn check_end(is_blocked: bool, end: &[u8], status: u8) -> Result<(), Fault> {
    let (line, number): (&[u8], u8) = if is_blocked {
        (b"end blocked", 3)
    } else {
        (b"end ended", 0)
    };
    if end != line {
        return Err(Fault::Wrong("the last line is another"));
    }
    if status != number {
        return Err(Fault::Wrong("the status is another"));
    }
    Ok(())
}
