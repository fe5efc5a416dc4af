//! Rounds of a case.
use crate::builders::{Verb, call, named, one, pair, template};
use crate::cases::Case;
use crate::desk::{append, ask, centre_of};
use crate::fault::BenchFault;
use std::alloc::Global;
use std::time::{CpuClock, Duration};
use tc_centre::Core;
use tc_model::Op;
use tc_term::{Pattern, Term};

// So many rounds are built at once, so that building is not measured and memory stays small.
const BATCH: u32 = 1_000;

/// What came of rounds: the processor time of their calls, how many entries and what weight the history
/// has, and how often a tuple was the reply.
#[derive(Clone, Copy)]
pub struct Report {
    pub time: Duration,
    pub entries: u64,
    pub weight: u64,
    pub told: u64,
}

// What the calls of a case's rounds are built of.
#[derive(Drop)]
struct Plan {
    case: Case,
    size: u32,
    first: Pattern,
    second: Pattern,
}

// The centre of a case, and how often a tuple was the reply.
#[derive(Drop)]
struct Desk {
    core: Core,
    told: u64,
}

/// Makes so many rounds of a case of this size.
pub fn make_rounds(rt: &HostRuntime, case: Case, size: u32, count: u32) -> anyhow::Result<Report> {
    let alloc = rt.alloc();
    let plan = plan_of(alloc, case, size)?;
    let mut desk = Desk {
        core: centre_of(alloc, case, size)?,
        told: 0,
    };
    let before = case.before(size);
    let _time = serve(rt, &plan, &mut desk, 0, before)?;
    let time = serve(rt, &plan, &mut desk, before, count)?;
    Ok(Report {
        time,
        entries: desk.core.history().len() as u64,
        weight: desk.core.weight(),
        told: desk.told,
    })
}

// What the rounds of a case are built of.
fn plan_of(alloc: Global, case: Case, size: u32) -> Result<Plan, BenchFault> {
    let (first, second) = case.texts();
    let first = template(alloc, first)?;
    Ok(Plan {
        case,
        size,
        first,
        second: template(alloc, second)?,
    })
}

// Makes so many rounds from a place on, and tells the processor time of their calls. It is a function
// of its own when it runs, so that instructions can be counted in it.
#[inline(never)]
fn serve(
    rt: &HostRuntime,
    plan: &Plan,
    desk: &mut Desk,
    from: u32,
    count: u32,
) -> anyhow::Result<Duration> {
    let mut time = Duration::new(0, 0);
    for batch in 0..count.div_ceil(BATCH) {
        let done = batch.saturating_mul(BATCH);
        let next = count.saturating_sub(done).min(BATCH);
        let ops = build(rt.alloc(), plan, from.saturating_add(done), next)?;
        let start = rt.process_cpu_time()?;
        call_all(rt.alloc(), desk, ops)?;
        let spent = rt.process_cpu_time()?.saturating_sub(start);
        time = time.saturating_add(spent);
    }
    Ok(time)
}

// Makes the calls, in order.
fn call_all(alloc: Global, desk: &mut Desk, ops: Vec<(u32, Op)>) -> Result<(), BenchFault> {
    for (agent, op) in ops {
        if ask(alloc, &mut desk.core, agent, op)? {
            desk.told = desk.told.saturating_add(1);
        }
    }
    Ok(())
}

// The calls of so many rounds from a place on, in turn of the first two agents.
fn build(alloc: Global, plan: &Plan, from: u32, count: u32) -> Result<Vec<(u32, Op)>, BenchFault> {
    let mut ops = Vec::with_capacity(alloc, 3 * BATCH as usize)?;
    for k in 0..count {
        let round = from.saturating_add(k);
        let op = call(plan.case.first_verb(), first(alloc, plan, round)?)?;
        append(&mut ops, (0, op))?;
        if let Some(verb) = plan.case.second_verb() {
            let op = call(verb, second(alloc, plan, round)?)?;
            append(&mut ops, (1, op))?;
        }
        if let Some(verb) = plan.case.third_verb() {
            let op = call(verb, first(alloc, plan, round)?)?;
            append(&mut ops, (0, op))?;
        }
    }
    Ok(ops)
}

// The term of a round's first call.
fn first(alloc: Global, plan: &Plan, round: u32) -> Result<Term, BenchFault> {
    match plan.case {
        Case::Pair => Ok(one(alloc, b"p", int(round))?),
        Case::First => Ok(pair(alloc, int(scattered(round, plan.size)), Term::Var(0))?),
        Case::Names => Ok(named(alloc, scattered(round, plan.size))?),
        Case::Unasked => Ok(pair(alloc, Term::Int(-2), int(round))?),
        Case::Cascade => Ok(one(alloc, b"s", int(plan.size))?),
        Case::Outs => Ok(pair(alloc, int(round), Term::Int(0))?),
        _ => Ok(plan.first.term().copy(alloc)?),
    }
}

// The term of a round's second call.
fn second(alloc: Global, plan: &Plan, round: u32) -> Result<Term, BenchFault> {
    match plan.case {
        Case::Pair => Ok(one(alloc, b"p", int(round))?),
        Case::First => {
            let k = scattered(round, plan.size);
            Ok(pair(alloc, int(k), int(k))?)
        }
        _ => Ok(plan.second.term().copy(alloc)?),
    }
}

// A place below the size that is far from the place of the round before.
fn scattered(round: u32, size: u32) -> u32 {
    let place = (u64::from(round) * 2_654_435_761).checked_rem(u64::from(size));
    place.unwrap_or(0) as u32
}

fn int(k: u32) -> Term {
    Term::Int(i64::from(k))
}
