//! Agents at a shared centre, each in a thread of its own.
ghost use Rattle.std.specs.Prelude.{◌≡◌, [], All, IfOk};
ghost use Rattle.tc_shared.specs.Passes.{IsFreshPassOf};
ghost use Rattle.test_shared_rows.specs.Plays.{ArePlayed, IsPlayed, passes_of};

use crate::fault::Fault;
use crate::lists::append;
use crate::moves::{Move, Note};
use crate::playing::{Played, play};
use crate::stage::Stage;
use std::alloc::Global;
use std::sync::Wait;
use std::thread;
use std::thread::Threads;
use tc_centre::Core;
use tc_lists::NoMemory;
use tc_model::{Clauses, check_origin};
use tc_shared::{CentrePass, EndedPass, SharedCentre};
use tc_term::Name;

/// How many reactions an event may lead to. The centres of these rows have none.
const BUDGET: u32 = 1;

/// What came of a row: what each agent noted, and the core of the centre.
#[derive(Drop)]
pub struct Outcome {
    pub notes: Vec<Vec<Note>>,
    pub core: Core,
}

/// Lets agents make their moves at a new centre, each with so many turns and in a thread of its own.
pub fn together<R: Threads + Wait + Sync>(
    rt: &R,
    alloc: Global,
    turns: u32,
    moves: &[Vec<Move>],
) -> Result<Outcome, Fault> {
    let core = new_core(alloc, moves.len())?;
    let (centre, passes) = SharedCentre::new(alloc, core, turns)?;
    let played = play_all(rt, alloc, &centre, passes, moves)?;
    let (ended, notes) = apart(alloc, played)?;
    let core = centre.close(ended);
    Ok(Outcome { notes, core })
}

/// What all threads of a row see.
#[derive(Clone, Copy)]
struct Scene<'a> {
    alloc: Global,
    centre: &'a SharedCentre,
    stage: &'a Stage,
    moves: &'a [Vec<Move>],
}

// Plays with each pass, in a thread of its own.
fn play_all<R: Threads + Wait + Sync>(
    rt: &R,
    alloc: Global,
    centre: &SharedCentre,
    passes: Vec<CentrePass>,
    moves: &[Vec<Move>],
) -> Result<Vec<Played>, NoMemory>
    requires { All (IsFreshPassOf centre.now) passes.items }
    ensures { IfOk result (λ played. ArePlayed centre.now passes.items played.items) }
{
    let stage = Stage::new();
    let scene = Scene {
        alloc,
        centre,
        stage: &stage,
        moves,
    };
    let scene = &scene;
    thread::map_vec(
        rt,
        passes,
        &|pass: CentrePass| -> Played
            requires { IsFreshPassOf scene.now.centre.now pass }
            ensures { IsPlayed scene.entry.now.centre.now pass result }
        {
            play(
                rt,
                scene.alloc,
                scene.centre,
                scene.stage,
                pass,
                scene.moves,
            )
        },
    )
}

// The ended passes, and the notes, each in order.
fn apart(alloc: Global, played: Vec<Played>) -> Result<(Vec<EndedPass>, Vec<Vec<Note>>), Fault>
    ensures { IfOk result (λ r. r.0.items ≡ passes_of played.items) }
{
    let mut ended = Vec::with_capacity(alloc, played.len())?;
    let mut notes = Vec::with_capacity(alloc, played.len())?;
    for one in played {
        let Played { pass, notes: noted } = one;
        append(&mut ended, pass)?;
        append(&mut notes, noted?)?;
    }
    Ok((ended, notes))
}

// A centre without a tuple, for so many agents, which has served nothing.
fn new_core(alloc: Global, agents: usize) -> Result<Core, Fault>
    ensures { IfOk result (λ core. core.history ≡ []) }
{
    let name = Name::new(alloc, b"c")?;
    let agents = agents_of(alloc, agents)?;
    let clauses = Clauses::new(alloc);
    let tuples = Vec::new(alloc);
    match check_origin(&name, &agents, BUDGET, &tuples, &clauses) {
        Ok(()) => Ok(Core::new(alloc, name, agents, BUDGET, clauses, tuples)?),
        Err(_) => Err(Fault::Setup("no centre begins so")),
    }
}

// The names of so many agents: a, b, c, ..
fn agents_of(alloc: Global, agents: usize) -> Result<Vec<Name>, Fault> {
    let mut names = Vec::with_capacity(alloc, agents)?;
    for letter in (b'a'..=b'z').take(agents) {
        append(&mut names, Name::new(alloc, &[letter])?)?;
    }
    Ok(names)
}
