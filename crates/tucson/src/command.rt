//! The words of a call.
ghost use Rattle.std.specs.Prelude.{◌∷◌, [], ◌≤◌, ℕ, codes, map, IfNone, IfSome};
ghost use Rattle.tucson.specs.Commands.{IsCommandOf, IsNumber};

use crate::limits::{MOST_AGENTS, MOST_PORT, MOST_START, MOST_WORKERS, USUAL_WORKERS};
use tc_lists::read_number;

/// What a call is to do.
#[derive(Clone, Copy, PartialEq, Eq, Debug)]
pub enum Command {
    /// To run a configuration: the agents are dealt out to so many workers, from 1 to 64.
    Run { workers: usize },
    /// To run the workload of so many agents, from 1 to 1,000, from this start of its generator.
    Load { agents: u32, start: u64 },
    /// To serve the agents of a configuration over the connections to this port, from 1.
    Serve { port: u16 },
    /// To judge a text by the configuration before it.
    Verify,
}

/// The command that the words ask for: `run`, `run --workers N`, `load N SEED`, `serve PORT` or
/// `verify`.
pub fn command_of(words: &[Vec<u8>]) -> Option<Command>
    ensures { IsCommandOf (map (λ w. w.items) words.now) result }
{
    match words {
        [word] => of_one(word),
        [serve, port] => of_two(serve, port),
        [name, first, second] => of_three(name, first, second),
        _ => None,
    }
}

// The command that a single word asks for.
fn of_one(word: &[u8]) -> Option<Command>
    ensures { IsCommandOf (word.now ∷ []) result }
{
    if word == b"run".as_slice() {
        return Some(Command::Run {
            workers: USUAL_WORKERS,
        });
    }
    if word == b"verify".as_slice() {
        return Some(Command::Verify);
    }
    None
}

// The command that two words ask for.
fn of_two(serve: &[u8], port: &[u8]) -> Option<Command>
    ensures { IsCommandOf (serve.now ∷ port.now ∷ []) result }
{
    if serve != b"serve".as_slice() {
        return None;
    }
    let port = number_of(port, 1, MOST_PORT)?;
    Some(Command::Serve { port: port as u16 })
}

// The command that three words ask for.
fn of_three(name: &[u8], first: &[u8], second: &[u8]) -> Option<Command>
    ensures { IsCommandOf (name.now ∷ first.now ∷ second.now ∷ []) result }
{
    if name == b"run".as_slice() {
        return run_of(first, second);
    }
    if name == b"load".as_slice() {
        return load_of(first, second);
    }
    None
}

// The command that two words behind `run` ask for.
fn run_of(option: &[u8], count: &[u8]) -> Option<Command>
    ensures { IsCommandOf (codes "run" ∷ option.now ∷ count.now ∷ []) result }
{
    if option != b"--workers".as_slice() {
        return None;
    }
    let workers = number_of(count, 1, MOST_WORKERS)?;
    Some(Command::Run {
        workers: workers as usize,
    })
}

// The command that two words behind `load` ask for.
fn load_of(count: &[u8], seed: &[u8]) -> Option<Command>
    ensures { IsCommandOf (codes "load" ∷ count.now ∷ seed.now ∷ []) result }
{
    let agents = number_of(count, 1, MOST_AGENTS)?;
    let start = number_of(seed, 0, MOST_START)?;
    Some(Command::Load {
        agents: agents as u32,
        start,
    })
}

// The number from this least to this most that a word tells.
fn number_of(word: &[u8], least: u64, most: u64) -> Option<u64>
    requires { 9 ≤ most }
    ensures some { IfSome result (IsNumber word.now least most) }
    ensures none { IfNone result ((n : ℕ) → IsNumber word.now least most n → ⊥) }
{
    let (number, rest) = read_number(word, most)?;
    if number < least {
        return None;
    }
    if !rest.is_empty() {
        return None;
    }
    Some(number)
}
