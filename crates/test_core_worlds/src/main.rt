//! Serves the worlds that standard input has, and prints their histories.
//!
//! A world is a clause: a name, the budget of reactions, the text of the clauses, the tuples, and
//! what agents call, one step after another. In `drawn(COUNT,SEED)` so many worlds are drawn, and
//! what was seen of them is counted. Of `origin(NAME,AGENTS,BUDGET)` it is told whether a centre may
//! begin so.
//!
//! ```text
//! world(counter, 100, 'reaction(out(inc),(in_r(inc),in_r(n(X)),Y is X + 1,out_r(n(Y)))).',
//!     [n(0)], [a ? out(inc), b ? inp(n(N)), 398 * (b ? in(q)), a ? look(1), a ? get_spec]).
//! ```
//!
//! With the argument `again` what a centre holds is noted before each call. A call that finds no
//! memory has to leave it so, and is made once more.
#![tactic(auto)]

mod calls;
mod centres;
mod counts;
mod draws;
mod fault;
mod lists;
mod origins;
mod run;
mod states;
mod worlds;

use std::env;
use tc_io::{StdSink, StdSource, read_all, write_all};

// The most bytes that the worlds may have.
const MOST_BYTES: usize = 1 << 20;

fn main(rt: HostRuntime) -> anyhow::Result<()> {
    let again = env::args(&rt)?.skip(1).any(|word| word.as_str() == "again");
    let text = read_all(rt.alloc(), &mut StdSource::new(rt.stdin()), MOST_BYTES)?;
    let told = worlds::tell_all(rt.alloc(), &text, again)?;
    write_all(&mut StdSink::new(rt.stdout()), &told)?;
    Ok(())
}
