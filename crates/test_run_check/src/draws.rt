//! Configurations that are drawn.
ghost use Rattle.std.specs.Prelude.{◌<◌};

use crate::centres::{WORDS, Word};
use crate::texts::{append_all, append_count};
use rand::seq::IndexedRandom;
use rand::{RngExt, SeedableRng};
use rand_pcg::Pcg32;
use std::alloc::Global;
use tc_lists::NoMemory;
use tc_print::print_quoted;

/// Tuples that a centre begins with.
const TUPLES: [&[u8]; 6] = [b"p(1)", b"p(2)", b"q(1,2)", b"q(2,2)", b"f(p(1))", b"r"];

/// What is put. A variable has a value where an item before has given it one.
const PUT: [&[u8]; 12] = [
    b"p(1)", b"p(2)", b"p(3)", b"p(X)", b"q(1,2)", b"q(2,2)", b"q(X,Y)", b"q(Y,1)", b"f(p(1))",
    b"f(X)", b"r", b"r",
];

/// What is asked for.
const ASKED: [&[u8]; 14] = [
    b"p(X)", b"p(Y)", b"p(1)", b"p(3)", b"q(X,Y)", b"q(Y,X)", b"q(Z,Z)", b"q(1,Z)", b"f(Z)",
    b"f(p(X))", b"f(p(2))", b"r", b"r", b"Z",
];

/// How an item begins, and whether it puts.
const ITEMS: [(&[u8], bool); 15] = [
    (b"out(", true),
    (b"out(", true),
    (b"out(", true),
    (b"out(", true),
    (b"out(", true),
    (b"in(", false),
    (b"in(", false),
    (b"rd(", false),
    (b"rd(", false),
    (b"inp(", false),
    (b"inp(", false),
    (b"rdp(", false),
    (b"rdp(", false),
    (b"no(", false),
    (b"nop(", false),
];

/// Reactions that a centre may have.
const REACTIONS: [&[u8]; 42] = [
    b"reaction(out(p(X)),(in_r(count(N)),M is N + 1,out_r(count(M))))",
    b"reaction(out(p(X)),out_r(count(0)))",
    b"reaction(in_r(count(N)),(N > 2,N mod 2 =:= 1,out_r(f(N))))",
    b"reaction(out(X),out_r(seen(X)))",
    b"reaction(out_r(seen(X)),(X = p(Y),Y >= 2,in_r(seen(X))))",
    b"reaction(out(r),(in_r(r),rd_r(p(X)),in_r(absent(X))))",
    b"reaction(out(q(X,Y)),out_r(first(X,Y)))",
    b"reaction(out_r(first(X,Y)),(in_r(first(X,Y)),out_r(second(Y,X))))",
    b"reaction(out_r(second(X,X)),((in_r(second(X,Y)),X = Y),out_r(p(X))))",
    b"reaction(inp(f(X)),(success,out_r(again(X))))",
    b"reaction(out_r(again(X)),(in_r(again(X)),out_r(again(X))))",
    b"reaction(inp(p(X)),(failure,out_r(p(3))))",
    b"reaction(inp(p(X)),(success,post,out_r(r)))",
    b"reaction(in(T),(pre,out_r(wanted)))",
    b"reaction(in(T),(post,in_r(wanted)))",
    b"reaction(rd(p(X)),(success,current_tuple(p(Y)),X = Y,out_r(q(X,Y))))",
    b"reaction(rd_r(X),(X \\= r,out_r(touched(X))))",
    b"reaction(out(r),(no_r(lock),out_r(lock)))",
    b"reaction(rdp(T),(current_agent(A),current_tc(C),current_op(O),out_r(who(A,C,O))))",
    b"reaction(out(q(X,Y)),(X < Y,Z is X * 3 - Y // 2,Z =\\= 0,out_r(p(Z))))",
    b"reaction(inp(q(X,Y)),(failure,X = 7,Y = 8,X \\= Y,out_r(q(X,Y))))",
    b"reaction(out(q(X,Y)),(rd_r(q(A,B)),rd_r(q(B,C))))",
    b"reaction(in(T),(pre,out_r(again(T))))",
    b"reaction(rd(T),(pre,out_r(p(1))))",
    b"reaction(in(q(A,B)),(pre,A = g(B),current_tuple(T),T = q(g(C),C),no_r(T)))",
    b"reaction(rdp(q(X,f(X))),(failure,out_r(r)))",
    b"reaction(in(Z),(rd_r(Z),true,X is foo + 1))",
    b"reaction(out_r(p(X)),(X < 9,Y is X + 1,out_r(p(Y))))",
    b"reaction(in(p(X)),(pre,no_r(p(3)),out_r(p(5))))",
    b"reaction(rdp(X),(success,in_r(X),out_r(f(p(2)))))",
    b"reaction(in(p(X)),request,out(asked(X)))",
    b"reaction(in(X),(response,success),in(asked(X)))",
    b"reaction(inp(p(X)),failure,(no(p(1)),out(p(1))))",
    b"reaction(inp(X),(success,(response,success)),(rd(r),out(got(X))))",
    b"reaction(out(p(X)),true,(in(got(Y)),X > 1))",
    b"reaction(rd(T),(request,response),out(never))",
    b"reaction(out(q(X,Y)),response,(in(q(X,Y)),out(p(X))))",
    b"reaction(no(T),request,out(asked(T)))",
    b"reaction(no(T),success,(no(T),out(gone(1))))",
    b"reaction(no(p(X)),(post,current_tuple(T),in_r(asked(T)),out_r(p(X))))",
    b"reaction(nop(X),failure,(current_op(O),out(who(O,X))))",
    b"reaction(nop(p(X)),(success,out_r(p(2))))",
];

/// What else the clauses of a centre are to be replaced by.
const TEXTS: [&[u8]; 8] = [
    b"''",
    b"'reaction(out(r),((no_r(lock),out_r(lock)),rd_r(r))). % the last'",
    b"'reaction(out(p(X)),jump).'",
    b"'reaction(out(r),true). reaction(jump(X),true).'",
    b"'rule.'",
    b"'reaction(out(r),true). reaction('",
    b"'reaction(out(99999999999999999999),true).'",
    b"'reaction(out(r),(X is 1 + 2,Y = X,out_r(p(Y)))).'",
];

/// What configurations with reactions, or without, are drawn by.
#[derive(Drop)]
pub struct Draws {
    rng: Pcg32,
    reacts: bool,
}

impl Draws {
    /// Draws that follow from this seed.
    pub fn new(seed: u64, reacts: bool) -> Draws {
        Draws {
            rng: Pcg32::seed_from_u64(seed),
            reacts,
        }
    }
}

/// A configuration that was drawn, with how many centres, agents and items it has.
#[derive(Drop)]
pub struct Drawn {
    pub text: Vec<u8>,
    pub centres: usize,
    pub agents: usize,
    pub items: usize,
}

/// The next configuration.
pub fn next_drawn(alloc: Global, draws: &mut Draws) -> Result<Drawn, NoMemory> {
    let most_centres = if draws.reacts { 2 } else { 8 };
    let centres = draws.rng.random_range(1..=most_centres);
    let agents = draws.rng.random_range(2..=12);
    let mut text = Vec::new(alloc);
    text.extend_from_slice(b"role(r).\nrole(s).\n")?;
    for centre in 0..centres {
        draw_centre(draws, centre, &mut text)?;
    }
    let mut items: usize = 0;
    for agent in 0..agents {
        let count = draw_agent(alloc, draws, agent, centres, &mut text)?;
        items = items.saturating_add(count);
    }
    Ok(Drawn {
        text,
        centres,
        agents,
        items,
    })
}

// A centre with a small budget, and some reactions.
fn draw_reactions(draws: &mut Draws, centre: usize, into: &mut Vec<u8>) -> Result<(), NoMemory> {
    append_count(b"centre(c", centre, b",", into)?;
    append_count(b"", draws.rng.random_range(2..=13), b").\n", into)?;
    for _ in 0..draws.rng.random_range(6..=17) {
        append_count(b"spec(c", centre, b",", into)?;
        append_all(&[REACTIONS.choose(&mut draws.rng).unwrap(), b").\n"], into)?;
    }
    Ok(())
}

// A centre, with some tuples, and with all grants to one role and some to the other.
fn draw_centre(draws: &mut Draws, centre: usize, into: &mut Vec<u8>) -> Result<(), NoMemory> {
    if draws.reacts {
        draw_reactions(draws, centre, into)?;
    } else {
        append_count(b"centre(c", centre, b").\n", into)?;
    }
    for _ in 0..draws.rng.random_range(0..6) {
        append_count(b"tuple(c", centre, b",", into)?;
        into.extend_from_slice(TUPLES.choose(&mut draws.rng).unwrap())?;
        into.extend_from_slice(b").\n")?;
    }
    for (_, word) in WORDS {
        append_grant(b"r", centre, word, into)?;
        if draws.rng.random_ratio(4, 5) {
            append_grant(b"s", centre, word, into)?;
        }
    }
    Ok(())
}

// A grant.
fn append_grant(
    role: &[u8],
    centre: usize,
    word: &[u8],
    into: &mut Vec<u8>,
) -> Result<(), NoMemory> {
    into.extend_from_slice(b"grant(")?;
    into.extend_from_slice(role)?;
    append_count(b",c", centre, b",", into)?;
    into.extend_from_slice(word)?;
    into.extend_from_slice(b").\n")
}

// An agent with one script or two, and how many items these have.
fn draw_agent(
    alloc: Global,
    draws: &mut Draws,
    agent: usize,
    centres: usize,
    into: &mut Vec<u8>,
) -> Result<usize, NoMemory>
    requires { 0 < centres }
{
    let role: &[u8] = if draws.rng.random_ratio(1, 4) {
        b",s).\n"
    } else {
        b",r).\n"
    };
    append_count(b"agent(a", agent, role, into)?;
    let first = draw_script(alloc, draws, agent, centres, into)?;
    if draws.rng.random_ratio(2, 3) {
        return Ok(first);
    }
    let second = draw_script(alloc, draws, agent, centres, into)?;
    Ok(first.saturating_add(second))
}

// A script, and how many items it has.
fn draw_script(
    alloc: Global,
    draws: &mut Draws,
    agent: usize,
    centres: usize,
    into: &mut Vec<u8>,
) -> Result<usize, NoMemory>
    requires { 0 < centres }
{
    let count = draws.rng.random_range(0..12);
    append_count(b"script(a", agent, b",[", into)?;
    for item in 0..count {
        if item > 0 {
            into.extend_from_slice(b", ")?;
        }
        let centre = draws.rng.random_range(0..centres);
        append_count(b"c", centre, b" ? ", into)?;
        draw_operation(alloc, draws, into)?;
    }
    into.extend_from_slice(b"]).\n")?;
    Ok(count)
}

// An operation.
fn draw_operation(alloc: Global, draws: &mut Draws, into: &mut Vec<u8>) -> Result<(), NoMemory> {
    let kind = draws.rng.random_range(..=ITEMS.len());
    match ITEMS.get(kind) {
        Some((word, puts)) => {
            into.extend_from_slice(word)?;
            into.extend_from_slice(if *puts {
                PUT.choose(&mut draws.rng).unwrap()
            } else {
                ASKED.choose(&mut draws.rng).unwrap()
            })?;
            into.extend_from_slice(b")")
        }
        None => draw_of_clauses(alloc, draws, into),
    }
}

// An operation on the clauses of a centre.
fn draw_of_clauses(alloc: Global, draws: &mut Draws, into: &mut Vec<u8>) -> Result<(), NoMemory> {
    if draws.rng.random_ratio(1, 2) {
        return into.extend_from_slice(Word::GetSpec.text());
    }
    into.extend_from_slice(b"set_spec(")?;
    if !draws.reacts {
        into.extend_from_slice(b"''")?;
    } else if draws.rng.random_ratio(1, 3) {
        into.extend_from_slice(TEXTS.choose(&mut draws.rng).unwrap())?;
    } else {
        draw_clauses(alloc, draws, into)?;
    }
    into.extend_from_slice(b")")
}

// A text of clauses.
fn draw_clauses(alloc: Global, draws: &mut Draws, into: &mut Vec<u8>) -> Result<(), NoMemory> {
    let mut clauses = Vec::new(alloc);
    for _ in 0..draws.rng.random_range(0..9) {
        append_all(
            &[REACTIONS.choose(&mut draws.rng).unwrap(), b". "],
            &mut clauses,
        )?;
    }
    print_quoted(alloc, &clauses, into)
}
