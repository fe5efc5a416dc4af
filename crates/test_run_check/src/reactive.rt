//! Configurations with reactions, whose logs don't depend on the order of calls.
use crate::fixed::{begin_agent, with_centres};
use crate::texts::{append_all, append_count};
use std::alloc::Global;
use tc_lists::NoMemory;

/// What a table of philosophers does: whoever asks for two chopsticks gets them together.
const TABLE: &[u8] = b"\
spec(c0,reaction(in(chops(A,B)),(pre,out_r(required(A,B))))).\n\
spec(c0,reaction(out_r(required(A,B)),(in_r(chop(A)),in_r(chop(B)),out_r(chops(A,B))))).\n\
spec(c0,reaction(in(chops(A,B)),(post,in_r(required(A,B))))).\n\
spec(c0,reaction(out(chops(A,B)),(in_r(chops(A,B)),out_r(chop(A)),out_r(chop(B))))).\n\
spec(c0,reaction(out_r(chop(A)),(rd_r(required(A,B)),in_r(chop(A)),in_r(chop(B)),\
out_r(chops(A,B))))).\n\
spec(c0,reaction(out_r(chop(B)),(rd_r(required(A,B)),in_r(chop(A)),in_r(chop(B)),\
out_r(chops(A,B))))).\n";

/// Philosophers round a table, each of whom eats so many times.
pub fn philosophers(alloc: Global, seats: usize, meals: usize) -> Result<Vec<u8>, NoMemory> {
    let mut text = with_centres(alloc, 1)?;
    text.extend_from_slice(TABLE)?;
    for seat in 0..seats {
        append_count(b"tuple(c0,chop(", seat, b")).\n", &mut text)?;
    }
    for seat in 0..seats {
        let next = seat.saturating_add(1).checked_rem(seats).unwrap_or(0);
        begin_agent(seat, &mut text)?;
        text.extend_from_slice(b"c0 ? inp(none)")?;
        for _ in 0..meals {
            append_count(b", c0 ? in(chops(", seat, b",", &mut text)?;
            append_count(b"", next, b")), c0 ? out(chops(", &mut text)?;
            append_count(b"", seat, b",", &mut text)?;
            append_count(b"", next, b"))", &mut text)?;
        }
        text.extend_from_slice(b"]).\n")?;
    }
    Ok(text)
}

/// Agents that each add to a counter so many times, and a last one that waits for the sum.
pub fn counter(alloc: Global, agents: usize, times: usize) -> Result<Vec<u8>, NoMemory> {
    let mut text = with_centres(alloc, 1)?;
    text.extend_from_slice(
        b"tuple(c0,count(0)).\n\
spec(c0,reaction(out(inc),(in_r(inc),in_r(count(N)),M is N + 1,out_r(count(M))))).\n",
    )?;
    for agent in 0..agents {
        begin_agent(agent, &mut text)?;
        text.extend_from_slice(b"c0 ? rdp(none)")?;
        for _ in 0..times {
            text.extend_from_slice(b", c0 ? out(inc)")?;
        }
        text.extend_from_slice(b"]).\n")?;
    }
    begin_agent(agents, &mut text)?;
    append_count(
        b"c0 ? in(count(",
        agents.saturating_mul(times),
        b"))]).\n",
        &mut text,
    )?;
    Ok(text)
}

/// Agents that go on once all of them have come.
pub fn barrier(alloc: Global, agents: usize) -> Result<Vec<u8>, NoMemory> {
    let mut text = with_centres(alloc, 1)?;
    append_all(
        &[
            b"tuple(c0,come(0)).\n",
            b"spec(c0,reaction(out(come),(in_r(come),in_r(come(N)),M is N + 1,out_r(come(M))))).\n",
        ],
        &mut text,
    )?;
    append_count(
        b"spec(c0,reaction(out_r(come(",
        agents,
        b")),(no_r(open),out_r(open)))).\n",
        &mut text,
    )?;
    for agent in 0..agents {
        begin_agent(agent, &mut text)?;
        text.extend_from_slice(b"c0 ? out(come), c0 ? rd(open)]).\n")?;
    }
    Ok(text)
}

/// Pairs, of which one replaces the reactions of their centre, before and after the other's calls.
pub fn replaced(alloc: Global, pairs: usize) -> Result<Vec<u8>, NoMemory> {
    let mut text = with_centres(alloc, pairs)?;
    for pair in 0..pairs {
        append_count(b"grant(r,c", pair, b",set_spec).\n", &mut text)?;
        append_count(b"grant(r,c", pair, b",get_spec).\n", &mut text)?;
        begin_agent(pair, &mut text)?;
        append_count(
            b"c",
            pair,
            b" ? set_spec('reaction(out(a),(in_r(a),out_r(b))).')",
            &mut text,
        )?;
        append_count(b", c", pair, b" ? out(first), c", &mut text)?;
        append_count(b"", pair, b" ? in(done), c", &mut text)?;
        append_count(
            b"",
            pair,
            b" ? set_spec('reaction(out(_),jump).'), c",
            &mut text,
        )?;
        append_count(
            b"",
            pair,
            b" ? set_spec('reaction(out(X),out_r(it(X))).'), c",
            &mut text,
        )?;
        append_count(b"", pair, b" ? out(second)]).\n", &mut text)?;
        append_follower(pairs, pair, &mut text)?;
    }
    Ok(text)
}

// Appends the agent of a pair that looks at what has become of the reactions.
fn append_follower(pairs: usize, pair: usize, into: &mut Vec<u8>) -> Result<(), NoMemory> {
    begin_agent(pairs.saturating_add(pair), into)?;
    append_count(b"c", pair, b" ? in(first), c", into)?;
    append_count(b"", pair, b" ? out(a), c", into)?;
    append_count(b"", pair, b" ? inp(b), c", into)?;
    append_count(b"", pair, b" ? get_spec, c", into)?;
    append_count(b"", pair, b" ? out(done), c", into)?;
    append_count(b"", pair, b" ? in(second), c", into)?;
    append_count(b"", pair, b" ? out(a), c", into)?;
    append_count(b"", pair, b" ? inp(it(a)), c", into)?;
    append_count(b"", pair, b" ? get_spec]).\n", into)
}
