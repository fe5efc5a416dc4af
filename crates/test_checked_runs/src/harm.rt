//! What is damaged, and a line on whether the check and `verify` tell it.
use crate::both::said_of;
use crate::damage::{Damage, replaced, told};
use crate::lines::{append_said, append_verdict};
use crate::running::run;
use std::alloc::Global;
use std::sync::Wait;
use std::thread::Threads;
use tc_desk::NoGate;
use tc_lists::append_number;
use test_run_check::{Draws, Fault, append_all, next_drawn};

// A configuration whose texts are damaged by hand.
const SMALL: &[u8] = b"centre(c).\nrole(r).\ngrant(r,c,out).\ngrant(r,c,in).\ngrant(r,c,rd).\n\
grant(r,c,inp).\nagent(a,r).\nagent(b,r).\nscript(a,[c ? in(p(X)), c ? inp(p(X))]).\n\
script(b,[c ? out(p(1)), c ? out(p(2)), c ? rd(p(2))]).\n";

// What is damaged, that in its text, and what stands there then.
const DAMAGES: [(&[u8], &[u8], &[u8]); 9] = [
    (
        b"an answer is another",
        b"give a 1 = tuple p(1)",
        b"give a 1 = tuple p(2)",
    ),
    (b"a reply is another", b"1 c tuple p(1)", b"1 c tuple p(2)"),
    (b"a row is left out", b"2 c none\n", b""),
    (b"a give is left out", b"give a 1 = tuple p(1)\n", b""),
    (
        b"two entries are exchanged",
        b"call b 1 out(p(1)) = done\ngive a 1 = tuple p(1)\n",
        b"give a 1 = tuple p(1)\ncall b 1 out(p(1)) = done\n",
    ),
    (
        b"one call stands twice",
        b"call b 2 out(p(2)) = done\n",
        b"call b 2 out(p(2)) = done\ncall b 2 out(p(2)) = done\n",
    ),
    (
        b"a call is another",
        b"call b 2 out(p(2))",
        b"call b 2 out(p(3))",
    ),
    (
        b"a request that can be answered waits",
        b"3 c tuple p(2)",
        b"3 c pending",
    ),
    (b"the end is another", b"end ended", b"end blocked"),
];

// A configuration with reactions: the first call has as many as the budget allows, the second more.
const REACTIVE: &[u8] = b"centre(c,3).\nrole(r).\ngrant(r,c,out).\ngrant(r,c,inp).\n\
grant(r,c,get_spec).\nagent(a,r).\ntuple(c,count(0)).\n\
spec(c,reaction(out(inc),(in_r(inc),in_r(count(N)),M is N + 1,out_r(count(M))))).\n\
spec(c,reaction(out(inc),(rd_r(count(N)),N > 5))).\n\
spec(c,reaction(out_r(count(N)),out_r(seen(N)))).\n\
spec(c,reaction(inp(go),(failure,out_r(go)))).\n\
spec(c,reaction(out_r(go),(in_r(go),out_r(go)))).\n\
script(a,[c ? out(inc), c ? inp(go), c ? inp(seen(X)), c ? get_spec]).\n";

// What is damaged there.
const REACTIVE_DAMAGES: [(&[u8], &[u8], &[u8]); 12] = [
    (
        b"a reaction is left out",
        b"  1 failed 2 at 2 read count(1)\n",
        b"",
    ),
    (
        b"two reactions are exchanged",
        b"  1 failed 2 at 2 read count(1)\n  1 fired 3 put seen(1)\n",
        b"  1 fired 3 put seen(1)\n  1 failed 2 at 2 read count(1)\n",
    ),
    (
        b"a failed reaction is told as fired",
        b"failed 2 at 2 read count(1)",
        b"fired 2 read count(1)",
    ),
    (
        b"a fired reaction is told as failed",
        b"fired 3 put seen(1)",
        b"failed 3 at 1",
    ),
    (
        b"another goal has failed",
        b"failed 2 at 2",
        b"failed 2 at 1",
    ),
    (
        b"a reaction puts another tuple",
        b"put count(1)",
        b"put count(2)",
    ),
    (b"an effect is left out", b" took inc", b""),
    (b"a reaction is of another clause", b"fired 3", b"fired 2"),
    (b"the budget isn't told as spent", b"= over post", b"= none"),
    (
        b"the budget is spent too early",
        b"  1 fired 5 took go put go\ncall",
        b"call",
    ),
    (
        b"the budget is spent too late",
        b"  1 fired 5 took go put go\ncall",
        b"  1 fired 5 took go put go\n  1 fired 5 took go put go\ncall",
    ),
    (
        b"a clause is told as another",
        b"out_r(go))).",
        b"out_r(no))).",
    ),
];

/// Damages texts, and tells whether the check and `verify` find that.
pub fn report_damage<R: Threads + Wait + Sync>(
    rt: &R,
    alloc: Global,
    into: &mut Vec<u8>,
) -> Result<(), Fault> {
    report_by_hand(rt, alloc, SMALL, &DAMAGES, into)?;
    report_by_hand(rt, alloc, REACTIVE, &REACTIVE_DAMAGES, into)?;
    report_all_damage(rt, alloc, b"damaged", Draws::new(15, false), into)?;
    report_all_damage(
        rt,
        alloc,
        b"with reactions, damaged",
        Draws::new(15, true),
        into,
    )
}

// Damages a text at these places.
fn report_by_hand<R: Threads + Wait + Sync>(
    rt: &R,
    alloc: Global,
    configuration: &[u8],
    damages: &[(&[u8], &[u8], &[u8])],
    into: &mut Vec<u8>,
) -> Result<(), Fault> {
    let ran = run(rt, alloc, configuration, 1, &NoGate)?;
    append_all(&[b"before damage: "], into)?;
    append_verdict(alloc, configuration, &ran, into)?;
    into.extend_from_slice(b"\n")?;
    for (name, that, this) in damages {
        append_all(&[b"damaged, ", name, b": "], into)?;
        match replaced(alloc, &ran.text, that, this)? {
            Some(text) => append_said(said_of(alloc, configuration, &text, ran.status)?, into)?,
            None => into.extend_from_slice(b"nothing to damage")?,
        }
        into.extend_from_slice(b"\n")?;
    }
    Ok(())
}

// Damages a text at each place where it can be.
fn report_all_damage<R: Threads + Wait + Sync>(
    rt: &R,
    alloc: Global,
    what: &[u8],
    mut draws: Draws,
    into: &mut Vec<u8>,
) -> Result<(), Fault> {
    let configuration = next_drawn(alloc, &mut draws)?.text;
    let ran = run(rt, alloc, &configuration, 1, &NoGate)?;
    let rows: [(&[u8], Damage); 3] = [
        (b"a line is left out", Damage::Out),
        (b"a line stands twice", Damage::Twice),
        (b"a letter is another", Damage::Letter),
    ];
    for (name, damage) in rows {
        let (made, wrong) = told(alloc, &configuration, &ran.text, ran.status, damage)?;
        append_all(&[what, b" wherever ", name, b": "], into)?;
        append_number(wrong, into)?;
        into.extend_from_slice(b" of ")?;
        append_number(made, into)?;
        into.extend_from_slice(b" told\n")?;
    }
    Ok(())
}
