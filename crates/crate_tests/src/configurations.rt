//! Texts of configurations that several workers read: the answers are those of one.
use std::alloc::Global;
use std::process::Abort;
use std::test::Fail;
use std::thread::Threads;
use tc_config::{Config, ConfigCause, ConfigFault, read_config, read_config_by};
use tc_lists::NoMemory;

/// Four clauses, with ends of clauses and of lines where no clause ends.
const ROUND: &[u8] = b"tuple(c,'a. b').\n/* No clause.\ntuple(c,1).\n'. */\n% Nor this.\n\
    tuple(c,\n  q). script(a,[c ? out(p(1)),c ? in(p(X))]).\ntuple(c,'/*').\n";

/// How often they stand in a text.
const ROUNDS: usize = 200;

// Three clauses, and so many rounds, with something odd behind one of them.
fn text_with(alloc: Global, odd: &[u8], at: usize) -> Result<Vec<u8>, NoMemory> {
    let mut text = Vec::new(alloc);
    text.extend_from_slice(b"role(r). centre(c).\nagent(a,r).\n")?;
    for round in 0..ROUNDS {
        text.extend_from_slice(ROUND)?;
        if round == at {
            text.extend_from_slice(odd)?;
        }
    }
    Ok(text)
}

// How many tuples and scripts were read.
fn counted(read: Result<Config, ConfigFault>) -> Result<(usize, usize), ConfigFault> {
    let config = read?;
    let (mut tuples, mut scripts) = (0_usize, 0_usize);
    for centre in config.centres() {
        tuples = tuples.saturating_add(centre.tuples.items().len());
    }
    for agent in config.agents() {
        scripts = scripts.saturating_add(agent.scripts.items().len());
    }
    Ok((tuples, scripts))
}

// That the text is read so by one worker and by more.
fn reads_as<R: Abort + Threads + Sync>(
    rt: &R,
    alloc: Global,
    text: &[u8],
    want: Result<(usize, usize), ConfigFault>,
) -> Result<(), Fail> {
    assert_eq!(rt; counted(read_config(alloc, text)), want);
    for workers in [1, 2, 4, 8] {
        assert_eq!(rt; counted(read_config_by(rt, alloc, workers, text)), want);
    }
    Ok(())
}

#[test]
fn many_workers_read_what_one_does(rt: HostRuntime) -> Result<(), Fail> {
    let text = text_with(rt.alloc(), b"", 0)?;
    reads_as(&rt, rt.alloc(), &text, Ok((600, 200)))
}

#[test]
fn a_comment_that_hides_a_clause_hides_it_from_each(rt: HostRuntime) -> Result<(), Fail> {
    for at in [0, 60, 121, 198] {
        let text = text_with(rt.alloc(), b"/* tuple(c,2).\n", at)?;
        reads_as(&rt, rt.alloc(), &text, Ok((599, 200)))?;
    }
    Ok(())
}

#[test]
fn the_first_faulty_clause_is_told_by_each(rt: HostRuntime) -> Result<(), Fail> {
    let faults: [(&[u8], ConfigCause); 4] = [
        (b"tuple(c,X).\n", ConfigCause::NotGround),
        (b"tuple(d,1).\n", ConfigCause::UnknownCentre),
        (b"tuple(c,1.\n", ConfigCause::Syntax),
        (b"frob(c).\n", ConfigCause::Shape),
    ];
    for (odd, cause) in faults {
        for (at, clause) in [(0, 8), (60, 248), (121, 492), (199, 804)] {
            let text = text_with(rt.alloc(), odd, at)?;
            reads_as(
                &rt,
                rt.alloc(),
                &text,
                Err(ConfigFault::Bad { clause, cause }),
            )?;
        }
    }
    Ok(())
}
