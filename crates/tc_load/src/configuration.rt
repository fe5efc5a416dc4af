//! The configuration of the workload as text.
ghost use Rattle.std.specs.Prelude.{◌≡◌, ◌++◌, ◌+◌, ◌*◌, ◌≤◌};
ghost use Rattle.std.specs.Prelude.{OnErr, OnOk, length};
ghost use Rattle.std.specs.List.{flat_map, range_with_len};
ghost use mathlib.Core.List.{IsPrefix};
ghost use Rattle.tc_load.specs.Workload.{agent_text, centre_text, grants_text, load_text};
ghost use Rattle.tc_load.specs.Workload.{script_text, workload_text};

use crate::limits::{CENTRES, SCRIPTS};
use crate::words::words_of;
use std::alloc::Global;
use tc_lists::{NoMemory, append_number, cut_back};

/// Appends the configuration of so many agents, with the words of the generator that starts so.
///
/// Takes time and room linear in the number of agents.
pub fn load_text(alloc: Global, agents: u32, start: u64, into: &mut Vec<u8>) -> Result<(), NoMemory>
    ensures appended { OnOk result (into.new.items ≡ into.old.items ++ load_text agents start) }
    ensures same { OnErr result (into.new.items ≡ into.old.items) }
{
    let words = words_of(alloc, SCRIPTS as usize * agents as usize, start)?;
    let before = into.len();
    let written = write_workload(agents, &words, into);
    cut_back(written, before, into)
}

// Appends the centres, the role with its grants, and the agents.
fn write_workload(agents: u32, words: &[u32], into: &mut Vec<u8>) -> Result<(), NoMemory>
    requires { length words.now ≡ SCRIPTS * agents }
    ensures appended { OnOk result
        (into.new.items ≡ into.old.items ++ workload_text agents words.now) }
    ensures kept { IsPrefix into.old.items into.new.items }
{
    write_centres(into)?;
    into.extend_from_slice(b"role(r).\n")?;
    write_grants(into)?;
    write_agents(agents, words, into)
}

// Appends all centres.
fn write_centres(into: &mut Vec<u8>) -> Result<(), NoMemory>
    ensures appended { OnOk result
        (into.new.items ≡ into.old.items ++ flat_map centre_text (range_with_len 0 CENTRES)) }
    ensures kept { IsPrefix into.old.items into.new.items }
{
    for k in 0..CENTRES {
        write_centre(k, into)?;
    }
    Ok(())
}

// Appends the clauses of a centre.
fn write_centre(k: u32, into: &mut Vec<u8>) -> Result<(), NoMemory>
    ensures appended { OnOk result (into.new.items ≡ into.old.items ++ centre_text k) }
    ensures kept { IsPrefix into.old.items into.new.items }
{
    into.extend_from_slice(b"centre(c")?;
    append_number(k as u64, into)?;
    into.extend_from_slice(b").\ntuple(c")?;
    append_number(k as u64, into)?;
    into.extend_from_slice(b",count(0)).\nspec(c")?;
    append_number(k as u64, into)?;
    into.extend_from_slice(b",reaction(out(inc(X)),(in_r(inc(X)),Y is X + 1,out_r(count(Y))))).\n")
}

// Appends the grants at all centres.
fn write_grants(into: &mut Vec<u8>) -> Result<(), NoMemory>
    ensures appended { OnOk result
        (into.new.items ≡ into.old.items ++ flat_map grants_text (range_with_len 0 CENTRES)) }
    ensures kept { IsPrefix into.old.items into.new.items }
{
    for k in 0..CENTRES {
        write_grants_at(k, into)?;
    }
    Ok(())
}

// Appends the grants at a centre.
fn write_grants_at(k: u32, into: &mut Vec<u8>) -> Result<(), NoMemory>
    ensures appended { OnOk result (into.new.items ≡ into.old.items ++ grants_text k) }
    ensures kept { IsPrefix into.old.items into.new.items }
{
    into.extend_from_slice(b"grant(r,c")?;
    append_number(k as u64, into)?;
    into.extend_from_slice(b",in).\ngrant(r,c")?;
    append_number(k as u64, into)?;
    into.extend_from_slice(b",out).\n")
}

// Appends all agents.
fn write_agents(agents: u32, words: &[u32], into: &mut Vec<u8>) -> Result<(), NoMemory>
    requires { length words.now ≡ SCRIPTS * agents }
    ensures appended { OnOk result (into.new.items
        ≡ into.old.items ++ flat_map (agent_text words.now) (range_with_len 0 agents)) }
    ensures kept { IsPrefix into.old.items into.new.items }
{
    for agent in 0..agents {
        write_agent(agent, words, into)?;
    }
    Ok(())
}

// Appends an agent and its scripts.
fn write_agent(agent: u32, words: &[u32], into: &mut Vec<u8>) -> Result<(), NoMemory>
    requires { SCRIPTS * agent + SCRIPTS ≤ length words.now }
    ensures appended { OnOk result
        (into.new.items ≡ into.old.items ++ agent_text words.now agent) }
    ensures kept { IsPrefix into.old.items into.new.items }
{
    let first = SCRIPTS as usize * agent as usize;
    into.extend_from_slice(b"agent(a")?;
    append_number(agent as u64, into)?;
    into.extend_from_slice(b",r).\n")?;
    write_scripts(agent, &words[first..first + SCRIPTS as usize], into)
}

// Appends a script of the agent for each of the words.
fn write_scripts(agent: u32, words: &[u32], into: &mut Vec<u8>) -> Result<(), NoMemory>
    ensures appended { OnOk result
        (into.new.items ≡ into.old.items ++ flat_map (script_text agent) words.now) }
    ensures kept { IsPrefix into.old.items into.new.items }
{
    for word in words {
        write_script(agent, *word, into)?;
    }
    Ok(())
}

// Appends the script of the agent at the centre that the word names.
fn write_script(agent: u32, word: u32, into: &mut Vec<u8>) -> Result<(), NoMemory>
    ensures appended { OnOk result (into.new.items ≡ into.old.items ++ script_text agent word) }
    ensures kept { IsPrefix into.old.items into.new.items }
{
    let centre = (word % CENTRES) as u64;
    into.extend_from_slice(b"script(a")?;
    append_number(agent as u64, into)?;
    into.extend_from_slice(b",[c")?;
    append_number(centre, into)?;
    into.extend_from_slice(b" ? in(count(X)), c")?;
    append_number(centre, into)?;
    into.extend_from_slice(b" ? out(inc(X))]).\n")
}
