//! Runs of configurations by the top call, over a source and a sink in memory, and verdicts on texts.
use std::alloc::Global;
use std::sync::Wait;
use std::thread::Threads;
use tc_desk::Gate;
use tc_io::{MemDoor, SureSink, SureSource};
use tc_lists::{NoMemory, append_number};
use tucson::{Status, tucson, verify_main};

/// What a run has written, and the number of its status.
#[derive(Drop)]
pub struct Ran {
    pub text: Vec<u8>,
    pub status: u8,
}

/// Runs a configuration with so many workers, whose agents pass the gate before each call.
pub fn run<R: Threads + Wait + Sync, G: Gate + Sync>(
    rt: &R,
    alloc: Global,
    configuration: &[u8],
    workers: u64,
    gate: &G,
) -> Result<Ran, NoMemory> {
    let words = words(alloc, workers)?;
    let mut source = SureSource::new(configuration.to_vec(alloc)?);
    let mut sink = SureSink::new(alloc);
    let mut door = MemDoor::new(alloc, Vec::new(alloc), Vec::new(alloc))?;
    let status = tucson(rt, alloc, &words, &mut source, &mut sink, gate, &mut door);
    Ok(Ran {
        text: sink.taken().to_vec(alloc)?,
        status: status.number(),
    })
}

/// Whether `verify` says yes of a text behind a configuration.
pub fn is_verified(alloc: Global, configuration: &[u8], text: &[u8]) -> Result<bool, NoMemory> {
    let mut input = configuration.to_vec(alloc)?;
    input.extend_from_slice(b"\n%%\n")?;
    input.extend_from_slice(text)?;
    let mut source = SureSource::new(input);
    let mut sink = SureSink::new(alloc);
    Ok(verify_main(alloc, &mut source, &mut sink) == Status::Ended)
}

// The words of the call.
fn words(alloc: Global, workers: u64) -> Result<Vec<Vec<u8>>, NoMemory> {
    let mut number = Vec::new(alloc);
    append_number(workers, &mut number)?;
    let mut words = Vec::new(alloc);
    words.push(b"run".to_vec(alloc)?)?;
    words.push(b"--workers".to_vec(alloc)?)?;
    words.push(number)?;
    Ok(words)
}
