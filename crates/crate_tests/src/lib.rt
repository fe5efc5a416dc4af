//! Tests of what no row of a table shows: std's readers and writers, threads, calls that no run makes.
//!
//! Each module is named for the subject of one crate. They stand together, since the gate proves a
//! crate with tests twice.
#![tactic(auto)]

#[cfg(test)]
mod asking;
#[cfg(test)]
mod bells;
#[cfg(test)]
mod configurations;
#[cfg(test)]
mod connections;
#[cfg(test)]
mod driving;
#[cfg(test)]
mod grants;
#[cfg(test)]
mod lines;
#[cfg(test)]
mod numbers;
#[cfg(test)]
mod pieces;
#[cfg(test)]
mod read_lines;
#[cfg(test)]
mod sessions;
#[cfg(test)]
mod streams;
#[cfg(test)]
mod turnstile;
#[cfg(test)]
mod workloads;
