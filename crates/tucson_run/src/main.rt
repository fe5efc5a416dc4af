//! The program: the top call over standard input, standard output and connections over TCP.
//!
//! What the process is connected to is trusted. On standard error the door tells what it does.
#![tactic(auto)]

use std::env;
use std::io::ErrorKind;
use std::process::ExitCode;
use std::rt::Env;
use tc_desk::NoGate;
use tc_io::{StdSink, StdSource};
use tc_lists::NoMemory;
use tc_net::{TcpDoor, TellingDoor};
use tucson::{Status, tucson};

fn main(rt: HostRuntime) -> ExitCode {
    let alloc = rt.alloc();
    let (Ok(words), Ok(door)) = (words(&rt), TcpDoor::new(&rt, alloc)) else {
        return ExitCode::from(Status::NoMemory.number());
    };
    let mut source = StdSource::new(rt.stdin());
    let mut sink = StdSink::new(rt.stdout());
    let mut door = TellingDoor::new(door, rt.stderr());
    let status = tucson(
        &rt,
        alloc,
        &words,
        &mut source,
        &mut sink,
        &NoGate,
        &mut door,
    );
    ExitCode::from(status.number())
}

// The words behind the program's name. Words that are no text are no command's: then there are none.
fn words<R: Env + AllocGlobal>(rt: &R) -> Result<Vec<Vec<u8>>, NoMemory> {
    let mut words = Vec::new(rt.alloc());
    match env::args(rt) {
        Ok(args) => {
            for word in args.skip(1) {
                words.push(word.into_bytes())?;
            }
        }
        Err(e) => {
            if e.kind() == ErrorKind::OutOfMemory {
                return Err(NoMemory);
            }
        }
    }
    Ok(words)
}
