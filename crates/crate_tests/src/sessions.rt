//! Connections that wait for each other, served by turns.
ghost use Rattle.std.specs.Prelude.{None, Some, refl, true};

use std::alloc::Global;
use std::collections::VecDeque;
use std::process::Abort;
use std::sync::Wait;
use std::sync::atomic::{AtomicU64, Ordering};
use std::test::Fail;
use std::thread::Threads;
use tc_io::{Door, Failed, Link, NoMemory, Sink, SinkFault, Source, Stir, SureSink, SureSource};
use tucson::{Status, serve_main};

// How often a connection is asked at most whether something has come.
const TURNS: u64 = 10_000;

// What a connection has seen: how many bytes it was sent that are those of its replies, how many
// others, and how often it was read before another one was sent what it waits for.
#[derive(Drop)]
struct Tally {
    right: AtomicU64,
    wrong: AtomicU64,
    late: AtomicU64,
}

impl Tally {
    fn new() -> Tally {
        Tally {
            right: AtomicU64::new(0),
            wrong: AtomicU64::new(0),
            late: AtomicU64::new(0),
        }
    }

    // So many bytes were sent, which are those of the replies, and each in time.
    fn is(&self, replies: u64) -> bool {
        self.right.load(Ordering::SeqCst) == replies
            && self.wrong.load(Ordering::SeqCst) == 0
            && self.late.load(Ordering::SeqCst) == 0
    }
}

// A connection whose bytes have come once another one was sent so many, or the turns are over.
#[derive(Drop)]
struct Patient<'a> {
    bytes: &'static [u8],
    replies: &'static [u8],
    tally: &'a Tally,
    other: &'a Tally,
    after: u64,
    // How often it was asked whether something has come.
    asked: u64,
}

impl<'a> Patient<'a> {
    // Whether the other connection was sent so many bytes.
    fn is_due(&self) -> bool {
        self.other.right.load(Ordering::SeqCst) >= self.after
    }
}

impl<'a> Source for Patient<'a> {
    ghost left = { λ _. None };

    ghost read_faults = { λ _. 0 };

    ghost sure = { λ _. true };

    ghost other = { λ _. Some (record { taken = None; write_faults = 0; sure = true }) };

    fn read(&mut self, into: &mut [u8]) -> Result<usize, Failed> {
        if !self.is_due() {
            self.tally.late.fetch_add(1, Ordering::SeqCst);
        }
        let count = self.bytes.len().min(into.len());
        let (first, rest) = self.bytes.split_at(count);
        into[..count].copy_from_slice(first);
        self.bytes = rest;
        Ok(count)
    }
}

impl<'a> Sink for Patient<'a> {
    ghost taken = { λ _. None };

    ghost write_faults = { λ _. 0 };

    ghost sure = { λ _. true };

    ghost other = { λ _. Some (record { left = None; read_faults = 0; sure = true }) };

    fn write(&mut self, piece: &[u8]) -> Result<usize, SinkFault> {
        for byte in piece {
            match self.replies.split_first() {
                Some((due, rest)) if due == byte => {
                    self.tally.right.fetch_add(1, Ordering::SeqCst);
                    self.replies = rest;
                }
                _ => {
                    self.tally.wrong.fetch_add(1, Ordering::SeqCst);
                }
            }
        }
        Ok(piece.len())
    }
}

impl<'a> Link for Patient<'a> {
    ghost of_source = { λ l. refl };

    ghost of_sink = { λ l. refl };

    fn has_come(&mut self) -> bool {
        self.asked = self.asked.saturating_add(1);
        self.is_due() || self.asked > TURNS
    }

    fn has_more(&self) -> bool {
        false
    }

    fn has_room(&mut self) -> bool {
        true
    }

    fn set_blocking(&mut self) -> bool {
        false
    }

    fn leave(&mut self) -> bool {
        true
    }
}

// A door at which these connections wait, in order. After each rest it tells of all that it has
// opened.
#[derive(Drop)]
struct Waiting<'a> {
    links: VecDeque<Patient<'a>>,
    opened: usize,
    told: usize,
    faults: u64,
}

impl<'a> Door for Waiting<'a> {
    type Conn = Patient<'a>;

    ghost door_faults = { λ d. d.faults };

    ghost opened = { λ _. None };

    ghost lent = { λ _. 0 };

    fn has_come(&mut self) -> bool {
        true
    }

    fn rest(&mut self, _most: Option<u64>) {
        self.told = 0;
    }

    fn next_stir(&mut self) -> Option<Stir> {
        if self.told >= self.opened {
            return None;
        }
        let number = self.told;
        self.told = number.saturating_add(1);
        Some(Stir {
            number,
            is_last: false,
        })
    }

    fn listen(&mut self, _port: u16) -> Result<(), Failed> {
        Ok(())
    }

    fn accept(&mut self) -> Result<Patient<'a>, Failed> {
        match self.links.pop_front() {
            Some(link) => {
                self.opened = self.opened.saturating_add(1);
                Ok(link)
            }
            None => {
                self.faults = self.faults.saturating_add(1);
                Err(Failed)
            }
        }
    }
}

const TWO_CENTRES: &[u8] = b"centre(c). centre(d). role(r). grant(r,c,out). grant(r,d,out).
agent(a,r). agent(b,r).";

const ONE_CENTRE: &[u8] = b"centre(c). role(r). grant(r,c,out). grant(r,c,in).
agent(a,r). agent(b,r).";

// The text that a service over these connections writes, at whose end nobody waits.
fn served<R: Threads + Wait + Sync + Abort>(
    rt: &R,
    alloc: Global,
    configuration: &[u8],
    links: Vec<Patient<'_>>,
) -> Result<Vec<u8>, NoMemory> {
    let mut source = SureSource::new(configuration.to_vec(alloc)?);
    let mut sink = SureSink::new(alloc);
    let links = VecDeque::from_vec(links);
    let mut door = Waiting {
        links,
        opened: 0,
        told: 0,
        faults: 0,
    };
    let status = serve_main(rt, alloc, 7000, &mut source, &mut sink, &mut door);
    assert!(rt; status == Status::Ended);
    sink.taken().to_vec(alloc)
}

const SIDE_BY_SIDE: &[u8] = b"tucson 2
centre c
call a 1 out(p(1)) = done
centre d
call b 1 out(q) = done
agent a
1 c done
agent b
1 d done
end ended
";

// Were they served one after the other, the first connection would wait for the second one in vain.
#[test]
fn connections_are_served_side_by_side(rt: HostRuntime) -> Result<(), Fail> {
    let alloc = rt.alloc();
    let first = Tally::new();
    let second = Tally::new();
    let links = vec![in alloc;
        Patient {
            bytes: b"c ? out(p(1))\nquit\n",
            replies: b"done\nbye\n",
            tally: &first,
            other: &second,
            after: 1,
            asked: 0,
        },
        Patient {
            bytes: b"d ? out(q)\n",
            replies: b"done\n",
            tally: &second,
            other: &first,
            after: 0,
            asked: 0,
        },
    ]?;
    let text = served(&rt, alloc, TWO_CENTRES, links)?;
    assert_eq!(rt; text.as_slice(), SIDE_BY_SIDE);
    assert!(rt; first.is(9));
    assert!(rt; second.is(5));
    Ok(())
}

const BEFORE_A_WAIT: &[u8] = b"tucson 2
centre c
call a 1 in(x) = pending
call b 1 out(x) = done
give a 1 = tuple x
agent a
1 c tuple x
agent b
1 c done
end ended
";

// Were the first reply kept back, the second connection would wait for it in vain.
#[test]
fn replies_are_written_before_a_wait(rt: HostRuntime) -> Result<(), Fail> {
    let alloc = rt.alloc();
    let first = Tally::new();
    let second = Tally::new();
    let links = vec![in alloc;
        Patient {
            bytes: b"c ? in(x)\nwait\n",
            replies: b"pending\ntuple x\n",
            tally: &first,
            other: &second,
            after: 0,
            asked: 0,
        },
        Patient {
            bytes: b"c ? out(x)\n",
            replies: b"done\n",
            tally: &second,
            other: &first,
            after: 8,
            asked: 0,
        },
    ]?;
    let text = served(&rt, alloc, ONE_CENTRE, links)?;
    assert_eq!(rt; text.as_slice(), BEFORE_A_WAIT);
    assert!(rt; first.is(16));
    assert!(rt; second.is(5));
    Ok(())
}
