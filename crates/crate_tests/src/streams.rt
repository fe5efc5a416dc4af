//! Sources and sinks, in memory and over std's readers and writers, some of which fail.
use std::alloc::Global;
use std::io::{ErrorKind, Read, Write};
use std::process::Abort;
use std::test::Fail;
use std::{io, mem};
use tc_io::{
    Door, Failed, InputFault, MemDoor, MemLink, MemSink, MemSource, NoMemory, Sink, SinkFault,
    Source, StdSink, StdSource, SureSink, SureSource, read_all, write_all,
};

const TEXT: &[u8] = b"fork(1)";

fn bytes(alloc: Global) -> Result<Vec<u8>, Fail> {
    Ok(Vec::from_slice(alloc, TEXT)?)
}

fn gives_the_text<S: Source>(rt: &impl Abort, alloc: Global, mut source: S)
where
    S: Drop,
{
    let read = read_all(alloc, &mut source, TEXT.len());
    assert!(rt; read.is_ok_and(|read| read.as_slice() == TEXT));
}

#[test]
fn a_text_goes_through(rt: HostRuntime) -> Result<(), Fail> {
    let alloc = rt.alloc();
    let bytes = bytes(alloc)?;
    let mut source = MemSource::new(bytes, 4, Vec::new(alloc));
    let text = read_all(alloc, &mut source, 8192)?;
    let mut sink = MemSink::new(alloc, 4, Vec::new(alloc));
    write_all(&mut sink, &text)?;
    assert_eq!(rt; sink.taken(), TEXT);
    Ok(())
}

#[test]
fn every_source_gives_its_bytes(rt: HostRuntime) -> Result<(), Fail> {
    let alloc = rt.alloc();
    gives_the_text(&rt, alloc, SureSource::new(bytes(alloc)?));
    gives_the_text(&rt, alloc, StdSource::new(TEXT));
    Ok(())
}

#[test]
fn every_sink_takes_its_bytes(rt: HostRuntime) -> Result<(), Fail> {
    let alloc = rt.alloc();
    let mut sure = SureSink::new(alloc);
    write_all(&mut sure, TEXT)?;
    assert_eq!(rt; sure.taken(), TEXT);
    let mut written = Vec::new(alloc);
    write_all(&mut StdSink::new(&mut written), TEXT)?;
    assert_eq!(rt; written.as_slice(), TEXT);
    Ok(())
}

#[test]
fn the_limit_is_allowed_and_no_more(rt: HostRuntime) -> Result<(), Fail> {
    let alloc = rt.alloc();
    let mut source = SureSource::new(bytes(alloc)?);
    let read = read_all(alloc, &mut source, TEXT.len() - 1);
    assert!(rt; read.is_err_and(|fault| fault == InputFault::TooLong));
    Ok(())
}

#[test]
fn the_second_read_fails(rt: HostRuntime) -> Result<(), Fail> {
    let alloc = rt.alloc();
    let mut source = MemSource::new(bytes(alloc)?, 4, vec![in alloc; 2]?);
    let read = read_all(alloc, &mut source, 100);
    assert!(rt; read.is_err_and(|fault| fault == InputFault::Failed));
    let rest = read_all(alloc, &mut source, 100);
    assert!(rt; rest.is_ok_and(|rest| rest.as_slice() == b"(1)".as_slice()));
    Ok(())
}

#[test]
fn the_third_write_fails(rt: HostRuntime) -> Result<(), Fail> {
    let alloc = rt.alloc();
    let mut sink = MemSink::new(alloc, 2, vec![in alloc; 3]?);
    let written = write_all(&mut sink, TEXT);
    assert!(rt; written.is_err_and(|fault| fault == SinkFault::Failed));
    assert_eq!(rt; sink.taken(), b"fork".as_slice());
    Ok(())
}

// A reader whose reads fail, and a writer that takes all bytes and doesn't pass them on.
#[derive(Drop)]
struct Broken;

impl Read for Broken {
    fn read(&mut self, _buf: &mut [u8]) -> io::Result<usize> {
        Err(io::Error::from(ErrorKind::Other))
    }
}

impl Write for Broken {
    fn write(&mut self, buf: &[u8]) -> io::Result<usize> {
        Ok(buf.len())
    }

    fn flush(&mut self) -> io::Result<()> {
        Err(io::Error::from(ErrorKind::Other))
    }
}

#[test]
fn errors_of_the_outside_are_failures(rt: HostRuntime) {
    let read = read_all(rt.alloc(), &mut StdSource::new(Broken), 100);
    assert!(rt; read.is_err_and(|fault| fault == InputFault::Failed));
    // Std tells nothing of what a flush does: that its failure counts, no clause can say.
    let written = write_all(&mut StdSink::new(Broken), TEXT);
    assert!(rt; written.is_err_and(|fault| fault == SinkFault::Failed));
}

// How a call of a reader or a writer goes that isn't well yet.
#[derive(Drop)]
enum First {
    Fails,
    TakesNothing,
    // A signal comes in between.
    IsInterrupted,
    // It is well.
    Works,
}

// A reader and writer whose first call goes so, and every later one well.
#[derive(Drop)]
struct Late(First);

impl Read for Late {
    fn read(&mut self, buf: &mut [u8]) -> io::Result<usize> {
        match mem::replace(&mut self.0, First::Works) {
            First::Fails => Err(io::Error::from(ErrorKind::Other)),
            First::TakesNothing => Ok(0),
            First::IsInterrupted => Err(io::Error::from(ErrorKind::Interrupted)),
            First::Works => Ok(buf.len()),
        }
    }
}

impl Write for Late {
    fn write(&mut self, buf: &[u8]) -> io::Result<usize> {
        match mem::replace(&mut self.0, First::Works) {
            First::Fails => Err(io::Error::from(ErrorKind::Other)),
            First::TakesNothing => Ok(0),
            First::IsInterrupted => Err(io::Error::from(ErrorKind::Interrupted)),
            First::Works => Ok(buf.len()),
        }
    }

    fn flush(&mut self) -> io::Result<()> {
        Ok(())
    }
}

// Std tells nothing of how often a call failed: that no call is tried again, no clause can say.
#[test]
fn a_read_that_fails_once_is_told(rt: HostRuntime) {
    let mut source = StdSource::new(Late(First::Fails));
    let mut buffer = [0; 8];
    assert!(rt; source.read(&mut buffer).is_err());
    assert!(rt; source.read(&mut buffer).is_ok());
}

#[test]
fn a_write_that_fails_once_is_told(rt: HostRuntime) {
    for first in [First::Fails, First::TakesNothing] {
        let mut sink = StdSink::new(Late(first));
        assert!(rt;
            sink.write(TEXT)
                .is_err_and(|fault| fault == SinkFault::Failed)
        );
        assert!(rt; sink.write(TEXT).is_ok_and(|n| n == TEXT.len()));
    }
}

// Nor that a call is made again that a signal interrupted.
#[test]
fn an_interrupted_call_is_made_again(rt: HostRuntime) {
    let mut source = StdSource::new(Late(First::IsInterrupted));
    assert!(rt; source.read(&mut [0; 8]).is_ok_and(|n| n == 8));
    let mut sink = StdSink::new(Late(First::IsInterrupted));
    assert!(rt; sink.write(TEXT).is_ok_and(|n| n == TEXT.len()));
}

// A link that gives these bytes, and fails at no call.
fn link(alloc: Global, bytes: &[u8]) -> Result<MemLink, NoMemory> {
    let source = MemSource::new(Vec::from_slice(alloc, bytes)?, 4, Vec::new(alloc));
    Ok(MemLink::new(source, MemSink::new(alloc, 4, Vec::new(alloc))))
}

// Accepts a connection at a door that is lent.
fn accepted<D: Door>(mut door: D) -> Result<D::Conn, Failed>
where
    D: Drop,
{
    door.accept()
}

#[test]
fn a_door_opens_its_links_in_order(rt: HostRuntime) -> Result<(), Fail> {
    let alloc = rt.alloc();
    let links = vec![in alloc; link(alloc, TEXT)?, link(alloc, b"fork(2)")?]?;
    let mut door = MemDoor::new(alloc, links, vec![in alloc; 2]?)?;
    assert!(rt; door.listen(7000).is_ok());
    assert!(rt; door.accept().is_err());
    let mut first = accepted(&mut door)?;
    let mut second = door.accept()?;
    assert!(rt; door.accept().is_err());
    assert_eq!(rt; read_all(alloc, &mut first, 8)?.as_slice(), TEXT);
    assert_eq!(rt;
        read_all(alloc, &mut second, 8)?.as_slice(),
        b"fork(2)".as_slice()
    );
    write_all(&mut first, b"done")?;
    assert_eq!(rt; first.taken(), b"done".as_slice());
    assert!(rt; second.taken().is_empty());
    Ok(())
}
