//! TCP connections on this machine.
use std::io::{Read, Write};
use std::net::{Net, Shutdown, TcpListener, TcpStream};
use std::process::Abort;
use std::test::Fail;
use tc_config::read_config;
use tc_io::{Door, read_all, write_all};
use tc_net::TcpDoor;
use tc_runner::open;
use tc_visits::serve;

const TEXT: &[u8] = b"c ? out(p(1))\n";

// Listens at the first free port of some, and tells which.
fn listen<R: Net<Listener = TcpListener, Stream = TcpStream>>(
    rt: &impl Abort,
    door: &mut TcpDoor<'_, R>,
) -> u16 {
    for port in 47_100..47_200 {
        if door.listen(port).is_ok() {
            return port;
        }
    }
    panic!(rt; "no port is free")
}

#[test]
fn a_door_listens_once_at_a_port(rt: HostRuntime) -> Result<(), Fail> {
    let mut door = TcpDoor::new(&rt, rt.alloc())?;
    assert!(rt; door.accept().is_err());
    let port = listen(&rt, &mut door);
    let mut other = TcpDoor::new(&rt, rt.alloc())?;
    assert!(rt; other.listen(port).is_err());
    let _peer = TcpStream::connect(&rt, ("127.0.0.1", port))?;
    assert!(rt; door.accept().is_ok());
    Ok(())
}

#[test]
fn bytes_go_both_ways(rt: HostRuntime) -> Result<(), Fail> {
    let alloc = rt.alloc();
    let mut door = TcpDoor::new(&rt, rt.alloc())?;
    let port = listen(&rt, &mut door);
    let mut peer = TcpStream::connect(&rt, ("127.0.0.1", port))?;
    let mut link = door.accept()?;
    peer.write_all(TEXT)?;
    peer.shutdown(Shutdown::Write)?;
    let text = read_all(alloc, &mut link, 64)?;
    assert_eq!(rt; text.as_slice(), TEXT);
    write_all(&mut link, b"done\n")?;
    drop(link);
    let mut reply = Vec::new(alloc);
    peer.read_to_end(&mut reply)?;
    assert_eq!(rt; reply.as_slice(), b"done\n".as_slice());
    Ok(())
}

// A close with unread bytes makes the system reset the connection: what was written last would be
// lost.
#[test]
fn the_last_bytes_come_though_others_are_unread(rt: HostRuntime) -> Result<(), Fail> {
    let alloc = rt.alloc();
    let mut door = TcpDoor::new(&rt, rt.alloc())?;
    let port = listen(&rt, &mut door);
    let mut peer = TcpStream::connect(&rt, ("127.0.0.1", port))?;
    let mut link = door.accept()?;
    peer.write_all(&[b'x'; 60_000])?;
    write_all(&mut link, b"bye\n")?;
    drop(link);
    let mut reply = Vec::new(alloc);
    peer.read_to_end(&mut reply)?;
    assert_eq!(rt; reply.as_slice(), b"bye\n".as_slice());
    Ok(())
}

const CONFIGURATION: &[u8] = b"centre(c). role(r). grant(r,c,out). grant(r,c,in). agent(a,r).";

#[test]
fn an_agent_is_served_over_tcp(rt: HostRuntime) -> Result<(), Fail> {
    let alloc = rt.alloc();
    let mut door = TcpDoor::new(&rt, rt.alloc())?;
    let port = listen(&rt, &mut door);
    let mut peer = TcpStream::connect(&rt, ("127.0.0.1", port))?;
    peer.write_all(b"c ? in(p(X))\npoll\r\nc ? out(p(1))\n")?;
    peer.shutdown(Shutdown::Write)?;
    let Ok(config) = read_config(alloc, CONFIGURATION) else {
        panic!(rt; "the configuration is refused");
    };
    let opened = open(alloc, config)?;
    let service = serve(&rt, alloc, opened, &mut door)?;
    assert!(rt; service.all && service.enough);
    let mut replies = Vec::new(alloc);
    peer.read_to_end(&mut replies)?;
    assert_eq!(rt;
        replies.as_slice(),
        b"pending\npending\nerror waiting\n".as_slice()
    );
    Ok(())
}

const TWO_AGENTS: &[u8] =
    b"centre(c). role(r). grant(r,c,out). grant(r,c,in). agent(a,r). agent(b,r).";

// The first agent waits for what the second one puts, who is accepted after it.
#[test]
fn an_agent_waits_for_one_that_comes_later(rt: HostRuntime) -> Result<(), Fail> {
    let alloc = rt.alloc();
    let mut door = TcpDoor::new(&rt, alloc)?;
    let port = listen(&rt, &mut door);
    let mut first = TcpStream::connect(&rt, ("127.0.0.1", port))?;
    first.write_all(b"c ? in(x)\nwait\nquit\n")?;
    let mut second = TcpStream::connect(&rt, ("127.0.0.1", port))?;
    second.write_all(b"c ? out(x)\nquit\n")?;
    let Ok(config) = read_config(alloc, TWO_AGENTS) else {
        panic!(rt; "the configuration is refused");
    };
    let opened = open(alloc, config)?;
    let service = serve(&rt, alloc, opened, &mut door)?;
    assert!(rt; service.all && service.enough);
    let mut replies = Vec::new(alloc);
    first.read_to_end(&mut replies)?;
    assert_eq!(rt; replies.as_slice(), b"pending\ntuple x\nbye\n".as_slice());
    Ok(())
}
