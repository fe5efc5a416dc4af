//! The end of a connection.
use std::io::Read;
use std::net::{Shutdown, TcpStream};

/// How many pieces are read at most before a connection is closed.
const MOST_UNREAD: u32 = 64;

/// Closes a connection: says that nothing more comes, and reads what the peer has sent.
///
/// Bytes that are unread at a close make the system reset the connection, and the peer may then
/// lose what was written last.
pub(crate) fn close(mut stream: TcpStream) {
    if stream.set_nonblocking(true).is_err() || stream.shutdown(Shutdown::Write).is_err() {
        return;
    }
    let mut buffer = [0; 4096];
    for _ in 0..MOST_UNREAD {
        match stream.read(&mut buffer) {
            Ok(n) if n > 0 => {}
            _ => return,
        }
    }
}
