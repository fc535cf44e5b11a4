// One read and one write of a socket that doesn't wait.
ghost use Rattle.std.specs.Prelude.{◌≤◌, ◌<◌, length, IfSome};
ghost use Rattle.sdb_net.specs.Tcp.{HasArrived};

use crate::failed::MAX_TRIES;
use mio::Interest;
use mio::net::TcpStream;
use std::io::{ErrorKind, Read, Write};

/// What a socket is watched for.
pub(crate) fn interest() -> Interest {
    Interest::READABLE | Interest::WRITABLE
}

/// What a read of a socket gave.
pub(crate) enum Arrived {
    Bytes(usize),
    Nothing,
    End,
}

/// One read, which is tried again where it was interrupted. One that fails is the end.
pub(crate) fn read_once(socket: &TcpStream, buf: &mut [u8]) -> Arrived
    requires { 0 < length buf.old }
    ensures { HasArrived (length buf.new) result }
{
    let mut socket = socket;
    'tries: for _ in 0..MAX_TRIES {
        match socket.read(buf) {
            Ok(0) => return Arrived::End,
            Ok(count) => return Arrived::Bytes(count),
            Err(e) if e.kind() == ErrorKind::Interrupted => {}
            Err(e) if e.kind() == ErrorKind::WouldBlock => return Arrived::Nothing,
            Err(_) => return Arrived::End,
        }
    }
    Arrived::End
}

/// One write, which is tried again where it was interrupted: how many bytes the socket took, or nothing where it failed.
pub(crate) fn write_once(socket: &TcpStream, bytes: &[u8]) -> Option<usize>
    ensures { IfSome result (λ n. n ≤ length bytes.now) }
{
    let mut socket = socket;
    'tries: for _ in 0..MAX_TRIES {
        match socket.write(bytes) {
            Ok(count) => return Some(count),
            Err(e) if e.kind() == ErrorKind::Interrupted => {}
            Err(e) if e.kind() == ErrorKind::WouldBlock => return Some(0),
            Err(_) => return None,
        }
    }
    None
}
