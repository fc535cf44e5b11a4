// How bytes are sent, and how connections are closed.
ghost use Rattle.std.specs.Prelude.{◌≡◌, ◌≢◌, ℕ, None};
ghost use Rattle.sdb_net.specs.Connections.{socket_at, idle_at, StaysUnlessEmpty};

use super::TcpLinks;
use crate::connections::Socket;
use crate::socket::write_once;
use mio::net::TcpStream;
use std::net::{Net, Shutdown};

impl<R: Net> TcpLinks<R> {
    // Writes bytes, or keeps those that the socket doesn't take.
    pub(super) fn write_or_keep(&mut self, number: u32, bytes: &[u8]) -> Option<()>
        ensures other_sockets { (k : ℕ) → k ≢ number → socket_at self.new.connections k ≡ socket_at self.old.connections k }
        ensures opened { self.new.connections.opened ≡ self.old.connections.opened }
        ensures last { self.new.connections.last ≡ self.old.connections.last }
        ensures faults { self.new.faults ≡ self.old.faults }
    {
        if !self.connections.is_open(number) {
            return None;
        }
        let socket = self.connections.socket(number)?;
        let written = if socket.pending.is_empty() {
            write_once(&socket.stream, bytes)?
        } else {
            0
        };
        let rest = &bytes[written..];
        if rest.is_empty() {
            return Some(());
        }
        self.connections.keep(number, rest).ok()
    }

    // Closes a connection. Its socket goes only once nothing is left to write.
    pub(super) fn shut(&mut self, number: u32)
        ensures idle { idle_at self.new.connections number ≡ None }
        ensures other_sockets { (k : ℕ) → k ≢ number → socket_at self.new.connections k ≡ socket_at self.old.connections k }
        ensures others_idle { (k : ℕ) → k ≢ number → idle_at self.new.connections k ≡ idle_at self.old.connections k }
        ensures last { self.new.connections.last ≡ self.old.connections.last }
        ensures faults { self.new.faults ≡ self.old.faults }
    {
        self.connections.close(number);
        self.flush(number);
        self.settle(number);
    }

    // Writes what is left on a connection, as far as its socket takes it.
    pub(super) fn flush(&mut self, number: u32)
        ensures other_sockets { (k : ℕ) → k ≢ number → socket_at self.new.connections k ≡ socket_at self.old.connections k }
        ensures idle { (k : ℕ) → idle_at self.new.connections k ≡ idle_at self.old.connections k }
        ensures last { self.new.connections.last ≡ self.old.connections.last }
        ensures faults { self.new.faults ≡ self.old.faults }
    {
        let Some(socket) = self.connections.socket(number) else {
            return;
        };
        let count = write_pending(socket);
        if count > 0 {
            self.connections.wrote(number, count);
            self.settle(number);
        }
    }

    // Shuts the write side of a closed connection on which nothing is left, or forgets it where its peer has ended.
    fn settle(&mut self, number: u32)
        ensures socket { StaysUnlessEmpty number self.old.connections self.new.connections }
        ensures other_sockets { (k : ℕ) → k ≢ number → socket_at self.new.connections k ≡ socket_at self.old.connections k }
        ensures idle { (k : ℕ) → idle_at self.new.connections k ≡ idle_at self.old.connections k }
        ensures last { self.new.connections.last ≡ self.old.connections.last }
        ensures faults { self.new.faults ≡ self.old.faults }
    {
        if self.connections.is_open(number) {
            return;
        }
        let Some(socket) = self.connections.socket(number) else {
            return;
        };
        if !socket.pending.is_empty() {
            return;
        }
        if socket.is_over || socket.stream.shutdown(Shutdown::Write).is_err() {
            self.connections.forget(number);
        }
    }
}

// How many bytes that are left the socket took. Where it fails it takes all, as nothing of them will ever be read.
fn write_pending(socket: &Socket<TcpStream>) -> usize {
    let left = socket.pending.as_slice();
    if left.is_empty() {
        return 0;
    }
    write_once(&socket.stream, left).unwrap_or(left.len())
}
