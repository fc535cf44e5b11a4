// What happens to connections.
ghost use Rattle.std.specs.Prelude.{◌≡◌, ◌≢◌, ◌≤◌, ◌<◌, ◌+◌, ◌-◌, ◌^◌, ℕ, Some, None, min, length, is_some, IsErr, IsTrue, IfOk, IfSome, OnOk, OnErr, MatchOption};
ghost use Rattle.std.specs.BTreeMap.{btree_map_len};
ghost use Rattle.sdb_net.specs.Connections.{socket_at, idle_at, fresh, keeping, written, over, draining, SocketChanges, IdleChanges};

use super::{Connections, MAX_OPEN, MAX_SOCKETS, Socket};
use crate::pending::{MAX_PENDING, Pending};
use sdb_base::OutOfMemory;

/// Bytes that can't wait: too many do already, or there is no memory for them.
#[derive(Clone, Copy, Debug, PartialEq, Eq)]
pub(crate) struct NotKept;

impl<S: Drop> Connections<S> {
    /// Opens a connection under the next number. It is idle until something comes.
    pub(crate) fn add(&mut self, stream: S) -> Result<u32, OutOfMemory>
        requires opened { btree_map_len self.old.opened < MAX_OPEN }
        requires sockets { btree_map_len self.old.sockets < MAX_SOCKETS }
        requires numbers { self.old.last + 1 < 2 ^ 32 }

        ensures number { IfOk result (λ number. number ≡ self.old.last + 1) }
        ensures socket { OnOk result (socket_at self.new (self.old.last + 1) ≡ Some (fresh stream)) }
        ensures idle { OnOk result (idle_at self.new (self.old.last + 1) ≡ Some (Some self.old.moment)) }
        ensures other_sockets { (k : ℕ) → k ≢ self.old.last + 1 → socket_at self.new k ≡ socket_at self.old k }
        ensures others_idle { (k : ℕ) → k ≢ self.old.last + 1 → idle_at self.new k ≡ idle_at self.old k }
        ensures last { OnOk result (self.new.last ≡ self.old.last + 1) }
        ensures err { OnErr result (self.new.last ≡ self.old.last) }
    {
        let number = self.last + 1;
        let socket = Socket {
            stream,
            pending: Pending::new(self.alloc),
            is_over: false,
            drained: 0,
        };
        self.sockets.insert(number, socket)?;
        if self.opened.insert(number, Some(self.moment)).is_err() {
            let _socket = self.sockets.remove(&number);
            return Err(OutOfMemory);
        }
        self.last = number;
        self.moment = self.moment.saturating_add(1);
        Ok(number)
    }

    /// Notes that something came: the connection isn't idle.
    pub(crate) fn came(&mut self, number: u32)
        ensures { IdleChanges number None self.old self.new }
    {
        if let Some(since) = self.opened.get_mut(&number) {
            *since = None;
        }
    }

    /// Notes an answer: the connection is idle from now on.
    pub(crate) fn answered(&mut self, number: u32)
        ensures changes { IdleChanges number (Some self.old.moment) self.old self.new }
        ensures moment { self.new.moment ≡ min (self.old.moment + 1) (2 ^ 64 - 1) }
    {
        if let Some(since) = self.opened.get_mut(&number) {
            *since = Some(self.moment);
        }
        self.moment = self.moment.saturating_add(1);
    }

    /// Keeps bytes that the socket didn't take, up to 16 MiB together.
    pub(crate) fn keep(&mut self, number: u32, bytes: &[u8]) -> Result<(), NotKept>
        ensures ok { OnOk result (SocketChanges number (keeping bytes.now) self.old self.new) }
        ensures err { OnErr result (SocketChanges number (λ socket. socket) self.old self.new) }
        ensures too_many { MatchOption (socket_at self.old number) (IsErr result) (λ socket. MAX_PENDING < length socket.pending + length bytes.now → IsErr result) }
    {
        let Some(socket) = self.sockets.get_mut(&number) else {
            return Err(NotKept);
        };
        if !socket.pending.has_room(bytes.len()) {
            return Err(NotKept);
        }
        match socket.pending.append(bytes) {
            Ok(()) => Ok(()),
            Err(_) => Err(NotKept),
        }
    }

    /// Takes bytes that the socket took off those that are left.
    pub(crate) fn wrote(&mut self, number: u32, count: usize)
        ensures { SocketChanges number (written count) self.old self.new }
    {
        if let Some(socket) = self.sockets.get_mut(&number) {
            socket.pending.advance(count);
        }
    }

    /// Notes that the connection was read to its end.
    pub(crate) fn ended(&mut self, number: u32)
        ensures { SocketChanges number over self.old self.new }
    {
        if let Some(socket) = self.sockets.get_mut(&number) {
            socket.is_over = true;
        }
    }

    /// Counts bytes that were thrown away, and tells how many these are by now.
    pub(crate) fn drain(&mut self, number: u32, count: usize) -> usize
        ensures changes { SocketChanges number (draining count) self.old self.new }
        ensures drained { MatchOption (socket_at self.new number) (result ≡ 0) (λ socket. result ≡ socket.drained) }
    {
        let Some(socket) = self.sockets.get_mut(&number) else {
            return 0;
        };
        socket.drained = socket.drained.saturating_add(count);
        socket.drained
    }

    /// Closes a connection. It keeps its socket, and what is left to write. It takes no memory.
    pub(crate) fn close(&mut self, number: u32)
        ensures here { idle_at self.new number ≡ None }
        ensures others { (k : ℕ) → k ≢ number → idle_at self.new k ≡ idle_at self.old k }
        ensures sockets { self.new.sockets ≡ self.old.sockets }
        ensures last { self.new.last ≡ self.old.last }
    {
        let _since = self.opened.remove(&number);
    }

    /// Forgets a connection, and drops its socket.
    pub(crate) fn forget(&mut self, number: u32)
        ensures socket { socket_at self.new number ≡ None }
        ensures idle { idle_at self.new number ≡ None }
        ensures other_sockets { (k : ℕ) → k ≢ number → socket_at self.new k ≡ socket_at self.old k }
        ensures others_idle { (k : ℕ) → k ≢ number → idle_at self.new k ≡ idle_at self.old k }
        ensures last { self.new.last ≡ self.old.last }
    {
        self.close(number);
        let _socket = self.sockets.remove(&number);
    }
}
