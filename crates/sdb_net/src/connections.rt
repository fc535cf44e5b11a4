// Which connections there are, what is left to write on each, and which of them has been idle longest.
ghost use Rattle.std.specs.Prelude.{◌≡◌, ◌≤◌, ◌<◌, ◌↔◌, ℕ, None, is_some, IsSome, IsTrue};
ghost use Rattle.std.specs.Option.{option_copied};
ghost use Rattle.std.specs.Map.{lookup};
ghost use Rattle.std.specs.BTreeMap.{btree_map_len, is_at};
ghost use Rattle.std.specs.Ordering.{nat_cmp};

use crate::pending::Pending;
use std::alloc::Global;
use std::collections::BTreeMap;

mod changes;
mod idle;

#[cfg(test)]
pub(crate) use changes::NotKept;

/// How many connections may be open.
pub(crate) const MAX_OPEN: usize = 64;

/// How many connections may have a socket: the open ones, and closed ones whose last bytes are still to go.
pub(crate) const MAX_SOCKETS: usize = 128;

/// A socket, and what is known of it.
#[derive(Debug, Drop)]
pub(crate) struct Socket<S> {
    pub(crate) stream: S,
    /// What it is still to take.
    pub(crate) pending: Pending,
    /// It was read to its end.
    pub(crate) is_over: bool,
    /// How many bytes were thrown away since it was closed.
    pub(crate) drained: usize,
}

/// The connections by their numbers, which rise from 1.
#[derive(Debug, Drop)]
pub(crate) struct Connections<S> {
    alloc: Global,
    // Those that have a socket.
    sockets: BTreeMap<u32, Socket<S>>,
    // Those that are open, each with the moment since which it is idle, if nothing came after its last answer.
    opened: BTreeMap<u32, Option<u64>>,
    last: u32,
    // How many openings and answers there were.
    moment: u64,
    ghost few_sockets: { btree_map_len sockets ≤ 128 },
    ghost few_opened: { btree_map_len opened ≤ 64 },
    // Each open connection has its socket, and no number above the last one has any.
    ghost each_has_one: { (k : ℕ) → IsSome (lookup (is_at (nat_cmp k)) opened.entries) → IsSome (lookup (is_at (nat_cmp k)) sockets.entries) },
    ghost numbers: { (k : ℕ) → last < k → lookup (is_at (nat_cmp k)) sockets.entries ≡ None },
}

impl<S> Connections<S> {
    ghost use Rattle.sdb_net.specs.Connections.{socket_at, idle_at};

    /// No connections. It takes no memory.
    pub(crate) fn new(alloc: Global) -> Connections<S>
        ensures sockets { (k : ℕ) → socket_at result k ≡ None }
        ensures idle { (k : ℕ) → idle_at result k ≡ None }
        ensures last { result.last ≡ 0 }
    {
        Connections {
            alloc,
            sockets: BTreeMap::new(alloc),
            opened: BTreeMap::new(alloc),
            last: 0,
            moment: 0,
        }
    }

    /// No connections, where the next has the number after that one.
    #[cfg(test)]
    pub(crate) fn numbered_after(alloc: Global, last: u32) -> Connections<S> {
        Connections {
            alloc,
            sockets: BTreeMap::new(alloc),
            opened: BTreeMap::new(alloc),
            last,
            moment: 0,
        }
    }

    /// The number of the connection that was opened last, or 0.
    pub(crate) fn last(&self) -> u32
        ensures { result ≡ self.now.last }
    {
        self.last
    }

    /// Whether as many are open as may be.
    pub(crate) fn is_full(&self) -> bool
        ensures { IsTrue result ↔ (MAX_OPEN ≤ btree_map_len self.now.opened) }
    {
        self.opened.len() >= MAX_OPEN
    }

    /// Whether one more may be opened.
    pub(crate) fn has_room(&self) -> bool
        ensures { IsTrue result ↔ ((btree_map_len self.now.opened < MAX_OPEN) × (btree_map_len self.now.sockets < MAX_SOCKETS)) }
    {
        self.opened.len() < MAX_OPEN && self.sockets.len() < MAX_SOCKETS
    }

    /// Whether the connection is open.
    pub(crate) fn is_open(&self, number: u32) -> bool
        ensures { result ≡ is_some (idle_at self.now number) }
    {
        self.opened.contains_key(&number)
    }

    /// The socket of a connection that is open, or that was closed and isn't done.
    pub(crate) fn socket(&self, number: u32) -> Option<&Socket<S>>
        ensures { option_copied result ≡ socket_at self.now number }
    {
        self.sockets.get(&number)
    }
}
