//! The table of connections.

ghost use Rattle.std.specs.Prelude.{◌≡◌, ◌+◌, ◌<◌, ◌≤◌, ◌^◌, [], length, false, Some, None, if◌then◌else◌, IfOk, MatchOption, OnErr, OnOk, vec_capacity};
ghost use Rattle.std.specs.List.{AllByRecursion};
ghost use Rattle.sdb_arrivals.specs.Inside.{ClosesAt, IsUpAt, Pieced, SetsAccepted, held_sum};
ghost use Rattle.sdb_arrivals.specs.Story.{Done, Ended, Opened, answer_of};
ghost use Rattle.sdb_arrivals.specs.Tables.{RiseAbove, Turns, conns_of, no_connections, open_in, swept};

use crate::entry::{Entry, Origin};
use crate::event::CoreFault;
use crate::line::Line;
use sdb_base::OutOfMemory;
use sdb_keys::Keys;
use std::alloc::Global;
use std::marker::Model;

// At most so many connections are live.
const MOST_LIVE: usize = 64;

/// The connections of a server: which are open and which are live, the bytes that each holds, and the number
/// of its last arrival.
#[derive(Debug, Drop)]
pub struct Table {
    entries: Vec<Entry>,
    last_opened: u32,
    bytes_taken: u64,
    arrived: u64,
}

impl Model for Table {
    ghost use Rattle.std.specs.Prelude.{vec_capacity};
    ghost use Rattle.sdb_arrivals.specs.Tables.{Connections};
    ghost use Rattle.sdb_arrivals.specs.Inside.{IsTable, table_of};

    ghost Value = { Connections };

    ghost view = { λ it. table_of it.entries.items it.last_opened it.bytes_taken it.arrived };

    ghost invariant = { λ it. IsTable (table_of it.entries.items it.last_opened it.bytes_taken it.arrived) (vec_capacity it.entries) };
}

impl Table {
    /// A table of no connections, with the places of all that can be live.
    pub fn new(alloc: Global) -> Result<Table, OutOfMemory>
        ensures { IfOk result (λ table. table ≡ no_connections) }
    {
        Ok(Table {
            entries: Vec::with_capacity(alloc, MOST_LIVE)?,
            last_opened: 0,
            bytes_taken: 0,
            arrived: 0,
        })
    }

    /// Opens a connection, where fewer than 64 are live and so many arrivals are released. It takes no memory.
    ///
    /// # Errors
    ///
    /// `Full` where 64 are live. The number can't be opened again then.
    pub fn open(&mut self, alloc: Global, conn: u32, released: u64) -> Result<(), CoreFault>
        requires { self.old.last_opened < conn }
        ensures { Turns (Opened conn) (answer_of result) released [] self.old self.new }
    {
        sweep(&mut self.entries, released);
        self.last_opened = conn;
        if self.entries.len() >= MOST_LIVE {
            return Err(CoreFault::Full);
        }
        self.entries.push_reserved(Entry::new(alloc, conn));
        Ok(())
    }

    /// Takes a piece in that came on a connection, at a moment: each request and each fault that it makes whole
    /// is read, gets the connection's next number, and goes to the end of the line. After a fault or a request
    /// that closes, the connection isn't open any more. Where it isn't open nothing changes.
    ///
    /// # Errors
    ///
    /// Want of memory, after which table and line are as before.
    pub fn piece(
        &mut self,
        alloc: Global,
        keys: &Keys,
        line: &mut Line,
        conn: u32,
        moment: u64,
        bytes: &[u8],
    ) -> Result<(), OutOfMemory>
        requires { self.old.bytes_taken + length bytes.now < 2 ^ 48 }
        ensures ok { OnOk result (Pieced keys.now conn moment bytes.now line.old line.new self.old self.new) }
        ensures err { OnErr result ((self.new ≡ self.old) × (line.new ≡ line.old)) }
    {
        let Some(at) = up_at(&self.entries, conn) else {
            return Ok(());
        };
        let arrived = accept_at(
            alloc,
            keys,
            line,
            Origin { conn, moment },
            bytes,
            &mut self.entries,
            at,
            self.arrived,
        )?;
        self.arrived = arrived;
        self.bytes_taken += bytes.len() as u64;
        Ok(())
    }

    /// Ends a connection: it isn't open any more, and the bytes of no whole request go. It takes no memory.
    pub fn end(&mut self, alloc: Global, conn: u32)
        ensures { Turns (Ended conn) Done 0 [] self.old self.new }
    {
        if let Some(at) = up_at(&self.entries, conn) {
            close_at(alloc, &mut self.entries, at);
        }
    }

    /// Whether a connection is open.
    pub fn is_open(&self, conn: u32) -> bool
        ensures { result ≡ open_in conn self.now.entries }
    {
        up_at(&self.entries, conn).is_some()
    }

    /// The last number that was to be opened, or 0.
    pub fn last_opened(&self) -> u32
        ensures { result ≡ self.now.last_opened }
    {
        self.last_opened
    }

    /// How many bytes came on open connections.
    pub fn bytes_taken(&self) -> u64
        ensures { result ≡ self.now.bytes_taken }
    {
        self.bytes_taken
    }

    /// How many arrivals there were.
    pub fn arrived(&self) -> u64
        ensures { result ≡ self.now.arrived }
    {
        self.arrived
    }
}

// Takes out the connections that aren't live.
fn sweep(entries: &mut Vec<Entry>, released: u64)
    ensures items { entries.new.items ≡ swept released entries.old.items }
    ensures room { vec_capacity entries.new ≡ vec_capacity entries.old }
{
    entries.retain(|entry| entry.stays(released));
}

// Where an open connection stands: the entries rise by their numbers, so each look halves what is left.
fn up_at(entries: &[Entry], conn: u32) -> Option<usize>
    requires { RiseAbove 0 (conns_of entries.now) }
    ensures { MatchOption result (open_in conn entries.now ≡ false) (IsUpAt conn entries.now) }
{
    let mut low = 0;
    let mut high = entries.len();
    'halves: while low < high {
        let middle = low + (high - low) / 2;
        let entry = &entries[middle];
        let found = entry.conn();
        if found == conn {
            return if_up(entry, middle);
        }
        if found < conn {
            low = middle + 1;
        } else {
            high = middle;
        }
    }
    None
}

// The place, where the entry is open.
fn if_up(entry: &Entry, place: usize) -> Option<usize>
    ensures { result ≡ (if entry.now.up then Some place else None) }
{
    if entry.is_up() { Some(place) } else { None }
}

// Takes a piece in at a place, and gives how many arrivals there are then.
fn accept_at(
    alloc: Global,
    keys: &Keys,
    line: &mut Line,
    origin: Origin,
    bytes: &[u8],
    entries: &mut Vec<Entry>,
    at: usize,
    arrived: u64,
) -> Result<u64, OutOfMemory>
    requires up { IsUpAt origin.conn entries.old.items at }
    requires numbers { AllByRecursion (λ e. e.number ≤ arrived) entries.old.items }
    requires room { arrived + (held_sum entries.old.items + length bytes.now) < 2 ^ 48 }
    ensures ok { IfOk result (λ now. SetsAccepted keys.now origin.conn origin.moment bytes.now arrived now
        entries.old.items entries.new.items line.old line.new) }
    ensures err { OnErr result ((entries.new.items ≡ entries.old.items) × (line.new ≡ line.old)) }
    ensures room { vec_capacity entries.new ≡ vec_capacity entries.old }
{
    let entry = &mut entries[at];
    entry.accept(alloc, keys, line, origin, bytes, arrived)
}

// Closes the connection at a place.
fn close_at(alloc: Global, entries: &mut Vec<Entry>, at: usize)
    requires { at < length entries.old.items }
    ensures items { ClosesAt at entries.old.items entries.new.items }
    ensures room { vec_capacity entries.new ≡ vec_capacity entries.old }
{
    let entry = &mut entries[at];
    entry.close(alloc);
}
