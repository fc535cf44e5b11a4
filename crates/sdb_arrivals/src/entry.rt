//! One connection in the table, and a piece of its bytes.

ghost use Rattle.std.specs.Prelude.{◌≡◌, ◌+◌, ◌<◌, ◌≤◌, ◌^◌, ◌==◌, [], List, not, length, false, if◌then◌else◌, IfOk, OnErr, OnOk};
ghost use Rattle.sdb_http.specs.Inside.{reply_of};
ghost use Rattle.sdb_http.specs.Messages.{is_last};
ghost use Rattle.sdb_arrivals.specs.declared.line.Queued.{Queued};
ghost use Rattle.sdb_arrivals.specs.Inside.{HasAccepted, HasArrived, TakesAll};
ghost use Rattle.sdb_arrivals.specs.Queues.{with_waiting};
ghost use Rattle.sdb_arrivals.specs.Tables.{closed, fresh, stays};

use crate::line::{Line, Queued};
use crate::read::reading_of;
use sdb_base::OutOfMemory;
use sdb_http::{Feed, HttpFault, Message};
use sdb_keys::Keys;
use std::alloc::Global;
use std::marker::Model;

// On which connection a piece came, and when.
#[derive(Clone, Copy, Debug)]
pub(crate) struct Origin {
    pub conn: u32,
    pub moment: u64,
}

// How many arrivals there were: of a connection, and in all.
#[derive(Clone, Copy, Debug)]
pub(crate) struct Counts {
    pub number: u64,
    pub arrived: u64,
}

// A connection in the table.
#[derive(Debug, Drop)]
pub(crate) struct Entry {
    conn: u32,
    up: bool,
    feed: Feed,
    number: u64,
    last: u64,
}

impl Model for Entry {
    ghost use Rattle.std.specs.Prelude.{◌≡◌, false};
    ghost use Rattle.sdb_arrivals.specs.Tables.{Connection};

    ghost Value = { Connection };

    ghost view = { λ it. record { conn = it.conn; up = it.up; held = it.feed.held; number = it.number; last = it.last } };

    ghost invariant = { λ it. it.feed.ended ≡ false };
}

impl Entry {
    pub(crate) fn new(alloc: Global, conn: u32) -> Entry
        ensures { result ≡ fresh conn }
    {
        Entry {
            conn,
            up: true,
            feed: Feed::new(alloc),
            number: 0,
            last: 0,
        }
    }

    pub(crate) fn conn(&self) -> u32
        ensures { result ≡ self.now.conn }
    {
        self.conn
    }

    pub(crate) fn is_up(&self) -> bool
        ensures { result ≡ self.now.up }
    {
        self.up
    }

    // Whether it is open, or one of its arrivals isn't released, where so many are.
    pub(crate) fn stays(&self, released: u64) -> bool
        ensures { result ≡ stays released self.now }
    {
        self.up || released < self.last
    }

    // Its end: the bytes of no whole request go.
    pub(crate) fn close(&mut self, alloc: Global)
        ensures { self.new ≡ closed self.old }
    {
        self.up = false;
        self.feed = Feed::new(alloc);
    }
    // Takes a piece in: what it makes whole goes to the end of the line, with the numbers that follow.
    // Without memory nothing changes. It gives how many arrivals there are then.
    pub(crate) fn accept(
        &mut self,
        alloc: Global,
        keys: &Keys,
        line: &mut Line,
        origin: Origin,
        bytes: &[u8],
        arrived: u64,
    ) -> Result<u64, OutOfMemory>
        requires conn { self.old.conn ≡ origin.conn }
        requires number { self.old.number ≤ arrived }
        requires room { arrived + (length self.old.held + length bytes.now) < 2 ^ 48 }
        ensures ok { IfOk result (λ now. HasAccepted keys.now origin.moment bytes.now arrived now
            self.old self.new line.old line.new) }
        ensures err { OnErr result ((self.new ≡ self.old) × (line.new ≡ line.old)) }
    {
        self.feed.push(bytes)?;
        let had = line.waiting_len();
        let mut counts = Counts {
            number: self.number,
            arrived,
        };
        match take_all(alloc, keys, line, origin, &mut self.feed, &mut counts) {
            Ok(()) => {
                self.last = last_after(arrived, counts.arrived, self.last);
                self.number = counts.number;
                self.up = settle(alloc, &mut self.feed);
                Ok(counts.arrived)
            }
            Err(error) => {
                self.feed.back();
                line.forget(had);
                Err(error)
            }
        }
    }
}

// How many arrivals there are with the last of a connection, where so many were before and are now.
fn last_after(before: u64, now: u64, last: u64) -> u64
    ensures { result ≡ (if before == now then last else now) }
{
    if before == now { last } else { now }
}

// Whether a connection goes on. After a fault or a closing request it gets an empty feed.
fn settle(alloc: Global, feed: &mut Feed) -> bool
    ensures up { result ≡ not feed.old.ended }
    ensures ended { feed.new.ended ≡ false }
    ensures held { feed.new.held ≡ (if feed.old.ended then [] else feed.old.held) }
{
    if feed.ended() {
        *feed = Feed::new(alloc);
        return false;
    }
    true
}

// Takes off all that is whole, into the line.
fn take_all(
    alloc: Global,
    keys: &Keys,
    line: &mut Line,
    origin: Origin,
    feed: &mut Feed,
    counts: &mut Counts,
) -> Result<(), OutOfMemory>
    requires live { feed.old.ended ≡ false }
    requires room { counts.old.arrived + length feed.old.held < 2 ^ 48 }
    requires number { counts.old.number ≤ counts.old.arrived }
    ensures ok { OnOk result (TakesAll keys.now origin.conn origin.moment feed.old feed.new counts.old counts.new
        line.old line.new) }

    // However it ends, a feed can go back and the line has only more arrivals.
    ensures before { feed.new.before ≡ feed.old.before }
    ensures grows { (more : List Queued) × (line.new ≡ with_waiting line.old more) }
{
    'takes: loop {
        let taken = feed.take()?;
        match taken {
            None => return Ok(()),
            Some(request) => {
                counts.number += 1;
                counts.arrived += 1;
                arrive(alloc, keys, line, origin, counts.number, request)?;
            }
        }
    }
}

// Reads an arrival and puts it into the line.
fn arrive(
    alloc: Global,
    keys: &Keys,
    line: &mut Line,
    origin: Origin,
    number: u64,
    request: Result<Message, HttpFault>,
) -> Result<(), OutOfMemory>
    ensures ok { OnOk result (HasArrived keys.now origin.conn number origin.moment (reply_of request) line.old line.new) }
    ensures err { OnErr result (line.new ≡ line.old) }
{
    let read = reading_of(alloc, keys, origin.moment, &request)?;
    line.arrive(
        alloc,
        Queued {
            conn: origin.conn,
            number,
            moment: origin.moment,
            close: closes(&request),
            read,
        },
    )
}

// Whether the connection is closed after the answer.
fn closes(request: &Result<Message, HttpFault>) -> bool
    ensures { result ≡ is_last (reply_of request.now) }
{
    match request {
        Ok(message) => message.close,
        Err(_) => true,
    }
}
