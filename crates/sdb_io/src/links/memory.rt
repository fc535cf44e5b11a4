// Connections in memory, which fail where they are told to.
ghost use Rattle.std.specs.Prelude.{◌≡◌, ◌<◌, ◌≤◌, ◌≢◌, ◌++◌, ◌↔◌, ℕ, true, [], None, length, is_ok, IsTrue, IsErr, OnOk, OnErr, IfOk, Contains, if◌then◌else◌};
ghost use Rattle.sdb_base.specs.Causes.{HasCause};
ghost use Rattle.sdb_io.specs.Links.{IsWithin, IsLater, last_after, Stays, Binds, Comes, Sends, SendsFront, Closes, unopened, closed};
ghost use Rattle.sdb_io.specs.Memory.{counted};
ghost use Rattle.sdb_io.specs.MemoryLinks.{sent_in, state_of};
ghost use Rattle.sdb_io.specs.Playback.{is_story};

use super::playback::Playback;
use crate::failed::raise;
use crate::{Failed, LinkEvent, LinkScript, Links};
use sdb_base::{Bytes, Numbers, OutOfMemory};
use std::alloc::Global;
use std::collections::BTreeMap;
use std::marker::Model;

/// Connections on which the steps of a script come. It keeps what is sent on each, and fails at the calls whose
/// numbers it was told.
#[derive(Debug, Drop)]
pub struct MemoryLinks {
    alloc: Global,
    port: Option<u16>,
    playback: Playback,
    sent: BTreeMap<u32, Bytes>,
    fails: Numbers,
    calls: u64,
    faults: u64,
}

impl Model for MemoryLinks {
    ghost use Rattle.sdb_io.specs.MemoryLinks.{LinksState};

    ghost Value = { LinksState };

    ghost view = { λ l. record { port = l.port; played = l.playback; sent = l.sent.entries; faults = l.faults; fails = l.fails; calls = l.calls } };
}

impl MemoryLinks {
    /// Connections on which these steps come; after the last one nothing comes any more. The numbers of the
    /// connections that open rise strictly from 1, and no Piece is empty. The calls but those of `close` are
    /// numbered from 0, and those whose numbers are in `fails` fail.
    pub fn new(alloc: Global, events: LinkScript, fails: Numbers) -> MemoryLinks
        requires { is_story 0 events ≡ true }
        ensures told { (state_of result).told ≡ true }
        ensures port { (state_of result).port ≡ None }
        ensures to_come { (state_of result).to_come ≡ events }
        ensures sent { (k : ℕ) → (state_of result).sent k ≡ [] }
        ensures stage { (k : ℕ) → (state_of result).stage k ≡ unopened }
        ensures last { (state_of result).last ≡ 0 }
        ensures faults { (state_of result).faults ≡ 0 }
        ensures fails { result.fails ≡ fails }
        ensures calls { result.calls ≡ 0 }
    {
        MemoryLinks {
            alloc,
            port: None,
            playback: Playback::new(alloc, events),
            sent: BTreeMap::new(alloc),
            fails,
            calls: 0,
            faults: 0,
        }
    }

    /// The port that is bound.
    pub fn port(&self) -> Option<u16>
        ensures { result ≡ (state_of self.now).port }
    {
        self.port
    }

    /// The bytes that were sent on a connection.
    pub fn sent(&self, conn: u32) -> &[u8]
        ensures { result.now ≡ (state_of self.now).sent conn }
    {
        match self.sent.get(&conn) {
            Some(bytes) => bytes.as_slice(),
            None => &[],
        }
    }

    /// Whether the connection was opened, and closed then.
    pub fn is_closed(&self, conn: u32) -> bool
        ensures { IsTrue result ↔ ((state_of self.now).stage conn ≡ closed) }
    {
        self.playback.is_closed(conn)
    }

    // Counts a call, and fails where it was told so.
    fn begin(&mut self) -> Result<(), Failed>
        ensures same { self.new ≡ record self.old { calls = self.new.calls; faults = self.new.faults } }
        ensures fails { IsErr result ↔ Contains self.old.fails self.old.calls }
        ensures calls { self.new.calls ≡ counted self.old.calls }
        ensures later { self.old.faults ≤ self.new.faults }
        ensures faults { self.new.faults ≡ (if is_ok result then self.old.faults else counted self.old.faults) }
    {
        let number = self.calls;
        self.calls = number.saturating_add(1);
        if self.fails.as_slice().contains(&number) {
            return Err(raise(&mut self.faults));
        }
        Ok(())
    }
}

impl Links for MemoryLinks {
    ghost state = { state_of };

    fn bind(&mut self, port: u16) -> Result<(), Failed>
        ensures told { (state_of self.new).told ≡ (state_of self.old).told }
        ensures last { (state_of self.new).last ≡ (state_of self.old).last }
        ensures cause { HasCause (state_of self.old).faults (state_of self.new).faults result }
        ensures ok { OnOk result (IsTrue (state_of self.old).told → Binds port (state_of self.old) (state_of self.new)) }
        ensures err { OnErr result (IsTrue (state_of self.old).told → Stays (state_of self.old) (state_of self.new)) }

        ensures fails { IsErr result ↔ Contains self.old.fails self.old.calls }
        ensures same_fails { self.new.fails ≡ self.old.fails }
        ensures calls { self.new.calls ≡ counted self.old.calls }
        ensures faults { (state_of self.new).faults ≡ (if is_ok result then (state_of self.old).faults else counted (state_of self.old).faults) }
    {
        self.begin()?;
        self.port = Some(port);
        Ok(())
    }

    fn next(&mut self, buf: &mut [u8]) -> Result<LinkEvent, Failed>
        requires { 0 < length buf.old }
        ensures told { (state_of self.new).told ≡ (state_of self.old).told }
        ensures within { IfOk result (IsWithin (length buf.new)) }
        ensures later { IfOk result (IsLater (state_of self.old).last) }
        ensures last { IfOk result (λ event. (state_of self.new).last ≡ last_after event (state_of self.old).last) }
        ensures same_last { OnErr result ((state_of self.new).last ≡ (state_of self.old).last) }
        ensures cause { HasCause (state_of self.old).faults (state_of self.new).faults result }
        ensures ok { IfOk result (λ event. IsTrue (state_of self.old).told → Comes event buf.new (state_of self.old) (state_of self.new)) }
        ensures err { OnErr result (IsTrue (state_of self.old).told → Stays (state_of self.old) (state_of self.new)) }

        ensures fails { IsErr result ↔ Contains self.old.fails self.old.calls }
        ensures same_fails { self.new.fails ≡ self.old.fails }
        ensures calls { self.new.calls ≡ counted self.old.calls }
        ensures faults { (state_of self.new).faults ≡ (if is_ok result then (state_of self.old).faults else counted (state_of self.old).faults) }
    {
        self.begin()?;
        Ok(self.playback.give(buf))
    }

    /// Sends all. It fails too where there is no memory for the bytes, and nothing was sent then.
    fn send(&mut self, conn: u32, bytes: &[u8]) -> Result<(), Failed>
        ensures told { (state_of self.new).told ≡ (state_of self.old).told }
        ensures last { (state_of self.new).last ≡ (state_of self.old).last }
        ensures cause { HasCause (state_of self.old).faults (state_of self.new).faults result }
        ensures ok { OnOk result (IsTrue (state_of self.old).told → Sends conn bytes.now (state_of self.old) (state_of self.new)) }
        ensures err { OnErr result (IsTrue (state_of self.old).told → SendsFront conn bytes.now (state_of self.old) (state_of self.new)) }

        ensures none { OnErr result (Stays (state_of self.old) (state_of self.new)) }
        ensures fails { Contains self.old.fails self.old.calls → IsErr result }
        ensures same_fails { self.new.fails ≡ self.old.fails }
        ensures calls { self.new.calls ≡ counted self.old.calls }
        ensures faults { (state_of self.new).faults ≡ (if is_ok result then (state_of self.old).faults else counted (state_of self.old).faults) }
    {
        self.begin()?;
        if append_sent(self.alloc, &mut self.sent, conn, bytes).is_err() {
            return Err(raise(&mut self.faults));
        }
        Ok(())
    }

    fn close(&mut self, conn: u32)
        ensures told { (state_of self.new).told ≡ (state_of self.old).told }
        ensures last { (state_of self.new).last ≡ (state_of self.old).last }
        ensures faults { (state_of self.new).faults ≡ (state_of self.old).faults }
        ensures closes { IsTrue (state_of self.old).told → Closes conn (state_of self.old) (state_of self.new) }

        ensures same_fails { self.new.fails ≡ self.old.fails }
        ensures same_calls { self.new.calls ≡ self.old.calls }
    {
        self.playback.close(conn);
    }
}

// Puts the bytes behind those that were sent on the connection.
fn append_sent(
    alloc: Global,
    sent: &mut BTreeMap<u32, Bytes>,
    conn: u32,
    bytes: &[u8],
) -> Result<(), OutOfMemory>
    ensures ok { OnOk result (sent_in sent.new.entries conn ≡ sent_in sent.old.entries conn ++ bytes.now) }
    ensures others { (k : ℕ) → k ≢ conn → sent_in sent.new.entries k ≡ sent_in sent.old.entries k }
    ensures err { OnErr result ((k : ℕ) → sent_in sent.new.entries k ≡ sent_in sent.old.entries k) }
{
    if let Some(earlier) = sent.get_mut(&conn) {
        earlier.append(bytes)?;
        return Ok(());
    }
    sent.insert(conn, Bytes::from_slice(alloc, bytes)?)?;
    Ok(())
}
