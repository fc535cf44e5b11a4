// Connections over real sockets.
ghost use Rattle.std.specs.Prelude.{◌≡◌, ◌<◌, ◌≤◌, ℕ, false, length, IfOk, OnOk, OnErr};
ghost use Rattle.sdb_base.specs.Causes.{HasCause};
ghost use Rattle.sdb_io.specs.Links.{IsWithin, IsLater, last_after};
ghost use Rattle.sdb_net.specs.Tcp.{untold, GivesEvent};

use crate::connections::Connections;
use crate::failed::raise;
use listener::Bound;
use mio::net::TcpStream;
use sdb_io::{Failed, LinkEvent, Links};
use std::alloc::Global;
use std::net::Net;

mod accepting;
mod listener;
mod sending;
mod serving;

/// A port of 127.0.0.1 with its connections. Nothing is opened before `bind`. Up to 64 connections are open at once;
/// further ones wait in the system's queue, and where one waits, the connection that has been idle longest is ended.
///
/// The sockets are waited for together. A wait tells which of them have something; in that round each of these is
/// read once, and then one connection is accepted where one waits. What is left of them comes in the next round, so
/// that one that sends without end can't starve the others.
#[derive(Drop)]
pub struct TcpLinks<R: Net> {
    rt: R,
    alloc: Global,
    bound: Option<Bound>,
    connections: Connections<TcpStream>,
    next_accept: NextAccept,
    // The connection whose end was given last. It is closed at the next call, when its last answers have been sent.
    ended: Option<u32>,
    faults: u64,
}

// When a connection is accepted next.
#[derive(Clone, Copy, Debug, PartialEq, Eq)]
enum NextAccept {
    // When the listener's event comes.
    AtItsEvent,
    // When this round's events are served.
    AfterThisRound,
    // When there is room for one more. One may wait already.
    OnceThereIsRoom,
}

impl<R: Net> TcpLinks<R> {
    /// Connections over the sockets of a runtime. Nothing is opened yet.
    pub fn new(rt: R, alloc: Global) -> TcpLinks<R>
        ensures told { (⟦<TcpLinks<R> as Links>⟧.state result).told ≡ false }
        ensures last { (⟦<TcpLinks<R> as Links>⟧.state result).last ≡ 0 }
        ensures faults { (⟦<TcpLinks<R> as Links>⟧.state result).faults ≡ 0 }
    {
        TcpLinks {
            rt,
            alloc,
            bound: None,
            connections: Connections::new(alloc),
            next_accept: NextAccept::AtItsEvent,
            ended: None,
            faults: 0,
        }
    }

    /// The port that is bound: the one that was asked for, or the one that the system chose where that was 0.
    pub fn port(&self) -> Option<u16> {
        match &self.bound {
            Some(bound) => Some(bound.port()),
            None => None,
        }
    }
}

impl<R: Net> Links for TcpLinks<R> {
    ghost state = { λ l. untold l.connections.last l.faults };

    /// A port that is taken fails, and so does a second `bind`.
    fn bind(&mut self, port: u16) -> Result<(), Failed> {
        if self.bound.is_some() {
            return Err(raise(&mut self.faults));
        }
        match Bound::new(&self.rt, self.alloc, port) {
            Some(bound) => {
                self.bound = Some(bound);
                Ok(())
            }
            None => Err(raise(&mut self.faults)),
        }
    }

    /// Without a port nothing comes, and after the connection with the number 4294967295 nothing more.
    fn next(&mut self, buf: &mut [u8]) -> Result<LinkEvent, Failed> {
        if let Some(number) = self.ended.take() {
            self.shut(number);
        }
        'turns: for _ in 0..u64::MAX {
            if let Some(event) = self.turn(buf)? {
                return Ok(event);
            }
        }
        Ok(LinkEvent::Closed)
    }

    /// What the socket doesn't take at once is written later, up to 16 MiB; more fails.
    fn send(&mut self, conn: u32, bytes: &[u8]) -> Result<(), Failed> {
        match self.write_or_keep(conn, bytes) {
            Some(()) => {
                self.connections.answered(conn);
                Ok(())
            }
            None => Err(raise(&mut self.faults)),
        }
    }

    /// What is left is written first. Then the write side is shut, and what comes is thrown away until the peer ends
    /// too, so that the last answer isn't lost to a reset.
    fn close(&mut self, conn: u32) {
        self.shut(conn);
    }
}

impl<R: Net> TcpLinks<R> {
    // Serves the next event of this round. Where all are served a connection is accepted, if one waits, or the next
    // round begins.
    fn turn(&mut self, buf: &mut [u8]) -> Result<Option<LinkEvent>, Failed>
        requires { 0 < length buf.old }
        ensures given { IfOk result (GivesEvent (length buf.new) self.old.connections.last self.new.connections.last) }
        ensures same_last { OnErr result (self.new.connections.last ≡ self.old.connections.last) }
        ensures cause { HasCause self.old.faults self.new.faults result }
        ensures faults { OnOk result (self.new.faults ≡ self.old.faults) }
    {
        let Some(bound) = &mut self.bound else {
            return Ok(Some(LinkEvent::Closed));
        };
        if let Some(event) = bound.next_event() {
            return Ok(self.serve(event, buf));
        }
        if self.next_accept == NextAccept::AfterThisRound {
            return self.accept();
        }
        self.wait()?;
        Ok(None)
    }

    // Waits until a socket has something, and begins a round.
    fn wait(&mut self) -> Result<(), Failed>
        ensures last { self.new.connections.last ≡ self.old.connections.last }
        ensures cause { HasCause self.old.faults self.new.faults result }
        ensures faults { OnOk result (self.new.faults ≡ self.old.faults) }
    {
        self.look_for_room()?;
        let Some(bound) = &mut self.bound else {
            return Ok(());
        };
        if !bound.wait() {
            return Err(raise(&mut self.faults));
        }
        Ok(())
    }
}

#[cfg(test)]
mod tests;
