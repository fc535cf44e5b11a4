// How connections are accepted, and how room is made for them.
ghost use Rattle.std.specs.Prelude.{◌≡◌, ◌<◌, ◌+◌, ◌^◌, IfSome, IfOk, OnOk, OnErr};
ghost use Rattle.std.specs.BTreeMap.{btree_map_len};
ghost use Rattle.sdb_base.specs.Causes.{HasCause};
ghost use Rattle.sdb_net.specs.Tcp.{GivesEvent, EndsIdlest, EndsNext};

use super::{NextAccept, TcpLinks};
use crate::connections::{MAX_OPEN, MAX_SOCKETS};
use crate::failed::raise;
use mio::net::TcpStream;
use sdb_io::{Failed, LinkEvent};
use std::io::ErrorKind;
use std::net::Net;

impl<R: Net> TcpLinks<R> {
    // Accepts one connection, where there is room for it. Else the connection that has been idle longest is ended.
    pub(super) fn accept(&mut self) -> Result<Option<LinkEvent>, Failed>
        ensures given { IfOk result (GivesEvent 0 self.old.connections.last self.new.connections.last) }
        ensures same_last { OnErr result (self.new.connections.last ≡ self.old.connections.last) }
        ensures cause { HasCause self.old.faults self.new.faults result }
        ensures faults { OnOk result (self.new.faults ≡ self.old.faults) }
    {
        if !self.connections.has_room() {
            self.next_accept = NextAccept::OnceThereIsRoom;
            return Ok(self.make_room());
        }
        if self.connections.last() == u32::MAX {
            return Ok(Some(LinkEvent::Closed));
        }
        let Some(bound) = &mut self.bound else {
            return Ok(None);
        };
        let accepted = bound.accept();
        let will_ask = bound.ask_listener();
        self.next_accept = NextAccept::AtItsEvent;
        match accepted {
            Ok(stream) if will_ask => self.take_in(stream),
            Err(e) if will_ask && is_no_connection(e.kind()) => Ok(None),
            _ => Err(raise(&mut self.faults)),
        }
    }

    // Gives an accepted connection its number.
    fn take_in(&mut self, stream: TcpStream) -> Result<Option<LinkEvent>, Failed>
        requires opened { btree_map_len self.old.connections.opened < MAX_OPEN }
        requires sockets { btree_map_len self.old.connections.sockets < MAX_SOCKETS }
        requires numbers { self.old.connections.last + 1 < 2 ^ 32 }
        ensures given { IfOk result (GivesEvent 0 self.old.connections.last self.new.connections.last) }
        ensures same_last { OnErr result (self.new.connections.last ≡ self.old.connections.last) }
        ensures cause { HasCause self.old.faults self.new.faults result }
        ensures faults { OnOk result (self.new.faults ≡ self.old.faults) }
    {
        let Some(bound) = &self.bound else {
            return Ok(None);
        };
        let mut stream = stream;
        // Without it answers only come later.
        let _ = stream.set_nodelay(true);
        if !bound.watch(&mut stream, self.connections.last() + 1) {
            return Err(raise(&mut self.faults));
        }
        match self.connections.add(stream) {
            Ok(number) => Ok(Some(LinkEvent::Opened(number))),
            Err(_) => Err(raise(&mut self.faults)),
        }
    }

    // Cuts off a closed connection whose last bytes don't go, where these take the room; else it gives the end of the
    // open one that has been idle longest.
    fn make_room(&mut self) -> Option<LinkEvent>
        ensures idlest { IfSome result (EndsIdlest self.old.connections) }
        ensures ended { IfSome result (EndsNext self.new.ended) }
        ensures given { GivesEvent 0 self.old.connections.last self.new.connections.last result }
        ensures faults { self.new.faults ≡ self.old.faults }
    {
        if !self.connections.is_full() {
            if let Some(number) = self.connections.a_closed_one() {
                self.connections.forget(number);
            }
            return None;
        }
        let number = self.connections.longest_idle()?;
        self.ended = Some(number);
        Some(LinkEvent::Ended(number))
    }

    // Where one was kept waiting and there is room now, or can be made, the listener is asked again.
    pub(super) fn look_for_room(&mut self) -> Result<(), Failed>
        ensures last { self.new.connections.last ≡ self.old.connections.last }
        ensures cause { HasCause self.old.faults self.new.faults result }
        ensures faults { OnOk result (self.new.faults ≡ self.old.faults) }
    {
        if self.next_accept != NextAccept::OnceThereIsRoom || !self.can_make_room() {
            return Ok(());
        }
        self.next_accept = NextAccept::AtItsEvent;
        if let Some(bound) = &mut self.bound
            && !bound.ask_listener()
        {
            return Err(raise(&mut self.faults));
        }
        Ok(())
    }

    // There is room for one more, or a connection can be ended to make room.
    fn can_make_room(&self) -> bool {
        !self.connections.is_full() || self.connections.longest_idle().is_some()
    }
}

// No connection waits, or the client gave up before it was accepted.
fn is_no_connection(kind: ErrorKind) -> bool {
    matches!(
        kind,
        ErrorKind::WouldBlock | ErrorKind::ConnectionAborted | ErrorKind::Interrupted
    )
}
