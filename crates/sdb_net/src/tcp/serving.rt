// What an event of a socket brings.
ghost use Rattle.std.specs.Prelude.{◌≡◌, ◌<◌, length, IfSome};
ghost use Rattle.sdb_net.specs.Tcp.{GivesEvent, EndsNext};

use super::listener::LISTENER;
use super::{NextAccept, TcpLinks};
use crate::socket::{Arrived, read_once};
use mio::event::Event;
use sdb_io::LinkEvent;
use std::net::{Net, Shutdown};

// How many bytes of a closed connection are thrown away before it is cut off: more than the longest request.
const MAX_DRAINED: usize = 2 * 1024 * 1024;

impl<R: Net> TcpLinks<R> {
    // Writes what is left where the socket takes more, and reads once where it has something.
    pub(super) fn serve(&mut self, event: Event, buf: &mut [u8]) -> Option<LinkEvent>
        requires { 0 < length buf.old }
        ensures given { GivesEvent (length buf.new) self.old.connections.last self.new.connections.last result }
        ensures faults { self.new.faults ≡ self.old.faults }
    {
        let number = u32::try_from(event.token().0).ok()?;
        if number == LISTENER {
            self.next_accept = NextAccept::AfterThisRound;
            return None;
        }
        if event.is_writable() {
            self.flush(number);
        }
        let is_at_end = event.is_read_closed() || event.is_error();
        if !is_at_end && !event.is_readable() {
            return None;
        }
        self.read(number, is_at_end, buf)
    }

    // Reads a socket once. Where it may have more, its event comes again in the next round.
    fn read(&mut self, number: u32, is_at_end: bool, buf: &mut [u8]) -> Option<LinkEvent>
        requires { 0 < length buf.old }
        ensures given { GivesEvent (length buf.new) self.old.connections.last self.new.connections.last result }
        ensures faults { self.new.faults ≡ self.old.faults }
    {
        let socket = self.connections.socket(number)?;
        match read_once(&socket.stream, buf) {
            Arrived::Bytes(count) => {
                if is_at_end || count == buf.len() {
                    self.ask_again(number);
                }
                self.take(number, count)
            }
            Arrived::Nothing => None,
            Arrived::End => self.end(number),
        }
    }

    // A socket that can't be asked is cut off, so that its end comes next.
    fn ask_again(&self, number: u32) {
        if let Some(bound) = &self.bound
            && let Some(socket) = self.connections.socket(number)
            && !bound.ask(&socket.stream, number)
        {
            let _ = socket.stream.shutdown(Shutdown::Both);
        }
    }

    // Gives the bytes that came on an open connection, and throws away those of a closed one.
    fn take(&mut self, number: u32, count: usize) -> Option<LinkEvent>
        requires { 0 < count }
        ensures given { GivesEvent count self.old.connections.last self.new.connections.last result }
        ensures faults { self.new.faults ≡ self.old.faults }
    {
        if self.connections.is_open(number) {
            self.connections.came(number);
            return Some(LinkEvent::Piece(number, count));
        }
        if self.connections.drain(number, count) > MAX_DRAINED {
            self.connections.forget(number);
        }
        None
    }

    // Gives the end of an open connection. A closed one is done once nothing is left to write on it.
    fn end(&mut self, number: u32) -> Option<LinkEvent>
        ensures ended { IfSome result (EndsNext self.new.ended) }
        ensures given { GivesEvent 0 self.old.connections.last self.new.connections.last result }
        ensures faults { self.new.faults ≡ self.old.faults }
    {
        self.connections.ended(number);
        if !self.connections.is_open(number) {
            self.shut(number);
            return None;
        }
        self.ended = Some(number);
        Some(LinkEvent::Ended(number))
    }
}
