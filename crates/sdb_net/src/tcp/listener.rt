// A port that is listened to, and the wait for its sockets.
ghost use Rattle.std.specs.Prelude.{◌≡◌, ◌+◌, is_some, slice_get, if◌then◌else◌};
ghost use Rattle.mio.specs.Events.{items};

use crate::socket::interest;
use mio::event::Event;
use mio::net::{TcpListener, TcpStream};
use mio::unix::SourceFd;
use mio::{Events, Interest, Poll, Token};
use std::alloc::Global;
use std::io;
use std::net::{Ipv4Addr, Net, SocketAddr};
use std::os::fd::AsRawFd;

// How many events one wait may give: one for each socket, and more.
const MAX_EVENTS: usize = 256;

/// The number of the listener among the sockets. Connections have numbers from 1.
pub(super) const LISTENER: u32 = 0;

/// A port with its listener, and the events of a round.
#[derive(Drop)]
pub(super) struct Bound {
    poll: Poll,
    events: Events,
    // How many of the events have been given.
    given: usize,
    listener: TcpListener,
    port: u16,
}

impl Bound {
    /// Binds a port of 127.0.0.1, and makes what is needed to wait for connections.
    pub(super) fn new<R: Net>(rt: &R, alloc: Global, port: u16) -> Option<Bound> {
        let address = SocketAddr::from((Ipv4Addr::LOCALHOST, port));
        let poll = Poll::new(rt).ok()?;
        let events = Events::with_capacity(alloc, MAX_EVENTS).ok()?;
        let mut listener = TcpListener::bind(rt, address).ok()?;
        let port = listener.local_addr().ok()?.port();
        poll.registry()
            .register(&mut listener, Token(LISTENER as usize), Interest::READABLE)
            .ok()?;
        Some(Bound {
            poll,
            events,
            given: 0,
            listener,
            port,
        })
    }

    /// The port that is bound.
    pub(super) fn port(&self) -> u16 {
        self.port
    }

    /// Waits until a socket has something, and begins a round. It tells whether it could.
    pub(super) fn wait(&mut self) -> bool
        ensures { self.new.given ≡ 0 }
    {
        self.given = 0;
        self.poll.poll(&mut self.events, None).is_ok()
    }

    /// The next event of this round.
    pub(super) fn next_event(&mut self) -> Option<Event>
        ensures event { result ≡ slice_get (items self.old.events) self.old.given }
        ensures given { self.new.given ≡ self.old.given + (if is_some result then 1 else 0) }
        ensures events { self.new.events ≡ self.old.events }
    {
        let event = self.events.iter().as_slice().get(self.given).copied()?;
        self.given += 1;
        Some(event)
    }

    /// The next connection that waits to be accepted.
    pub(super) fn accept(&self) -> io::Result<TcpStream> {
        let (stream, _) = self.listener.accept()?;
        Ok(stream)
    }

    /// Has the listener's event come again where a connection waits. It tells whether it will.
    pub(super) fn ask_listener(&mut self) -> bool {
        self.poll
            .registry()
            .reregister(
                &mut self.listener,
                Token(LISTENER as usize),
                Interest::READABLE,
            )
            .is_ok()
    }

    /// Has the socket's events come under its number. It tells whether they will.
    pub(super) fn watch(&self, socket: &mut TcpStream, number: u32) -> bool {
        self.poll
            .registry()
            .register(socket, Token(number as usize), interest())
            .is_ok()
    }

    /// Has the socket's event come again where it still has something. It tells whether it will.
    pub(super) fn ask(&self, socket: &TcpStream, number: u32) -> bool {
        let descriptor = socket.as_raw_fd();
        self.poll
            .registry()
            .reregister(
                &mut SourceFd(&descriptor),
                Token(number as usize),
                interest(),
            )
            .is_ok()
    }
}
