// Connections: what comes on them, and what is sent.
ghost use Rattle.std.specs.Prelude.{◌≡◌, ◌<◌, ℕ, length, IsTrue, OnOk, OnErr, IfOk};
ghost use Rattle.sdb_base.specs.Causes.{HasCause};

use crate::Failed;

mod memory;
mod playback;
mod script;

pub use memory::MemoryLinks;
pub use script::{LinkScript, LinkStep};

/// What a call of [`Links::next`] gives. Connections have numbers that rise from 1.
#[derive(Clone, Copy, Debug, PartialEq, Eq)]
pub enum LinkEvent {
    /// A connection was opened.
    Opened(u32),
    /// So many bytes came on a connection. They stand at the front of the buffer.
    Piece(u32, usize),
    /// A connection ended: no more comes on it.
    Ended(u32),
    /// Nothing comes any more, and no connection is opened.
    Closed,
}

/// A port with its connections.
pub trait Links {
    ghost use Rattle.sdb_io.specs.Links.{State, IsWithin, IsLater, last_after, Stays, Binds, Comes, Sends, SendsFront, Closes};

    /// What is known of them.
    ghost state: { Self → State };

    /// Binds the port. After `Failed` the port is as before.
    fn bind(&mut self, port: u16) -> Result<(), Failed>
        ensures told { (state self.new).told ≡ (state self.old).told }
        ensures last { (state self.new).last ≡ (state self.old).last }
        ensures cause { HasCause (state self.old).faults (state self.new).faults result }
        ensures ok { OnOk result (IsTrue (state self.old).told → Binds port (state self.old) (state self.new)) }
        ensures err { OnErr result (IsTrue (state self.old).told → Stays (state self.old) (state self.new)) };

    /// Waits for the next event and gives it. The bytes of a Piece, one at least, stand at the front of the
    /// buffer. The number of an Opened is greater than any before.
    fn next(&mut self, buf: &mut [u8]) -> Result<LinkEvent, Failed>
        requires { 0 < length buf.old }
        ensures told { (state self.new).told ≡ (state self.old).told }
        ensures within { IfOk result (IsWithin (length buf.new)) }
        ensures later { IfOk result (IsLater (state self.old).last) }
        ensures last { IfOk result (λ event. (state self.new).last ≡ last_after event (state self.old).last) }
        ensures same_last { OnErr result ((state self.new).last ≡ (state self.old).last) }
        ensures cause { HasCause (state self.old).faults (state self.new).faults result }
        ensures ok { IfOk result (λ event. IsTrue (state self.old).told → Comes event buf.new (state self.old) (state self.new)) }
        ensures err { OnErr result (IsTrue (state self.old).told → Stays (state self.old) (state self.new)) };

    /// Sends the bytes on a connection. After `Failed` a front of them was sent.
    fn send(&mut self, conn: u32, bytes: &[u8]) -> Result<(), Failed>
        ensures told { (state self.new).told ≡ (state self.old).told }
        ensures last { (state self.new).last ≡ (state self.old).last }
        ensures cause { HasCause (state self.old).faults (state self.new).faults result }
        ensures ok { OnOk result (IsTrue (state self.old).told → Sends conn bytes.now (state self.old) (state self.new)) }
        ensures err { OnErr result (IsTrue (state self.old).told → SendsFront conn bytes.now (state self.old) (state self.new)) };

    /// Closes a connection, once what was sent on it has gone. Of one that isn't open nothing changes.
    fn close(&mut self, conn: u32)
        ensures told { (state self.new).told ≡ (state self.old).told }
        ensures last { (state self.new).last ≡ (state self.old).last }
        ensures faults { (state self.new).faults ≡ (state self.old).faults }
        ensures closes { IsTrue (state self.old).told → Closes conn (state self.old) (state self.new) };
}
