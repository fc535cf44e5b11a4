//! The server: turn after turn.
ghost use Rattle.std.specs.Prelude.{◌≡◌, ◌≤◌, ℕ, [], length, IsTrue};
ghost use Rattle.sdb_base.specs.Causes.{Rose};
ghost use Rattle.sdb_core.specs.Ledgers.{Opening};
ghost use Rattle.sdb_core.specs.Told.{StandsFor};
ghost use Rattle.sdb_disk.specs.Disk.{Elapses};
ghost use Rattle.sdb_serve.specs.Acts.{IsOfServer};
ghost use Rattle.sdb_serve.specs.Serving.{Served};
ghost use Rattle.sdb_store.specs.Kept.{Ready};
ghost use Rattle.sdb_store.specs.Opened.{IsBadFile};

use crate::turn::turn;
use sdb_core::Core;
use sdb_disk::Disk;
use sdb_io::{Clock, Links};
use sdb_status::Status;
use std::alloc::Global;

// At most so many bytes are taken of a connection at a time.
const MOST_PIECE: usize = 65_536;

/// Serves the connections of the links with a core that was just started: at most so many events of them are taken, each
/// with the Commits and the background work that are due after it, and the answers are sent as they are released.
///
/// A connection is closed after an answer that says so, where 64 are live when it opens, and where a send on it fails;
/// then it is ended, and nothing more is sent on it. Each piece comes at the moment that the clock gives for it.
///
/// It is `Done` where nothing comes any more or so many events were taken. `LinkFault` comes only where the links failed
/// to give the next event, `NotAStore` where a reopening of the store finds that its files stand for nothing, and
/// `OutOfMemory` where there is no memory for what a client did.
pub fn drive<L: Links, D: Disk, C: Clock>(
    alloc: Global,
    core: &mut Core,
    links: &mut L,
    disk: &mut D,
    clock: &mut C,
    turns: u32,
) -> Status
    requires ready { Ready core.old.store (D.state disk.old) }
    requires opened { core.old.table.last_opened ≡ 0 }
    requires bytes { core.old.table.bytes_taken ≡ 0 }
    ensures told { (D.state disk.new).told ≡ (D.state disk.old).told }
    ensures time { Elapses (D.state disk.old) (D.state disk.new) }
    ensures fault { result ≡ Status.LinkFault → Rose (L.state links.old).faults (L.state links.new).faults }
    ensures served { IsTrue (D.state disk.old).told → (o : Opening) → StandsFor core.old (D.state disk.old) o [] → core.old.line.out ≡ []
        → Served result turns o (L.state links.old) (record { moments = C.to_come clock.old; faults = (D.state disk.old).faults })
        core.new (D.state disk.new) (L.state links.new) (C.to_come clock.new) }
    ensures later { (L.state links.old).faults ≤ (L.state links.new).faults }
    ensures bad { (file : ℕ) → result ≡ Status.NotAStore file → IsBadFile file (D.state disk.new) }
    ensures of_server { IsOfServer result }
{
    let Ok(mut buffer) = vec![in alloc; 0; MOST_PIECE] else {
        return Status::OutOfMemory;
    };
    take_turns(core, links, disk, clock, &mut buffer, turns)
}

// Takes so many turns, unless the server ends before.
fn take_turns<L: Links, D: Disk, C: Clock>(
    core: &mut Core,
    links: &mut L,
    disk: &mut D,
    clock: &mut C,
    buffer: &mut [u8],
    turns: u32,
) -> Status
    requires ready { Ready core.old.store (D.state disk.old) }
    requires opened { core.old.table.last_opened ≡ 0 }
    requires bytes { core.old.table.bytes_taken ≡ 0 }
    requires room { length buffer.old ≡ 65536 }
    ensures told { (D.state disk.new).told ≡ (D.state disk.old).told }
    ensures time { Elapses (D.state disk.old) (D.state disk.new) }
    ensures fault { result ≡ Status.LinkFault → Rose (L.state links.old).faults (L.state links.new).faults }
    ensures served { IsTrue (D.state disk.old).told → (o : Opening) → StandsFor core.old (D.state disk.old) o [] → core.old.line.out ≡ []
        → Served result turns o (L.state links.old) (record { moments = C.to_come clock.old; faults = (D.state disk.old).faults })
        core.new (D.state disk.new) (L.state links.new) (C.to_come clock.new) }
    ensures later { (L.state links.old).faults ≤ (L.state links.new).faults }
    ensures bad { (file : ℕ) → result ≡ Status.NotAStore file → IsBadFile file (D.state disk.new) }
    ensures of_server { IsOfServer result }
{
    for _made in 0..turns {
        match turn(core, links, disk, clock, buffer) {
            Ok(true) => {}
            Ok(false) => return Status::Done,
            Err(status) => return status,
        }
    }
    Status::Done
}
