//! The command `serve`: the keys, the opening of the store, the port, and then the server.
ghost use Rattle.std.specs.Prelude.{◌≡◌, ◌≤◌, ℕ, [], IsTrue};
ghost use Rattle.sdb_base.specs.Causes.{Rose};
ghost use Rattle.sdb_core.specs.Ledgers.{Opening};
ghost use Rattle.sdb_core.specs.Told.{StandsFor};
ghost use Rattle.sdb_disk.specs.Disk.{Elapses};
ghost use Rattle.sdb_pairs.specs.Accounts.{DomainEntries};
ghost use Rattle.sdb_replay.specs.Endings.{EachStands};
ghost use Rattle.sdb_serve.specs.Acts.{IsOfServer};
ghost use Rattle.sdb_serve.specs.Hosting.{Attends, Listens};
ghost use Rattle.sdb_store.specs.Kept.{Ready};
ghost use Rattle.sdb_store.specs.Opened.{IsBadFile};

use crate::server::drive;
use sdb_core::Core;
use sdb_disk::Disk;
use sdb_io::{Clock, Failed, Links, Source};
use sdb_replay::open;
use sdb_status::Status;
use std::alloc::Global;

/// Reads the keys, opens the store, binds the port and serves the connections that come, until so many events of them
/// were taken or nothing comes any more.
pub fn serve<S: Source, L: Links, D: Disk, C: Clock>(
    alloc: Global,
    keys: &mut S,
    links: &mut L,
    disk: &mut D,
    clock: &mut C,
    port: u16,
    turns: u32,
) -> Status
    ensures attends { Attends result port turns (S.left keys.old) (S.left keys.new) (D.state disk.old) (D.state disk.new)
        (L.state links.old) (L.state links.new) (C.to_come clock.old) (C.to_come clock.new) }
    ensures bad_keys { (line : ℕ) → result ≡ Status.BadKeys line → (disk.new ≡ disk.old) × (links.new ≡ links.old) × (clock.new ≡ clock.old) }
    // A file that is told to be bad is the first bad one of those that are left.
    ensures bad { (file : ℕ) → result ≡ Status.NotAStore file → IsBadFile file (D.state disk.new) }
    ensures sure { IsTrue (D.state disk.old).told → (accounts : DomainEntries) (number : ℕ) → EachStands (D.state disk.old) accounts number
        → (file : ℕ) → result ≡ Status.NotAStore file → ⊥ }
    ensures links { result ≡ Status.LinkFault → Rose (L.state links.old).faults (L.state links.new).faults }
    ensures read { result ≡ Status.ReadFault → Rose (S.faults keys.old) (S.faults keys.new) }
    ensures disk { result ≡ Status.DiskFault → Rose (D.state disk.old).faults (D.state disk.new).faults }
    ensures write { result ≡ Status.WriteFault → ⊥ }
    ensures usage { result ≡ Status.Usage → ⊥ }
{
    match open(alloc, keys, disk) {
        Ok(mut core) => listen(alloc, &mut core, links, disk, clock, port, turns),
        Err(status) => status,
    }
}

// Binds the port, and serves.
fn listen<L: Links, D: Disk, C: Clock>(
    alloc: Global,
    core: &mut Core,
    links: &mut L,
    disk: &mut D,
    clock: &mut C,
    port: u16,
    turns: u32,
) -> Status
    requires ready { Ready core.old.store (D.state disk.old) }
    requires opened { core.old.table.last_opened ≡ 0 }
    requires bytes { core.old.table.bytes_taken ≡ 0 }
    ensures listens { Listens result port turns core.old (D.state disk.old) (D.state disk.new) (L.state links.old) (L.state links.new) (C.to_come clock.old) (C.to_come clock.new) }
    ensures sure { IsTrue (D.state disk.old).told → (o : Opening) → StandsFor core.old (D.state disk.old) o [] → core.old.line.out ≡ []
        → (file : ℕ) → result ≡ Status.NotAStore file → ⊥ }
    ensures links { result ≡ Status.LinkFault → Rose (L.state links.old).faults (L.state links.new).faults }
    ensures bad { (file : ℕ) → result ≡ Status.NotAStore file → IsBadFile file (D.state disk.new) }
    ensures time { Elapses (D.state disk.old) (D.state disk.new) }
    ensures of_server { IsOfServer result }
{
    match links.bind(port) {
        Ok(()) => drive(alloc, core, links, disk, clock, turns),
        Err(Failed) => Status::LinkFault,
    }
}
