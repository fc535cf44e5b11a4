// The core, opened with the keys of a source over the store of a disk.
ghost use Rattle.std.specs.Prelude.{◌≡◌, ◌≤◌, ℕ, [], IsTrue, IfOk, IfErr, Err};
ghost use Rattle.sdb_base.specs.Causes.{Rose};
ghost use Rattle.sdb_core.specs.Told.{StandsFor};
ghost use Rattle.sdb_disk.specs.Disk.{Elapses};
ghost use Rattle.sdb_keys.specs.declared.keys.Key.{Key};
ghost use Rattle.sdb_pairs.specs.Accounts.{DomainEntries};
ghost use Rattle.sdb_replay.specs.Endings.{EachStands, LeavesAsBefore, NotOpened, opening};
ghost use Rattle.sdb_replay.specs.Keyed.{GivesKeys};
ghost use Rattle.sdb_replay.specs.Running.{NotBegun};
ghost use Rattle.sdb_store.specs.Kept.{Ready};
ghost use Rattle.sdb_store.specs.Opened.{IsBadFile};

use crate::keyed::keys_of;
use sdb_core::Core;
use sdb_disk::{Disk, OpenFault};
use sdb_io::Source;
use sdb_keys::Keys;
use sdb_status::Status;
use std::alloc::Global;

/// Reads the keys, and then opens the store with them.
pub fn open<S: Source, D: Disk>(alloc: Global, keys: &mut S, disk: &mut D) -> Result<Core, Status>
    ensures keys { IfOk result (λ core. GivesKeys (S.left keys.old) (S.left keys.new) core.keys) }
    ensures empty { IfOk result (λ core. (core.table.last_opened ≡ 0) × (core.table.bytes_taken ≡ 0) × (core.line.out ≡ [])) }
    ensures ready { IfOk result (λ core. Ready core.store (D.state disk.new)) }
    ensures stands { IfOk result (λ core. IsTrue (D.state disk.old).told → (accounts : DomainEntries) (number : ℕ) → EachStands (D.state disk.old) accounts number
        → StandsFor core (D.state disk.new) (opening core.keys accounts number (D.state disk.new).moment) []) }
    ensures err { IfErr result (λ status. NotBegun status (S.left keys.old) (S.left keys.new) (D.state disk.old)) }
    ensures bad_keys { (line : ℕ) → result ≡ Err (Status.BadKeys line) → disk.new ≡ disk.old }
    ensures bad { (file : ℕ) → result ≡ Err (Status.NotAStore file) → IsBadFile file (D.state disk.new) }
    ensures images { LeavesAsBefore (D.state disk.old) (D.state disk.new) }
    ensures sure { IsTrue (D.state disk.old).told → (accounts : DomainEntries) (number : ℕ) → EachStands (D.state disk.old) accounts number
        → (file : ℕ) → result ≡ Err (Status.NotAStore file) → ⊥ }
    ensures read { result ≡ Err Status.ReadFault → Rose (S.faults keys.old) (S.faults keys.new) }
    ensures disk { result ≡ Err Status.DiskFault → Rose (D.state disk.old).faults (D.state disk.new).faults }
    ensures later { (D.state disk.old).faults ≤ (D.state disk.new).faults }
    ensures time { Elapses (D.state disk.old) (D.state disk.new) }
    ensures told { (D.state disk.new).told ≡ (D.state disk.old).told }
{
    match keys_of(alloc, keys) {
        Ok(keys) => open_core(alloc, keys, disk),
        Err(status) => Err(status),
    }
}

// Opens the store.
fn open_core<D: Disk>(alloc: Global, keys: Keys, disk: &mut D) -> Result<Core, Status>
    ensures keys { IfOk result (λ core. core.keys ≡ keys) }
    ensures empty { IfOk result (λ core. (core.table.last_opened ≡ 0) × (core.table.bytes_taken ≡ 0) × (core.line.out ≡ [])) }
    ensures ready { IfOk result (λ core. Ready core.store (D.state disk.new)) }
    ensures stands { IfOk result (λ core. IsTrue (D.state disk.old).told → (accounts : DomainEntries) (number : ℕ) → EachStands (D.state disk.old) accounts number
        → StandsFor core (D.state disk.new) (opening core.keys accounts number (D.state disk.new).moment) []) }
    ensures err { IfErr result (λ status. NotOpened status (D.state disk.old)) }
    ensures bad_keys { (line : ℕ) → result ≡ Err (Status.BadKeys line) → ⊥ }
    ensures bad { (file : ℕ) → result ≡ Err (Status.NotAStore file) → IsBadFile file (D.state disk.new) }
    ensures images { LeavesAsBefore (D.state disk.old) (D.state disk.new) }
    ensures sure { IsTrue (D.state disk.old).told → (accounts : DomainEntries) (number : ℕ) → EachStands (D.state disk.old) accounts number
        → (file : ℕ) → result ≡ Err (Status.NotAStore file) → ⊥ }
    ensures disk { result ≡ Err Status.DiskFault → Rose (D.state disk.old).faults (D.state disk.new).faults }
    ensures later { (D.state disk.old).faults ≤ (D.state disk.new).faults }
    ensures time { Elapses (D.state disk.old) (D.state disk.new) }
    ensures told { (D.state disk.new).told ≡ (D.state disk.old).told }
{
    match Core::start(alloc, keys, disk) {
        Ok(core) => Ok(core),
        Err(OpenFault::Disk) => Err(Status::DiskFault),
        Err(OpenFault::NotAStore(file)) => Err(Status::NotAStore(file)),
        Err(OpenFault::OutOfMemory) => Err(Status::OutOfMemory),
    }
}
