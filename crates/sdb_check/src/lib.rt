//! What the files of a store stand for, written as text.
#![tactic(auto)]

ghost use Rattle.std.specs.Prelude.{◌≡◌, ◌<◌, ◌⊎◌, ℕ, IsTrue};
ghost use Rattle.std.specs.Io.KnownBytes.{Appends, Keeps};
ghost use Rattle.sdb_base.specs.Causes.{Rose};
ghost use Rattle.sdb_disk.specs.Disk.{Elapses, LeavesOnly};
ghost use Rattle.sdb_pairs.specs.Accounts.{DomainEntries};
ghost use Rattle.sdb_record.specs.Stands.{IsFirstBad, StandsFor};
ghost use Rattle.sdb_store.specs.Opened.{IsBadFile, StandsAsBefore};
ghost use Rattle.sdb_check.specs.Checks.{IsAnswer, IsRefusal, AppendsFront, Lists, ListsFront};
ghost use Rattle.sdb_listing.specs.Listing.{listing_of};

use sdb_disk::{Disk, OpenFault};
use sdb_io::{Sink, write_whole};
use sdb_listing::listing;
use sdb_status::Status;
use sdb_store::Store;
use std::alloc::Global;

/// Opens the store in the files and writes what they stand for: the line `sequence N`, and a line of account,
/// domain, number of items and number of pairs for each domain. An opening makes the first journal where there
/// is none.
pub fn check<D: Disk, K: Sink>(alloc: Global, output: &mut K, disk: &mut D) -> Status
    // What the files stood for is written, or where the output fails a front of it.
    ensures done { result ≡ Status.Done → Lists (D.state disk.old) (K.written output.old) (K.written output.new) }
    ensures front { result ≡ Status.WriteFault → ListsFront (D.state disk.old) (K.written output.old) (K.written output.new) }
    ensures nothing { IsRefusal result → Keeps (K.written output.old) (K.written output.new) }

    // Each other answer has its cause.
    ensures write_fault { result ≡ Status.WriteFault → Rose (K.faults output.old) (K.faults output.new) }
    ensures disk_fault { result ≡ Status.DiskFault → Rose (D.state disk.old).faults (D.state disk.new).faults }
    ensures not_a_store { (k : ℕ) → result ≡ Status.NotAStore k → (k < 4) × (IsTrue (D.state disk.old).told → IsFirstBad k (D.state disk.old).seen) }
    ensures bad { (k : ℕ) → result ≡ Status.NotAStore k → IsBadFile k (D.state disk.new) }
    ensures sure { IsTrue (D.state disk.old).told → (accounts : DomainEntries) (number : ℕ) → StandsFor accounts number (D.state disk.old).seen
        → (k : ℕ) → result ≡ Status.NotAStore k → ⊥ }
    ensures answer { IsAnswer result }

    // Whatever a crash leaves stands for what the files stood for.
    ensures images { IsTrue (D.state disk.old).told → LeavesOnly (D.state disk.old) (D.state disk.new) (StandsAsBefore (D.state disk.old)) }
    ensures time { Elapses (D.state disk.old) (D.state disk.new) }
    ensures told { (D.state disk.new).told ≡ (D.state disk.old).told }
{
    match Store::start(alloc, disk) {
        Ok(store) => write_listing(alloc, &store, output),
        Err(OpenFault::Disk) => Status::DiskFault,
        Err(OpenFault::NotAStore(file)) => Status::NotAStore(file),
        Err(OpenFault::OutOfMemory) => Status::OutOfMemory,
    }
}

// Writes what the store holds.
fn write_listing<K: Sink>(alloc: Global, store: &Store, output: &mut K) -> Status
    ensures done { result ≡ Status.Done → Appends (K.written output.old) (K.written output.new) (listing_of store.now.journal.sequence store.now.accounts) }
    ensures front { result ≡ Status.WriteFault → AppendsFront (K.written output.old) (K.written output.new) (listing_of store.now.journal.sequence store.now.accounts) }
    ensures nothing { result ≡ Status.OutOfMemory → Keeps (K.written output.old) (K.written output.new) }
    ensures write_fault { result ≡ Status.WriteFault → Rose (K.faults output.old) (K.faults output.new) }
    ensures answer { (result ≡ Status.Done) ⊎ (result ≡ Status.WriteFault) ⊎ (result ≡ Status.OutOfMemory) }
{
    let Ok(text) = listing(alloc, store.accounts(), store.sequence()) else {
        return Status::OutOfMemory;
    };
    let Ok(()) = write_whole(output, text.as_slice()) else {
        return Status::WriteFault;
    };
    Status::Done
}
