// An opening: the files are synced and read, and the first journal is made where there is none.
ghost use Rattle.std.specs.Prelude.{◌≡◌, ◌<◌, ℕ, IsTrue, IfOk};
ghost use Rattle.sdb_disk.specs.Disk.{Files, Image, SettledFile, LeavesOnly, Elapses};
ghost use Rattle.sdb_pairs.specs.Accounts.{DomainEntries};
ghost use Rattle.sdb_record.specs.Stands.{StandsFor, HasSmallItems, IsFirstBad};
ghost use Rattle.sdb_journal.specs.Looks.{OnRefusal, HasOpenCause};
ghost use Rattle.sdb_store.specs.Kept.{Fits};
ghost use Rattle.sdb_store.specs.Opened.{StandsAsBefore};

use crate::first::read_files;
use crate::small::accounts_of;
use crate::sync::sync_all;
use sdb_disk::{Disk, OpenFault};
use sdb_domain::Accounts;
use sdb_journal::Journal;
use std::alloc::Global;

// The journal and the accounts of the files, after a sync of all four. The first journal is made where there is none.
// NotAStore comes exactly where the files stand for nothing, with the first bad file; then nothing was written.
pub(crate) fn open_files<D: Disk>(
    alloc: Global,
    disk: &mut D,
) -> Result<(Journal, Accounts), OpenFault>
    ensures value { IfOk result (λ x. IsTrue (D.state disk.old).told → StandsFor x.1 x.0.sequence (D.state disk.old).seen) }
    ensures fits { IfOk result (λ x. Fits x.0 (D.state disk.new)) }
    ensures keeps { IfOk result (λ x. IsTrue (D.state disk.old).told → (c : Files) → Image (D.state disk.new) c → StandsFor x.1 x.0.sequence c) }
    ensures small { IfOk result (λ x. HasSmallItems x.1) }
    ensures images { IsTrue (D.state disk.old).told → LeavesOnly (D.state disk.old) (D.state disk.new) (StandsAsBefore (D.state disk.old)) }
    ensures refused { OnRefusal result (λ k. (k < 4) × (IsTrue (D.state disk.old).told → IsFirstBad k (D.state disk.old).seen)) }
    ensures unwritten { OnRefusal result (λ k. (D.state disk.new).seen ≡ (D.state disk.old).seen) }
    ensures sure { IsTrue (D.state disk.old).told → (accounts : DomainEntries) (number : ℕ) → StandsFor accounts number (D.state disk.old).seen → OnRefusal result (λ k. ⊥) }
    ensures time { Elapses (D.state disk.old) (D.state disk.new) }
    ensures told { (D.state disk.new).told ≡ (D.state disk.old).told }
    ensures cause { HasOpenCause (D.state disk.old).faults (D.state disk.new).faults result }
{
    match sync_all(disk) {
        Ok(()) => match open_settled(alloc, disk) {
            Ok(opened) => Ok(opened),
            Err(fault) => Err(fault),
        },
        Err(_) => Err(OpenFault::Disk),
    }
}

// The same where nothing is unsynced.
fn open_settled<D: Disk>(alloc: Global, disk: &mut D) -> Result<(Journal, Accounts), OpenFault>
    requires { (k : ℕ) → k < 4 → SettledFile (D.state disk.old) k }

    ensures value { IfOk result (λ x. IsTrue (D.state disk.old).told → StandsFor x.1 x.0.sequence (D.state disk.old).seen) }
    ensures fits { IfOk result (λ x. Fits x.0 (D.state disk.new)) }
    ensures keeps { IfOk result (λ x. IsTrue (D.state disk.old).told → (c : Files) → Image (D.state disk.new) c → StandsFor x.1 x.0.sequence c) }
    ensures small { IfOk result (λ x. HasSmallItems x.1) }
    ensures images { IsTrue (D.state disk.old).told → LeavesOnly (D.state disk.old) (D.state disk.new) (StandsAsBefore (D.state disk.old)) }
    ensures refused { OnRefusal result (λ k. (k < 4) × (IsTrue (D.state disk.old).told → IsFirstBad k (D.state disk.old).seen)) }
    ensures unwritten { OnRefusal result (λ k. (D.state disk.new).seen ≡ (D.state disk.old).seen) }
    ensures time { Elapses (D.state disk.old) (D.state disk.new) }
    ensures told { (D.state disk.new).told ≡ (D.state disk.old).told }
    ensures cause { HasOpenCause (D.state disk.old).faults (D.state disk.new).faults result }
{
    match read_files(alloc, disk) {
        Ok(Some((journal, changes))) => match accounts_of(alloc, &changes) {
            Ok(Some(accounts)) => Ok((journal, accounts)),
            Ok(None) => Err(OpenFault::NotAStore(2)),
            Err(_) => Err(OpenFault::OutOfMemory),
        },
        Ok(None) => match Journal::create(disk) {
            Ok(journal) => Ok((journal, Accounts::new(alloc))),
            Err(_) => Err(OpenFault::Disk),
        },
        Err(fault) => Err(fault),
    }
}
