// The first journal, as an opening finds it.
ghost use Rattle.std.specs.Prelude.{◌≡◌, ◌⊎◌, ◌<◌, ℕ, List, IsTrue, IfOk, IfSome, IfNone, OnOk};
ghost use Rattle.sdb_record.specs.Journals.{Group, IsClosed, HasGroups};
ghost use Rattle.sdb_record.specs.Stands.{journal_of, BreaksFirst};
ghost use Rattle.sdb_journal.specs.Looks.{Looks, OnRefusal, HasOpenCause};
ghost use Rattle.sdb_store.specs.Opened.{OthersClosed, FirstRead};

use crate::closed::require_closed;
use sdb_disk::{Disk, OpenFault};
use sdb_journal::{Journal, read_head};
use sdb_pairs::Changes;
use std::alloc::Global;

// The first journal and the changes of its records; None where its file is closed.
fn read_first<D: Disk>(alloc: Global, disk: &mut D) -> Result<Option<(Journal, Changes)>, OpenFault>
    ensures none { IfOk result (λ found. IfNone found (IsTrue (D.state disk.old).told → IsClosed 26 ((D.state disk.old).seen 2))) }
    ensures some { IfOk result (λ found. IfSome found (λ x. IsTrue (D.state disk.old).told → FirstRead x.0 x.1 ((D.state disk.old).seen 2))) }
    ensures own { IfOk result (λ found. IfSome found (λ x. journal_of x.0.generation ≡ 2)) }
    ensures refused { OnRefusal result (λ k. (k ≡ 2) × (IsTrue (D.state disk.old).told
        → IsClosed 26 ((D.state disk.old).seen 2) ⊎ ((groups : List Group) × HasGroups 0 0 groups ((D.state disk.old).seen 2)) → ⊥)) }
    ensures cause { HasOpenCause (D.state disk.old).faults (D.state disk.new).faults result }
    ensures looks { Looks (D.state disk.old) (D.state disk.new) }
{
    match read_head(2, disk) {
        Ok(Some((generation, first))) => {
            if generation != 0 || first != 0 {
                return Err(OpenFault::NotAStore(2));
            }
            match Journal::start(alloc, 2, disk) {
                Ok(found) => Ok(Some(found)),
                Err(fault) => Err(fault),
            }
        }
        Ok(None) => Ok(None),
        Err(fault) => Err(fault),
    }
}

// Refuses a checkpoint that is open.
fn require_no_checkpoint<D: Disk>(disk: &mut D) -> Result<(), OpenFault>
    ensures first { OnOk result (IsTrue (D.state disk.old).told → IsClosed 33 ((D.state disk.old).seen 0)) }
    ensures second { OnOk result (IsTrue (D.state disk.old).told → IsClosed 33 ((D.state disk.old).seen 1)) }
    ensures refused { OnRefusal result (λ k. (k < 2) × (IsTrue (D.state disk.old).told → BreaksFirst k (D.state disk.old).seen)) }
    ensures cause { HasOpenCause (D.state disk.old).faults (D.state disk.new).faults result }
    ensures looks { Looks (D.state disk.old) (D.state disk.new) }
{
    match require_closed(0, 33, disk) {
        Ok(()) => match require_closed(1, 33, disk) {
            Ok(()) => Ok(()),
            Err(fault) => Err(fault),
        },
        Err(fault) => Err(fault),
    }
}

// The first journal, and no other, where there is no checkpoint.
fn read_journals<D: Disk>(
    alloc: Global,
    disk: &mut D,
) -> Result<Option<(Journal, Changes)>, OpenFault>
    ensures other { IfOk result (λ found. IsTrue (D.state disk.old).told → IsClosed 26 ((D.state disk.old).seen 3)) }
    ensures none { IfOk result (λ found. IfNone found (IsTrue (D.state disk.old).told → IsClosed 26 ((D.state disk.old).seen 2))) }
    ensures some { IfOk result (λ found. IfSome found (λ x. IsTrue (D.state disk.old).told → FirstRead x.0 x.1 ((D.state disk.old).seen 2))) }
    ensures own { IfOk result (λ found. IfSome found (λ x. journal_of x.0.generation ≡ 2)) }
    ensures refused { OnRefusal result (λ k. (k < 4) × (IsTrue (D.state disk.old).told → IsClosed 33 ((D.state disk.old).seen 0)
        → IsClosed 33 ((D.state disk.old).seen 1) → BreaksFirst k (D.state disk.old).seen)) }
    ensures cause { HasOpenCause (D.state disk.old).faults (D.state disk.new).faults result }
    ensures looks { Looks (D.state disk.old) (D.state disk.new) }
{
    match read_first(alloc, disk) {
        Ok(found) => match require_closed(3, 26, disk) {
            Ok(()) => Ok(found),
            Err(fault) => Err(fault),
        },
        Err(fault) => Err(fault),
    }
}

// The first journal and the changes of its records, where the files stand for something; None where it isn't there.
// The files are judged in the order of their numbers, and the first that breaks a rule is refused.
pub(crate) fn read_files<D: Disk>(
    alloc: Global,
    disk: &mut D,
) -> Result<Option<(Journal, Changes)>, OpenFault>
    ensures others { IfOk result (λ found. IsTrue (D.state disk.old).told → OthersClosed (D.state disk.old).seen) }
    ensures none { IfOk result (λ found. IfNone found (IsTrue (D.state disk.old).told → IsClosed 26 ((D.state disk.old).seen 2))) }
    ensures some { IfOk result (λ found. IfSome found (λ x. IsTrue (D.state disk.old).told → FirstRead x.0 x.1 ((D.state disk.old).seen 2))) }
    ensures own { IfOk result (λ found. IfSome found (λ x. journal_of x.0.generation ≡ 2)) }
    ensures refused { OnRefusal result (λ k. (k < 4) × (IsTrue (D.state disk.old).told → BreaksFirst k (D.state disk.old).seen)) }
    ensures cause { HasOpenCause (D.state disk.old).faults (D.state disk.new).faults result }
    ensures looks { Looks (D.state disk.old) (D.state disk.new) }
{
    match require_no_checkpoint(disk) {
        Ok(()) => match read_journals(alloc, disk) {
            Ok(found) => Ok(found),
            Err(fault) => Err(fault),
        },
        Err(fault) => Err(fault),
    }
}
