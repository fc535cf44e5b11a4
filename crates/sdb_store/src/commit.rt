// The pending group as one record of the journal.
ghost use Rattle.std.specs.Prelude.{◌≡◌, ◌<◌, ◌≤◌, ◌+◌, ◌^◌, ℕ, Some, IsTrue, OnOk, OnErr, length};
ghost use Rattle.sdb_base.specs.Causes.{HasCause};
ghost use Rattle.sdb_disk.specs.Disk.{Files, State, Image, LeavesOnly, Elapses};
ghost use Rattle.sdb_pairs.specs.Accounts.{DomainEntries};
ghost use Rattle.sdb_pairs.specs.Changes.{state};
ghost use Rattle.sdb_record.specs.Journals.{next};
ghost use Rattle.sdb_record.specs.Stands.{StandsFor, HasSmallItems};
ghost use Rattle.sdb_journal.specs.Rests.{StandsWith};
ghost use Rattle.sdb_store.specs.Frames.{group_in, is_frame};
ghost use Rattle.sdb_store.specs.Kept.{Fits};

use crate::frame::{clear, write_count};
use sdb_disk::{Disk, DiskFault};
use sdb_journal::Journal;

// Appends the group in the frame to the journal, and takes it out of the frame. It takes no memory.
pub(crate) fn commit_frame<D: Disk>(
    journal: &mut Journal,
    frame: &mut Vec<u8>,
    count: u32,
    disk: &mut D,
) -> Result<(), DiskFault>
    requires frame { IsTrue (is_frame count frame.old.items) }
    requires fits { Fits journal.old (D.state disk.old) }

    ensures stands { IsTrue (D.state disk.old).told → (accounts : DomainEntries) (number : ℕ) → ((c : Files) → Image (D.state disk.old) c → StandsFor accounts number c)
        → HasSmallItems (state accounts (group_in count frame.old.items))
        → LeavesOnly (D.state disk.old) (D.state disk.new) (StandsWith accounts number (Some (group_in count frame.old.items))) }
    ensures done { OnOk result (IsTrue (D.state disk.old).told → (accounts : DomainEntries) (number : ℕ) → ((c : Files) → Image (D.state disk.old) c → StandsFor accounts number c)
        → HasSmallItems (state accounts (group_in count frame.old.items))
        → (c : Files) → Image (D.state disk.new) c → StandsFor (state accounts (group_in count frame.old.items)) (next number) c) }
    ensures fits { OnOk result (Fits journal.new (D.state disk.new)) }
    ensures sequence { OnOk result (journal.new.sequence ≡ next journal.old.sequence) }
    ensures kept { OnErr result (journal.new ≡ journal.old) }
    ensures emptied { length frame.new.items ≡ 17 }
    ensures time { Elapses (D.state disk.old) (D.state disk.new) }
    ensures told { (D.state disk.new).told ≡ (D.state disk.old).told }
    ensures cause { HasCause (D.state disk.old).faults (D.state disk.new).faults result }
    ensures syncs { (D.state disk.new).syncs ≤ (D.state disk.old).syncs + 2 }
{
    let done = commit_group(journal, frame.as_mut_slice(), count, disk);
    clear(frame);
    match done {
        Ok(()) => Ok(()),
        Err(fault) => Err(fault),
    }
}

// Appends the group in the frame to the journal.
fn commit_group<D: Disk>(
    journal: &mut Journal,
    frame: &mut [u8],
    count: u32,
    disk: &mut D,
) -> Result<(), DiskFault>
    requires frame { IsTrue (is_frame count frame.old) }
    requires fits { Fits journal.old (D.state disk.old) }

    ensures stands { IsTrue (D.state disk.old).told → (accounts : DomainEntries) (number : ℕ) → ((c : Files) → Image (D.state disk.old) c → StandsFor accounts number c)
        → HasSmallItems (state accounts (group_in count frame.old))
        → LeavesOnly (D.state disk.old) (D.state disk.new) (StandsWith accounts number (Some (group_in count frame.old))) }
    ensures done { OnOk result (IsTrue (D.state disk.old).told → (accounts : DomainEntries) (number : ℕ) → ((c : Files) → Image (D.state disk.old) c → StandsFor accounts number c)
        → HasSmallItems (state accounts (group_in count frame.old))
        → (c : Files) → Image (D.state disk.new) c → StandsFor (state accounts (group_in count frame.old)) (next number) c) }
    ensures fits { OnOk result (Fits journal.new (D.state disk.new)) }
    ensures sequence { OnOk result (journal.new.sequence ≡ next journal.old.sequence) }
    ensures kept { OnErr result (journal.new ≡ journal.old) }
    ensures time { Elapses (D.state disk.old) (D.state disk.new) }
    ensures told { (D.state disk.new).told ≡ (D.state disk.old).told }
    ensures cause { HasCause (D.state disk.old).faults (D.state disk.new).faults result }
    ensures syncs { (D.state disk.new).syncs ≤ (D.state disk.old).syncs + 2 }
{
    write_count(frame, count);
    match journal.append(frame, disk) {
        Ok(()) => Ok(()),
        Err(fault) => Err(fault),
    }
}
