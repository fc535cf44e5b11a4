// The making of the first journal, in writes of which a crash may leave any part.
ghost use Rattle.std.specs.Prelude.{◌≡◌, ◌≤◌, ◌+◌, IsTrue, OnOk};
ghost use Rattle.sdb_base.specs.Causes.{HasCause};
ghost use Rattle.sdb_disk.specs.Disk.{SettledFile, LeavesOnly, Elapses};
ghost use Rattle.sdb_record.specs.Journals.{IsClosed};
ghost use Rattle.sdb_journal.specs.Creates.{Makes, Shuts, Made};

use sdb_disk::{Disk, DiskFault, write_durably};

const FILE: u8 = 2;

// The least length of an open journal.
const LEAST: u64 = 26;

// The magic, the generation 0, the number 0 before the first record, and a closed gate.
const BEHIND_THE_GATE: [u8; 25] = [
    83, 68, 66, 74, 82, 78, 76, 49, 0, 0, 0, 0, 0, 0, 0, 0, 0, 0, 0, 0, 0, 0, 0, 0, 0,
];

// Writes a closed gate to a file that is too short to be open. A longer one has a first byte that isn't 1, which stays,
// since a write over it may leave a 1.
fn shut<D: Disk>(disk: &mut D) -> Result<(), DiskFault>
    requires closed { IsTrue (D.state disk.old).told → IsClosed 26 ((D.state disk.old).seen 2) }
    requires settled { SettledFile (D.state disk.old) 2 }

    ensures images { IsTrue (D.state disk.old).told → LeavesOnly (D.state disk.old) (D.state disk.new) (Makes (D.state disk.old)) }
    ensures done { OnOk result (Shuts (D.state disk.old) (D.state disk.new)) }
    ensures time { Elapses (D.state disk.old) (D.state disk.new) }
    ensures told { (D.state disk.new).told ≡ (D.state disk.old).told }
    ensures cause { HasCause (D.state disk.old).faults (D.state disk.new).faults result }
    ensures syncs { (D.state disk.new).syncs ≤ (D.state disk.old).syncs + 1 }
{
    if disk.len(FILE)? < LEAST {
        write_durably(FILE, 0, &[0], disk)?;
    }
    Ok(())
}

// Makes a journal of generation 0 without records.
pub(crate) fn make_first<D: Disk>(disk: &mut D) -> Result<(), DiskFault>
    requires closed { IsTrue (D.state disk.old).told → IsClosed 26 ((D.state disk.old).seen 2) }
    requires settled { SettledFile (D.state disk.old) 2 }

    ensures images { IsTrue (D.state disk.old).told → LeavesOnly (D.state disk.old) (D.state disk.new) (Makes (D.state disk.old)) }
    ensures done { OnOk result (Made (D.state disk.old) (D.state disk.new)) }
    ensures time { Elapses (D.state disk.old) (D.state disk.new) }
    ensures told { (D.state disk.new).told ≡ (D.state disk.old).told }
    ensures cause { HasCause (D.state disk.old).faults (D.state disk.new).faults result }
    ensures syncs { (D.state disk.new).syncs ≤ (D.state disk.old).syncs + 3 }
{
    shut(disk)?;
    write_durably(FILE, 1, &BEHIND_THE_GATE, disk)?;
    write_durably(FILE, 0, &[1], disk)?;
    Ok(())
}
