// The two writes of an append, and what a crash leaves of them.
ghost use Rattle.std.specs.Prelude.{◌≡◌, ◌<◌, ◌≤◌, ◌+◌, ◌^◌, ℕ, List, [], ◌∷◌, ◌++◌, length, IsTrue, OnOk, OnErr};
ghost use Rattle.sdb_base.specs.Causes.{HasCause};
ghost use Rattle.sdb_disk.specs.Disk.{SettledFile, LeavesOnly, Elapses};
ghost use Rattle.sdb_record.specs.Journals.{next};
ghost use Rattle.sdb_journal.specs.Places.{Place, IsAt};
ghost use Rattle.sdb_journal.specs.Appends.{body_of, BeforeOrAfter, Appended};

use crate::frame::fill;
use sdb_disk::{Disk, DiskFault, write_durably};

// Writes a record with that number behind the gate, and then opens the gate.
pub(crate) fn append_at<D: Disk>(
    file: u8,
    gate: u64,
    number: u64,
    frame: &mut [u8],
    disk: &mut D,
) -> Result<(), DiskFault>
    requires file { file < 4 }
    requires least { 13 ≤ length frame.old }
    requires most { length frame.old < 2 ^ 32 + 13 }
    requires gate { gate ≤ 2 ^ 62 }
    requires within { IsTrue (D.state disk.old).told → gate < length ((D.state disk.old).seen file) }
    requires settled { SettledFile (D.state disk.old) file }

    ensures images { IsTrue (D.state disk.old).told → (place : Place) (bodies : List (List ℕ)) → place.gate ≡ gate → number ≡ next place.sequence
        → IsAt place bodies ((D.state disk.old).seen file)
        → LeavesOnly (D.state disk.old) (D.state disk.new) (BeforeOrAfter file place.generation place.first bodies (body_of frame.old) (D.state disk.old)) }
    ensures done { OnOk result (IsTrue (D.state disk.old).told → (place after : Place) (bodies : List (List ℕ)) → place.gate ≡ gate → number ≡ next place.sequence
        → IsAt place bodies ((D.state disk.old).seen file) → after.generation ≡ place.generation → after.first ≡ place.first
        → after.gate ≡ gate + length frame.old → after.sequence ≡ number
        → Appended file after (bodies ++ body_of frame.old ∷ []) (D.state disk.old) (D.state disk.new)) }
    ensures settled { OnOk result (SettledFile (D.state disk.new) file) }
    ensures fits { OnOk result (gate + length frame.old ≤ 2 ^ 62) }
    ensures time { Elapses (D.state disk.old) (D.state disk.new) }
    ensures told { (D.state disk.new).told ≡ (D.state disk.old).told }
    ensures cause { HasCause (D.state disk.old).faults (D.state disk.new).faults result }
    ensures syncs { (D.state disk.new).syncs ≤ (D.state disk.old).syncs + 2 }
{
    fill(frame, number);
    write_durably(file, gate + 1, frame, disk)?;
    write_durably(file, gate, &[1], disk)?;
    Ok(())
}
