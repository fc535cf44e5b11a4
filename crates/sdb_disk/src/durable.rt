// Writes that are on the disk when the call returns.
ghost use Rattle.std.specs.Prelude.{◌≡◌, ◌≢◌, ℕ, ◌<◌, ◌≤◌, ◌+◌, ◌^◌, length, IsTrue, OnOk};
ghost use Rattle.sdb_base.specs.Causes.{HasCause};
ghost use Rattle.sdb_disk.specs.Disk.{SameFile, SettledFile, Patches, PatchedIn, TornIn, LeavesOnly, Elapses};

use crate::{Disk, DiskFault};

/// Writes the bytes and syncs the file, of which nothing was unsynced. After `DiskFault` the file may hold
/// any bytes in the range.
pub fn write_durably<D: Disk>(
    file: u8,
    at: u64,
    bytes: &[u8],
    disk: &mut D,
) -> Result<(), DiskFault>
    requires file { file < 4 }
    requires within { IsTrue (D.state disk.old).told → at ≤ length ((D.state disk.old).seen file) }
    requires settled { SettledFile (D.state disk.old) file }

    ensures done { OnOk result (Patches file at bytes.now (D.state disk.old) (D.state disk.new)) }
    ensures images { LeavesOnly (D.state disk.old) (D.state disk.new) (PatchedIn file at (length bytes.now) (D.state disk.old)) }
    ensures time { Elapses (D.state disk.old) (D.state disk.new) }
    ensures others { (k : ℕ) → k ≢ file → SameFile (D.state disk.old) (D.state disk.new) k }
    ensures told { (D.state disk.new).told ≡ (D.state disk.old).told }
    ensures fits { OnOk result (at + length bytes.now ≤ 2 ^ 62) }
    ensures cause { HasCause (D.state disk.old).faults (D.state disk.new).faults result }
    ensures no_fewer { (D.state disk.old).syncs ≤ (D.state disk.new).syncs }
    ensures one_more { (D.state disk.new).syncs ≤ (D.state disk.old).syncs + 1 }
{
    write_over(file, at, bytes, disk)
}

/// Writes the bytes and syncs the file, whatever of it was unsynced. After `DiskFault` the file may hold any
/// bytes in the range, over any of those that it might have held.
pub fn write_over<D: Disk>(file: u8, at: u64, bytes: &[u8], disk: &mut D) -> Result<(), DiskFault>
    requires file { file < 4 }
    requires within { IsTrue (D.state disk.old).told → at ≤ length ((D.state disk.old).seen file) }
    ensures done { OnOk result (Patches file at bytes.now (D.state disk.old) (D.state disk.new)) }
    ensures images { LeavesOnly (D.state disk.old) (D.state disk.new) (TornIn file at (length bytes.now) (D.state disk.old)) }
    ensures others { (k : ℕ) → k ≢ file → SameFile (D.state disk.old) (D.state disk.new) k }
    ensures time { Elapses (D.state disk.old) (D.state disk.new) }
    ensures told { (D.state disk.new).told ≡ (D.state disk.old).told }
    ensures fits { OnOk result (at + length bytes.now ≤ 2 ^ 62) }
    ensures cause { HasCause (D.state disk.old).faults (D.state disk.new).faults result }
    ensures no_fewer { (D.state disk.old).syncs ≤ (D.state disk.new).syncs }
    ensures one_more { (D.state disk.new).syncs ≤ (D.state disk.old).syncs + 1 }
{
    disk.write(file, at, bytes)?;
    disk.sync(file)?;
    Ok(())
}
