// All four files synced, before anything is read.
ghost use Rattle.std.specs.Prelude.{◌≡◌, ◌<◌, ◌≤◌, ◌+◌, OnOk};
ghost use Rattle.sdb_base.specs.Causes.{HasCause};
ghost use Rattle.sdb_disk.specs.Disk.{Image, LeavesOnly, Elapses};
ghost use Rattle.sdb_store.specs.Synced.{Synced};

use sdb_disk::{Disk, DiskFault};

// Syncs the four files.
pub(crate) fn sync_all<D: Disk>(disk: &mut D) -> Result<(), DiskFault>
    ensures synced { OnOk result (Synced 4 (D.state disk.old) (D.state disk.new)) }
    ensures images { LeavesOnly (D.state disk.old) (D.state disk.new) (Image (D.state disk.old)) }
    ensures time { Elapses (D.state disk.old) (D.state disk.new) }
    ensures told { (D.state disk.new).told ≡ (D.state disk.old).told }
    ensures cause { HasCause (D.state disk.old).faults (D.state disk.new).faults result }
    ensures syncs { (D.state disk.new).syncs ≤ (D.state disk.old).syncs + 4 }
{
    for file in 0..4 {
        disk.sync(file)?;
    }
    Ok(())
}
