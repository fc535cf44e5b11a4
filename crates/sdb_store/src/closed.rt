// Files that have to be closed.
ghost use Rattle.std.specs.Prelude.{◌≡◌, ◌<◌, ◌≤◌, IsTrue, OnOk};
ghost use Rattle.sdb_record.specs.Journals.{IsClosed};
ghost use Rattle.sdb_journal.specs.Looks.{Looks, OnRefusal, OnNoMemory, HasOpenCause};

use sdb_disk::{Disk, OpenFault};

// Refuses a file that is open: one of at least so many bytes that begins with 1.
pub(crate) fn require_closed<D: Disk>(file: u8, least: usize, disk: &mut D) -> Result<(), OpenFault>
    requires file { file < 4 }
    requires some { 1 ≤ least }
    requires most { least ≤ 33 }

    ensures closed { OnOk result (IsTrue (D.state disk.old).told → IsClosed least ((D.state disk.old).seen file)) }
    ensures refused { OnRefusal result (λ k. (k ≡ file) × (IsTrue (D.state disk.old).told → IsClosed least ((D.state disk.old).seen file) → ⊥)) }
    ensures memory { OnNoMemory result ⊥ }
    ensures cause { HasOpenCause (D.state disk.old).faults (D.state disk.new).faults result }
    ensures looks { Looks (D.state disk.old) (D.state disk.new) }
{
    let mut front = [0; 33];
    match disk.read(file, 0, &mut front) {
        Ok(count) => {
            if count < least || front[0] != 1 {
                return Ok(());
            }
            Err(OpenFault::NotAStore(file))
        }
        Err(_) => Err(OpenFault::Disk),
    }
}
