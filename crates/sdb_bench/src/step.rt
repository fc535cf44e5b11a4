// One event of the workload, carried out.
ghost use Rattle.std.specs.Prelude.{◌≡◌, ◌<◌, ◌+◌, ◌^◌, [], IsTrue, OnOk};
ghost use Rattle.sdb_arrivals.specs.Story.{event_of};
ghost use Rattle.sdb_bench.specs.Steps.{Carries, StandsWithRoom};
ghost use Rattle.sdb_core.specs.Causes.{CanCome};
ghost use Rattle.sdb_store.specs.Kept.{Ready};

use crate::tally::Tally;
use sdb_arrivals::{CoreFault, Event};
use sdb_base::{OutOfMemory, Steps};
use sdb_core::Core;
use sdb_disk::Disk;
use std::alloc::Global;

// The counter of the items that are looked at.
struct Items;

// Steps the core, and takes off its answers. A fault of the disk is want of memory: it has no other.
pub(crate) fn carry_out<D: Disk>(
    alloc: Global,
    core: &mut Core,
    happens: Event<'_>,
    disk: &mut D,
    tally: &mut Tally,
) -> Result<(), OutOfMemory>
    requires told { IsTrue (D.state disk.old).told }
    requires ready { Ready core.old.store (D.state disk.old) }
    requires come { CanCome (event_of happens) core.old.table }
    requires quiet { core.old.line.out ≡ [] }
    requires room { tally.old.answers + 64 < 2 ^ 64 }
    requires stands { StandsWithRoom core.old (D.state disk.old) }
    ensures ok { OnOk result (Carries (event_of happens.entry) core.old core.new (D.state disk.old) (D.state disk.new) tally.old tally.new) }
    ensures ready { Ready core.new.store (D.state disk.new) }
    ensures told { IsTrue (D.state disk.new).told }
{
    match core.step(happens, disk, &mut Steps::<Items>::new()) {
        Ok(()) => {
            tally.take_all(alloc, core)?;
            Ok(())
        }
        Err(CoreFault::Disk) => Err(OutOfMemory),
        Err(CoreFault::OutOfMemory) => Err(OutOfMemory),
        Err(CoreFault::Full) => unreachable!(),
        Err(CoreFault::NotAStore(_)) => unreachable!(),
    }
}
