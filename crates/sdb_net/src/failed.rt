// How a fault is counted.
ghost use Rattle.std.specs.Prelude.{◌≡◌, ◌≤◌};
ghost use Rattle.sdb_io.specs.Memory.{counted};

use sdb_io::Failed;

// A signal interrupts a call now and then. One that is interrupted so often is taken as failed.
pub(crate) const MAX_TRIES: u32 = 1000;

/// One fault more.
pub(crate) fn raise(faults: &mut u64) -> Failed
    ensures one_more { faults.new ≡ counted faults.old }
    ensures later { faults.old ≤ faults.new }
{
    *faults = faults.saturating_add(1);
    Failed
}
