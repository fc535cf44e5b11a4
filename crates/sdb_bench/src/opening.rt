// The core, over new files, with the key by which the workload is signed.
ghost use Rattle.std.specs.Prelude.{◌≡◌, [], ◌∷◌, IfOk, IsTrue};
ghost use Rattle.sdb_bench.specs.Measures.{fresh, workload_key};
ghost use Rattle.sdb_bench.specs.Steps.{IsNew};
ghost use Rattle.sdb_core.specs.Told.{StandsFor};
ghost use Rattle.sdb_store.specs.Kept.{Ready};

use sdb_base::OutOfMemory;
use sdb_core::Core;
use sdb_disk::{Disk, OpenFault};
use sdb_keys::{KeyFault, Keys, read_keys};
use std::alloc::Global;

// Opens a store in files that are new. A fault of the disk is want of memory: it has no other.
pub(crate) fn open<D: Disk>(alloc: Global, disk: &mut D) -> Result<Core, OutOfMemory>
    requires { IsNew (D.state disk.old) }
    ensures stands { IfOk result (λ core. StandsFor core (D.state disk.new) (fresh (D.state disk.new).moment) []) }
    ensures empty { IfOk result (λ core. (core.table.last_opened ≡ 0) × (core.table.bytes_taken ≡ 0) × (core.line.out ≡ [])) }
    ensures ready { IfOk result (λ core. Ready core.store (D.state disk.new)) }
    ensures told { IsTrue (D.state disk.new).told }
{
    let keys = workload_keys(alloc)?;
    match Core::start(alloc, keys, disk) {
        Ok(core) => Ok(core),
        Err(OpenFault::Disk) => Err(OutOfMemory),
        Err(OpenFault::OutOfMemory) => Err(OutOfMemory),
        Err(OpenFault::NotAStore(_)) => unreachable!(),
    }
}

// The one key of the workload.
fn workload_keys(alloc: Global) -> Result<Keys, OutOfMemory>
    ensures { IfOk result (λ keys. keys ≡ workload_key ∷ []) }
{
    match read_keys(alloc, b"1 BENCHKEY BENCHSECRET") {
        Ok(keys) => Ok(keys),
        Err(KeyFault::OutOfMemory) => Err(OutOfMemory),
        Err(KeyFault::BadLine(_)) => unreachable!(),
        Err(KeyFault::Doubled(_)) => unreachable!(),
        Err(KeyFault::TooMany(_)) => unreachable!(),
    }
}
