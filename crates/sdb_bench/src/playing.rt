// The workload, carried out event by event.
ghost use Rattle.std.specs.Prelude.{◌≡◌, ◌≤◌, [], IsTrue, IfOk};
ghost use Rattle.sdb_bench.specs.Steps.{Played};
ghost use Rattle.sdb_core.specs.Ledgers.{Opening};
ghost use Rattle.sdb_core.specs.Told.{StandsFor};
ghost use Rattle.sdb_store.specs.Kept.{Ready};

use crate::given::Given;
use crate::step::carry_out;
use crate::tally::Tally;
use sdb_base::OutOfMemory;
use sdb_core::Core;
use sdb_disk::Disk;
use sdb_replay::core_event;
use sdb_script::{ScriptFault, ScriptReader, generate};
use std::alloc::Global;

// Makes the script of the workload, and steps the core with its events.
pub(crate) fn play<D: Disk>(
    alloc: Global,
    size: u64,
    core: &mut Core,
    disk: &mut D,
) -> Result<Tally, OutOfMemory>
    requires some { 1 ≤ size }
    requires most { size ≤ 100 }
    requires told { IsTrue (D.state disk.old).told }
    requires ready { Ready core.old.store (D.state disk.old) }
    requires empty { (core.old.table.last_opened ≡ 0) × (core.old.table.bytes_taken ≡ 0) × (core.old.line.out ≡ []) }
    requires stands { (o : Opening) × StandsFor core.old (D.state disk.old) o [] }
    ensures { IfOk result (λ tally. (o : Opening) → StandsFor core.old (D.state disk.old) o [] → Played size o core.new tally) }
{
    let mut input = Given::new(generate(alloc, size)?);
    let mut reader = ScriptReader::new(alloc);
    let mut tally = Tally::new();
    'events: loop {
        let event = match reader.next(&mut input) {
            Ok(event) => event,
            Err(ScriptFault::OutOfMemory) => return Err(OutOfMemory),
            Err(ScriptFault::Bad(_)) => unreachable!(),
            Err(ScriptFault::Read) => unreachable!(),
            Err(ScriptFault::TooLong) => unreachable!(),
        };
        let Some(happens) = core_event(&event) else {
            return Ok(tally);
        };
        carry_out(alloc, core, happens, disk, &mut tally)?;
    }
}
