// One event of a script, carried out and written.
ghost use Rattle.std.specs.Prelude.{◌≡◌, ◌≤◌, ℕ, List, [], IsTrue, OnOk, IfErr, Err};
ghost use Rattle.sdb_arrivals.specs.Story.{Step, event_of};
ghost use Rattle.sdb_base.specs.Causes.{Rose};
ghost use Rattle.sdb_core.specs.Causes.{CanCome};
ghost use Rattle.sdb_core.specs.Ledgers.{Opening};
ghost use Rattle.sdb_core.specs.Told.{StandsFor};
ghost use Rattle.sdb_disk.specs.Disk.{Elapses};
ghost use Rattle.sdb_replay.specs.Running.{CarriesOn, CarriesTo};
ghost use Rattle.sdb_store.specs.Kept.{Ready};
ghost use Rattle.sdb_store.specs.Opened.{IsBadFile};

use crate::happening::ending;
use crate::shown::step_text;
use sdb_arrivals::Event;
use sdb_base::Steps;
use sdb_core::Core;
use sdb_disk::Disk;
use sdb_io::{Sink, write_whole};
use sdb_status::Status;
use std::alloc::Global;

// The counter of the items that are looked at.
struct Items;

// Steps the core, and writes what the step shows.
pub(crate) fn carry_out<K: Sink, D: Disk>(
    alloc: Global,
    core: &mut Core,
    happens: Event<'_>,
    output: &mut K,
    disk: &mut D,
) -> Result<(), Status>
    requires ready { Ready core.old.store (D.state disk.old) }
    requires come { CanCome (event_of happens) core.old.table }
    requires quiet { core.old.line.out ≡ [] }
    ensures ok { OnOk result (CarriesOn (event_of happens.entry) core.old core.new (D.state disk.old) (D.state disk.new) (K.written output.old) (K.written output.new)) }
    ensures err { IfErr result (λ status. CarriesTo status (event_of happens.entry) core.old core.new (D.state disk.old) (D.state disk.new) (K.written output.old) (K.written output.new)) }
    ensures sure { IsTrue (D.state disk.old).told → (o : Opening) (story : List Step) → StandsFor core.old (D.state disk.old) o story
        → (file : ℕ) → result ≡ Err (Status.NotAStore file) → ⊥ }
    ensures bad { (file : ℕ) → result ≡ Err (Status.NotAStore file) → IsBadFile file (D.state disk.new) }
    ensures ready { Ready core.new.store (D.state disk.new) }
    ensures write { result ≡ Err Status.WriteFault → Rose (K.faults output.old) (K.faults output.new) }
    ensures later { K.faults output.old ≤ K.faults output.new }
    ensures time { Elapses (D.state disk.old) (D.state disk.new) }
    ensures told { (D.state disk.new).told ≡ (D.state disk.old).told }
    ensures faults { (D.state disk.old).faults ≤ (D.state disk.new).faults }
{
    let answer = core.step(happens, disk, &mut Steps::<Items>::new());
    let Ok(text) = step_text(alloc, core, happens, answer) else {
        return Err(Status::OutOfMemory);
    };
    let Ok(()) = write_whole(output, text.as_slice()) else {
        return Err(Status::WriteFault);
    };
    match ending(happens, answer) {
        Some(status) => Err(status),
        None => Ok(()),
    }
}
