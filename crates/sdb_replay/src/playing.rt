// The events of an input, carried out one after the other.
ghost use Rattle.std.specs.Prelude.{◌≡◌, ◌≤◌, ◌⊎◌, ℕ, List, [], IsTrue};
ghost use Rattle.std.specs.Io.KnownBytes.{Consumes};
ghost use Rattle.sdb_base.specs.Causes.{Rose};
ghost use Rattle.sdb_core.specs.Ledgers.{Opening};
ghost use Rattle.sdb_core.specs.Told.{StandsFor};
ghost use Rattle.sdb_disk.specs.Disk.{Elapses};
ghost use Rattle.sdb_pairs.specs.Accounts.{DomainEntries};
ghost use Rattle.sdb_replay.specs.Complete.{IsWell};
ghost use Rattle.sdb_replay.specs.Endings.{EachStands, Ends, Plays, Reads};
ghost use Rattle.sdb_replay.specs.Running.{status_by};
ghost use Rattle.sdb_script.specs.Events.{Event};
ghost use Rattle.sdb_store.specs.Kept.{Ready};
ghost use Rattle.sdb_store.specs.Opened.{IsBadFile};

use crate::happening::core_event;
use crate::opening::open;
use crate::step::carry_out;
use sdb_core::Core;
use sdb_disk::Disk;
use sdb_io::{Sink, Source};
use sdb_script::{ScriptFault, ScriptReader};
use sdb_status::Status;
use std::alloc::Global;

/// Reads the keys, opens the store and replays the script of the input: the core is stepped with each of its events, and
/// what a step shows is written before the next is read.
///
/// An event that isn't done doesn't end the run, but where there is no memory for what a client did, and where a reopening
/// of the store finds that its files stand for nothing.
pub fn replay<S: Source, T: Source, K: Sink, D: Disk>(
    alloc: Global,
    keys: &mut S,
    input: &mut T,
    output: &mut K,
    disk: &mut D,
) -> Status
    ensures ends { Ends result (S.left keys.old) (S.left keys.new) (D.state disk.old) (D.state disk.new)
        (T.left input.old) (T.left input.new) (K.written output.old) (K.written output.new) }
    // Bad keys are told before anything else is touched.
    ensures bad_keys { (line : ℕ) → result ≡ Status.BadKeys line → (input.new ≡ input.old) × (output.new ≡ output.old) × (disk.new ≡ disk.old) }
    ensures read { result ≡ Status.ReadFault → Rose (S.faults keys.old) (S.faults keys.new) ⊎ Rose (T.faults input.old) (T.faults input.new) }
    ensures write { result ≡ Status.WriteFault → Rose (K.faults output.old) (K.faults output.new) }
    ensures disk { result ≡ Status.DiskFault → Rose (D.state disk.old).faults (D.state disk.new).faults }
    // A file that is told to be bad is the first bad one of those that are left.
    ensures bad { (file : ℕ) → result ≡ Status.NotAStore file → IsBadFile file (D.state disk.new) }
    ensures sure { IsTrue (D.state disk.old).told → (accounts : DomainEntries) (number : ℕ) → EachStands (D.state disk.old) accounts number
        → (file : ℕ) → result ≡ Status.NotAStore file → ⊥ }
    // Keys and a script that are well formed, files that stand for accounts and no fault are enough, but for memory.
    ensures complete { IsWell (S.left keys.old) (T.left input.old) (D.state disk.old)
        → (Rose (S.faults keys.old) (S.faults keys.new) → ⊥) → (Rose (T.faults input.old) (T.faults input.new) → ⊥)
        → (Rose (K.faults output.old) (K.faults output.new) → ⊥) → (Rose (D.state disk.old).faults (D.state disk.new).faults → ⊥)
        → (result ≡ Status.Done) ⊎ (result ≡ Status.OutOfMemory) }
{
    open_and_play(alloc, keys, input, output, disk)
}

// The same; what is enough for it to be done follows.
fn open_and_play<S: Source, T: Source, K: Sink, D: Disk>(
    alloc: Global,
    keys: &mut S,
    input: &mut T,
    output: &mut K,
    disk: &mut D,
) -> Status
    ensures ends { Ends result (S.left keys.old) (S.left keys.new) (D.state disk.old) (D.state disk.new)
        (T.left input.old) (T.left input.new) (K.written output.old) (K.written output.new) }
    // Bad keys are told before anything else is touched.
    ensures bad_keys { (line : ℕ) → result ≡ Status.BadKeys line → (input.new ≡ input.old) × (output.new ≡ output.old) × (disk.new ≡ disk.old) }
    ensures read { result ≡ Status.ReadFault → Rose (S.faults keys.old) (S.faults keys.new) ⊎ Rose (T.faults input.old) (T.faults input.new) }
    ensures write { result ≡ Status.WriteFault → Rose (K.faults output.old) (K.faults output.new) }
    ensures disk { result ≡ Status.DiskFault → Rose (D.state disk.old).faults (D.state disk.new).faults }
    // A file that is told to be bad is the first bad one of those that are left.
    ensures bad { (file : ℕ) → result ≡ Status.NotAStore file → IsBadFile file (D.state disk.new) }
    ensures sure { IsTrue (D.state disk.old).told → (accounts : DomainEntries) (number : ℕ) → EachStands (D.state disk.old) accounts number
        → (file : ℕ) → result ≡ Status.NotAStore file → ⊥ }
{
    match open(alloc, keys, disk) {
        Ok(mut core) => play(alloc, &mut core, input, output, disk),
        Err(status) => status,
    }
}

// Carries out the events of the input.
fn play<T: Source, K: Sink, D: Disk>(
    alloc: Global,
    core: &mut Core,
    input: &mut T,
    output: &mut K,
    disk: &mut D,
) -> Status
    requires ready { Ready core.old.store (D.state disk.old) }
    requires empty { (core.old.table.last_opened ≡ 0) × (core.old.table.bytes_taken ≡ 0) × (core.old.line.out ≡ []) }
    ensures plays { (given : List ℕ) × (events : List Event) × Consumes (T.left input.old) (T.left input.new) given × Reads result (T.left input.new) given events
        × (IsTrue (D.state disk.old).told → (o : Opening) → StandsFor core.old (D.state disk.old) o []
        → Plays result (D.state disk.old) (D.state disk.new) o events (K.written output.old) (K.written output.new)) }
    ensures bad { (file : ℕ) → result ≡ Status.NotAStore file → IsBadFile file (D.state disk.new) }
    ensures sure { IsTrue (D.state disk.old).told → (o : Opening) → StandsFor core.old (D.state disk.old) o [] → (file : ℕ) → result ≡ Status.NotAStore file → ⊥ }
    ensures read { result ≡ Status.ReadFault → Rose (T.faults input.old) (T.faults input.new) }
    ensures write { result ≡ Status.WriteFault → Rose (K.faults output.old) (K.faults output.new) }
    ensures disk { result ≡ Status.DiskFault → ⊥ }
    ensures keys { (line : ℕ) → result ≡ Status.BadKeys line → ⊥ }
    ensures time { Elapses (D.state disk.old) (D.state disk.new) }
    ensures told { (D.state disk.new).told ≡ (D.state disk.old).told }
{
    let mut reader = ScriptReader::new(alloc);
    'events: loop {
        let event = match reader.next(input) {
            Ok(event) => event,
            Err(fault) => return status_by(fault),
        };
        let Some(happens) = core_event(&event) else {
            return Status::Done;
        };
        if let Err(status) = carry_out(alloc, core, happens, output, disk) {
            return status;
        }
    }
}

// The status that a fault of the script is.
fn status_by(fault: ScriptFault) -> Status
    ensures { result ≡ status_by fault }
{
    match fault {
        ScriptFault::Bad(at) => Status::BadScript(at),
        ScriptFault::Read => Status::ReadFault,
        ScriptFault::TooLong => Status::InputTooLong,
        ScriptFault::OutOfMemory => Status::OutOfMemory,
    }
}
