//! A workload of requests over a store in memory, and what it came to, written as five lines.
#![tactic(auto)]

ghost use Rattle.std.specs.Prelude.{◌≡◌, ◌≤◌, ◌⊎◌, IfOk};
ghost use Rattle.std.specs.Io.KnownBytes.{Keeps};
ghost use Rattle.sdb_base.specs.Causes.{Rose};
ghost use Rattle.sdb_bench.specs.Measures.{Measures, Reports, ReportsFront};

mod counting;
mod given;
mod opening;
mod playing;
mod report;
mod step;
mod tally;

use crate::counting::count_all;
use crate::opening::open;
use crate::playing::play;
use crate::report::{Figures, report};
use sdb_base::{Bytes, Numbers, OutOfMemory};
use sdb_disk::MemoryDisk;
use sdb_io::{Sink, write_whole};
use sdb_status::Status;
use std::alloc::Global;

/// Carries out the workload of a size over a new store in memory, and then writes five lines: how many requests it
/// has, how many answers came, how many items and pairs the accounts hold at the end, and the SHA-256 of the records of
/// the answers.
///
/// Where memory is lacking, also for one request or for the disk's record of its calls, nothing is written.
pub fn bench<K: Sink>(alloc: Global, size: u64, output: &mut K) -> Status
    requires some { 1 ≤ size }
    requires most { size ≤ 100 }
    // The five lines of the whole workload are written, or where the output fails a front of them.
    ensures done { result ≡ Status.Done → Reports size (K.written output.old) (K.written output.new) }
    ensures front { result ≡ Status.WriteFault → ReportsFront size (K.written output.old) (K.written output.new) }
    ensures nothing { result ≡ Status.OutOfMemory → Keeps (K.written output.old) (K.written output.new) }
    ensures write_fault { result ≡ Status.WriteFault → Rose (K.faults output.old) (K.faults output.new) }
    ensures answer { (result ≡ Status.Done) ⊎ (result ≡ Status.WriteFault) ⊎ (result ≡ Status.OutOfMemory) }
{
    let Ok(text) = measure(alloc, size) else {
        return Status::OutOfMemory;
    };
    let Ok(()) = write_whole(output, text.as_slice()) else {
        return Status::WriteFault;
    };
    Status::Done
}

// The five lines of a workload that was carried out.
fn measure(alloc: Global, size: u64) -> Result<Bytes, OutOfMemory>
    requires some { 1 ≤ size }
    requires most { size ≤ 100 }
    ensures { IfOk result (λ text. Measures size text.bytes) }
{
    let mut disk = MemoryDisk::new(alloc, Numbers::new(alloc), None);
    let mut core = open(alloc, &mut disk)?;
    let tally = play(alloc, size, &mut core, &mut disk)?;
    let counts = count_all(core.accounts());
    let figures = Figures {
        requests: 4 + 100 * size,
        answers: tally.answers,
        items: counts.items,
        pairs: counts.pairs,
        sent: tally.digest(),
    };
    report(alloc, &figures)
}
