// The records of what a step shows.
ghost use Rattle.std.specs.Prelude.{◌≡◌, [], ◌++◌, IfOk, OnOk};
ghost use Rattle.sdb_arrivals.specs.Queues.{sent_of};
ghost use Rattle.sdb_arrivals.specs.Story.{answer_of, event_of};
ghost use Rattle.sdb_replay.specs.Running.{emptied};
ghost use Rattle.sdb_replay.specs.Shown.{refusal_text, sent_text, sent_texts};

use crate::happening::refused;
use sdb_arrivals::{CoreFault, Event};
use sdb_base::{Bytes, Out, OutOfMemory};
use sdb_core::Core;
use sdb_script::{write_closed, write_out};
use std::alloc::Global;

// The records of the answers that the core has released, which are taken off, and then of a connection that there
// was no place for.
pub(crate) fn step_text(
    alloc: Global,
    core: &mut Core,
    happens: Event<'_>,
    answer: Result<(), CoreFault>,
) -> Result<Bytes, OutOfMemory>
    ensures text { IfOk result (λ text. text.bytes ≡ sent_texts core.old.line.out ++ refusal_text (event_of happens.entry) (answer_of answer)) }
    ensures quiet { OnOk result (core.new.line.out ≡ []) }
    ensures core { emptied core.new ≡ emptied core.old }
{
    let mut text = Bytes::new(alloc);
    gather(alloc, core, &mut text)?;
    if let Some(conn) = refused(happens, answer) {
        text.append(write_closed(alloc, conn)?.as_slice())?;
    }
    Ok(text)
}

// Takes off the answers that the core has released, and appends their records.
fn gather(alloc: Global, core: &mut Core, text: &mut Bytes) -> Result<(), OutOfMemory>
    ensures text { OnOk result (text.new.bytes ≡ text.old.bytes ++ sent_texts core.old.line.out) }
    ensures quiet { OnOk result (core.new.line.out ≡ []) }
    ensures core { emptied core.new ≡ emptied core.old }
{
    while let Some(out) = core.take_out() {
        append_sent(alloc, &out, text)?;
    }
    Ok(())
}

/// Appends the record of an answer, and that of its connection's closing.
pub fn append_sent(alloc: Global, out: &Out, text: &mut Bytes) -> Result<(), OutOfMemory>
    ensures { OnOk result (text.new.bytes ≡ text.old.bytes ++ sent_text (sent_of out.now)) }
{
    text.append(write_out(alloc, out)?.as_slice())?;
    if out.close {
        text.append(write_closed(alloc, out.conn)?.as_slice())?;
    }
    Ok(())
}
