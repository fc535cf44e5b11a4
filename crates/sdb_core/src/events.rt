//! What events make of the parts of a core: an opening, a piece, and background work.

ghost use Rattle.std.specs.Prelude.{◌≡◌, ◌<◌, ◌≤◌, ◌+◌, ◌-◌, ◌^◌, ℕ, [], length, OnOk, OnErr};
ghost use Rattle.sdb_arrivals.specs.Queues.{Queues};
ghost use Rattle.sdb_arrivals.specs.Story.{Opened, Work, answer_of};
ghost use Rattle.sdb_arrivals.specs.Tables.{Turns};
ghost use Rattle.sdb_disk.specs.Disk.{Elapses};
ghost use Rattle.sdb_store.specs.Kept.{Ready};
ghost use Rattle.sdb_core.specs.Causes.{WorkCause};
ghost use Rattle.sdb_core.specs.Inside.{Comes, HasRoom, MakesAll, hand_of};

use crate::executing::fill_if_sound;
use sdb_arrivals::{CoreFault, Line, Table};
use sdb_base::{OutOfMemory, Steps};
use sdb_disk::{Disk, WorkFault};
use sdb_keys::Keys;
use sdb_store::Store;
use std::alloc::Global;

// Opens a connection. What isn't in the line any more is released.
pub(crate) fn open(
    alloc: Global,
    table: &mut Table,
    line: &Line,
    conn: u32,
) -> Result<(), CoreFault>
    requires conn { table.old.last_opened < conn }
    requires hand { hand_of line.now ≤ table.old.arrived }
    ensures turns { Turns (Opened conn) (answer_of result) (table.old.arrived - hand_of line.now) [] table.old table.new }
    ensures arrived { table.new.arrived ≡ table.old.arrived }
{
    let arrived = table.arrived();
    let in_hand = line.held_len() + line.waiting_len();
    table.open(alloc, conn, arrived - in_hand as u64)
}

// Takes a piece in, and executes requests where the store is sound. Without memory nothing changes.
pub(crate) fn piece<L>(
    alloc: Global,
    keys: &Keys,
    table: &mut Table,
    line: &mut Line,
    store: &mut Store,
    items: &mut Steps<L>,
    conn: u32,
    moment: u64,
    bytes: &[u8],
) -> Result<(), OutOfMemory>
    requires bytes { table.old.bytes_taken + length bytes.now < 2 ^ 48 }
    requires room { HasRoom line.old store.old }
    ensures ok { OnOk result (Comes keys.now conn moment bytes.now table.old line.old store.old table.new line.new store.new items.old items.new) }
    ensures err { OnErr result ((table.new ≡ table.old) × (line.new ≡ line.old) × (store.new ≡ store.old) × (items.new ≡ items.old)) }
    ensures room { HasRoom line.new store.new }
    ensures later { items.old ≤ items.new }
    ensures hand { hand_of line.old ≤ table.old.arrived → hand_of line.new ≤ table.new.arrived }
{
    table.piece(alloc, keys, line, conn, moment, bytes)?;
    fill_if_sound(alloc, line, store, items);
    Ok(())
}

// A turn of background work, where the store is sound.
pub(crate) fn work<D: Disk>(store: &mut Store, disk: &mut D) -> Result<(), CoreFault>
    requires ready { Ready store.old (D.state disk.old) }
    ensures makes { (line : Queues) (items : ℕ) → MakesAll Work (answer_of result) [] (D.state disk.old).told line store.old (D.state disk.old) line store.new (D.state disk.new) items items }
    ensures cause { WorkCause (answer_of result) store.old store.new (D.state disk.old) (D.state disk.new) }
    ensures ready { Ready store.new (D.state disk.new) }
    ensures room { (line : Queues) → HasRoom line store.old → HasRoom line store.new }
    ensures time { Elapses (D.state disk.old) (D.state disk.new) }
    ensures told { (D.state disk.new).told ≡ (D.state disk.old).told }
{
    if !store.is_sound() {
        return Ok(());
    }
    match store.work(disk) {
        Ok(()) => Ok(()),
        Err(WorkFault::Disk) => Err(CoreFault::Disk),
        Err(WorkFault::OutOfMemory) => Err(CoreFault::OutOfMemory),
    }
}
