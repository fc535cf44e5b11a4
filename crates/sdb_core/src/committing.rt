//! Commits: what is held is made durable and released, or refused after all, and a store that isn't sound is opened
//! again.

ghost use Rattle.std.specs.Prelude.{◌≡◌, ◌<◌, ◌≤◌, ◌+◌, true, false, [], IsTrue, OnOk, OnErr};
ghost use Rattle.sdb_base.specs.Causes.{Rose};
ghost use Rattle.sdb_disk.specs.Disk.{LeavesOnly, Elapses};
ghost use Rattle.sdb_arrivals.specs.Story.{Commit, answer_of};
ghost use Rattle.sdb_journal.specs.Looks.{OnRefusal, HasOpenCause};
ghost use Rattle.sdb_store.specs.Kept.{Ready};
ghost use Rattle.sdb_store.specs.Opened.{IsBadFile};
ghost use Rattle.sdb_core.specs.Causes.{CommitCause, FindsFiles, StandForSome};
ghost use Rattle.sdb_core.specs.Inside.{HasRoom, IsSure, MakesAll, Reopens, StaysLost, hand_of};
ghost use Rattle.sdb_core.specs.Kept.{Holds};
ghost use Rattle.sdb_core.specs.Ledgers.{Ledger, Opening};
ghost use Rattle.sdb_core.specs.Prefix.{Stands};

use crate::executing::fill;
use sdb_arrivals::{CoreFault, Line};
use sdb_base::Steps;
use sdb_disk::{Disk, OpenFault};
use sdb_store::Store;
use sdb_tables::Refusal;
use std::alloc::Global;

// Commits what is held, where the store is sound; else opens the store again.
pub(crate) fn commit<D: Disk, L>(
    alloc: Global,
    line: &mut Line,
    store: &mut Store,
    disk: &mut D,
    items: &mut Steps<L>,
) -> Result<(), CoreFault>
    requires ready { Ready store.old (D.state disk.old) }
    requires room { HasRoom line.old store.old }
    ensures makes { MakesAll Commit (answer_of result) [] (D.state disk.old).told line.old store.old (D.state disk.old) line.new store.new (D.state disk.new) items.old items.new }
    ensures cause { CommitCause (answer_of result) store.old store.new (D.state disk.old) (D.state disk.new) }
    ensures files { FindsFiles (answer_of result) store.old store.new (D.state disk.old) (D.state disk.new) }
    ensures sure { IsSure (D.state disk.old).told (answer_of result) line.old store.old (D.state disk.old) }
    ensures ready { Ready store.new (D.state disk.new) }
    ensures room { HasRoom line.new store.new }
    ensures hand { hand_of line.new ≤ hand_of line.old }
    ensures later { items.old ≤ items.new }
    ensures time { Elapses (D.state disk.old) (D.state disk.new) }
    ensures told { (D.state disk.new).told ≡ (D.state disk.old).told }
{
    if store.is_sound() {
        commit_group(alloc, line, store, disk, items)
    } else {
        commit_none(alloc, line, store, disk, items)
    }
}

// A commit on a sound store. Where it fails, all that are held are refused, and the store is opened again at once.
fn commit_group<D: Disk, L>(
    alloc: Global,
    line: &mut Line,
    store: &mut Store,
    disk: &mut D,
    items: &mut Steps<L>,
) -> Result<(), CoreFault>
    requires sound { store.old.sound ≡ true }
    requires ready { Ready store.old (D.state disk.old) }
    requires room { HasRoom line.old store.old }
    ensures makes { MakesAll Commit (answer_of result) [] (D.state disk.old).told line.old store.old (D.state disk.old) line.new store.new (D.state disk.new) items.old items.new }
    ensures cause { CommitCause (answer_of result) store.old store.new (D.state disk.old) (D.state disk.new) }
    ensures files { FindsFiles (answer_of result) store.old store.new (D.state disk.old) (D.state disk.new) }
    ensures sure { IsSure (D.state disk.old).told (answer_of result) line.old store.old (D.state disk.old) }
    ensures ready { Ready store.new (D.state disk.new) }
    ensures room { HasRoom line.new store.new }
    ensures hand { hand_of line.new ≤ hand_of line.old }
    ensures later { items.old ≤ items.new }
    ensures time { Elapses (D.state disk.old) (D.state disk.new) }
    ensures told { (D.state disk.new).told ≡ (D.state disk.old).told }
{
    match store.commit(disk) {
        Ok(()) => {
            line.release();
            fill(alloc, line, store, items);
            Ok(())
        }
        Err(_) => {
            line.refuse_held(Refusal::ServiceUnavailable);
            match reopen(alloc, line, store, disk, items) {
                Ok(()) => Err(CoreFault::Disk),
                Err(OpenFault::Disk) => Err(CoreFault::Disk),
                Err(OpenFault::NotAStore(file)) => Err(CoreFault::NotAStore(file)),
                Err(OpenFault::OutOfMemory) => Err(CoreFault::OutOfMemory),
            }
        }
    }
}

// A commit on a store that isn't sound: what is held is released, and the store is opened again. Where that fails by
// the disk or for memory, the first that wait are refused for it.
fn commit_none<D: Disk, L>(
    alloc: Global,
    line: &mut Line,
    store: &mut Store,
    disk: &mut D,
    items: &mut Steps<L>,
) -> Result<(), CoreFault>
    requires unsound { store.old.sound ≡ false }
    requires room { HasRoom line.old store.old }
    ensures makes { MakesAll Commit (answer_of result) [] (D.state disk.old).told line.old store.old (D.state disk.old) line.new store.new (D.state disk.new) items.old items.new }
    ensures cause { CommitCause (answer_of result) store.old store.new (D.state disk.old) (D.state disk.new) }
    ensures files { FindsFiles (answer_of result) store.old store.new (D.state disk.old) (D.state disk.new) }
    ensures sure { IsSure (D.state disk.old).told (answer_of result) line.old store.old (D.state disk.old) }
    ensures ready { Ready store.new (D.state disk.new) }
    ensures room { HasRoom line.new store.new }
    ensures hand { hand_of line.new ≤ hand_of line.old }
    ensures later { items.old ≤ items.new }
    ensures time { Elapses (D.state disk.old) (D.state disk.new) }
    ensures told { (D.state disk.new).told ≡ (D.state disk.old).told }
{
    line.release();
    match reopen(alloc, line, store, disk, items) {
        Ok(()) => Ok(()),
        Err(OpenFault::Disk) => {
            line.refuse_waiting(Refusal::ServiceUnavailable);
            Err(CoreFault::Disk)
        }
        Err(OpenFault::NotAStore(file)) => Err(CoreFault::NotAStore(file)),
        Err(OpenFault::OutOfMemory) => {
            line.refuse_waiting(Refusal::OutOfMemory);
            Err(CoreFault::OutOfMemory)
        }
    }
}

// Opens the store again, and executes requests that wait. No answer is held.
fn reopen<D: Disk, L>(
    alloc: Global,
    line: &mut Line,
    store: &mut Store,
    disk: &mut D,
    items: &mut Steps<L>,
) -> Result<(), OpenFault>
    requires unsound { store.old.sound ≡ false }
    requires none { line.old.held ≡ [] }
    requires room { HasRoom line.old store.old }
    ensures ok { OnOk result (Reopens (D.state disk.old).told line.old store.old (D.state disk.old) line.new store.new (D.state disk.new) items.old items.new) }
    ensures err { OnErr result (StaysLost (D.state disk.old).told line.old store.old (D.state disk.old) line.new store.new (D.state disk.new) items.old items.new) }
    ensures during { IsTrue (D.state disk.old).told → (o : Opening) (l : Ledger) → Holds line.old store.old (D.state disk.old) o l
        → LeavesOnly (D.state disk.old) (D.state disk.new) (Stands o l) }
    ensures refused { OnRefusal result (λ k. k < 4) }
    ensures bad { OnRefusal result (λ k. IsBadFile k (D.state disk.new)) }
    ensures unwritten { OnRefusal result (λ k. (D.state disk.new).seen ≡ (D.state disk.old).seen) }
    ensures stood { OnOk result (IsTrue (D.state disk.old).told → StandForSome (D.state disk.old).seen) }
    ensures still { OnOk result (IsTrue (D.state disk.new).told → StandForSome (D.state disk.new).seen) }
    ensures sure { IsTrue (D.state disk.old).told → (o : Opening) (l : Ledger) → Holds line.old store.old (D.state disk.old) o l
        → OnRefusal result (λ k. ⊥) }
    ensures ready { Ready store.new (D.state disk.new) }
    ensures room { HasRoom line.new store.new }
    ensures hand { hand_of line.new ≡ hand_of line.old }
    ensures later { items.old ≤ items.new }
    ensures time { Elapses (D.state disk.old) (D.state disk.new) }
    ensures told { (D.state disk.new).told ≡ (D.state disk.old).told }
    ensures cause { HasOpenCause (D.state disk.old).faults (D.state disk.new).faults result }
{
    match store.reopen(disk) {
        Ok(()) => {
            fill(alloc, line, store, items);
            Ok(())
        }
        Err(fault) => Err(fault),
    }
}
