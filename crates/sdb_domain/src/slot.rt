// A place for a domain: settled, open to edits, or dropped.
ghost use Rattle.std.specs.Prelude.{◌≡◌, IfOk, OnErr, Some, None, is_some, IsSome, false, unwrap_or, [], option_and_then};
ghost use Rattle.sdb_base.specs.Texts.{text_cmp};
ghost use Rattle.sdb_base.specs.Entries.{found, IsRising};
ghost use Rattle.sdb_pairs.specs.Changes.{edited};
ghost use Rattle.sdb_domain.specs.Held.{items_kept};
ghost use Rattle.sdb_domain.specs.Slots.{shown, count_shown, weight_shown, stays};
ghost use Rattle.sdb_domain.specs.Steps.{closed, domain_of, items_after, step_undone, edit_undone, row_step_undone, CanUndoStep, CanUndoRow, CanUndoEdit, SlotSteps, SlotMoves, SlotsMove, Closes, Settles};

use crate::domain::Domain;
use crate::keyed::Keyed;
use crate::opened::Opened;
use sdb_base::{OutOfMemory, Text};
use sdb_pairs::{Change, Ops};
use std::alloc::Global;
use std::mem::replace;

// A domain of an account. It is opened by an edit, and settled when the changes are applied; a dropped one
// leaves its slot until then, so that the drop can be taken back without memory.
#[derive(Drop)]
pub(crate) enum Slot {
    Settled(Domain),
    Open(Opened),
    Dropped,
}

// What takes a step on the slots back: what stood in the slot, or that the newest edit of the domain that is
// open there goes, and whether the slot was settled before it.
#[derive(Drop)]
pub(crate) enum Step {
    Slot(Option<Slot>),
    Row(bool),
}

// How many domains a slot shows, and their weight.
#[derive(Clone, Copy)]
pub(crate) struct Shown {
    pub(crate) count: u64,
    pub(crate) weight: u64,
}

// A step on the slots, with what the slot showed before it and what it shows now.
pub(crate) struct Moved {
    pub(crate) name: Text,
    pub(crate) step: Step,
    pub(crate) was: Shown,
    pub(crate) now: Shown,
}

impl Slot {
    fn closed(settled: bool, opened: Opened) -> Slot
        ensures { result ≡ closed settled opened }
    {
        if settled {
            Slot::Settled(opened.close())
        } else {
            Slot::Open(opened)
        }
    }
}

// Whether the slot shows a domain.
pub(crate) fn shows(slot: &Slot) -> bool
    ensures { result ≡ is_some (shown slot.now) }
{
    match slot {
        Slot::Settled(_) => true,
        Slot::Open(_) => true,
        Slot::Dropped => false,
    }
}

fn weigh(slot: &Slot) -> Shown
    ensures count { result.count ≡ count_shown (shown slot.now) }
    ensures weight { result.weight ≡ weight_shown (shown slot.now) }
{
    match slot {
        Slot::Settled(domain) => Shown {
            count: 1,
            weight: domain.weight(),
        },
        Slot::Open(opened) => Shown {
            count: 1,
            weight: opened.weight(),
        },
        Slot::Dropped => Shown {
            count: 0,
            weight: 0,
        },
    }
}

pub(crate) fn domain_name(change: &Change) -> &Text
    ensures { result.now ≡ domain_of change.now }
{
    match change {
        Change::MakeDomain(_, domain) => domain,
        Change::DropDomain(_, domain) => domain,
        Change::Edit(_, domain, _, _) => domain,
    }
}

// Applies a change to its slot. `None` where it changes nothing.
pub(crate) fn step_slots(
    slots: &mut Keyed<Slot>,
    alloc: Global,
    change: &Change,
) -> Result<Option<Moved>, OutOfMemory>
    ensures ok { IfOk result (λ moved. SlotsMove slots.old slots.new change.now moved) }
    ensures err { OnErr result (slots.new ≡ slots.old) }
{
    match slots.get_mut(domain_name(change)) {
        Some(slot) => step_there(slot, alloc, change),
        None => step_new(slots, alloc, change),
    }
}

// The slot is there.
fn step_there(slot: &mut Slot, alloc: Global, change: &Change) -> Result<Option<Moved>, OutOfMemory>
    ensures ok { IfOk result (λ moved. SlotMoves slot.old slot.new change.now moved) }
    ensures err { OnErr result (slot.new ≡ slot.old) }
{
    if stays(slot, change) {
        return Ok(None);
    }
    let name = domain_name(change).copy(alloc)?;
    let was = weigh(slot);
    let step = change_slot(slot, alloc, change)?;
    let now = weigh(slot);
    Ok(Some(Moved {
        name,
        step,
        was,
        now,
    }))
}

// Whether the change leaves the slot as it is: a domain that is there is made, or one that isn't is dropped.
fn stays(slot: &Slot, change: &Change) -> bool
    ensures { result ≡ stays slot.now change.now }
{
    match change {
        Change::MakeDomain(_, _) => shows(slot),
        Change::DropDomain(_, _) => !shows(slot),
        Change::Edit(_, _, _, _) => false,
    }
}

fn change_slot(slot: &mut Slot, alloc: Global, change: &Change) -> Result<Step, OutOfMemory>
    requires { stays slot.old change.now ≡ false }
    ensures ok { IfOk result (λ step. SlotSteps slot.old slot.new (items_after (shown slot.old) change.now) step) }
    ensures err { OnErr result (slot.new ≡ slot.old) }
{
    match change {
        Change::MakeDomain(_, _) => Ok(put(slot, Slot::Open(Opened::new(alloc)))),
        Change::DropDomain(_, _) => Ok(put(slot, Slot::Dropped)),
        Change::Edit(_, _, item, ops) => edit(slot, alloc, item, ops),
    }
}

fn put(slot: &mut Slot, new: Slot) -> Step
    ensures { SlotSteps slot.old slot.new (shown new) result }
{
    Step::Slot(Some(replace(slot, new)))
}

// Edits an item of the domain, which is made where it isn't there.
fn edit(slot: &mut Slot, alloc: Global, item: &Text, ops: &Ops) -> Result<Step, OutOfMemory>
    ensures ok { IfOk result (λ step. SlotSteps slot.old slot.new (Some (edited (unwrap_or (shown slot.old) []) item.now ops.now)) step) }
    ensures err { OnErr result (slot.new ≡ slot.old) }
{
    if shows(slot) {
        edit_live(slot, alloc, item, ops)
    } else {
        let opened = first_edit(alloc, item, ops)?;
        Ok(put(slot, Slot::Open(opened)))
    }
}

// The domain is opened where it was settled, and put back in place.
fn edit_live(slot: &mut Slot, alloc: Global, item: &Text, ops: &Ops) -> Result<Step, OutOfMemory>
    requires { IsSome (shown slot.old) }
    ensures ok { IfOk result (λ step. SlotSteps slot.old slot.new (Some (edited (unwrap_or (shown slot.old) []) item.now ops.now)) step) }
    ensures err { OnErr result (slot.new ≡ slot.old) }
{
    let (settled, mut opened) = reopen(alloc, replace(slot, Slot::Dropped));
    match opened.edit(alloc, item, ops) {
        Ok(()) => {
            *slot = Slot::Open(opened);
            Ok(Step::Row(settled))
        }
        Err(error) => {
            *slot = Slot::closed(settled, opened);
            Err(error)
        }
    }
}

// What the slot shows, open to edits, and whether it was settled.
fn reopen(alloc: Global, slot: Slot) -> (bool, Opened)
    requires { IsSome (shown slot) }
    ensures { closed result.0 result.1 ≡ slot }
{
    match slot {
        Slot::Settled(domain) => (true, Opened::of(alloc, domain.into_held())),
        Slot::Open(opened) => (false, opened),
        Slot::Dropped => unreachable!(),
    }
}

// A domain of one item, or none, by its first edit.
fn first_edit(alloc: Global, item: &Text, ops: &Ops) -> Result<Opened, OutOfMemory>
    ensures { IfOk result (λ opened. items_kept opened.kept ≡ edited [] item.now ops.now) }
{
    let mut opened = Opened::new(alloc);
    opened.edit(alloc, item, ops)?;
    Ok(opened)
}

// There is no slot of that name yet.
fn step_new(
    slots: &mut Keyed<Slot>,
    alloc: Global,
    change: &Change,
) -> Result<Option<Moved>, OutOfMemory>
    requires none { found text_cmp slots.old (domain_of change.now) ≡ None }
    requires rising { IsRising text_cmp slots.old }
    ensures ok { IfOk result (λ moved. SlotsMove slots.old slots.new change.now moved) }
    ensures err { OnErr result (slots.new ≡ slots.old) }
{
    let Some(slot) = first_slot(alloc, change)? else {
        return Ok(None);
    };
    let name = domain_name(change).copy(alloc)?;
    let now = weigh(&slot);
    slots.set(alloc, &name, slot)?;
    let was = Shown {
        count: 0,
        weight: 0,
    };
    Ok(Some(Moved {
        name,
        step: Step::Slot(None),
        was,
        now,
    }))
}

// The slot that a change makes where there is none.
fn first_slot(alloc: Global, change: &Change) -> Result<Option<Slot>, OutOfMemory>
    ensures { IfOk result (λ slot. option_and_then shown slot ≡ items_after None change.now) }
{
    match change {
        Change::MakeDomain(_, _) => Ok(Some(Slot::Open(Opened::new(alloc)))),
        Change::DropDomain(_, _) => Ok(None),
        Change::Edit(_, _, item, ops) => Ok(Some(Slot::Open(first_edit(alloc, item, ops)?))),
    }
}

// Takes a step back.
pub(crate) fn undo(slots: &mut Keyed<Slot>, name: &Text, step: Step)
    requires { CanUndoStep slots.old name.now step }
    ensures { slots.new ≡ step_undone slots.old name.now step }
{
    match step {
        Step::Slot(was) => slots.back(name, was),
        Step::Row(settled) => undo_row(slots, name, settled),
    }
}

fn undo_row(slots: &mut Keyed<Slot>, name: &Text, settled: bool)
    requires { CanUndoRow (found text_cmp slots.old name.now) }
    ensures { slots.new ≡ row_step_undone slots.old name.now settled (found text_cmp slots.old name.now) }
{
    match slots.get_mut(name) {
        Some(slot) => undo_edit(slot, settled),
        None => unreachable!(),
    }
}

fn undo_edit(slot: &mut Slot, settled: bool)
    requires { CanUndoEdit slot.old }
    ensures { slot.new ≡ edit_undone settled slot.old }
{
    let Slot::Open(mut opened) = replace(slot, Slot::Dropped) else {
        unreachable!()
    };
    opened.undo();
    *slot = Slot::closed(settled, opened);
}

// Closes the slot of that name to edits, and sweeps what they left hidden; a dropped one goes.
pub(crate) fn settle(slots: &mut Keyed<Slot>, name: &Text)
    ensures { Settles slots.old slots.new name.now }
{
    if let Some(slot) = slots.get_mut(name) {
        if close(slot) {
            slots.remove(name);
        }
    }
}

// Closes the slot, and says whether it is a dropped one.
fn close(slot: &mut Slot) -> bool
    ensures { Closes slot.old slot.new result }
{
    match replace(slot, Slot::Dropped) {
        Slot::Settled(domain) => {
            *slot = Slot::Settled(domain);
            false
        }
        Slot::Open(opened) => {
            *slot = Slot::Settled(opened.close());
            false
        }
        Slot::Dropped => true,
    }
}
