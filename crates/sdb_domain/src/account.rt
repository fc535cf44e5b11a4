// The domains of one account, and one step of a change there.
ghost use Rattle.std.specs.Prelude.{◌≡◌, ◌+◌, ◌-◌, ◌≤◌, ◌^◌, ◌⊎◌, IfOk, OnErr, length, IfSome, IfNone, option_map};
ghost use Rattle.std.specs.List.{sum_by};
ghost use Rattle.std.specs.Option.{option_copied};
ghost use Rattle.sdb_domain.specs.LookUps.{least_after};
ghost use Rattle.sdb_base.specs.Texts.{text_cmp};
ghost use Rattle.sdb_base.specs.Entries.{found};
ghost use Rattle.sdb_domain.specs.Slots.{domains_shown, shown, weight_of_domain, IsSettled};
ghost use Rattle.sdb_domain.specs.Steps.{account_of, Settles};

use crate::domain::Domain;
use crate::keyed::Keyed;
use crate::slot::{Moved, Shown, Slot, Step, settle, shows, step_slots, undo};
use crate::sums::moved;
use sdb_base::{AccountId, OutOfMemory, Text};
use sdb_pairs::Change;
use std::alloc::Global;
use std::marker::Model;

// The domains of one account, their number and their weight.
#[derive(Drop)]
pub(crate) struct Account {
    slots: Keyed<Slot>,
    count: u64,
    weight: u64,
}

impl Model for Account {
    ghost use Rattle.sdb_domain.specs.Slots.{AccountKept, IsWholeAccount};

    ghost Value = { AccountKept };

    ghost view = { λ it. record { slots = it.slots; count = it.count; weight = it.weight } };

    ghost invariant = { λ it. IsWholeAccount (record { slots = it.slots; count = it.count; weight = it.weight }) };
}

// What takes a change of an account back.
#[derive(Drop)]
pub(crate) struct Undo {
    pub(crate) account: AccountId,
    name: Text,
    step: Step,
    count: u64,
    weight: u64,
}

impl Account {
    ghost use Rattle.sdb_domain.specs.Slots.{no_account, IsWholeAccount};
    ghost use Rattle.sdb_domain.specs.Steps.{AccountMoves, CanUndoAccount, account_undone};

    pub(crate) fn new(alloc: Global) -> Account
        ensures { result ≡ no_account }
    {
        Account {
            slots: Keyed::new(alloc),
            count: 0,
            weight: 0,
        }
    }

    // Applies a change, and gives what takes it back. `None` where it changes nothing.
    pub(crate) fn step(
        &mut self,
        alloc: Global,
        change: &Change,
    ) -> Result<Option<Undo>, OutOfMemory>
        ensures ok { IfOk result (λ undo. AccountMoves self.old self.new change.now undo) }
        ensures err { OnErr result (self.new ≡ self.old) }
    {
        let Some(moved) = step_slots(&mut self.slots, alloc, change)? else {
            return Ok(None);
        };
        let Moved {
            name,
            step,
            was,
            now,
        } = moved;
        let Some((count, weight)) = sums_after((self.count, self.weight), was, now) else {
            undo(&mut self.slots, &name, step);
            return Err(OutOfMemory);
        };
        let undo = Undo {
            account: account_id(change),
            name,
            step,
            count: self.count,
            weight: self.weight,
        };
        self.count = count;
        self.weight = weight;
        Ok(Some(undo))
    }

    // The domain of that name. No slot is open.
    pub(crate) fn domain(&self, name: &Text) -> Option<&Domain>
        requires { IfSome (found text_cmp self.now.slots name.now) IsSettled }
        ensures { option_map (λ d. d.now) result ≡ found text_cmp (domains_shown self.now.slots) name.now }
    {
        let slot = self.slots.get(name)?;
        settled_domain(slot)
    }

    pub(crate) fn domain_after(&self, after: Option<&Text>) -> Option<&Text>
        ensures { option_map (λ t. t.now) result ≡ option_map (λ domain. domain.0) (least_after (domains_shown self.now.slots) (option_copied after.entry)) }
    {
        for (name, slot) in self.slots.range_after(after) {
            if shows(slot) {
                return Some(name);
            }
        }
        None
    }

    pub(crate) fn count(&self) -> u64
        ensures { result ≡ length (domains_shown self.now.slots) }
    {
        self.count
    }

    pub(crate) fn weight(&self) -> u64
        ensures { result ≡ sum_by weight_of_domain (domains_shown self.now.slots) }
    {
        self.weight
    }

    // Closes the slot to edits that a change was about.
    pub(crate) fn settle(&mut self, was: &Undo)
        ensures { Settles self.old.slots self.new.slots was.now.name }
    {
        settle(&mut self.slots, &was.name);
    }

    // Takes a change back.
    pub(crate) fn undo(&mut self, was: Undo)
        requires { CanUndoAccount self.old was }
        ensures { self.new ≡ account_undone self.old was }
    {
        let Undo {
            account: _,
            name,
            step,
            count,
            weight,
        } = was;
        undo(&mut self.slots, &name, step);
        self.count = count;
        self.weight = weight;
    }
}

fn settled_domain(slot: &Slot) -> Option<&Domain>
    requires { IsSettled slot.now }
    ensures { option_map (λ d. d.now) result ≡ shown slot.now }
{
    match slot {
        Slot::Settled(domain) => Some(domain),
        Slot::Open(_) => unreachable!(),
        Slot::Dropped => unreachable!(),
    }
}

// The number and the weight of the domains, once a slot shows `now`. `None` where one reaches 2^64.
fn sums_after(sums: (u64, u64), was: Shown, now: Shown) -> Option<(u64, u64)>
    ensures count { IfSome result (λ r. r.0 ≡ sums.0 - was.count + now.count) }
    ensures weight { IfSome result (λ r. r.1 ≡ sums.1 - was.weight + now.weight) }
    ensures none { IfNone result ((2 ^ 64 ≤ sums.0 - was.count + now.count) ⊎ (2 ^ 64 ≤ sums.1 - was.weight + now.weight)) }
{
    let count = moved(sums.0, was.count, now.count)?;
    let weight = moved(sums.1, was.weight, now.weight)?;
    Some((count, weight))
}

pub(crate) fn account_id(change: &Change) -> AccountId
    ensures { result ≡ account_of change.now }
{
    match change {
        Change::MakeDomain(account, _) => *account,
        Change::DropDomain(account, _) => *account,
        Change::Edit(account, _, _, _) => *account,
    }
}
