// Puts decided, one or a batch of them.
ghost use Rattle.std.specs.Prelude.{◌≡◌, ◌+◌, ◌≤◌, map, length, unwrap_or, IfOk, []};
ghost use Rattle.std.specs.Option.{option_copied};
ghost use Rattle.sdb_pairs.specs.Accounts.{AreAccounts, items_of};
ghost use Rattle.sdb_tables.specs.Answers.{Answers};
ghost use Rattle.sdb_write.specs.Changes.{decision, edit_of};
ghost use Rattle.sdb_write.specs.ItemWrites.{NamesApart, items_written, left_of, put_write};
ghost use Rattle.sdb_write.specs.Limits.{item_above};
ghost use Rattle.sdb_write.specs.Totals.{exchanged, totals_of, writes_above};
ghost use Rattle.sdb_write.specs.Writes.{unless};
ghost use Rattle.sdb_action.specs.declared.request.Request.TheVariants as request;

use crate::changes::{edit, one_change};
use crate::expectation::judge_item;
use crate::limits::{Totals, check_item};
use crate::ops::put_ops;
use sdb_action::{Expect, PutItem};
use sdb_base::{AccountId, Steps, Text};
use sdb_domain::{Accounts, Domain};
use sdb_pairs::{Change, Changes, Item, merge};
use sdb_tables::Refusal;
use std::alloc::Global;

// The change of a put, where its item is as expected and may have what it leaves.
pub(crate) fn put<L>(
    alloc: Global,
    accounts: &Accounts,
    account: AccountId,
    name: &Text,
    item: &PutItem,
    expect: Option<&Expect>,
    looks: &mut Steps<L>,
) -> Result<Changes, Refusal>
    ensures answer { Answers (decision accounts.now account (request.Put name.now item.now (option_copied expect.entry))) result }
    ensures looks { looks.new ≤ looks.old + 1 }
{
    let domain = accounts.domain(account, name).ok_or(Refusal::NoSuchDomain)?;
    let old = domain.item(&item.name, looks);
    judge_item(old, expect)?;
    let (change, totals) = put_item(alloc, account, name, Totals::of(domain), old, item)?;
    totals.check(accounts, account, domain)?;
    Ok(one_change(alloc, change)?)
}

// The changes of a batch, one an item in their order.
pub(crate) fn put_batch<L>(
    alloc: Global,
    accounts: &Accounts,
    account: AccountId,
    name: &Text,
    items: &[PutItem],
    looks: &mut Steps<L>,
) -> Result<Changes, Refusal>
    requires { NamesApart (map put_write items.now) }
    ensures answer { Answers (decision accounts.now account (request.BatchPut name.now items.now)) result }
    ensures looks { looks.new ≤ looks.old + length items.now }
{
    let domain = accounts.domain(account, name).ok_or(Refusal::NoSuchDomain)?;
    let (changes, totals) = put_items(alloc, account, name, domain, items, looks)?;
    totals.check(accounts, account, domain)?;
    Ok(changes)
}

// The edits of the items, and the sums of the domain once they are applied.
fn put_items<L>(
    alloc: Global,
    account: AccountId,
    name: &Text,
    domain: &Domain,
    items: &[PutItem],
    looks: &mut Steps<L>,
) -> Result<(Changes, Totals), Refusal>
    requires { NamesApart (map put_write items.now) }
    ensures answer { Answers (unless (writes_above domain.now (map put_write items.now)) (map (edit_of account name.now) (map put_write items.now), totals_of (items_written domain.now (map put_write items.now)))) result }
    ensures looks { looks.new ≤ looks.old + length items.now }
{
    let mut totals = Totals::of(domain);
    let mut changes = Changes::new(alloc);
    for item in items {
        let old = domain.item(&item.name, looks);
        let (change, next) = put_item(alloc, account, name, totals, old, item)?;
        changes.push(change)?;
        totals = next;
    }
    Ok((changes, totals))
}

// The edit of an item, and the sums of its domain once it is applied.
fn put_item(
    alloc: Global,
    account: AccountId,
    domain: &Text,
    totals: Totals,
    old: Option<&Item>,
    item: &PutItem,
) -> Result<(Change, Totals), Refusal>
    ensures { let was = unwrap_or (option_copied old.entry) [] in
        let left = left_of (put_write item.now) was in
        Answers (unless (item_above (length left)) (edit_of account domain.now (put_write item.now), exchanged totals item.now.name was left)) result }
{
    let none = Item::new(alloc);
    let old = old.unwrap_or(&none);
    let was = old.pairs();
    let ops = put_ops(alloc, item.pairs.as_slice())?;
    let new = merge(alloc, old, &ops)?;
    let left = new.pairs();
    check_item(left)?;
    let totals = totals.exchange(&item.name, was, left)?;
    Ok((edit(alloc, account, domain, &item.name, ops)?, totals))
}
