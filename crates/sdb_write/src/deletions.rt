// Deletions decided, one or a batch of them. No limit refuses them.
ghost use Rattle.std.specs.Prelude.{◌≡◌, ◌+◌, ◌≤◌, map, IfOk};
ghost use Rattle.std.specs.Option.{option_copied};
ghost use Rattle.sdb_tables.specs.Answers.{Answers};
ghost use Rattle.sdb_write.specs.Changes.{decision, edit_of};
ghost use Rattle.sdb_write.specs.ItemWrites.{drop_write};
ghost use Rattle.sdb_action.specs.declared.request.Request.TheVariants as request;

use crate::changes::{edit, one_change};
use crate::expectation::check;
use crate::ops::drop_ops;
use sdb_action::{DropItem, Expect};
use sdb_base::{AccountId, OutOfMemory, Steps, Text};
use sdb_domain::Accounts;
use sdb_pairs::{Change, Changes};
use sdb_tables::Refusal;
use std::alloc::Global;

// The change of a deletion, where its item is as expected.
pub(crate) fn delete<L>(
    alloc: Global,
    accounts: &Accounts,
    account: AccountId,
    name: &Text,
    item: &DropItem,
    expect: Option<&Expect>,
    looks: &mut Steps<L>,
) -> Result<Changes, Refusal>
    ensures answer { Answers (decision accounts.now account (request.Delete name.now item.now (option_copied expect.entry))) result }
    ensures looks { looks.new ≤ looks.old + 1 }
{
    let domain = accounts.domain(account, name).ok_or(Refusal::NoSuchDomain)?;
    check(domain, &item.name, expect, looks)?;
    let change = delete_item(alloc, account, name, item)?;
    Ok(one_change(alloc, change)?)
}

// The changes of a batch, one an item in their order.
pub(crate) fn delete_batch(
    alloc: Global,
    accounts: &Accounts,
    account: AccountId,
    name: &Text,
    items: &[DropItem],
) -> Result<Changes, Refusal>
    ensures { Answers (decision accounts.now account (request.BatchDelete name.now items.now)) result }
{
    accounts.domain(account, name).ok_or(Refusal::NoSuchDomain)?;
    Ok(delete_items(alloc, account, name, items)?)
}

// The edits of the items, in their order.
fn delete_items(
    alloc: Global,
    account: AccountId,
    domain: &Text,
    items: &[DropItem],
) -> Result<Changes, OutOfMemory>
    ensures { IfOk result (λ changes. changes ≡ map (edit_of account domain.now) (map drop_write items.now)) }
{
    let mut changes = Changes::new(alloc);
    for item in items {
        changes.push(delete_item(alloc, account, domain, item)?)?;
    }
    Ok(changes)
}

// The edit of an item.
fn delete_item(
    alloc: Global,
    account: AccountId,
    domain: &Text,
    item: &DropItem,
) -> Result<Change, OutOfMemory>
    ensures { IfOk result (λ change. change ≡ edit_of account domain.now (drop_write item.now)) }
{
    let ops = drop_ops(alloc, item.parts.as_slice())?;
    edit(alloc, account, domain, &item.name, ops)
}
