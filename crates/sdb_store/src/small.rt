// The limit of 256 pairs an item, over accounts that changes led to.
ghost use Rattle.std.specs.Prelude.{◌≡◌, false, [], length, IfOk, IfSome, IfNone};
ghost use Rattle.std.specs.List.{list_all};
ghost use Rattle.sdb_pairs.specs.Changes.{state};
ghost use Rattle.sdb_record.specs.Stands.{HasSmallItems, has_small_items};
ghost use Rattle.sdb_store.specs.Small.{leaves_small};

use sdb_base::{OutOfMemory, Steps};
use sdb_domain::Accounts;
use sdb_pairs::{Change, Changes};
use std::alloc::Global;

// The most pairs of an item.
const MOST: usize = 256;

// The accounts that the changes lead to; None where they have an item of more than 256 pairs.
pub(crate) fn accounts_of(alloc: Global, changes: &Changes) -> Result<Option<Accounts>, OutOfMemory>
    ensures some { IfOk result (λ found. IfSome found (λ accounts. accounts ≡ state [] changes.now)) }
    ensures small { IfOk result (λ found. IfSome found (λ accounts. HasSmallItems accounts)) }
    ensures none { IfOk result (λ found. IfNone found (has_small_items (state [] changes.now) ≡ false)) }
{
    let mut accounts = Accounts::new(alloc);
    accounts.apply(changes)?;
    if are_small(&accounts, changes) {
        Ok(Some(accounts))
    } else {
        Ok(None)
    }
}

// Whether each item has at most so many pairs. An item is there only where a change edits it, so the items of all
// edits are looked up.
fn are_small(accounts: &Accounts, changes: &Changes) -> bool
    requires { accounts.now ≡ state [] changes.now }
    ensures { result ≡ has_small_items accounts.now }
{
    are_edits_small(accounts, changes.as_slice())
}

// Whether the items that the changes edit have at most so many pairs.
fn are_edits_small(accounts: &Accounts, changes: &[Change]) -> bool
    ensures { result ≡ list_all (leaves_small accounts.now) changes.now }
{
    changes
        .iter()
        .all(|change| is_small_after(accounts, change))
}

// Whether the item that the change edits has at most so many pairs.
fn is_small_after(accounts: &Accounts, change: &Change) -> bool
    ensures { result ≡ leaves_small accounts.now change.now }
{
    let Change::Edit(account, name, item, _) = change else {
        return true;
    };
    let Some(domain) = accounts.domain(*account, name) else {
        return true;
    };
    match domain.item(item, &mut Steps::<()>::new()) {
        Some(found) => found.pairs().len() <= MOST,
        None => true,
    }
}
