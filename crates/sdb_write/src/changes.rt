// Changes made of the parts of a request.
ghost use Rattle.std.specs.Prelude.{◌≡◌, [], ◌∷◌, IfOk};

use sdb_base::{AccountId, OutOfMemory, Text};
use sdb_pairs::{Change, Changes, Ops};
use std::alloc::Global;

// The edit of an item.
pub(crate) fn edit(
    alloc: Global,
    account: AccountId,
    domain: &Text,
    item: &Text,
    ops: Ops,
) -> Result<Change, OutOfMemory>
    ensures { IfOk result (λ change. change ≡ Change.Edit account domain.now item.now ops) }
{
    let domain = domain.copy(alloc)?;
    let item = item.copy(alloc)?;
    Ok(Change::Edit(account, domain, item, ops))
}

// One change alone.
pub(crate) fn one_change(alloc: Global, change: Change) -> Result<Changes, OutOfMemory>
    ensures { IfOk result (λ changes. changes ≡ change ∷ []) }
{
    let mut changes = Changes::new(alloc);
    changes.push(change)?;
    Ok(changes)
}
