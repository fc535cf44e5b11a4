// What a write does, or why it is refused.
ghost use Rattle.std.specs.Prelude.{◌≡◌, ◌+◌, ◌≤◌, [], ◌∷◌, IfOk, IfErr};
ghost use Rattle.sdb_action.specs.Lawful.{IsLawfulRequest};
ghost use Rattle.sdb_action.specs.declared.request.Request.TheVariants as asks;
ghost use Rattle.sdb_pairs.specs.Changes.{state};
ghost use Rattle.sdb_pairs.specs.Lawful.{AreLawfulAccounts, AreLawfulChanges};
ghost use Rattle.sdb_tables.specs.Answers.{Answers};
ghost use Rattle.sdb_write.specs.Changes.{decision};
ghost use Rattle.sdb_write.specs.Writes.{IsWrite, IsWriteRefusal, NamesOnce, named_items};

use crate::changes::one_change;
use crate::deletions::{delete, delete_batch};
use crate::limits::check_made;
use crate::puts::{put, put_batch};
use sdb_action::Request;
use sdb_base::{AccountId, OutOfMemory, Steps, Text};
use sdb_domain::Accounts;
use sdb_pairs::{Change, Changes};
use sdb_tables::Refusal;
use std::alloc::Global;

// What is counted: the items that a decision looks at.
struct Items;

/// What a write of the account comes to: its changes, which the account and the request alone tell,
/// or its first refusal.
///
/// A put or a deletion, a batch too, is refused with `NoSuchDomain` where its domain isn't there. Then, where its
/// expectation isn't met, it is refused with `AttributeDoesNotExist`, `MultiValuedAttribute` or
/// `ConditionalCheckFailed`. Last come the limits on what an item, the domain and the account would hold, and on
/// how many domains there would be: `NumberItemAttributesExceeded`, `NumberDomainAttributesExceeded`,
/// `NumberDomainBytesExceeded` and `NumberDomainsExceeded`, each with the number that was counted. A batch is done
/// whole or not at all. Of all items only those that are written are looked at (SimpleDB Developer Guide, "API
/// Reference" and "Limits").
pub fn decide(
    alloc: Global,
    accounts: &Accounts,
    account: AccountId,
    request: &Request,
) -> Result<Changes, Refusal>
    requires write { IsWrite request.now }
    requires asked { IsLawfulRequest request.now }

    ensures answer { Answers (decision accounts.now account request.now) result }
    ensures only { IfErr result IsWriteRefusal }
    ensures lawful { IfOk result AreLawfulChanges }
    ensures stays { AreLawfulAccounts accounts.now → IfOk result (λ changes. AreLawfulAccounts (state accounts.now changes)) }
{
    let mut looks = Steps::<Items>::new();
    decide_counted(alloc, accounts, account, request, &mut looks)
}

// Decides, and counts the items that are looked at.
fn decide_counted<L>(
    alloc: Global,
    accounts: &Accounts,
    account: AccountId,
    request: &Request,
    looks: &mut Steps<L>,
) -> Result<Changes, Refusal>
    requires write { IsWrite request.now }
    requires once { NamesOnce request.now }
    ensures answer { Answers (decision accounts.now account request.now) result }
    ensures looks { looks.new ≤ looks.old + named_items request.now }
{
    match request {
        Request::CreateDomain(domain) => create(alloc, accounts, account, domain),
        Request::DeleteDomain(domain) => Ok(drop_domain(alloc, account, domain)?),
        Request::Put(domain, item, expect) => put(
            alloc,
            accounts,
            account,
            domain,
            item,
            expect.as_ref(),
            looks,
        ),
        Request::BatchPut(domain, items) => put_batch(
            alloc,
            accounts,
            account,
            domain,
            items.as_slice(),
            looks,
        ),
        Request::Delete(domain, item, expect) => delete(
            alloc,
            accounts,
            account,
            domain,
            item,
            expect.as_ref(),
            looks,
        ),
        Request::BatchDelete(domain, items) => {
            delete_batch(alloc, accounts, account, domain, items.as_slice())
        }
        _ => unreachable!(),
    }
}

// The change of a creation, where the accounts may hold the domain.
fn create(
    alloc: Global,
    accounts: &Accounts,
    account: AccountId,
    name: &Text,
) -> Result<Changes, Refusal>
    ensures { Answers (decision accounts.now account (asks.CreateDomain name.now)) result }
{
    check_made(accounts, account, accounts.domain(account, name))?;
    let name = name.copy(alloc)?;
    Ok(one_change(alloc, Change::MakeDomain(account, name))?)
}

// The change of a deletion of a domain.
fn drop_domain(alloc: Global, account: AccountId, name: &Text) -> Result<Changes, OutOfMemory>
    ensures { IfOk result (λ changes. changes ≡ Change.DropDomain account name.now ∷ []) }
{
    let name = name.copy(alloc)?;
    one_change(alloc, Change::DropDomain(account, name))
}
