// The answer of one request.
ghost use Rattle.std.specs.Prelude.{◌≡◌, ◌+◌, ◌≤◌, [], IfOk};
ghost use Rattle.sdb_action.specs.Lawful.{IsLawfulRequest};
ghost use Rattle.sdb_answer.specs.Outcome.{bound_of, changes_of, looks_of, outcome as outcome_of, written};
ghost use Rattle.sdb_pairs.specs.Changes.{state};
ghost use Rattle.sdb_pairs.specs.Lawful.{AreLawfulAccounts, AreLawfulChanges};
ghost use Rattle.sdb_write.specs.Writes.{IsWrite, write as write_to};

use crate::answered::Answer;
use crate::describing::describe;
use crate::gets::get;
use crate::listing::list;
use crate::selecting::select;
use sdb_action::{Action, Request};
use sdb_base::{AccountId, OutOfMemory, Steps};
use sdb_domain::Accounts;
use sdb_pairs::Changes;
use sdb_reply::Outcome;
use sdb_tables::Refusal;
use sdb_write::decide;
use std::alloc::Global;

/// Answers a request of an account over the accounts, at a moment in seconds since 1970. A refusal is an outcome.
/// The counter ticks at most once for each item of the domain for a Select, once for a get, and else never.
///
/// A write, a batch too, is decided, and its changes are for the caller to apply; they are lawful and leave lawful
/// accounts lawful. A get gives the pairs of the names that are
/// asked for, or all, in order, and none where the item isn't there. ListDomains gives the names after the token's,
/// at most as many as are asked for, and a token where more are left; InvalidNextToken comes before anything else.
/// A Select gives its page after the token, with a token where something is left, or what the page counts; what the
/// expression is refused for comes first, then InvalidNextToken, then NoSuchDomain.
pub fn answer<'a, L>(
    alloc: Global,
    accounts: &'a Accounts,
    account: AccountId,
    moment: u64,
    request: &Request,
    items: &mut Steps<L>,
) -> Result<Answer<'a>, OutOfMemory>
    requires { IsLawfulRequest request.now }
    ensures outcome { IfOk result (λ p. p.outcome ≡ outcome_of accounts.now account moment request.now) }
    ensures changes { IfOk result (λ p. p.changes ≡ changes_of accounts.now account request.now) }
    ensures lawful { IfOk result (λ p. AreLawfulChanges p.changes) }
    ensures stays { AreLawfulAccounts accounts.now → IfOk result (λ p. AreLawfulAccounts (state accounts.now p.changes)) }
    ensures bound { IfOk result (λ p. p.bound ≡ bound_of accounts.now account request.now) }
    ensures later { items.old ≤ items.new }
    ensures looks { items.new ≤ items.old + looks_of accounts.now account request.now }
{
    match request {
        Request::CreateDomain(_) => write(alloc, accounts, account, request, Action::CreateDomain),
        Request::DeleteDomain(_) => write(alloc, accounts, account, request, Action::DeleteDomain),
        Request::Put(_, _, _) => write(alloc, accounts, account, request, Action::PutAttributes),
        Request::BatchPut(_, _) => write(
            alloc,
            accounts,
            account,
            request,
            Action::BatchPutAttributes,
        ),
        Request::Delete(_, _, _) => write(
            alloc,
            accounts,
            account,
            request,
            Action::DeleteAttributes,
        ),
        Request::BatchDelete(_, _) => write(
            alloc,
            accounts,
            account,
            request,
            Action::BatchDeleteAttributes,
        ),
        Request::Get(domain, item, names) => {
            let outcome = get(alloc, accounts, account, domain, item, names, items)?;
            Ok(read(alloc, outcome))
        }
        Request::ListDomains(most, token) => {
            let outcome = list(alloc, accounts, account, *most, token)?;
            Ok(read(alloc, outcome))
        }
        Request::DomainMetadata(domain) => {
            Ok(read(alloc, describe(accounts, account, domain, moment)))
        }
        Request::Select(expression, token) => {
            select(alloc, accounts, account, expression, token, items)
        }
    }
}

// Decides a write, which is an action where it is done.
fn write<'a>(
    alloc: Global,
    accounts: &Accounts,
    account: AccountId,
    request: &Request,
    action: Action,
) -> Result<Answer<'a>, OutOfMemory>
    requires write { IsWrite request.now }
    requires asked { IsLawfulRequest request.now }
    ensures outcome { IfOk result (λ p. p.outcome ≡ written action (write_to accounts.now account request.now)) }
    ensures changes { IfOk result (λ p. p.changes ≡ changes_of accounts.now account request.now) }
    ensures lawful { IfOk result (λ p. AreLawfulChanges p.changes) }
    ensures stays { AreLawfulAccounts accounts.now → IfOk result (λ p. AreLawfulAccounts (state accounts.now p.changes)) }
    ensures bound { IfOk result (λ p. p.bound ≡ 0) }
{
    match decide(alloc, accounts, account, request) {
        Ok(changes) => Ok(Answer {
            outcome: Outcome::Done(action),
            changes,
            bound: 0,
        }),
        Err(Refusal::OutOfMemory) => Err(OutOfMemory),
        Err(refusal) => Ok(read(alloc, Outcome::Refused(refusal))),
    }
}

// An outcome without changes.
fn read<'a>(alloc: Global, outcome: Outcome<'a>) -> Answer<'a>
    ensures outcome { result.outcome ≡ outcome.entry }
    ensures changes { result.changes ≡ [] }
    ensures bound { result.bound ≡ 0 }
{
    Answer {
        outcome,
        changes: Changes::new(alloc),
        bound: 0,
    }
}
