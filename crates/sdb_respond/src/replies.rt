//! An arrival answered over the accounts.

ghost use Rattle.std.specs.Prelude.{◌≡◌, ◌⊎◌, ◌+◌, ◌≤◌, [], Some, IfOk, OnOk};
ghost use Rattle.sdb_pairs.specs.Accounts.{AreAccounts};
ghost use Rattle.sdb_answer.specs.Outcome.{changes_of, looks_of, outcome};
ghost use Rattle.sdb_arrivals.specs.Releases.{id_of};
ghost use Rattle.sdb_respond.specs.Reply.{allowance_in_line, allowed_for, executed_for, refused_by, reply_asked, reply_in_line, told, unverified};
ghost use Rattle.sdb_respond.specs.Staged.{CanBeStaged};

use crate::answered::Response;
use sdb_action::Request;
use sdb_answer::answer;
use sdb_arrivals::{Asked, Queued};
use sdb_base::{AccountId, Bytes, OutOfMemory, Steps, Text};
use sdb_cost::units;
use sdb_domain::Accounts;
use sdb_pairs::Changes;
use sdb_reply::{Outcome, RequestId, fault_into, room, told};
use sdb_tables::Refusal;
use std::alloc::Global;

/// Answers an arrival over the accounts: what was read of it is refused, or its request is executed for the account
/// that signed it, at the moment at which it came. Nothing is changed yet: the changes are for the caller to stage.
///
/// The counter of items ticks at most once for each item of the domain for a Select, once for a get, and for no
/// other arrival.
///
/// # Errors
///
/// Want of memory, and nothing else.
#[tactic(auto, using(crate::proofs::StagedLemmas::nothing_staged), unfolding(crate::specs::Reply::reply_in_line, crate::specs::Reply::allowance_in_line))]
pub fn respond<L>(
    alloc: Global,
    accounts: &Accounts,
    arrival: &Queued,
    items: &mut Steps<L>,
) -> Result<Response, OutOfMemory>
    ensures bytes { IfOk result (λ r. r.bytes.bytes ≡ (reply_in_line accounts.now arrival.now).0) }
    ensures changes { IfOk result (λ r. r.changes ≡ (reply_in_line accounts.now arrival.now).1) }
    ensures staged { IfOk result (λ r. CanBeStaged accounts.now r.changes) }
    ensures later { items.old ≤ items.new }
    ensures looks { items.new ≤ items.old + allowance_in_line accounts.now arrival.now }
{
    match arrival.read.account {
        Some(account) => respond_to(alloc, accounts, account, arrival, items),
        None => refuse(alloc, &unverified(&arrival.read.asked), arrival),
    }
}

#[tactic(auto, using(crate::proofs::StagedLemmas::nothing_staged))]
fn respond_to<L>(
    alloc: Global,
    accounts: &Accounts,
    account: AccountId,
    arrival: &Queued,
    items: &mut Steps<L>,
) -> Result<Response, OutOfMemory>
    ensures bytes { IfOk result (λ r. r.bytes.bytes ≡ (reply_asked account arrival.now.read.asked accounts.now arrival.now).0) }
    ensures changes { IfOk result (λ r. r.changes ≡ (reply_asked account arrival.now.read.asked accounts.now arrival.now).1) }
    ensures staged { IfOk result (λ r. CanBeStaged accounts.now r.changes) }
    ensures later { items.old ≤ items.new }
    ensures looks { items.new ≤ items.old + allowed_for (Some account) arrival.now.read.asked accounts.now }
{
    match &arrival.read.asked {
        Ok(asked) => execute(alloc, accounts, account, asked, arrival, items),
        Err(refusal) => refuse(alloc, refusal, arrival),
    }
}

// Executes a request for an account.
fn execute<L>(
    alloc: Global,
    accounts: &Accounts,
    account: AccountId,
    asked: &Asked,
    arrival: &Queued,
    items: &mut Steps<L>,
) -> Result<Response, OutOfMemory>
    ensures bytes { IfOk result (λ r. r.bytes.bytes ≡ (executed_for account asked.now accounts.now arrival.now).0) }
    ensures changes { IfOk result (λ r. r.changes ≡ (executed_for account asked.now accounts.now arrival.now).1) }
    ensures staged { IfOk result (λ r. CanBeStaged accounts.now r.changes) }
    ensures later { items.old ≤ items.new }
    ensures looks { items.new ≤ items.old + looks_of accounts.now account asked.now }
{
    let request = asked.request();
    let answer = answer(alloc, accounts, account, arrival.moment, request, items)?;
    let bytes = tell(alloc, request, &answer.outcome, answer.bound, arrival)?;
    stand_in_order(alloc, accounts, account, &answer.changes)?;
    Ok(Response {
        bytes,
        changes: answer.changes,
    })
}

// Each look-up of a domain tells that the accounts stand in order, by which changes are judged. Without changes
// nothing has to be known.
fn stand_in_order(
    alloc: Global,
    accounts: &Accounts,
    account: AccountId,
    changes: &Changes,
) -> Result<(), OutOfMemory>
    ensures { OnOk result ((changes.now ≡ []) ⊎ AreAccounts accounts.now) }
{
    if changes.is_empty() {
        return Ok(());
    }
    let name = Text::from_str(alloc, "")?;
    let _ = accounts.domain(account, &name);
    Ok(())
}

// The response that tells an outcome.
fn tell<'a>(
    alloc: Global,
    request: &Request,
    outcome: &Outcome<'a>,
    bound: u64,
    arrival: &Queued,
) -> Result<Bytes, OutOfMemory>
    ensures { IfOk result (λ made. made.bytes ≡ told arrival.now request.now bound outcome.now) }
{
    let spent = units(Some(request), outcome, bound);
    told(alloc, outcome, &id_of(arrival), spent, arrival.close)
}

// Refuses an arrival, which changes nothing.
fn refuse(alloc: Global, refusal: &Refusal, arrival: &Queued) -> Result<Response, OutOfMemory>
    ensures bytes { IfOk result (λ r. r.bytes.bytes ≡ (refused_by refusal.now arrival.now).0) }
    ensures changes { IfOk result (λ r. r.changes ≡ (refused_by refusal.now arrival.now).1) }
    ensures none { IfOk result (λ r. r.changes ≡ []) }
{
    let mut bytes = Bytes::with_room(alloc, room())?;
    fault_into(&mut bytes, refusal, &id_of(arrival), arrival.close);
    Ok(Response {
        bytes,
        changes: Changes::new(alloc),
    })
}

// Why what isn't verified is refused.
fn unverified(asked: &Result<Asked, Refusal>) -> Refusal
    ensures { result ≡ unverified asked.now }
{
    match asked {
        Ok(_) => Refusal::AuthMissingFailure,
        Err(refusal) => *refusal,
    }
}

fn id_of(arrival: &Queued) -> RequestId
    ensures { result ≡ id_of arrival.now }
{
    RequestId {
        conn: arrival.conn,
        number: arrival.number,
    }
}
