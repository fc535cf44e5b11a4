// What ListDomains answers.
ghost use Rattle.std.specs.Prelude.{◌≡◌, ◌+◌, ◌≤◌, IfOk, OnOk, nat_lt, take, length, if◌then◌else◌, None, Some};
ghost use Rattle.std.specs.Option.{option_copied};
ghost use Rattle.sdb_answer.specs.Listing.{last_of, listed, listed_after, listing_digest, listing_text, names_after, page_of, token_of};
ghost use Rattle.sdb_pairs.specs.Accounts.{AreAccounts};
ghost use Rattle.sdb_tables.specs.Answers.{Answers};

use sdb_base::{AccountId, OutOfMemory, Text, Texts};
use sdb_domain::Accounts;
use sdb_reply::Outcome;
use sdb_tables::Refusal;
use sdb_token::{Position, digest, read_token, write_token};
use std::alloc::Global;

// Names of domains, and whether more are left behind them.
#[derive(Debug, Drop)]
struct Walked {
    names: Texts,
    more: bool,
}

/// The names of an account's domains after the token's, `most` of them at most, and the token of the last where
/// more are left.
pub(crate) fn list<'a>(
    alloc: Global,
    accounts: &Accounts,
    account: AccountId,
    most: u16,
    token: &Option<Text>,
) -> Result<Outcome<'a>, OutOfMemory>
    ensures { IfOk result (λ o. o ≡ listed accounts.now account most (listed_after token.now)) }
{
    match begins_after(alloc, token) {
        Ok(after) => page(alloc, accounts, account, most, after.as_ref()),
        Err(Refusal::OutOfMemory) => Err(OutOfMemory),
        Err(refusal) => Ok(Outcome::Refused(refusal)),
    }
}

// The name after which names are listed.
fn begins_after(alloc: Global, token: &Option<Text>) -> Result<Option<Text>, Refusal>
    ensures { Answers (listed_after token.now) result }
{
    let Some(token) = token else {
        return Ok(None);
    };
    let bound_to = bound_to(alloc)?;
    let position = read_token(alloc, token, &bound_to, false)?;
    Ok(Some(position.name))
}

#[tactic(auto, unfolding(crate::specs::Listing::listing_text))]
fn bound_to(alloc: Global) -> Result<[u8; 32], OutOfMemory>
    ensures { IfOk result (λ d. d ≡ listing_digest) }
{
    let text = Text::from_str(alloc, "ListDomains")?;
    Ok(digest(&text))
}

fn page<'a>(
    alloc: Global,
    accounts: &Accounts,
    account: AccountId,
    most: u16,
    after: Option<&Text>,
) -> Result<Outcome<'a>, OutOfMemory>
    ensures { IfOk result (λ o. o ≡ page_of most (names_after accounts.now account (option_copied after.entry))) }
{
    let walked = walk(alloc, accounts, account, most, after)?;
    let token = next_token(alloc, &walked)?;
    Ok(Outcome::Domains(walked.names, token))
}

// The names above the given one, `most` of them at most.
fn walk(
    alloc: Global,
    accounts: &Accounts,
    account: AccountId,
    most: u16,
    after: Option<&Text>,
) -> Result<Walked, OutOfMemory>
    ensures names { IfOk result (λ w. w.names ≡ take most (names_after accounts.now account (option_copied after.entry))) }
    ensures more { IfOk result (λ w. w.more ≡ nat_lt most (length (names_after accounts.now account (option_copied after.entry)))) }
{
    in_order(alloc, accounts, account)?;
    let mut names = Texts::new(alloc);
    let mut last = after;
    for _place in 0..most {
        let Some(name) = accounts.domain_after(account, last) else {
            return Ok(Walked { names, more: false });
        };
        names.push(name.copy(alloc)?)?;
        last = Some(name);
    }
    let more = accounts.domain_after(account, last).is_some();
    Ok(Walked { names, more })
}

// Each look-up of a domain tells that the accounts stand in order.
fn in_order(alloc: Global, accounts: &Accounts, account: AccountId) -> Result<(), OutOfMemory>
    ensures { OnOk result (AreAccounts accounts.now) }
{
    let name = Text::from_str(alloc, "")?;
    let _ = accounts.domain(account, &name);
    Ok(())
}

// The token of the last name, where more are left.
fn next_token(alloc: Global, walked: &Walked) -> Result<Option<Text>, OutOfMemory>
    ensures { IfOk result (λ t. t ≡ (if walked.now.more then token_of (last_of walked.now.names) else None)) }
{
    if !walked.more {
        return Ok(None);
    }
    match walked.names.as_slice().last() {
        Some(name) => token_after(alloc, name),
        None => Ok(None),
    }
}

fn token_after(alloc: Global, name: &Text) -> Result<Option<Text>, OutOfMemory>
    ensures { IfOk result (λ t. t ≡ token_of (Some name.now)) }
{
    let size = name.as_str().len();
    if size < 1 || size > 1_024 {
        return Ok(None);
    }
    let bound_to = bound_to(alloc)?;
    let position = Position {
        key: None,
        name: name.copy(alloc)?,
    };
    Ok(Some(write_token(alloc, &position, &bound_to)?))
}
