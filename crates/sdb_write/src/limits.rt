// The limits of what an item, a domain and an account hold.
ghost use Rattle.std.specs.Prelude.{◌≡◌, ◌+◌, ◌<◌, ◌^◌, length, IfOk};
ghost use Rattle.std.specs.Option.{SomeIff, option_copied};
ghost use Rattle.sdb_domain.specs.Weights.{account_weight, domains_of, item_weight};
ghost use Rattle.sdb_pairs.specs.Accounts.{items_of};
ghost use Rattle.sdb_write.specs.Checks.{Checks};
ghost use Rattle.sdb_write.specs.Limits.{domains_above, item_above, sums_above};
ghost use Rattle.sdb_write.specs.Totals.{exchanged, item_adds, made_above, moved, totals_above, totals_of};

use sdb_base::{AccountId, OutOfMemory, Text};
use sdb_domain::{Accounts, Domain, item_weight};
use sdb_pairs::Pair;
use sdb_tables::Refusal;

// The greatest number of pairs of an item.
const ITEM_PAIRS: u64 = 256;
// The greatest number of pairs of a domain.
const DOMAIN_PAIRS: u64 = 250_000;
// The greatest weight of a domain.
const DOMAIN_WEIGHT: u64 = 33_554_432;
// The greatest weight of an account.
const ACCOUNT_WEIGHT: u64 = 67_108_864;
// The greatest number of domains of an account.
const DOMAINS: u64 = 250;

// The number of pairs of a domain and its weight, while a write goes over its items.
#[derive(Clone, Copy, Debug)]
pub(crate) struct Totals {
    pairs: u64,
    weight: u64,
}

impl Totals {
    // Those of the domain as it is.
    pub(crate) fn of(domain: &Domain) -> Totals
        ensures { result ≡ totals_of domain.now }
    {
        Totals {
            pairs: domain.pair_count(),
            weight: domain.weight(),
        }
    }

    // Those once the item has the new pairs in the place of the old. A sum that reaches 2^64 is want of memory.
    pub(crate) fn exchange(
        self,
        name: &Text,
        old: &[Pair],
        new: &[Pair],
    ) -> Result<Totals, OutOfMemory>
        ensures { IfOk result (λ totals. totals ≡ exchanged self name.now old.now new.now) }
    {
        let pairs = move_sum(self.pairs, old.len() as u64, new.len() as u64)?;
        let weight = move_sum(self.weight, weigh(name, old)?, weigh(name, new)?)?;
        Ok(Totals { pairs, weight })
    }

    // Whether the domain may hold so much, and its account with its other domains.
    pub(crate) fn check(
        self,
        accounts: &Accounts,
        account: AccountId,
        domain: &Domain,
    ) -> Result<(), Refusal>
        ensures { Checks (totals_above accounts.now account domain.now self) result }
    {
        let all = move_sum(accounts.weight(account), domain.weight(), self.weight)?;
        check_sums(self.pairs, self.weight, all)
    }
}

// Whether an item may have these pairs.
pub(crate) fn check_item(pairs: &[Pair]) -> Result<(), Refusal>
    ensures { Checks (item_above (length pairs.now)) result }
{
    let count = pairs.len() as u64;
    if count > ITEM_PAIRS {
        return Err(Refusal::NumberItemAttributesExceeded(count));
    }
    Ok(())
}

// Whether a domain may be made. One that is there is no further domain, and is checked for what it holds.
pub(crate) fn check_made(
    accounts: &Accounts,
    account: AccountId,
    domain: Option<&Domain>,
) -> Result<(), Refusal>
    ensures { Checks (made_above (option_copied domain.entry) (account_weight accounts.now account) (length (domains_of accounts.now account))) result }
{
    let all = accounts.weight(account);
    match domain {
        Some(domain) => check_sums(domain.pair_count(), domain.weight(), all),
        None => {
            check_sums(0, 0, all)?;
            check_count(accounts.domain_count(account))
        }
    }
}

// Whether an account of so many domains may have one more.
fn check_count(domains: u64) -> Result<(), Refusal>
    ensures { Checks (domains_above (domains + 1)) result }
{
    let more = domains.checked_add(1).ok_or(OutOfMemory)?;
    if more > DOMAINS {
        return Err(Refusal::NumberDomainsExceeded(more));
    }
    Ok(())
}

// Whether a domain may hold so much, in an account of that weight.
fn check_sums(pairs: u64, weight: u64, all: u64) -> Result<(), Refusal>
    ensures { Checks (sums_above pairs weight all) result }
{
    if pairs > DOMAIN_PAIRS {
        return Err(Refusal::NumberDomainAttributesExceeded(pairs));
    }
    if weight > DOMAIN_WEIGHT {
        return Err(Refusal::NumberDomainBytesExceeded(weight));
    }
    if all > ACCOUNT_WEIGHT {
        return Err(Refusal::NumberDomainBytesExceeded(all));
    }
    Ok(())
}

// The weight of an item of these pairs; without pairs there is none.
fn weigh(name: &Text, pairs: &[Pair]) -> Result<u64, OutOfMemory>
    ensures { IfOk result (λ weight. weight ≡ item_adds item_weight name.now pairs.now) }
{
    if pairs.is_empty() {
        return Ok(0);
    }
    item_weight(name, pairs).ok_or(OutOfMemory)
}

// A sum once `new` stands in the place of `old`, which is part of it.
fn move_sum(sum: u64, old: u64, new: u64) -> Result<u64, OutOfMemory>
    ensures { IfOk result (λ after. after ≡ moved sum old new) }
{
    let with_new = sum.checked_add(new).ok_or(OutOfMemory)?;
    Ok(with_new.saturating_sub(old))
}
