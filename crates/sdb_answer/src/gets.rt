// What a get answers.
ghost use Rattle.std.specs.Prelude.{◌≡◌, ◌+◌, ◌≤◌, IfOk};
ghost use Rattle.sdb_answer.specs.Gets.{Finds, asked_pairs, got, is_asked as asks_for};
ghost use Rattle.sdb_pairs.specs.Accounts.{items_of, pairs_at};

use sdb_base::{AccountId, OutOfMemory, Steps, Text, Texts};
use sdb_domain::{Accounts, Domain};
use sdb_pairs::{Pair, Pairs};
use sdb_reply::Outcome;
use sdb_tables::Refusal;
use std::alloc::Global;
use std::collections::BTreeSet;

/// The pairs of an item that have one of the names, or all where there is no name, in their order.
pub(crate) fn get<'a, L>(
    alloc: Global,
    accounts: &'a Accounts,
    account: AccountId,
    domain: &Text,
    item: &Text,
    names: &Texts,
    items: &mut Steps<L>,
) -> Result<Outcome<'a>, OutOfMemory>
    ensures outcome { IfOk result (λ o. o ≡ got (items_of accounts.now account domain.now) item.now names.now) }
    ensures later { items.old ≤ items.new }
    ensures looks { items.new ≤ items.old + 1 }
{
    let Some(domain) = accounts.domain(account, domain) else {
        return Ok(Outcome::Refused(Refusal::NoSuchDomain));
    };
    let pairs = pairs_asked(alloc, pairs_of(domain, item, items), names)?;
    Ok(Outcome::Pairs(pairs))
}

// The pairs of an item, none where it isn't there.
fn pairs_of<'a, L>(domain: &'a Domain, name: &Text, items: &mut Steps<L>) -> &'a [Pair]
    ensures pairs { result.now ≡ pairs_at domain.now name.now }
    ensures ticks { items.new ≡ items.old + 1 }
{
    match domain.item(name, items) {
        Some(item) => item.pairs(),
        None => &[],
    }
}

fn pairs_asked<'a>(
    alloc: Global,
    pairs: &'a [Pair],
    names: &Texts,
) -> Result<Pairs<'a>, OutOfMemory>
    ensures { IfOk result (λ found. found ≡ asked_pairs names.now pairs.now) }
{
    let set = set_of(alloc, names)?;
    let mut found = Pairs::new(alloc);
    for pair in pairs {
        if is_asked(names, &set, pair) {
            found.push(pair)?;
        }
    }
    Ok(found)
}

// The names in order, so that none is compared with all of them.
fn set_of(alloc: Global, names: &Texts) -> Result<BTreeSet<&str>, OutOfMemory>
    ensures { IfOk result (λ set. Finds set.keys names.now) }
{
    let mut set = BTreeSet::new(alloc);
    for name in names.as_slice() {
        set.insert(name.as_str())?;
    }
    Ok(set)
}

fn is_asked(names: &Texts, set: &BTreeSet<&str>, pair: &Pair) -> bool
    requires { Finds set.now.keys names.now }
    ensures { result ≡ asks_for names.now pair.now }
{
    names.is_empty() || set.contains(pair.name.as_str())
}
