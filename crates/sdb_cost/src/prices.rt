// The price of each action.
ghost use Rattle.std.specs.Prelude.{◌≡◌, ◌+◌, ◌*◌, sum_by, length};
ghost use Rattle.std.specs.Option.{option_copied};
ghost use Rattle.sdb_cost.specs.Units.{capped, is_refused as refuses, items_answered, names_answered, pairs_answered, price, units_of};

use sdb_action::{DropItem, PutItem, Request};
use sdb_pairs::ItemOut;
use sdb_reply::Outcome;

// The units of a refused request, and of making or deleting a domain.
const REFUSED: u64 = 1_000;

const DOMAIN: u64 = 50_000;

/// The units of a request with its outcome, at most 2^64 - 1. The request is `None` where none was read.
/// Of a Select `bound` is the number of items that it is thought to look at. It takes no memory.
#[tactic(auto, unfolding(crate::specs::Units::units_of))]
pub fn units<'a>(request: Option<&Request>, outcome: &Outcome<'a>, bound: u64) -> u64
    ensures { result ≡ units_of (option_copied request.entry) outcome.now bound }
{
    let Some(request) = request else {
        return REFUSED;
    };
    if is_refused(outcome) {
        return REFUSED;
    }
    price(request, outcome, bound)
}

fn is_refused<'a>(outcome: &Outcome<'a>) -> bool
    ensures { result ≡ refuses outcome.now }
{
    matches!(outcome, Outcome::Refused(_))
}

fn price<'a>(request: &Request, outcome: &Outcome<'a>, bound: u64) -> u64
    ensures { result ≡ capped (price request.now outcome.now bound) }
{
    match request {
        Request::CreateDomain(_) | Request::DeleteDomain(_) => DOMAIN,
        Request::DomainMetadata(_) => 5_000,
        Request::ListDomains(_, _) => plus(1_000, 100, names_answered(outcome)),
        Request::Put(_, item, _) => plus(2_000, 200, item.pairs.len() as u64),
        Request::Delete(_, item, _) => plus(2_000, 200, item.parts.len() as u64),
        Request::BatchPut(_, items) => batch(items.len() as u64, pairs_of(items.as_slice())),
        Request::BatchDelete(_, items) => batch(items.len() as u64, parts_of(items.as_slice())),
        Request::Get(_, _, _) => plus(1_000, 50, pairs_answered(outcome)),
        Request::Select(_, _) => {
            let looked = plus(1_500, 20, bound);
            let items = plus(looked, 100, items_answered(outcome));
            plus(items, 50, pairs_answered(outcome))
        }
    }
}

// The price of a batch of so many items with so many attributes.
fn batch(items: u64, attributes: u64) -> u64
    ensures { result ≡ capped (2000 + 500 * items + 200 * attributes) }
{
    plus(plus(2_000, 500, items), 200, attributes)
}

// A price for each of so many more.
fn plus(sum: u64, price: u64, count: u64) -> u64
    ensures { result ≡ capped (sum + price * count) }
{
    sum.saturating_add(price.saturating_mul(count))
}

fn names_answered<'a>(outcome: &Outcome<'a>) -> u64
    ensures { result ≡ names_answered outcome.now }
{
    match outcome {
        Outcome::Domains(names, _) => names.len() as u64,
        _ => 0,
    }
}

fn items_answered<'a>(outcome: &Outcome<'a>) -> u64
    ensures { result ≡ items_answered outcome.now }
{
    match outcome {
        Outcome::Items(shown, _) => shown.len() as u64,
        _ => 0,
    }
}

fn pairs_answered<'a>(outcome: &Outcome<'a>) -> u64
    ensures { result ≡ capped (pairs_answered outcome.now) }
{
    match outcome {
        Outcome::Pairs(pairs) => pairs.len() as u64,
        Outcome::Items(shown, _) => pairs_shown(shown.as_slice()),
        _ => 0,
    }
}

fn pairs_shown<'a>(items: &[ItemOut<'a>]) -> u64
    ensures { result ≡ capped (sum_by (λ item. length item.pairs) items.now) }
{
    let mut count: u64 = 0;
    for item in items {
        count = count.saturating_add(item.pairs().len() as u64);
    }
    count
}

fn pairs_of(items: &[PutItem]) -> u64
    ensures { result ≡ capped (sum_by (λ item. length item.pairs) items.now) }
{
    let mut count: u64 = 0;
    for item in items {
        count = count.saturating_add(item.pairs.len() as u64);
    }
    count
}

fn parts_of(items: &[DropItem]) -> u64
    ensures { result ≡ capped (sum_by (λ item. length item.parts) items.now) }
{
    let mut count: u64 = 0;
    for item in items {
        count = count.saturating_add(item.parts.len() as u64);
    }
    count
}
