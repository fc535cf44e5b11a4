//! Prices, worked by hand from the table of docs/PROFILE.md.

use sdb_action::{Action, PutItem, PutItems, PutPair, PutPairs, Request};
use sdb_base::Text;
use sdb_cost::{print_units, units};
use sdb_reply::Outcome;
use sdb_tables::Refusal;
use std::alloc::Global;
use std::test::Fail;

fn text(alloc: Global, s: &str) -> Result<Text, Fail> {
    Ok(Text::from_str(alloc, s)?)
}

fn one_pair(alloc: Global) -> Result<PutPairs, Fail> {
    let name = text(alloc, "k")?;
    let value = text(alloc, "v")?;
    let mut pairs = PutPairs::new(alloc);
    pairs.push(PutPair {
        name,
        value,
        replace: false,
    })?;
    Ok(pairs)
}

fn put_item(alloc: Global) -> Result<PutItem, Fail> {
    let name = text(alloc, "i")?;
    let pairs = one_pair(alloc)?;
    Ok(PutItem { name, pairs })
}

// A batch of 25 items of one attribute each.
fn batch(alloc: Global) -> Result<Request, Fail> {
    let mut items = PutItems::new(alloc);
    for _ in 0..25 {
        items.push(put_item(alloc)?)?;
    }
    Ok(Request::BatchPut(text(alloc, "books")?, items))
}

#[test]
fn a_batch_costs_its_items_and_their_attributes(rt: HostRuntime) -> Result<(), Fail> {
    let request = batch(rt.alloc())?;
    let done = Outcome::Done(Action::BatchPutAttributes);
    assert_eq!(rt; units(Some(&request), &done, 0), 19_500);
    let refused = Outcome::Refused(Refusal::NoSuchDomain);
    assert_eq!(rt; units(Some(&request), &refused, 0), 1_000);
    assert_eq!(rt; units(None, &refused, 0), 1_000);
    Ok(())
}

#[test]
fn a_count_costs_its_bound(rt: HostRuntime) -> Result<(), Fail> {
    let request = Request::Select(text(rt.alloc(), "select count(*) from books")?, None);
    let count = Outcome::Count(4, None);
    assert_eq!(rt; units(Some(&request), &count, 7), 1_640);
    assert_eq!(rt; units(Some(&request), &count, u64::MAX), u64::MAX);
    Ok(())
}

#[test]
fn units_are_printed_as_hours(rt: HostRuntime) -> Result<(), Fail> {
    assert_eq!(rt; print_units(rt.alloc(), 19_500)?.as_str(), "0.0000019500");
    let most = print_units(rt.alloc(), u64::MAX)?;
    assert_eq!(rt; most.as_str(), "1844674407.3709551615");
    Ok(())
}
