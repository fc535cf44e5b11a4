// Tests of orders, pages and counts, worked by hand.
use sdb_base::{AccountId, OutOfMemory, Steps, Text};
use sdb_domain::{Accounts, Domain};
use sdb_page::{Page, select, walk};
use sdb_pairs::{Change, Changes, Op, Ops, Pair};
use sdb_parse::parse;
use sdb_token::Position;
use std::alloc::Global;
use std::fmt::Write;
use std::process::Abort;
use std::test::Fail;

const ACCOUNT: AccountId = AccountId(1);

const FALLING: &str = "select itemName() from dom where k is not null order by k desc limit 1";

// What is counted.
struct Looked;

fn text(alloc: Global, s: &str) -> Result<Text, OutOfMemory> {
    Text::from_str(alloc, s)
}

// Puts an item with these pairs into the domain `dom`.
fn put(
    accounts: &mut Accounts,
    alloc: Global,
    item: &str,
    pairs: &[(&str, &str)],
) -> Result<(), OutOfMemory> {
    let mut ops = Ops::new(alloc);
    for (name, value) in pairs {
        ops.push(Op::AddPair(Pair {
            name: text(alloc, name)?,
            value: text(alloc, value)?,
        }))?;
    }
    change(accounts, alloc, item, ops)
}

fn delete(accounts: &mut Accounts, alloc: Global, item: &str) -> Result<(), OutOfMemory> {
    let mut ops = Ops::new(alloc);
    ops.push(Op::DropAll)?;
    change(accounts, alloc, item, ops)
}

fn change(accounts: &mut Accounts, alloc: Global, item: &str, ops: Ops) -> Result<(), OutOfMemory> {
    let mut changes = Changes::new(alloc);
    changes.push(Change::Edit(ACCOUNT, text(alloc, "dom")?, text(alloc, item)?, ops))?;
    accounts.apply(&changes)
}

// The items a with k = 1 and 5, b with k = 5, c with k = 3, and d without k.
fn four_items(alloc: Global) -> Result<Accounts, OutOfMemory> {
    let mut accounts = Accounts::new(alloc);
    put(&mut accounts, alloc, "a", &[("k", "1"), ("k", "5")])?;
    put(&mut accounts, alloc, "b", &[("k", "5")])?;
    put(&mut accounts, alloc, "c", &[("k", "3"), ("l", "1")])?;
    put(&mut accounts, alloc, "d", &[("l", "2")])?;
    Ok(accounts)
}

// The items x000 to x999, each with its number as k, and g = a.
fn thousand_items(alloc: Global) -> Result<Accounts, Fail> {
    let mut accounts = Accounts::new(alloc);
    for number in 0..1000 {
        let digits = format!(in alloc; "{number:03}")?;
        let name = format!(in alloc; "x{digits}")?;
        put(
            &mut accounts,
            alloc,
            name.as_str(),
            &[("k", digits.as_str()), ("g", "a")],
        )?;
    }
    Ok(accounts)
}

// The page of the expression after a position, of which callers learn nothing else.
fn selected<'a>(
    alloc: Global,
    domain: &'a Domain,
    expression: &str,
    after: Option<&Position>,
) -> Result<Page<'a>, Fail> {
    let parsed = parse(alloc, &text(alloc, expression)?)?;
    let mut looked = Steps::<Looked>::new();
    Ok(select(alloc, domain, &parsed, after, &mut looked)?)
}

// The page of the expression after a position: its names, each with its number of pairs, or its count, `more` where
// a position comes with it, and its bound.
fn page(
    alloc: Global,
    accounts: &Accounts,
    expression: &str,
    after: Option<&Position>,
) -> Result<(String, Option<Position>), Fail> {
    let mut shown = String::new(alloc);
    let Some(domain) = accounts.domain(ACCOUNT, &text(alloc, "dom")?) else {
        return Ok((shown, None));
    };
    let page = selected(alloc, domain, expression, after)?;
    for item in page.items.as_slice() {
        let pairs = item.pairs().len();
        write!(shown, "{}:{pairs} ", item.name().as_str())?;
    }
    if let Some(count) = page.count {
        write!(shown, "{count} ")?;
    }
    if page.next.is_some() {
        shown.push_str("more ")?;
    }
    write!(shown, "of {}", page.bound)?;
    Ok((shown, page.next))
}

// Compares the pages of the expression one after the other, the first after a position, and gives the last one's.
fn pages(
    rt: &(impl Abort + AllocGlobal),
    accounts: &Accounts,
    expression: &str,
    after: Option<Position>,
    wanted: &[&str],
) -> Result<Option<Position>, Fail> {
    let mut after = after;
    for words in wanted {
        let (shown, next) = page(rt.alloc(), accounts, expression, after.as_ref())?;
        assert_eq!(rt; shown.as_str(), *words, "{expression}");
        after = next;
    }
    Ok(after)
}

#[test]
fn an_order_falls_by_the_greatest_value(rt: HostRuntime) -> Result<(), Fail> {
    let accounts = four_items(rt.alloc())?;
    let wanted = ["a:0 more of 3", "b:0 more of 3", "c:0 of 3"];
    pages(&rt, &accounts, FALLING, None, &wanted)?;
    Ok(())
}

#[test]
fn an_order_rises_by_the_least_value(rt: HostRuntime) -> Result<(), Fail> {
    let accounts = four_items(rt.alloc())?;
    for (expression, wanted) in [
        (
            "select k from dom where k > '0' order by k",
            "a:2 c:1 b:1 of 3",
        ),
        ("select * from dom where k = '5'", "a:2 b:1 of 2"),
        ("select k from dom", "a:2 b:1 c:1 d:0 of 4"),
        (
            "select * from dom where itemName() > '' order by itemName() desc",
            "d:1 c:2 b:1 a:2 of 4",
        ),
        (
            "select itemName() from dom where itemName() in ('b', 'a', 'x')",
            "a:0 b:0 of 2",
        ),
        ("select l from dom where k = '3' or l = '2'", "c:1 d:1 of 2"),
        ("select l from dom where k = '1' and k = '5'", "of 0"),
        (
            "select l from dom where k = '1' intersection k = '5'",
            "a:0 of 1",
        ),
        ("select l from dom where not k = '5'", "c:1 d:1 of 4"),
        ("select count(*) from dom", "4 of 4"),
    ] {
        pages(&rt, &accounts, expression, None, &[wanted])?;
    }
    Ok(())
}

#[test]
fn the_item_of_a_position_need_not_be_there(rt: HostRuntime) -> Result<(), Fail> {
    let alloc = rt.alloc();
    let mut accounts = four_items(alloc)?;
    let after = pages(&rt, &accounts, FALLING, None, &["a:0 more of 3"])?;
    delete(&mut accounts, alloc, "a")?;
    put(&mut accounts, alloc, "0", &[("k", "5")])?;
    put(&mut accounts, alloc, "aa", &[("k", "5")])?;
    let wanted = ["aa:0 more of 4", "b:0 more of 4", "c:0 of 4"];
    pages(&rt, &accounts, FALLING, after, &wanted)?;
    Ok(())
}

#[test]
fn a_count_has_pages_by_its_limit_alone(rt: HostRuntime) -> Result<(), Fail> {
    let nums = thousand_items(rt.alloc())?;
    let counted = "select count(*) from dom where g = 'a' limit 400";
    let wanted = ["400 more of 1000", "400 more of 1000", "200 of 1000"];
    pages(&rt, &nums, counted, None, &wanted)?;
    let few = "select count(*) from dom where k like '10%'";
    pages(&rt, &nums, few, None, &["10 of 10"])?;
    Ok(())
}

// A text of 1,024 bytes that begins so.
fn long(alloc: Global, front: &str) -> Result<String, OutOfMemory> {
    let mut text = String::from_str(alloc, front)?;
    for _byte in front.len()..1024 {
        text.push('-')?;
    }
    Ok(text)
}

// An item whose name and whose pairs' names and values have 1,024 bytes each.
fn put_long(accounts: &mut Accounts, alloc: Global, name: &str, pairs: usize) -> Result<(), Fail> {
    let attribute = long(alloc, "n")?;
    let mut ops = Ops::new(alloc);
    for number in 0..pairs {
        let value = long(alloc, format!(in alloc; "{number}")?.as_str())?;
        ops.push(Op::AddPair(Pair {
            name: text(alloc, attribute.as_str())?,
            value: Text::from_string(value),
        }))?;
    }
    Ok(change(accounts, alloc, long(alloc, name)?.as_str(), ops)?)
}

// How many items the pages of the whole of the domain have.
fn sizes(alloc: Global, accounts: &Accounts) -> Result<(usize, usize), Fail> {
    let Some(domain) = accounts.domain(ACCOUNT, &text(alloc, "dom")?) else {
        return Ok((0, 0));
    };
    let all = "select * from dom";
    let first = selected(alloc, domain, all, None)?;
    let second = selected(alloc, domain, all, first.next.as_ref())?;
    Ok((first.items.len(), second.items.len()))
}

#[test]
fn a_page_has_at_most_so_many_bytes(rt: HostRuntime) -> Result<(), Fail> {
    let alloc = rt.alloc();
    let mut accounts = Accounts::new(alloc);
    put_long(&mut accounts, alloc, "1", 256)?;
    put_long(&mut accounts, alloc, "2", 255)?;
    put(&mut accounts, alloc, "3", &[("k", "1")])?;
    assert_eq!(rt; sizes(alloc, &accounts)?, (2, 1));
    put(
        &mut accounts,
        alloc,
        long(alloc, "2")?.as_str(),
        &[("n", "")],
    )?;
    assert_eq!(rt; sizes(alloc, &accounts)?, (1, 2));
    Ok(())
}

// How many items the walk gives, and whether their names rise.
fn walked(alloc: Global, domain: &Domain, expression: &str) -> Result<(usize, bool), Fail> {
    let parsed = parse(alloc, &text(alloc, expression)?)?;
    let mut looked = Steps::<Looked>::new();
    let items = walk(alloc, domain, &parsed, &mut looked)?;
    let mut rises = true;
    let mut last: Option<&Text> = None;
    for item in items.as_slice() {
        rises = rises && last.is_none_or(|last| last < item.name());
        last = Some(item.name());
    }
    Ok((items.len(), rises))
}

#[test]
fn a_walk_gives_each_item_once(rt: HostRuntime) -> Result<(), Fail> {
    let alloc = rt.alloc();
    let accounts = thousand_items(alloc)?;
    match accounts.domain(ACCOUNT, &text(alloc, "dom")?) {
        Some(domain) => {
            assert_eq!(rt;
                walked(alloc, domain, "select * from dom limit 7")?,
                (1000, true)
            );
        }
        None => assert!(rt; false),
    }
    Ok(())
}
