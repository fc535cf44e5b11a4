// Tests of changes, look-ups and numbers. A line stands for a change: `make` and `drop` a domain, and in an item of a
// domain `put` pairs, `take` pairs and all values of names, and `clear`.
use sdb_base::{AccountId, OutOfMemory, Steps, Text};
use sdb_domain::{Accounts, Domain, item_weight};
use sdb_pairs::{Change, Changes, Op, Ops, Pair};
use std::alloc::Global;
use std::fmt::Write;
use std::test::Fail;

const FIRST: AccountId = AccountId(1);

const LAST: AccountId = AccountId(16);

// Names what a counter counts.
struct Looked;

fn text(alloc: Global, s: &str) -> Result<Text, OutOfMemory> {
    Text::from_str(alloc, s)
}

// The line in two where its first blank stands.
fn cut(line: &str) -> (&str, &str) {
    line.split_once(' ').unwrap_or((line, ""))
}

fn op(alloc: Global, verb: &str, word: &str) -> Result<Op, OutOfMemory> {
    let Some((name, value)) = word.split_once('=') else {
        return Ok(Op::DropName(text(alloc, word)?));
    };
    let pair = Pair {
        name: text(alloc, name)?,
        value: text(alloc, value)?,
    };
    Ok(if verb == "put" {
        Op::AddPair(pair)
    } else {
        Op::DropPair(pair)
    })
}

fn ops(alloc: Global, verb: &str, words: &str) -> Result<Ops, OutOfMemory> {
    let mut ops = Ops::new(alloc);
    if verb == "clear" {
        ops.push(Op::DropAll)?;
    }
    for word in words.split_ascii_whitespace() {
        ops.push(op(alloc, verb, word)?)?;
    }
    Ok(ops)
}

fn change(alloc: Global, account: AccountId, line: &str) -> Result<Change, OutOfMemory> {
    let (verb, words) = cut(line);
    let (domain, words) = cut(words);
    let (item, words) = cut(words);
    let domain = text(alloc, domain)?;
    Ok(match verb {
        "make" => Change::MakeDomain(account, domain),
        "drop" => Change::DropDomain(account, domain),
        _ => Change::Edit(
            account,
            domain,
            text(alloc, item)?,
            ops(alloc, verb, words)?,
        ),
    })
}

// Applies the lines together.
fn apply(
    alloc: Global,
    accounts: &mut Accounts,
    account: AccountId,
    lines: &[&str],
) -> Result<(), OutOfMemory> {
    let mut changes = Changes::new(alloc);
    for line in lines {
        changes.push(change(alloc, account, line)?)?;
    }
    accounts.apply(&changes)
}

// The items of a domain, each with the number of its pairs, from name to name.
fn tell_items(told: &mut String, domain: &Domain) -> Result<(), Fail> {
    let mut looked = Steps::<Looked>::new();
    let mut last: Option<&Text> = None;
    for _item in 0..domain.item_count() {
        let Some((name, item)) = domain.scan(last, &mut looked) else {
            break;
        };
        let pairs = item.pairs().len();
        write!(told, " {}:{pairs}", name.as_str())?;
        last = Some(name);
    }
    Ok(())
}

// The domains of an account, each with its items, and then the number of domains and the weight.
fn told(alloc: Global, accounts: &Accounts, account: AccountId) -> Result<String, Fail> {
    let mut told = String::new(alloc);
    let mut last: Option<&Text> = None;
    let count = accounts.domain_count(account);
    for _domain in 0..count {
        let Some(name) = accounts.domain_after(account, last) else {
            break;
        };
        told.push_str(name.as_str())?;
        if let Some(domain) = accounts.domain(account, name) {
            tell_items(&mut told, domain)?;
        }
        told.push_str(", ")?;
        last = Some(name);
    }
    let weight = accounts.weight(account);
    write!(told, "{count} of weight {weight}")?;
    Ok(told)
}

#[test]
fn accounts_have_domains_and_these_their_items_in_order(rt: HostRuntime) -> Result<(), Fail> {
    let mut accounts = Accounts::new(rt.alloc());
    for (account, lines, wanted) in [
        (
            FIRST,
            ["put books i a=1"].as_slice(),
            "books i:1, 1 of weight 131",
        ),
        (
            LAST,
            &["put books i a=1 b=22"],
            "books i:2, 1 of weight 198",
        ),
        (FIRST, &["drop books"], "0 of weight 0"),
        (LAST, &[], "books i:2, 1 of weight 198"),
        (
            FIRST,
            &["make music", "make books"],
            "books, music, 2 of weight 0",
        ),
        (
            FIRST,
            &["make books", "drop none"],
            "books, music, 2 of weight 0",
        ),
        (
            FIRST,
            &["put books c k=v", "put books a k=v", "put books b k=v"],
            "books a:1 b:1 c:1, music, 2 of weight 393",
        ),
        (
            FIRST,
            &[
                "clear books b",
                "clear books d",
                "take books c k=w",
                "take books a k",
            ],
            "books c:1, music, 2 of weight 131",
        ),
        (
            FIRST,
            &[
                "make art",
                "put books c l=w",
                "drop books",
                "put films j a=1",
            ],
            "art, films j:1, music, 3 of weight 131",
        ),
    ] {
        apply(rt.alloc(), &mut accounts, account, lines)?;
        let words = told(rt.alloc(), &accounts, account)?;
        assert_eq!(rt; words.as_str(), wanted);
    }
    Ok(())
}

// Whether a domain's items are the same by `scan_all` and by `items`, and as many as it says; and whether it has an
// item of the name by `item` and by `held_name`.
fn looks_agree(alloc: Global, domain: &Domain, name: &Text) -> Result<(bool, bool, bool), Fail> {
    let mut looked = Steps::<Looked>::new();
    let rows = domain.scan_all(alloc, &mut looked)?;
    let names = domain.items(&mut looked).map(|(name, _)| name);
    let agree = names.eq(rows.iter().map(|row| row.name));
    let is_there = domain.item(name, &mut looked).is_some();
    let is_named = domain.held_name(name).is_some_and(|held| held == name);
    Ok((agree, is_there, is_named))
}

#[test]
fn each_way_to_an_item_finds_it(rt: HostRuntime) -> Result<(), Fail> {
    let alloc = rt.alloc();
    let mut accounts = Accounts::new(alloc);
    let lines = [
        "put books c k=v",
        "put books a k=v",
        "put books b k=v",
        "clear books b",
    ];
    apply(alloc, &mut accounts, FIRST, &lines)?;
    let books = accounts
        .domain(FIRST, &text(alloc, "books")?)
        .ok_or("no domain")?;
    for (name, is_there) in [("a", true), ("b", false), ("c", true)] {
        let looks = looks_agree(alloc, books, &text(alloc, name)?)?;
        assert_eq!(rt; looks, (true, is_there, is_there));
    }
    Ok(())
}

#[test]
fn weights_and_printed_forms(rt: HostRuntime) -> Result<(), Fail> {
    let alloc = rt.alloc();
    let mut accounts = Accounts::new(alloc);
    let line = "put books b1 title=Emma year=1815";
    apply(alloc, &mut accounts, FIRST, &[line])?;
    let books = accounts
        .domain(FIRST, &text(alloc, "books")?)
        .ok_or("no domain")?;
    let name = text(alloc, "b1")?;
    let mut looked = Steps::<Looked>::new();
    let item = books.item(&name, &mut looked).ok_or("no item")?;
    assert_eq!(rt; item_weight(&name, item.pairs()), Some(66 + 73 + 72));
    let printed = format!(in alloc; "{books:?} {accounts:?}")?;
    assert_eq!(rt; printed.as_str(), "Domain { .. } Accounts { .. }");
    Ok(())
}
