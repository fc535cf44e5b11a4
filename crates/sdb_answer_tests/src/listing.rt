// The text of accounts with domains.
use sdb_base::{AccountId, Text};
use sdb_domain::Accounts;
use sdb_listing::listing;
use sdb_pairs::{Change, Changes, Op, Ops, Pair};
use std::alloc::Global;
use std::test::Fail;

fn text(alloc: Global, s: &str) -> Result<Text, Fail> {
    Ok(Text::from_str(alloc, s)?)
}

fn put(alloc: Global, item: &str) -> Result<Change, Fail> {
    let pair = Pair {
        name: text(alloc, "k")?,
        value: text(alloc, "1")?,
    };
    let mut ops = Ops::new(alloc);
    ops.push(Op::AddPair(pair))?;
    Ok(Change::Edit(AccountId(1), text(alloc, "books")?, text(alloc, item)?, ops))
}

// Accounts, domains and items are counted whatever the order in which they came.
#[test]
fn each_domain_has_its_line(rt: HostRuntime) -> Result<(), Fail> {
    let alloc = rt.alloc();
    let mut accounts = Accounts::new(alloc);
    let empty = listing(alloc, &accounts, 0)?;
    assert_eq!(rt; empty.as_slice(), b"sequence 0\n".as_slice());

    let mut changes = Changes::new(alloc);
    changes.push(Change::MakeDomain(AccountId(16), text(alloc, "last")?))?;
    changes.push(put(alloc, "i2")?)?;
    changes.push(put(alloc, "i1")?)?;
    changes.push(Change::MakeDomain(AccountId(1), text(alloc, "alba")?))?;
    accounts.apply(&changes)?;
    let full = listing(alloc, &accounts, 2)?;
    assert_eq!(rt;
        full.as_slice(),
        b"sequence 2\n1 alba 0 0\n1 books 2 2\n16 last 0 0\n".as_slice()
    );
    Ok(())
}
