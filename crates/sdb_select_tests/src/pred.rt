// Tests of conditions over items.
use sdb_base::Text;
use sdb_pairs::{Item, Op, Ops, Pair, merge};
use sdb_parse::parse;
use sdb_pred::holds;
use std::alloc::Global;
use std::test::Fail;

fn item_of(alloc: Global, pairs: &[(&str, &str)]) -> Result<Item, Fail> {
    let mut ops = Ops::new(alloc);
    for (name, value) in pairs {
        ops.push(Op::AddPair(Pair {
            name: Text::from_str(alloc, name)?,
            value: Text::from_str(alloc, value)?,
        }))?;
    }
    Ok(merge(alloc, &Item::new(alloc), &ops)?)
}

// Whether the item of that name holds the condition.
fn is_held(alloc: Global, condition: &str, name: &str, item: &Item) -> Result<bool, Fail> {
    let mut line = String::from_str(alloc, "select * from d where ")?;
    line.push_str(condition)?;
    let select = parse(alloc, &Text::from_string(line))?;
    match &select.cond {
        Some(cond) => Ok(holds(cond, &Text::from_str(alloc, name)?, item)),
        None => Ok(false),
    }
}

#[test]
fn conditions_find_items(rt: HostRuntime) -> Result<(), Fail> {
    let alloc = rt.alloc();
    let first = item_of(
        alloc,
        &[
            ("keyword", "Book"),
            ("keyword", "Hardcover"),
            ("pages", "100"),
        ],
    )?;
    let second = item_of(alloc, &[("keyword", "Book")])?;
    for (condition, in_first, in_second) in [
        ("keyword = 'Book' and keyword = 'Hardcover'", false, false),
        (
            "keyword = 'Book' and pages = '100' and keyword = 'Hardcover'",
            false,
            false,
        ),
        ("keyword = 'Book' and pages = '100'", true, false),
        (
            "keyword = 'Book' intersection keyword = 'Hardcover'",
            true,
            false,
        ),
        (
            "keyword > 'A' and (keyword = 'Hardcover' or keyword = 'x')",
            true,
            false,
        ),
        (
            "keyword < 'C' and (keyword = 'Hardcover' or keyword = 'x')",
            false,
            false,
        ),
        ("keyword != 'Book'", true, false),
        ("not (keyword = 'Book')", false, false),
        ("every(keyword) in ('Book')", false, true),
        ("every(none) = 'x'", false, false),
        ("not every(none) = 'x'", true, true),
        ("pages is null", false, true),
        ("pages is not null and itemName() = 'i1'", true, false),
        ("itemName() is null", false, false),
        ("itemName() is not null", true, true),
        ("pages like '1%' or itemName() > 'i1'", true, true),
    ] {
        assert_eq!(rt;
            is_held(alloc, condition, "i1", &first)?,
            in_first,
            "{condition}"
        );
        assert_eq!(rt;
            is_held(alloc, condition, "i2", &second)?,
            in_second,
            "{condition}"
        );
    }
    let empty = item_of(alloc, &[("k", "")])?;
    assert!(rt; is_held(alloc, "k is not null", "e", &empty)?);
    Ok(())
}
