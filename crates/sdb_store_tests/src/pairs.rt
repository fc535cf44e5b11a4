// Tests of items and operations.
use sdb_base::{OutOfMemory, Text};
use sdb_pairs::{Item, ItemOut, Op, Ops, Pair, Pairs, merge};
use std::alloc::Global;
use std::test::Fail;

fn text(alloc: Global, s: &str) -> Result<Text, OutOfMemory> {
    Text::from_str(alloc, s)
}

fn pair(alloc: Global, name: &str, value: &str) -> Result<Pair, OutOfMemory> {
    Ok(Pair {
        name: text(alloc, name)?,
        value: text(alloc, value)?,
    })
}

fn item_of(alloc: Global, pairs: &[(&str, &str)]) -> Result<Item, OutOfMemory> {
    let mut ops = Ops::new(alloc);
    for (name, value) in pairs {
        ops.push(Op::AddPair(pair(alloc, name, value)?))?;
    }
    merge(alloc, &Item::new(alloc), &ops)
}

fn is_shown(pairs: &[Pair], wanted: &[(&str, &str)]) -> bool {
    if pairs.len() != wanted.len() {
        return false;
    }
    for (shown, wanted) in pairs.iter().zip(wanted) {
        if shown.name.as_str() != wanted.0 || shown.value.as_str() != wanted.1 {
            return false;
        }
    }
    true
}

#[test]
fn operations_apply_in_order(rt: HostRuntime) -> Result<(), Fail> {
    let alloc = rt.alloc();
    let old = item_of(alloc, &[("year", "1990"), ("title", "B"), ("title", "A")])?;
    assert!(rt;
        is_shown(
            old.pairs(),
            &[("title", "A"), ("title", "B"), ("year", "1990")]
        )
    );

    let mut ops = Ops::new(alloc);
    ops.push(Op::DropName(text(alloc, "title")?))?;
    ops.push(Op::AddPair(pair(alloc, "title", "C")?))?;
    ops.push(Op::AddPair(pair(alloc, "title", "A")?))?;
    ops.push(Op::AddPair(pair(alloc, "year", "1990")?))?;
    let new = merge(alloc, &old, &ops)?;
    assert!(rt;
        is_shown(
            new.pairs(),
            &[("title", "A"), ("title", "C"), ("year", "1990")]
        )
    );
    Ok(())
}

#[test]
fn an_item_is_shown_with_its_name(rt: HostRuntime) -> Result<(), Fail> {
    let alloc = rt.alloc();
    let item = item_of(alloc, &[("k", "v")])?;
    let mut pairs = Pairs::new(alloc);
    for pair in item.pairs() {
        pairs.push(pair)?;
    }
    let name = text(alloc, "i")?;
    let shown = ItemOut::new(&name, pairs);
    assert_eq!(rt; shown.name().as_str(), "i");
    assert_eq!(rt; shown.pairs().len(), 1);
    assert!(rt; !shown.pairs().is_empty());
    let first = shown.pairs().as_slice()[0];
    assert_eq!(rt; first.name.as_str(), "k");
    assert_eq!(rt; first.value.as_str(), "v");
    Ok(())
}
