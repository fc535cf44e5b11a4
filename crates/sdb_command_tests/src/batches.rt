// Tests of batches over lines.
use crate::bare::{is_refused, shows};
use std::alloc::Global;
use std::fmt::Write;
use std::test::Fail;

const BOOKS: &str = "Action=CreateDomain&DomainName=books\n";

const BATCH_PUT: &str = "Action=BatchPutAttributes&DomainName=books";

const GET: &str = "\nAction=GetAttributes&DomainName=books&ItemName=";

// Appends items `i0`, `i1` and on, each with the pair of `a` and `x`.
fn push_items(line: &mut String, count: usize) -> Result<(), Fail> {
    for number in 0..count {
        write!(
            line,
            "&Item.{number}.ItemName=i{number}&Item.{number}.Attribute.1.Name=a&Item.{number}.Attribute.1.Value=x"
        )?;
    }
    Ok(())
}

// The line that makes the domain and then a batch of so many items.
fn batch_of(alloc: Global, count: usize) -> Result<String, Fail> {
    let mut lines = format!(in alloc; "{BOOKS}{BATCH_PUT}")?;
    push_items(&mut lines, count)?;
    Ok(lines)
}

#[test]
fn a_batch_puts_up_to_25_items(rt: HostRuntime) -> Result<(), Fail> {
    let mut lines = batch_of(rt.alloc(), 25)?;
    let parts = [
        "<BatchPutAttributesResponse",
        "<BoxUsage>0.0000019500</BoxUsage>",
    ];
    shows(&rt, lines.as_str(), &parts)?;
    write!(&mut lines, "{GET}i24")?;
    let pair = "<Attribute><Name>a</Name><Value>x</Value></Attribute>";
    shows(&rt, lines.as_str(), &[pair])?;
    let more = batch_of(rt.alloc(), 26)?;
    is_refused(&rt, more.as_str(), "NumberSubmittedItemsExceeded")
}

#[test]
fn batches_are_refused(rt: HostRuntime) -> Result<(), Fail> {
    for (line, code) in [
        (
            "Action=BatchPutAttributes&DomainName=books&Item.1.ItemName=i&Item.1.Attribute.1.Name=a&Item.1.Attribute.1.Value=x",
            "NoSuchDomain",
        ),
        (
            "Action=BatchDeleteAttributes&DomainName=books&Item.1.ItemName=i",
            "NoSuchDomain",
        ),
        (
            "Action=CreateDomain&DomainName=books\nAction=BatchPutAttributes&DomainName=books&Item.1.ItemName=i&Item.1.Attribute.1.Name=a&Item.1.Attribute.1.Value=x&Item.9.ItemName=i&Item.9.Attribute.1.Name=b&Item.9.Attribute.1.Value=y",
            "DuplicateItemName",
        ),
    ] {
        is_refused(&rt, line, code)?;
    }
    Ok(())
}

// The domain with an item `full` of 256 pairs, and then a batch of 24 items and one more pair of that item.
fn batch_above_a_limit(alloc: Global) -> Result<String, Fail> {
    let mut lines = format!(in alloc;
        "{BOOKS}Action=PutAttributes&DomainName=books&ItemName=full"
    )?;
    for number in 0..256 {
        write!(
            &mut lines,
            "&Attribute.{number}.Name=p{number}&Attribute.{number}.Value=x"
        )?;
    }
    write!(&mut lines, "\n{BATCH_PUT}")?;
    push_items(&mut lines, 24)?;
    lines.push_str(
        "&Item.24.ItemName=full&Item.24.Attribute.1.Name=q&Item.24.Attribute.1.Value=x",
    )?;
    Ok(lines)
}

#[test]
fn a_batch_whose_last_item_is_too_large_puts_none(rt: HostRuntime) -> Result<(), Fail> {
    let mut lines = batch_above_a_limit(rt.alloc())?;
    is_refused(&rt, lines.as_str(), "NumberItemAttributesExceeded")?;
    write!(&mut lines, "{GET}i0")?;
    let nothing = "<GetAttributesResult></GetAttributesResult>";
    shows(&rt, lines.as_str(), &[nothing])
}

#[test]
fn a_batch_deletes_parts_and_whole_items(rt: HostRuntime) -> Result<(), Fail> {
    let mut lines = batch_of(rt.alloc(), 3)?;
    lines.push_str(
        "\nAction=BatchDeleteAttributes&DomainName=books&Item.1.ItemName=i0&Item.2.ItemName=i1&Item.2.Attribute.1.Name=a&Item.2.Attribute.1.Value=y",
    )?;
    let parts = [
        "<BatchDeleteAttributesResponse",
        "<BoxUsage>0.0000003200</BoxUsage>",
    ];
    shows(&rt, lines.as_str(), &parts)?;
    for (item, part) in [
        ("i0", "<GetAttributesResult></GetAttributesResult>"),
        ("i1", "<Value>x</Value>"),
        ("i2", "<Value>x</Value>"),
    ] {
        let get = format!(in rt.alloc(); "{}{GET}{item}", lines.as_str())?;
        shows(&rt, get.as_str(), &[part])?;
    }
    Ok(())
}
