// The results of the actions that read.
ghost use Rattle.std.specs.Prelude.{◌≡◌, ◌++◌, OnOk};
ghost use Rattle.std.specs.List.{flat_map};
ghost use Rattle.sdb_pairs.specs.Listing.{lent};
ghost use Rattle.sdb_reply.specs.Elements.{element};
ghost use Rattle.sdb_reply.specs.Results.{attribute, attributes, count, counted, domain_name, domains, item, items, metadata, number, token};

use crate::content::{append_content, append_element};
use crate::words;
use itoa::Buffer;
use sdb_base::{Bytes, OutOfMemory, Text};
use sdb_domain::Metadata;
use sdb_pairs::{ItemOut, Pair};
use std::alloc::Global;

// Appends the names of domains, and the token.
#[tactic(auto, using(std::proofs::Common::append_assoc))]
pub(crate) fn append_domains(
    alloc: Global,
    out: &mut Bytes,
    names: &[Text],
    next: &Option<Text>,
) -> Result<(), OutOfMemory>
    ensures { OnOk result (out.new.bytes ≡ out.old.bytes ++ domains names.now next.now) }
{
    append_names(alloc, out, names)?;
    append_token(alloc, out, next)?;
    Ok(())
}

fn append_names(alloc: Global, out: &mut Bytes, names: &[Text]) -> Result<(), OutOfMemory>
    ensures { OnOk result (out.new.bytes ≡ out.old.bytes ++ flat_map (element domain_name) names.now) }
{
    for name in names {
        append_name(alloc, out, name)?;
    }
    Ok(())
}

#[tactic(auto, using(std::proofs::Common::append_assoc), unfolding(crate::specs::Results::domain_name))]
fn append_name(alloc: Global, out: &mut Bytes, name: &Text) -> Result<(), OutOfMemory>
    ensures { OnOk result (out.new.bytes ≡ out.old.bytes ++ element domain_name name.now) }
{
    out.append(b"<DomainName")?;
    append_content(alloc, out, name.as_str())?;
    out.append(b"</DomainName>")?;
    Ok(())
}

#[tactic(auto, unfolding(crate::specs::Results::next_token))]
fn append_token(alloc: Global, out: &mut Bytes, next: &Option<Text>) -> Result<(), OutOfMemory>
    ensures { OnOk result (out.new.bytes ≡ out.old.bytes ++ token next.now) }
{
    if let Some(text) = next {
        append_element(alloc, out, "NextToken", text.as_str())?;
    }
    Ok(())
}

// Appends a page of items, and the token.
#[tactic(auto, using(std::proofs::Common::append_assoc))]
pub(crate) fn append_items<'a>(
    alloc: Global,
    out: &mut Bytes,
    shown: &[ItemOut<'a>],
    next: &Option<Text>,
) -> Result<(), OutOfMemory>
    ensures { OnOk result (out.new.bytes ≡ out.old.bytes ++ items shown.now next.now) }
{
    append_page(alloc, out, shown)?;
    append_token(alloc, out, next)?;
    Ok(())
}

fn append_page<'a>(alloc: Global, out: &mut Bytes, shown: &[ItemOut<'a>]) -> Result<(), OutOfMemory>
    ensures { OnOk result (out.new.bytes ≡ out.old.bytes ++ flat_map item shown.now) }
{
    for one in shown {
        append_item(alloc, out, one)?;
    }
    Ok(())
}

#[tactic(auto, using(std::proofs::Common::append_assoc), unfolding(crate::specs::Results::item_name, crate::specs::Results::name_name))]
fn append_item<'a>(alloc: Global, out: &mut Bytes, shown: &ItemOut<'a>) -> Result<(), OutOfMemory>
    ensures { OnOk result (out.new.bytes ≡ out.old.bytes ++ item shown.now) }
{
    out.append(b"<Item><Name")?;
    append_content(alloc, out, shown.name().as_str())?;
    out.append(b"</Name>")?;
    append_attributes(alloc, out, shown.pairs().as_slice())?;
    out.append(b"</Item>")?;
    Ok(())
}

// Appends pairs, in their order.
pub(crate) fn append_attributes(
    alloc: Global,
    out: &mut Bytes,
    pairs: &[&Pair],
) -> Result<(), OutOfMemory>
    ensures { OnOk result (out.new.bytes ≡ out.old.bytes ++ attributes (lent pairs.now)) }
{
    for pair in pairs {
        append_attribute(alloc, out, pair)?;
    }
    Ok(())
}

#[tactic(auto, using(std::proofs::Common::append_assoc), unfolding(crate::specs::Results::attribute_name, crate::specs::Results::name_name, crate::specs::Results::value_name))]
fn append_attribute(alloc: Global, out: &mut Bytes, pair: &Pair) -> Result<(), OutOfMemory>
    ensures { OnOk result (out.new.bytes ≡ out.old.bytes ++ attribute pair.now) }
{
    out.append(b"<Attribute><Name")?;
    append_content(alloc, out, pair.name.as_str())?;
    out.append(b"</Name><Value")?;
    append_content(alloc, out, pair.value.as_str())?;
    out.append(b"</Value></Attribute>")?;
    Ok(())
}

// Appends a count, and the token.
#[tactic(auto, using(std::proofs::Common::append_assoc))]
pub(crate) fn append_count(
    alloc: Global,
    out: &mut Bytes,
    number: u64,
    next: &Option<Text>,
) -> Result<(), OutOfMemory>
    ensures { OnOk result (out.new.bytes ≡ out.old.bytes ++ count number next.now) }
{
    append_counted(alloc, out, number)?;
    append_token(alloc, out, next)?;
    Ok(())
}

// Appends the item that tells a count.
#[tactic(auto, using(std::proofs::Common::append_assoc), unfolding(crate::specs::Results::item_name, crate::specs::Results::attribute_name, crate::specs::Results::name_name, crate::specs::Results::value_name))]
fn append_counted(alloc: Global, out: &mut Bytes, number: u64) -> Result<(), OutOfMemory>
    ensures { OnOk result (out.new.bytes ≡ out.old.bytes ++ counted number) }
{
    let mut digits = Buffer::new();
    out.append(b"<Item><Name")?;
    append_content(alloc, out, words::counting_item())?;
    out.append(b"</Name><Attribute><Name")?;
    append_content(alloc, out, words::counting_attribute())?;
    out.append(b"</Name><Value")?;
    append_content(alloc, out, digits.format(number))?;
    out.append(b"</Value></Attribute></Item>")?;
    Ok(())
}

// Appends the numbers of a domain, and the moment at which they were taken.
#[tactic(auto, using(std::proofs::Common::append_assoc))]
pub(crate) fn append_metadata(
    alloc: Global,
    out: &mut Bytes,
    numbers: &Metadata,
    moment: u64,
) -> Result<(), OutOfMemory>
    ensures { OnOk result (out.new.bytes ≡ out.old.bytes ++ metadata numbers.now moment) }
{
    append_number(alloc, out, words::item_count(), numbers.items)?;
    append_number(alloc, out, words::item_names_size(), numbers.item_bytes)?;
    append_number(alloc, out, words::attribute_name_count(), numbers.names)?;
    append_number(
        alloc,
        out,
        words::attribute_names_size(),
        numbers.name_bytes,
    )?;
    append_number(alloc, out, words::attribute_value_count(), numbers.pairs)?;
    append_number(
        alloc,
        out,
        words::attribute_values_size(),
        numbers.value_bytes,
    )?;
    append_number(alloc, out, words::timestamp(), moment)?;
    Ok(())
}

// Appends an element that holds a number.
fn append_number(alloc: Global, out: &mut Bytes, name: &str, value: u64) -> Result<(), OutOfMemory>
    ensures { OnOk result (out.new.bytes ≡ out.old.bytes ++ number name.now value) }
{
    let mut digits = Buffer::new();
    append_element(alloc, out, name, digits.format(value))
}
