// Names and values of a workload, by number.
ghost use Rattle.std.specs.Prelude.{◌≡◌, IfOk, string_bytes};
ghost use Rattle.sdb_script.specs.Requests as requests;

use crate::operation::Entry;
use sdb_base::OutOfMemory;
use std::alloc::Global;

// `bench` and a digit.
#[tactic(auto, unfolding(crate::specs::Requests::domain_name))]
pub(crate) fn domain_name(alloc: Global, domain: u64) -> Result<String, OutOfMemory>
    ensures { IfOk result (λ made. string_bytes made ≡ requests.domain_name domain) }
{
    Ok(format!(in alloc; "bench{domain}")?)
}

// `i` and four digits.
#[tactic(auto, unfolding(crate::specs::Requests::item_name))]
pub(crate) fn item_name(alloc: Global, item: u64) -> Result<String, OutOfMemory>
    ensures { IfOk result (λ made. string_bytes made ≡ requests.item_name item) }
{
    let first = item / 1000 % 10;
    let second = item / 100 % 10;
    let third = item / 10 % 10;
    let fourth = item % 10;
    Ok(format!(in alloc; "i{first}{second}{third}{fourth}")?)
}

// `a` and a digit.
#[tactic(auto, unfolding(crate::specs::Requests::attribute_name))]
pub(crate) fn attribute_name(alloc: Global, attribute: u64) -> Result<String, OutOfMemory>
    ensures { IfOk result (λ made. string_bytes made ≡ requests.attribute_name attribute) }
{
    Ok(format!(in alloc; "a{attribute}")?)
}

// Five digits.
#[tactic(auto, unfolding(crate::specs::Requests::value_text))]
pub(crate) fn value_text(alloc: Global, value: u64) -> Result<String, OutOfMemory>
    ensures { IfOk result (λ made. string_bytes made ≡ requests.value_text value) }
{
    let first = value / 10000 % 10;
    let second = value / 1000 % 10;
    let third = value / 100 % 10;
    let fourth = value / 10 % 10;
    let fifth = value % 10;
    Ok(format!(in alloc; "{first}{second}{third}{fourth}{fifth}")?)
}

// The expression that asks for a domain's items with such a value or a greater one.
#[tactic(auto, using(std::proofs::Common::append_assoc), unfolding(crate::specs::Requests::expression))]
pub(crate) fn expression(alloc: Global, domain: u64, entry: Entry) -> Result<String, OutOfMemory>
    ensures { IfOk result (λ made. string_bytes made ≡ requests.expression domain entry) }
{
    let mut text = String::from_str(alloc, "select * from ")?;
    text.push_str(&domain_name(alloc, domain)?)?;
    text.push_str(" where ")?;
    text.push_str(&attribute_name(alloc, entry.attribute)?)?;
    text.push_str(" >= '")?;
    text.push_str(&value_text(alloc, entry.value)?)?;
    text.push_str("' limit 20")?;
    Ok(text)
}
