// Names of parameters, taken apart into a list's word, a number and a part.
ghost use Rattle.std.specs.Prelude.{◌≡◌, ℕ, option_map, option_and_then};
ghost use Rattle.std.specs.Option.{option_copied};
ghost use Rattle.sdb_action.specs.Numbers as names;

use sdb_base::read_decimal;

// The numbered lists, by the first word of their parameters' names.
#[derive(Clone, Copy, Debug, Drop)]
pub(crate) enum EntryKind {
    Attribute,
    AttributeName,
    Expected,
    Item,
}

// The part that a parameter of that name is in such a list: the place of its entry, which is 0
// without a number and else the number and 1, and the part's own name.
pub(crate) fn part_of(kind: EntryKind, name: &str) -> Option<(u16, &str)>
    ensures { option_map (λ part. (part.0, part.1.now)) result ≡ names.part_of kind name.now }
{
    match kind {
        EntryKind::Attribute => attribute_part(name),
        EntryKind::AttributeName => name_part(name),
        EntryKind::Expected => expected_part(name),
        EntryKind::Item => item_part(name),
    }
}

#[tactic(auto, unfolding(crate::specs::Numbers::attribute_part))]
fn attribute_part(name: &str) -> Option<(u16, &str)>
    ensures { option_map (λ part. (part.0, part.1.now)) result ≡ names.attribute_part name.now }
{
    let part = numbered(after_prefix(name, "Attribute.")?)?;
    if is_attribute_part(part.1) {
        Some(part)
    } else {
        None
    }
}

#[tactic(auto, unfolding(crate::specs::Numbers::item_part))]
fn item_part(name: &str) -> Option<(u16, &str)>
    ensures { option_map (λ part. (part.0, part.1.now)) result ≡ names.item_part name.now }
{
    let part = numbered(after_prefix(name, "Item.")?)?;
    if is_item_part(part.1) {
        Some(part)
    } else {
        None
    }
}

#[tactic(auto, unfolding(crate::specs::Numbers::name_part))]
fn name_part(name: &str) -> Option<(u16, &str)>
    ensures { option_map (λ part. (part.0, part.1.now)) result ≡ names.name_part name.now }
{
    if name == "AttributeName" {
        return Some((0, "Name"));
    }
    let place = place_of(after_prefix(name, "AttributeName.")?)?;
    Some((place, "Name"))
}

#[tactic(auto, unfolding(crate::specs::Numbers::expected_part))]
fn expected_part(name: &str) -> Option<(u16, &str)>
    ensures { option_map (λ part. (part.0, part.1.now)) result ≡ names.expected_part name.now }
{
    let rest = after_prefix(name, "Expected.")?;
    if is_expected_part(rest) {
        return Some((0, rest));
    }
    let part = numbered(rest)?;
    if is_expected_part(part.1) {
        Some(part)
    } else {
        None
    }
}

fn is_attribute_part(part: &str) -> bool
    ensures { result ≡ names.is_attribute_part part.now }
{
    part == "Name" || part == "Value" || part == "Replace"
}

fn is_expected_part(part: &str) -> bool
    ensures { result ≡ names.is_expected_part part.now }
{
    part == "Name" || part == "Value" || part == "Exists"
}

fn is_item_part(part: &str) -> bool
    ensures { result ≡ names.is_item_part part.now }
{
    part == "ItemName" || attribute_part(part).is_some()
}

// `N.part`.
#[tactic(auto, unfolding(crate::specs::Numbers::numbered))]
fn numbered(text: &str) -> Option<(u16, &str)>
    ensures { option_map (λ part. (part.0, part.1.now)) result ≡ names.numbered text.now }
{
    let (digits, part) = cut_at_point(text)?;
    let place = place_of(digits)?;
    Some((place, part))
}

fn cut_at_point(text: &str) -> Option<(&str, &str)>
    ensures { option_map (λ cut. (cut.0.now, cut.1.now)) result ≡ names.cut_at_point text.now }
{
    text.split_once('.')
}

#[tactic(auto, unfolding(crate::specs::Numbers::place_of))]
fn place_of(digits: &str) -> Option<u16>
    ensures { result ≡ names.place_of digits.now }
{
    let number = read_decimal(digits.as_bytes(), 9999)?;
    Some(number as u16 + 1)
}

fn after_prefix<'t>(text: &'t str, beginning: &str) -> Option<&'t str>
    ensures { option_copied result ≡ names.after_prefix beginning.now text.now }
{
    text.strip_prefix(beginning)
}
