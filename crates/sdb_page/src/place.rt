// Where an item stands in the order of a Select.
ghost use Rattle.std.specs.Prelude.{◌≡◌, option_map, IfOk};
ghost use Rattle.std.specs.Option.{option_copied};
ghost use Rattle.sdb_page.specs.Seen.{seen_place, seen_rank, stands_after};
ghost use Rattle.sdb_page.specs.Selects.{key_by as keyed_by, key_in as keyed_in, position_at, ranked_text, spot_at};
ghost use Rattle.sdb_page.specs.Spots.{falls_of, rank_of as ranked, sort_key, spot_of, value_key as keyed};
ghost use Rattle.sdb_parse.specs.Tally.{by_attr};

use sdb_base::{OutOfMemory, Text};
use sdb_pairs::{Item, Pair};
use sdb_parse::{Sort, SortKey};
use sdb_token::Position;
use std::alloc::Global;
use std::cmp::Reverse;

// A text that is compared in rising or in falling order. Those of one Select are all of one kind.
#[derive(Clone, Copy, Debug, PartialEq, Eq, PartialOrd, Ord)]
pub(crate) enum Rank<'a> {
    Rising(&'a Text),
    Falling(Reverse<&'a Text>),
}

// A key, and where keys tie a name.
#[derive(Clone, Copy, Debug, PartialEq, Eq, PartialOrd, Ord)]
pub(crate) struct Place<'a> {
    pub key: Rank<'a>,
    pub name: &'a Text,
}

// The place of an item, where it has the sort attribute.
pub(crate) fn place_of<'a>(sort: &Option<Sort>, name: &'a Text, item: &'a Item) -> Option<Place<'a>>
    ensures { option_map seen_place result ≡ spot_of sort.now (name.now, item.now) }
{
    let key = key_of(sort, name, item)?;
    let falls = falls(sort);
    Some(Place {
        key: rank_of(falls, key),
        name,
    })
}

// Whether the order falls.
fn falls(sort: &Option<Sort>) -> bool
    ensures { result ≡ falls_of sort.now }
{
    match sort {
        None => false,
        Some(sort) => sort.down,
    }
}

// The rank of a key in an order that rises or falls.
fn rank_of(falls: bool, key: &Text) -> Rank<'_>
    ensures { seen_rank result ≡ ranked falls key.now }
{
    if falls {
        Rank::Falling(Reverse(key))
    } else {
        Rank::Rising(key)
    }
}

// The key of an item: its name, or its least or greatest value of the sort attribute.
fn key_of<'a>(sort: &Option<Sort>, name: &'a Text, item: &'a Item) -> Option<&'a Text>
    ensures { option_copied result ≡ sort_key sort.now (name.now, item.now) }
{
    match sort {
        None => Some(name),
        Some(sort) => match &sort.by {
            SortKey::ItemName => Some(name),
            SortKey::Attr(attribute) => value_key(sort.down, item.values(attribute)),
        },
    }
}

// The least of the values that rise, or the greatest where the order falls.
fn value_key(falls: bool, named: &[Pair]) -> Option<&Text>
    ensures { option_copied result ≡ keyed falls named.now }
{
    if falls {
        let greatest = named.last()?;
        Some(&greatest.value)
    } else {
        let least = named.first()?;
        Some(&least.value)
    }
}

// The place behind which the page after a position begins.
pub(crate) fn place_at<'a>(sort: &Option<Sort>, position: &'a Position) -> Place<'a>
    ensures { seen_place result ≡ spot_at sort.now position.now }
{
    let falls = falls(sort);
    let key = key_in(sort, position);
    Place {
        key: rank_of(falls, key),
        name: &position.name,
    }
}

// The key of a position: its name where the order is by names.
fn key_in<'a>(sort: &Option<Sort>, position: &'a Position) -> &'a Text
    ensures { result.now ≡ keyed_in sort.now position.now }
{
    match sort {
        None => &position.name,
        Some(sort) => key_by(&sort.by, position),
    }
}

fn key_by<'a>(by: &SortKey, position: &'a Position) -> &'a Text
    ensures { result.now ≡ keyed_by by.now position.now }
{
    match by {
        SortKey::ItemName => &position.name,
        SortKey::Attr(_) => match &position.key {
            Some(key) => key,
            None => &position.name,
        },
    }
}

// Whether a place stands after the start of a page; the first page begins before all places.
pub(crate) fn is_after(start: Option<Place<'_>>, place: Place<'_>) -> bool
    ensures { result ≡ stands_after (option_map seen_place start.entry) (seen_place place.entry) }
{
    match start {
        None => true,
        Some(start) => start.cmp(&place).is_lt(),
    }
}

// The position of a place, which has a key where the order is by an attribute.
pub(crate) fn position_of(
    alloc: Global,
    sort: &Option<Sort>,
    place: Place<'_>,
) -> Result<Position, OutOfMemory>
    ensures { IfOk result (λ position. position ≡ position_at sort.now (seen_place place.entry)) }
{
    let key = if is_keyed(sort) {
        Some(text_of(place.key).copy(alloc)?)
    } else {
        None
    };
    let name = place.name.copy(alloc)?;
    Ok(Position { key, name })
}

/// Whether the positions of an order have keys: it is by an attribute.
pub fn is_keyed(sort: &Option<Sort>) -> bool
    ensures { result ≡ by_attr sort.now }
{
    match sort {
        None => false,
        Some(sort) => match &sort.by {
            SortKey::ItemName => false,
            SortKey::Attr(_) => true,
        },
    }
}

// The text that is ranked.
fn text_of(rank: Rank<'_>) -> &Text
    ensures { result.now ≡ ranked_text (seen_rank rank.entry) }
{
    match rank {
        Rank::Rising(text) => text,
        Rank::Falling(Reverse(text)) => text,
    }
}
