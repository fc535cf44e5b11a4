// What is shown of an item, and the room that it takes on a page.
ghost use Rattle.std.specs.Prelude.{◌≡◌, map, bytes_eq, sum_by, IfOk};
ghost use Rattle.std.specs.List.{list_any};
ghost use Rattle.sdb_domain.specs.Rows.{seen_row};
ghost use Rattle.sdb_page.specs.Seen.{left_of, seen_entry, shows};
ghost use Rattle.sdb_page.specs.Selects.{item_room, shown_as};
ghost use Rattle.sdb_page.specs.Spots.{pair_bytes, shown_pairs};

use crate::place::Place;
use sdb_base::{OutOfMemory, Text, Texts};
use sdb_domain::Row;
use sdb_pairs::{ItemOut, ItemsOut, Pair, Pairs};
use sdb_parse::Output;
use std::alloc::Global;

// The items as they are shown, in their order.
pub(crate) fn show_all<'a>(
    alloc: Global,
    output: &Output,
    rows: &[(Place<'a>, Row<'a>)],
) -> Result<ItemsOut<'a>, OutOfMemory>
    ensures { IfOk result (λ items. items ≡ map (shown_as output.now) (map seen_entry rows.now)) }
{
    let mut items = ItemsOut::new(alloc);
    for row in rows {
        let (_place, row) = *row;
        let pairs = show(alloc, output, row.item.pairs())?;
        items.push(ItemOut::new(row.name, pairs))?;
    }
    Ok(items)
}

// The pairs that are shown, in their order.
fn show<'a>(alloc: Global, output: &Output, pairs: &'a [Pair]) -> Result<Pairs<'a>, OutOfMemory>
    ensures { IfOk result (λ shown. shown ≡ shown_pairs output.now pairs.now) }
{
    let mut shown = Pairs::new(alloc);
    for pair in pairs {
        if is_shown(output, pair) {
            shown.push(pair)?;
        }
    }
    Ok(shown)
}

// Whether a pair is shown.
fn is_shown(output: &Output, pair: &Pair) -> bool
    ensures { result ≡ shows output.now pair.now }
{
    match output {
        Output::All => true,
        Output::Names | Output::Count => false,
        Output::Listed(names) => is_among(names, &pair.name),
    }
}

fn is_among(names: &Texts, name: &Text) -> bool
    ensures { result ≡ list_any (bytes_eq name.now) names.now }
{
    for other in names.as_slice() {
        if name == other {
            return true;
        }
    }
    false
}

// What is left of the room on a page behind an item that fits there.
pub(crate) fn room_behind(output: &Output, row: Row<'_>, room: usize) -> Option<usize>
    ensures { result ≡ left_of room (item_room output.now (seen_row row.entry)) }
{
    match output {
        Output::Count => Some(room),
        _ => room_behind_pairs(
            output,
            row.item.pairs(),
            room.checked_sub(row.name.as_str().len())?,
        ),
    }
}

fn room_behind_pairs(output: &Output, pairs: &[Pair], room: usize) -> Option<usize>
    ensures { result ≡ left_of room (sum_by pair_bytes (shown_pairs output.now pairs.now)) }
{
    let mut room = room;
    for pair in pairs {
        if is_shown(output, pair) {
            room = room_behind_pair(pair, room)?;
        }
    }
    Some(room)
}

fn room_behind_pair(pair: &Pair, room: usize) -> Option<usize>
    ensures { result ≡ left_of room (pair_bytes pair.now) }
{
    let left = room.checked_sub(pair.name.as_str().len())?;
    left.checked_sub(pair.value.as_str().len())
}
