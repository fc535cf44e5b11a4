// Items that may stand on a page, in the order of a Select.
ghost use Rattle.std.specs.Prelude.{◌≡◌, ◌≤◌, ◌+◌, [], ◌∷◌, true, take, length, map, Some, IfOk, OnOk, MatchOption, option_map};
ghost use Rattle.std.specs.BTreeMap.{insert_entry};
ghost use Rattle.sdb_page.specs.Pages.{after};
ghost use Rattle.sdb_domain.specs.Rows.{seen_row};
ghost use Rattle.sdb_page.specs.Seen.{offered_at, seen_entry, seen_place};
ghost use Rattle.sdb_page.specs.Spots.{Item, rows_of, spot_cmp, spot_of};

use crate::place::{Place, is_after, place_of};
use sdb_base::OutOfMemory;
use sdb_domain::Row;
use sdb_parse::Sort;
use std::alloc::Global;
use std::collections::BTreeMap;
use std::marker::Model;

// Items under their places, in order.
#[derive(Drop)]
pub(crate) struct Kept<'a> {
    rows: BTreeMap<Place<'a>, Row<'a>>,
}

impl<'a> Model for Kept<'a> {
    ghost use Rattle.std.specs.Prelude.{List, map};
    ghost use Rattle.sdb_page.specs.Seen.{seen_entry};
    ghost use Rattle.sdb_page.specs.Spots.{Row as Placed};

    ghost Value = { List Placed };

    ghost view = { λ it. map seen_entry it.rows.entries };
}

impl<'a> Kept<'a> {
    // No items. It takes no memory, and later calls use this allocator.
    fn new(alloc: Global) -> Kept<'a>
        ensures { result ≡ [] }
    {
        Kept {
            rows: BTreeMap::new(alloc),
        }
    }

    // Puts an item under its place.
    fn put(&mut self, place: Place<'a>, row: Row<'a>) -> Result<(), OutOfMemory>
        ensures ok { OnOk result (self.new ≡ insert_entry spot_cmp self.old (seen_place place.entry) (seen_row row.entry)) }
    {
        self.rows.insert(place, row)?;
        Ok(())
    }

    // Lets the last item go where there is one more than `most`.
    fn trim(&mut self, most: usize)
        requires { length self.old ≤ most + 1 }
        ensures { self.new ≡ take most self.old }
    {
        if self.rows.len() > most {
            self.rows.pop_last();
        }
    }

    // Whether so many are kept, and all stand before a place: then one that is put there goes at once.
    fn is_full_before(&self, most: usize, place: Place<'_>) -> bool
        ensures { result ≡ true → (item : Item) → take most (insert_entry spot_cmp self.now (seen_place place.entry) item) ≡ take most self.now }
    {
        if self.rows.len() < most {
            return false;
        }
        match self.rows.last_key_value() {
            Some((last, _row)) => last.cmp(&place).is_lt(),
            None => false,
        }
    }

    // Takes out the first item with its place.
    pub(crate) fn take_first(&mut self) -> Option<(Place<'a>, Row<'a>)>
        ensures { MatchOption result (self.old ≡ []) (λ first. self.old ≡ seen_entry first ∷ self.new) }
    {
        self.rows.pop_first()
    }
}

// The items that have a place after the start, in the order, the first `most` of them.
pub(crate) fn keep<'a>(
    alloc: Global,
    sort: &Option<Sort>,
    start: Option<Place<'_>>,
    most: usize,
    rows: &[Row<'a>],
) -> Result<Kept<'a>, OutOfMemory>
    ensures { IfOk result (λ kept. kept ≡ take most (after spot_cmp (rows_of sort.now (map seen_row rows.now)) (option_map seen_place start.entry))) }
{
    let mut kept = Kept::new(alloc);
    for row in rows {
        offer(&mut kept, sort, start, most, *row)?;
    }
    Ok(kept)
}

// Keeps an item that has a place after the start, and then the first `most` alone.
fn offer<'a>(
    kept: &mut Kept<'a>,
    sort: &Option<Sort>,
    start: Option<Place<'_>>,
    most: usize,
    row: Row<'a>,
) -> Result<(), OutOfMemory>
    requires { length kept.old ≤ most }
    ensures { OnOk result (kept.new ≡ offered_at (option_map seen_place start.entry) most kept.old (spot_of sort.now (seen_row row.entry)) (seen_row row.entry)) }
{
    match place_of(sort, row.name, row.item) {
        Some(place) => offer_at(kept, start, most, place, row),
        None => Ok(()),
    }
}

// Keeps an item where its place stands after the start, and then the first `most` alone.
fn offer_at<'a>(
    kept: &mut Kept<'a>,
    start: Option<Place<'_>>,
    most: usize,
    place: Place<'a>,
    row: Row<'a>,
) -> Result<(), OutOfMemory>
    requires { length kept.old ≤ most }
    ensures { OnOk result (kept.new ≡ offered_at (option_map seen_place start.entry) most kept.old (Some (seen_place place.entry)) (seen_row row.entry)) }
{
    if !is_after(start, place) {
        return Ok(());
    }
    if kept.is_full_before(most, place) {
        return Ok(());
    }
    kept.put(place, row)?;
    kept.trim(most);
    Ok(())
}
