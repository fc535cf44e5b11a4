// How many items stand after a start.
ghost use Rattle.std.specs.Prelude.{◌≡◌, length, map, option_map};
ghost use Rattle.sdb_base.specs.Entries.{IsRising};
ghost use Rattle.sdb_base.specs.Texts.{text_cmp};
ghost use Rattle.sdb_domain.specs.Rows.{seen_row};
ghost use Rattle.sdb_page.specs.Pages.{after};
ghost use Rattle.sdb_page.specs.Seen.{seen_place, spot_after};
ghost use Rattle.sdb_page.specs.Spots.{rows_of, spot_cmp, spot_of};

use crate::place::{Place, is_after, place_of};
use sdb_domain::Row;
use sdb_parse::Sort;

// How many of the items have a place after the start. They needn't be put in order for that.
pub(crate) fn count_after(sort: &Option<Sort>, start: Option<Place<'_>>, rows: &[Row<'_>]) -> u64
    requires { IsRising text_cmp (map seen_row rows.now) }
    ensures { result ≡ length (after spot_cmp (rows_of sort.now (map seen_row rows.now)) (option_map seen_place start.entry)) }
{
    let mut count: u64 = 0;
    for row in rows {
        if has_place_after(sort, start, *row) {
            count += 1;
        }
    }
    count
}

// Whether an item has a place, and that stands after the start.
fn has_place_after(sort: &Option<Sort>, start: Option<Place<'_>>, row: Row<'_>) -> bool
    ensures { result ≡ spot_after (option_map seen_place start.entry) (spot_of sort.now (seen_row row.entry)) }
{
    match place_of(sort, row.name, row.item) {
        Some(place) => is_after(start, place),
        None => false,
    }
}
