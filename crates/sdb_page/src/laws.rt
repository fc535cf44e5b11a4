//! The laws of order and pages.

ghost use Rattle.std.specs.Prelude.{◌≡◌, ℕ, Bool, ◌<◌, ◌≤◌, List, Option, None, IfSome, length};
ghost use Rattle.sdb_base.specs.Entries.{IsRising};
ghost use Rattle.sdb_base.specs.Names.{IsName};
ghost use Rattle.sdb_pairs.specs.Accounts.{ItemEntries};
ghost use Rattle.sdb_pairs.specs.Lawful.{AreLawfulItems, IsLawfulItem};
ghost use Rattle.sdb_parse.specs.declared.select.Output.{Output};
ghost use Rattle.sdb_parse.specs.declared.select.Sort.{Sort};
ghost use Rattle.sdb_page.specs.Pages.{IsLongestFront, Joins, after, page};
ghost use Rattle.sdb_page.specs.Selects.{IsSmallPosition, PagesFrom, answer_of, limit_of, next_of};
ghost use Rattle.sdb_parse.specs.declared.select.Select.{Select};
ghost use Rattle.sdb_token.specs.declared.position.Position.{Position};
ghost use Rattle.sdb_page.specs.Spots.{Item, Row, Spot, answer, most_bytes, row_bytes, spot_cmp};

/// The items of an answer stand in the order of its Select, and no spot stands twice.
pub fn answers_rise()
    ensures { (passes : Item → Bool) (sort : Option Sort) (items : ItemEntries) → IsRising spot_cmp (answer passes sort items) }
{}

/// A page is the longest front of what stands after its position that has at most so many items and so
/// many bytes.
pub fn pages_are_longest()
    ensures { (size : Row → ℕ) (limit bytes : ℕ) (rows : List Row) (place : Option Spot)
        → IsLongestFront size limit bytes (after spot_cmp rows place) (page spot_cmp size limit bytes rows place) }
{}

/// An item of a lawful name with at most 256 lawful pairs has at most 525,312 bytes on a page, so it fits on
/// one alone.
pub fn items_fit_on_a_page()
    ensures { (shown : Output) (spot : Spot) (item : Item) → IsName item.0 → IsLawfulItem item.1 → row_bytes shown (spot, item) ≤ 525312 }
{}

/// The pages of a Select over lawful items, from the first on and each after the `next` of the one before,
/// join to its answer, and there are such pages.
pub fn pages_join()
    ensures same { (shown : Output) (limit : ℕ) (passes : Item → Bool) (sort : Option Sort) (items : ItemEntries) (all : List Row)
        → AreLawfulItems items → 0 < limit
        → Joins spot_cmp (row_bytes shown) limit most_bytes (answer passes sort items) None all → all ≡ answer passes sort items }
    ensures some { (shown : Output) (limit : ℕ) (passes : Item → Bool) (sort : Option Sort) (items : ItemEntries)
        → AreLawfulItems items → 0 < limit
        → (all : List Row) × Joins spot_cmp (row_bytes shown) limit most_bytes (answer passes sort items) None all }
{}

/// The position behind a page of a Select over lawful items has a key of at most 1,024 bytes, where it has one, and a name
/// of 1 to 1,024 bytes, so there is a token of it.
pub fn positions_are_small()
    ensures { (s : Select) (items : ItemEntries) (after : Option Position) → AreLawfulItems items → IfSome (next_of s items after) IsSmallPosition }
{}

/// The pages of a Select over lawful items, from the first on and each after the position of the one before, join to its
/// answer, which is what `walk` shows, and there are such pages.
pub fn pages_of_a_select_join()
    ensures same { (s : Select) (items : ItemEntries) (all : List Row) → AreLawfulItems items → 0 < limit_of s.limit s.output (length items)
        → PagesFrom s items None all → all ≡ answer_of s items }
    ensures some { (s : Select) (items : ItemEntries) → AreLawfulItems items → 0 < limit_of s.limit s.output (length items)
        → (all : List Row) × PagesFrom s items None all }
{}
