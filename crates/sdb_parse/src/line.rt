// A whole Select expression, read from the front of a cursor.
ghost use Rattle.std.specs.Prelude.{◌≡◌, ◌≤◌, ◌<◌, ◌==◌, [], length, OnOk};
ghost use Rattle.sdb_parse.specs.Reading.{Reads};
ghost use Rattle.sdb_parse.specs.Grammar.{limit_of};
ghost use Rattle.sdb_parse.specs.Lines.{condition_at, count_at, direction_at, key_at, limit_at, output_at, select_at, sort_at};

use crate::condition::read_joined;
use crate::cursor::Cursor;
use crate::expr::Expr;
use crate::fault::Fault;
use crate::joint::Joint;
use crate::names::{expect, read_attr, read_attrs, read_item_name, read_name, read_text};
use crate::select::{Output, Select, Sort, SortKey};
use crate::sign::Sign;
use sdb_base::read_decimal;
use std::alloc::Global;

// How many parentheses and `not` may stand round a predicate.
const MOST_DEPTH: u8 = 32;

const GREATEST_LIMIT: u64 = 2500;

#[tactic(auto, unfolding(crate::specs::Lines::select_at))]
pub(crate) fn read_select(alloc: Global, cursor: &mut Cursor) -> Result<Select, Fault>
    ensures { Reads (select_at cursor.old) result cursor.new }
{
    expect(cursor, Sign::Select)?;
    let output = read_output(alloc, cursor)?;
    expect(cursor, Sign::From)?;
    let domain = read_name(cursor)?;
    let cond = read_condition(alloc, cursor)?;
    let sort = read_sort(cursor)?;
    let limit = read_limit(cursor)?;
    if !cursor.is_at_end() {
        return Err(Fault::Syntax);
    }
    Ok(Select {
        output,
        domain,
        cond,
        sort,
        limit,
    })
}

#[tactic(auto, unfolding(crate::specs::Lines::output_at))]
fn read_output(alloc: Global, cursor: &mut Cursor) -> Result<Output, Fault>
    ensures { Reads (output_at cursor.old) result cursor.new }
{
    if cursor.sees(Sign::Star) {
        expect(cursor, Sign::Star)?;
        return Ok(Output::All);
    }
    if cursor.sees_call(Sign::ItemName) {
        read_item_name(cursor)?;
        return Ok(Output::Names);
    }
    if cursor.sees_call(Sign::Count) {
        read_count(cursor)?;
        return Ok(Output::Count);
    }
    Ok(Output::Listed(read_attrs(alloc, cursor)?))
}

// `count(*)`.
#[tactic(auto, unfolding(crate::specs::Lines::count_at))]
fn read_count(cursor: &mut Cursor) -> Result<(), Fault>
    ensures { Reads (count_at cursor.old) result cursor.new }
{
    expect(cursor, Sign::Count)?;
    expect(cursor, Sign::Open)?;
    expect(cursor, Sign::Star)?;
    expect(cursor, Sign::Close)
}

// `where ..`, if anything.
#[tactic(auto, unfolding(crate::specs::Lines::condition_at))]
fn read_condition(alloc: Global, cursor: &mut Cursor) -> Result<Option<Expr>, Fault>
    ensures { Reads (condition_at cursor.old) result cursor.new }
{
    if !cursor.sees(Sign::Where) {
        return Ok(None);
    }
    expect(cursor, Sign::Where)?;
    Ok(Some(read_joined(alloc, cursor, Joint::Or, MOST_DEPTH)?))
}

// `order by ..`, if anything.
#[tactic(auto, unfolding(crate::specs::Lines::sort_at))]
fn read_sort(cursor: &mut Cursor) -> Result<Option<Sort>, Fault>
    ensures { Reads (sort_at cursor.old) result cursor.new }
{
    if !cursor.sees(Sign::Order) {
        return Ok(None);
    }
    expect(cursor, Sign::Order)?;
    expect(cursor, Sign::By)?;
    let by = read_key(cursor)?;
    let down = read_direction(cursor)?;
    Ok(Some(Sort { by, down }))
}

#[tactic(auto, unfolding(crate::specs::Lines::key_at))]
fn read_key(cursor: &mut Cursor) -> Result<SortKey, Fault>
    ensures { Reads (key_at cursor.old) result cursor.new }
{
    if cursor.sees_call(Sign::ItemName) {
        read_item_name(cursor)?;
        return Ok(SortKey::ItemName);
    }
    Ok(SortKey::Attr(read_attr(cursor)?))
}

// Whether `desc` follows; `asc` may.
#[tactic(auto, unfolding(crate::specs::Lines::direction_at))]
fn read_direction(cursor: &mut Cursor) -> Result<bool, Fault>
    ensures { Reads (direction_at cursor.old) result cursor.new }
{
    if cursor.sees(Sign::Asc) {
        expect(cursor, Sign::Asc)?;
        return Ok(false);
    }
    if cursor.sees(Sign::Desc) {
        expect(cursor, Sign::Desc)?;
        return Ok(true);
    }
    Ok(false)
}

// `limit ..`, if anything.
#[tactic(auto, unfolding(crate::specs::Lines::limit_at))]
fn read_limit(cursor: &mut Cursor) -> Result<Option<u16>, Fault>
    ensures { Reads (limit_at cursor.old) result cursor.new }
{
    if !cursor.sees(Sign::Limit) {
        return Ok(None);
    }
    expect(cursor, Sign::Limit)?;
    let digits = read_text(cursor, Sign::Digits)?;
    match limit_of(digits.as_str()) {
        Some(limit) => Ok(Some(limit)),
        None => Err(Fault::Syntax),
    }
}

#[tactic(auto, unfolding(crate::specs::Grammar::limit_of))]
fn limit_of(digits: &str) -> Option<u16>
    ensures { result ≡ limit_of digits.now }
{
    match read_decimal(digits.as_bytes(), GREATEST_LIMIT)? {
        0 => None,
        limit => Some(limit as u16),
    }
}
