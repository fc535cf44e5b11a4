// How many items can hold a condition, counted over the rows of a scan.
ghost use Rattle.std.specs.Prelude.{◌≡◌, filter, length, map, sum_by, min};
ghost use Rattle.std.specs.List.{list_any};
ghost use Rattle.std.specs.Option.{option_copied};
ghost use Rattle.sdb_parse.specs.Meaning.{any_item, asks, bound, has_value, holds, least_by, meaning, member_bound, or_bound, predicate_needs, sole, together};
ghost use Rattle.sdb_domain.specs.Rows.{seen_row};
ghost use Rattle.sdb_pred.specs.Items.{values_in};
ghost use Rattle.sdb_page.specs.Seen.{count_in, is_told};
ghost use Rattle.sdb_page.specs.Selects.{bound_of as bounded, passes as held};

use sdb_base::Text;
use sdb_domain::Row;
use sdb_parse::{Expr, Operand, Test};
use sdb_pred::{can_hold, has_value_for_all, has_value_for_some, sole};

// How many of the items can hold the condition, at most: all where there is none. `passing` are those that do hold it.
pub(crate) fn bound_of(cond: &Option<Expr>, rows: &[Row<'_>], passing: &[Row<'_>]) -> u64
    requires { map seen_row passing.now ≡ filter (held cond.now) (map seen_row rows.now) }
    ensures { result ≡ bounded cond.now (map seen_row rows.now) }
{
    match cond {
        None => rows.len() as u64,
        Some(cond) => bound_where(cond, rows, passing),
    }
}

// The same for a condition. An attribute's predicate that asks for some value is held wherever one value tells
// that it can be, so its bound needs no second look at the items.
#[tactic(auto, using(sdb_parse::proofs::MeaningLemmas::holds_laws))]
fn bound_where(cond: &Expr, rows: &[Row<'_>], passing: &[Row<'_>]) -> u64
    requires { map seen_row passing.now ≡ filter (λ item. holds cond.now item.0 (values_in item.1)) (map seen_row rows.now) }
    ensures { result ≡ bound cond.now (count_in rows.now) }
{
    match cond {
        Expr::Pred(operand, test) => {
            if is_told(operand, test) {
                passing.len() as u64
            } else {
                count_that_can_hold(operand, test, rows)
            }
        }
        _ => bound(cond, rows),
    }
}

// Whether a predicate is held wherever one value tells that it can be.
fn is_told(operand: &Operand, test: &Test) -> bool
    ensures { result ≡ is_told operand.now test.now }
{
    match operand {
        Operand::Attr(_) => !matches!(test, Test::IsNull),
        Operand::Every(_) | Operand::ItemName => false,
    }
}

#[cycle(bound)]
#[tactic(auto, using(crate::proofs::BoundLemmas::bound_laws))]
fn bound(expr: &Expr, rows: &[Row<'_>]) -> u64
    ensures { result ≡ bound expr.now (count_in rows.now) }
{
    match expr {
        Expr::Pred(operand, test) => count_that_can_hold(operand, test, rows),
        Expr::Not(_) => count_all(rows),
        Expr::And(members) => least_part(members.as_slice(), rows),
        Expr::Or(members) => bound_of_or(sole(expr), members.as_slice(), rows),
        Expr::Inter(members) => least(members.as_slice(), rows),
    }
}

// The least bound of the members of an `and`.
#[cycle(bound)]
fn least_part(members: &[Expr], rows: &[Row<'_>]) -> u64
    ensures { result ≡ least_by (count_in rows.now any_item) (λ e. member_bound (count_in rows.now) (map meaning members.now) (sole e) (bound e (count_in rows.now))) members.now }
{
    let mut least = count_all(rows);
    for member in members {
        least = least.min(part_bound(member, members, rows));
    }
    least
}

// The bound of a member of an `and`: where it is sole on an attribute, one value has to fit all members that
// are sole there.
#[cycle(bound)]
fn part_bound(member: &Expr, members: &[Expr], rows: &[Row<'_>]) -> u64
    ensures { result ≡ member_bound (count_in rows.now) (map meaning members.now) (sole member.now) (bound member.now (count_in rows.now)) }
{
    match sole(member) {
        Some(attr) => count_for_all(members, attr, rows),
        None => bound(member, rows),
    }
}

#[cycle(bound)]
fn least(members: &[Expr], rows: &[Row<'_>]) -> u64
    ensures { result ≡ least_by (count_in rows.now any_item) (λ e. bound e (count_in rows.now)) members.now }
{
    let mut least = count_all(rows);
    for member in members {
        least = least.min(bound(member, rows));
    }
    least
}

// The bound of an `or` that is sole so.
#[cycle(bound)]
fn bound_of_or(sole: Option<&Text>, members: &[Expr], rows: &[Row<'_>]) -> u64
    ensures { result ≡ or_bound (count_in rows.now) (option_copied sole.entry) (map meaning members.now) }
{
    match sole {
        Some(attr) => count_for_some(members, attr, rows),
        None => sum_at_most_all(members, rows),
    }
}

// The sum over the members, and at most all items.
#[cycle(bound)]
fn sum_at_most_all(members: &[Expr], rows: &[Row<'_>]) -> u64
    ensures { result ≡ min (count_in rows.now any_item) (sum_by (λ e. bound e (count_in rows.now)) members.now) }
{
    let all = count_all(rows);
    let mut sum: u64 = 0;
    for member in members {
        sum = all.min(sum.saturating_add(bound(member, rows)));
    }
    sum
}

// How many items there are.
#[tactic(auto, using(crate::proofs::BoundLemmas::count_rows))]
fn count_all(rows: &[Row<'_>]) -> u64
    ensures { result ≡ count_in rows.now any_item }
{
    rows.len() as u64
}

fn count_that_can_hold(operand: &Operand, test: &Test, rows: &[Row<'_>]) -> u64
    ensures { result ≡ count_in rows.now (predicate_needs operand.now test.now) }
{
    let mut count: u64 = 0;
    for row in rows {
        if can_hold(operand, test, row.name, row.item) {
            count += 1;
        }
    }
    count
}

// How many items have a value that all members which are sole on the attribute ask for.
fn count_for_all(members: &[Expr], attr: &Text, rows: &[Row<'_>]) -> u64
    ensures { result ≡ count_in rows.now (has_value attr.now (together (map meaning members.now) attr.now)) }
{
    let mut count: u64 = 0;
    for row in rows {
        if has_value_for_all(members, attr, row.item) {
            count += 1;
        }
    }
    count
}

// How many items have a value that one of the members asks for.
fn count_for_some(members: &[Expr], attr: &Text, rows: &[Row<'_>]) -> u64
    ensures { result ≡ count_in rows.now (has_value attr.now (λ value. list_any (λ m. m.asks value) (map meaning members.now))) }
{
    let mut count: u64 = 0;
    for row in rows {
        if has_value_for_some(members, attr, row.item) {
            count += 1;
        }
    }
    count
}
