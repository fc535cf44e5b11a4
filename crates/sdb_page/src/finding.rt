// The items of a domain that hold the condition of a Select, with its bound.
ghost use Rattle.std.specs.Prelude.{◌≡◌, ◌+◌, ◌≤◌, filter, length, map, IfOk, IfSome, Some, None};
ghost use Rattle.sdb_domain.specs.Rows.{seen_row};
ghost use Rattle.sdb_pairs.specs.Accounts.{AreItems};
ghost use Rattle.sdb_parse.specs.declared.expr.Expr.TheVariants.{Pred};
ghost use Rattle.sdb_parse.specs.declared.expr.Operand.TheVariants.{Attr};
ghost use Rattle.sdb_parse.specs.Meaning.{absence_of};
ghost use Rattle.sdb_page.specs.Seen.{has_fit};
ghost use Rattle.sdb_page.specs.Selects.{bound_of as bounded, passes as held};

use crate::counting::bound_of;
use crate::passing::passing;
use sdb_base::{OutOfMemory, Steps, Text};
use sdb_domain::{Domain, Row};
use sdb_parse::{Expr, Operand, Test};
use sdb_pred::has_value_that_fits;
use std::alloc::Global;

// The items that hold a condition, in the order of their names.
#[derive(Drop)]
pub(crate) struct Found<'a> {
    pub passing: Vec<Row<'a>>,
    // How many items can hold the condition, at most.
    pub bound: u64,
}

// The items of the domain that hold the condition, by one walk.
pub(crate) fn find<'a, L>(
    alloc: Global,
    cond: &Option<Expr>,
    domain: &'a Domain,
    items: &mut Steps<L>,
) -> Result<Found<'a>, OutOfMemory>
    ensures passing { IfOk result (λ found. map seen_row found.passing.items ≡ filter (held cond.now) domain.now) }
    ensures bound { IfOk result (λ found. found.bound ≡ bounded cond.now domain.now) }
    ensures later { items.old ≤ items.new }
    ensures ticks { items.new ≤ items.old + length domain.now }
    ensures in_order { AreItems domain.now }
{
    match asked_value(cond) {
        Some((attr, test)) => {
            let passing = scan_fitting(alloc, attr, test, domain, items)?;
            let bound = passing.len() as u64;
            Ok(Found { passing, bound })
        }
        None => find_among_all(alloc, cond, domain, items),
    }
}

// The attribute and the test of a condition that only asks one attribute for a value. As many items can hold such
// a condition as do.
fn asked_value(cond: &Option<Expr>) -> Option<(&Text, &Test)>
    ensures cond { IfSome result (λ asked. cond.now ≡ Some (Pred (Attr asked.0.now) asked.1.now)) }
    ensures value { IfSome result (λ asked. absence_of asked.1.now ≡ None) }
{
    match cond {
        Some(Expr::Pred(Operand::Attr(attr), test)) => match test {
            Test::IsNull | Test::IsNotNull => None,
            _ => Some((attr, test)),
        },
        _ => None,
    }
}

// The items that have a value of the attribute which fits, in their order.
fn scan_fitting<'a, L>(
    alloc: Global,
    attr: &Text,
    test: &Test,
    domain: &'a Domain,
    items: &mut Steps<L>,
) -> Result<Vec<Row<'a>>, OutOfMemory>
    ensures fitting { IfOk result (λ rows. map seen_row rows.items ≡ filter (has_fit attr.now test.now) domain.now) }
    ensures later { items.old ≤ items.new }
    ensures ticks { items.new ≤ items.old + length domain.now }
    ensures in_order { AreItems domain.now }
{
    let mut rows = Vec::new(alloc);
    for (name, item) in domain.items(items) {
        if has_value_that_fits(test, attr, item) {
            rows.push(Row { name, item })?;
        }
    }
    Ok(rows)
}

// The same for any condition, whose bound may need a look at all items.
fn find_among_all<'a, L>(
    alloc: Global,
    cond: &Option<Expr>,
    domain: &'a Domain,
    items: &mut Steps<L>,
) -> Result<Found<'a>, OutOfMemory>
    ensures passing { IfOk result (λ found. map seen_row found.passing.items ≡ filter (held cond.now) domain.now) }
    ensures bound { IfOk result (λ found. found.bound ≡ bounded cond.now domain.now) }
    ensures later { items.old ≤ items.new }
    ensures ticks { items.new ≤ items.old + length domain.now }
    ensures in_order { AreItems domain.now }
{
    let rows = domain.scan_all(alloc, items)?;
    let passing = passing(alloc, cond, rows.as_slice())?;
    let bound = bound_of(cond, rows.as_slice(), passing.as_slice());
    Ok(Found { passing, bound })
}
