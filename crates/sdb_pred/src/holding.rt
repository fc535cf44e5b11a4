// Whether an item holds a condition.
ghost use Rattle.std.specs.Prelude.{◌≡◌, Some, not, ◌&&◌, ◌||◌, [], map};
ghost use Rattle.std.specs.List.{list_all, list_any};
ghost use Rattle.sdb_parse.specs.Fits.{fits};
ghost use Rattle.sdb_parse.specs.Meaning.{absence_of, asks, attr_holds, holds, is_absent, meaning, member_holds, name_holds, predicate_holds, same_attr, sole};
ghost use Rattle.sdb_pred.specs.Items.{values_in};

use crate::asking::{passes, together};
use crate::attr::sole;
use sdb_base::Text;
use sdb_pairs::{Item, Pair};
use sdb_parse::{Expr, Operand, Test};

/// Whether the item with that name holds the condition (SimpleDB Developer Guide, "Queries on Attributes with
/// Multiple Values"). It takes no memory.
#[cycle(holds)]
#[tactic(auto, using(sdb_parse::proofs::MeaningLemmas::holds_laws))]
pub fn holds(expr: &Expr, name: &Text, item: &Item) -> bool
    ensures { result ≡ holds expr.now name.now (values_in item.now) }
{
    match expr {
        Expr::Pred(operand, test) => predicate_holds(operand, test, name, item),
        Expr::Not(negated) => !holds(negated.get(), name, item),
        Expr::And(members) => all_parts_hold(members.as_slice(), name, item),
        Expr::Or(members) => some_holds(members.as_slice(), name, item),
        Expr::Inter(members) => all_hold(members.as_slice(), name, item),
    }
}

// Whether the item holds each member of an `and`.
#[cycle(holds)]
fn all_parts_hold(members: &[Expr], name: &Text, item: &Item) -> bool
    ensures { result ≡ list_all (λ e. member_holds (map meaning members.now) (sole e) (holds e name.now (values_in item.now)) name.now (values_in item.now)) members.now }
{
    for member in members {
        if !part_holds(member, members, name, item) {
            return false;
        }
    }
    true
}

// Whether the item holds a member of an `and`: where it is sole on an attribute, one value has to fit all
// members that are sole there.
#[cycle(holds)]
#[tactic(auto, using(crate::proofs::LoopLemmas::parts))]
fn part_holds(member: &Expr, members: &[Expr], name: &Text, item: &Item) -> bool
    ensures { result ≡ member_holds (map meaning members.now) (sole member.now) (holds member.now name.now (values_in item.now)) name.now (values_in item.now) }
{
    match sole(member) {
        Some(attr) => some_value_fits_all(members, attr, item.values(attr)),
        None => holds(member, name, item),
    }
}

#[cycle(holds)]
fn some_holds(members: &[Expr], name: &Text, item: &Item) -> bool
    ensures { result ≡ list_any (λ e. holds e name.now (values_in item.now)) members.now }
{
    for member in members {
        if holds(member, name, item) {
            return true;
        }
    }
    false
}

#[cycle(holds)]
fn all_hold(members: &[Expr], name: &Text, item: &Item) -> bool
    ensures { result ≡ list_all (λ e. holds e name.now (values_in item.now)) members.now }
{
    for member in members {
        if !holds(member, name, item) {
            return false;
        }
    }
    true
}

// Whether one of the values of an attribute, in these pairs, fits all members that are sole on it.
pub(crate) fn some_value_fits_all(members: &[Expr], attr: &Text, pairs: &[Pair]) -> bool
    ensures { result ≡ list_any (λ p. list_all (λ e. not (same_attr (Some attr.now) (sole e)) || asks e p.value) members.now) pairs.now }
{
    for pair in pairs {
        if together(members, attr, &pair.value) {
            return true;
        }
    }
    false
}

fn predicate_holds(operand: &Operand, test: &Test, name: &Text, item: &Item) -> bool
    ensures { result ≡ predicate_holds operand.now test.now name.now (values_in item.now) }
{
    match operand {
        Operand::Attr(attr) => attr_holds(test, item.values(attr)),
        Operand::Every(attr) => every_holds(test, item.values(attr)),
        Operand::ItemName => name_holds(test, name),
    }
}

// Whether an attribute with these pairs passes.
#[tactic(auto, using(crate::proofs::LoopLemmas::of_values))]
fn attr_holds(test: &Test, pairs: &[Pair]) -> bool
    ensures { result ≡ attr_holds (absence_of test.now) [] test.now [] (λ attr. map (λ p. p.value) pairs.now) }
{
    match absence_of(test) {
        Some(true) => is_absent(pairs),
        Some(false) => !is_absent(pairs),
        None => some_fits(test, pairs),
    }
}

// Whether there are pairs, and the values of all fit.
#[tactic(auto, using(crate::proofs::LoopLemmas::of_all_values))]
fn every_holds(test: &Test, pairs: &[Pair]) -> bool
    ensures { result ≡ (not (is_absent (map (λ p. p.value) pairs.now)) && list_all (fits test.now) (map (λ p. p.value) pairs.now)) }
{
    !is_absent(pairs) && all_fit(test, pairs)
}

fn name_holds(test: &Test, name: &Text) -> bool
    ensures { result ≡ name_holds (absence_of test.now) test.now name.now (λ attr. []) }
{
    match absence_of(test) {
        Some(is_absent) => !is_absent,
        None => passes(test, name),
    }
}

// Whether a null test asks for absence; other tests ask one value.
pub(crate) fn absence_of(test: &Test) -> Option<bool>
    ensures { result ≡ absence_of test.now }
{
    match test {
        Test::IsNull => Some(true),
        Test::IsNotNull => Some(false),
        _ => None,
    }
}

// Whether an attribute has no value.
pub(crate) fn is_absent(pairs: &[Pair]) -> bool
    ensures { result ≡ is_absent (map (λ p. p.value) pairs.now) }
{
    match pairs.split_first() {
        Some(_) => false,
        None => true,
    }
}

// Whether the value of one of the pairs passes a test.
pub(crate) fn some_fits(test: &Test, pairs: &[Pair]) -> bool
    ensures { result ≡ list_any (λ p. fits test.now p.value) pairs.now }
{
    for pair in pairs {
        if passes(test, &pair.value) {
            return true;
        }
    }
    false
}

fn all_fit(test: &Test, pairs: &[Pair]) -> bool
    ensures { result ≡ list_all (λ p. fits test.now p.value) pairs.now }
{
    for pair in pairs {
        if !passes(test, &pair.value) {
            return false;
        }
    }
    true
}
