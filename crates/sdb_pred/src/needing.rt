// What an item has to answer so that it can hold a condition.
ghost use Rattle.std.specs.Prelude.{◌≡◌, [], map};
ghost use Rattle.sdb_parse.specs.declared.expr.Operand.TheVariants as operand;
ghost use Rattle.sdb_parse.specs.Fits.{fits};
ghost use Rattle.sdb_parse.specs.Meaning.{absence_of, asks, attr_needs, has_value, meaning, names_items, predicate_needs, together};
ghost use Rattle.std.specs.List.{list_any};
ghost use Rattle.sdb_pred.specs.Items.{values_in};

use crate::asking::{passes, some_asks};
use crate::holding::{absence_of, is_absent, some_fits, some_value_fits_all};
use sdb_base::Text;
use sdb_pairs::{Item, Pair};
use sdb_parse::{Expr, Operand, Test};

/// Whether the item with that name can hold a predicate, as far as one of its values or its name tells: it has
/// a value that fits, or its name is one that is compared with. It takes no memory.
#[tactic(auto, using(crate::proofs::LoopLemmas::of_values))]
pub fn can_hold(operand: &Operand, test: &Test, name: &Text, item: &Item) -> bool
    ensures { result ≡ predicate_needs operand.now test.now name.now (values_in item.now) }
{
    match operand {
        Operand::Attr(attr) => attr_needs(test, item.values(attr)),
        Operand::Every(attr) => some_fits(test, item.values(attr)),
        Operand::ItemName => name_needs(test, name),
    }
}

/// Whether a value of the attribute is asked for by all members that are sole on it. It takes no memory.
pub fn has_value_for_all(members: &[Expr], attr: &Text, item: &Item) -> bool
    ensures { result ≡ has_value attr.now (together (map meaning members.now) attr.now) [] (values_in item.now) }
{
    some_value_fits_all(members, attr, item.values(attr))
}

/// Whether a value of the attribute is asked for by one of the members. It takes no memory.
pub fn has_value_for_some(members: &[Expr], attr: &Text, item: &Item) -> bool
    ensures { result ≡ has_value attr.now (λ value. list_any (λ m. m.asks value) (map meaning members.now)) [] (values_in item.now) }
{
    some_value_is_asked(members, item.values(attr))
}

/// Whether a value of the attribute passes the test. It takes no memory.
#[tactic(auto, using(crate::proofs::LoopLemmas::of_values))]
pub fn has_value_that_fits(test: &Test, attr: &Text, item: &Item) -> bool
    ensures { result ≡ has_value attr.now (fits test.now) [] (values_in item.now) }
{
    match test {
        Test::Eq(wanted) => item.has(attr, wanted),
        _ => some_fits(test, item.values(attr)),
    }
}

// Whether a value, in these pairs, is asked for by one of the members.
fn some_value_is_asked(members: &[Expr], pairs: &[Pair]) -> bool
    ensures { result ≡ list_any (λ p. list_any (λ e. asks e p.value) members.now) pairs.now }
{
    for pair in pairs {
        if some_asks(members, &pair.value) {
            return true;
        }
    }
    false
}

// Whether an attribute with these pairs answers what a predicate on it needs.
#[tactic(auto, using(crate::proofs::LoopLemmas::needs))]
fn attr_needs(test: &Test, pairs: &[Pair]) -> bool
    ensures { result ≡ attr_needs (absence_of test.now) [] test.now [] (λ attr. map (λ p. p.value) pairs.now) }
{
    match absence_of(test) {
        Some(true) => true,
        Some(false) => !is_absent(pairs),
        None => some_fits(test, pairs),
    }
}

// Whether a name answers what a predicate on it needs.
#[tactic(auto, using(crate::proofs::LoopLemmas::name_need))]
fn name_needs(test: &Test, name: &Text) -> bool
    ensures { result ≡ predicate_needs operand.ItemName test.now name.now (λ attr. []) }
{
    !names_items(test) || passes(test, name)
}

// Whether names are compared with constants.
fn names_items(test: &Test) -> bool
    ensures { result ≡ names_items test.now }
{
    matches!(test, Test::Eq(_) | Test::OneOf(_))
}
