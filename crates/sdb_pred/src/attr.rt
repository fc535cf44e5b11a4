// The attribute that a condition is sole on.
ghost use Rattle.std.specs.Prelude.{◌≡◌, Some, map};
ghost use Rattle.std.specs.Option.{option_copied};
ghost use Rattle.sdb_parse.specs.Conditions.{is_null_test};
ghost use Rattle.sdb_parse.specs.Meaning.{common, same_attr, sole, sole_predicate};

use sdb_base::Text;
use sdb_parse::{Expr, Operand, Test};

/// The attribute that a condition is sole on: that of a predicate on a plain attribute which is no null test,
/// and of an `and` or an `or` whose members are all sole on the same.
#[cycle(sole)]
#[tactic(auto, using(sdb_parse::proofs::MeaningLemmas::sole_laws))]
pub fn sole(expr: &Expr) -> Option<&Text>
    ensures { option_copied result ≡ sole expr.now }
{
    match expr {
        Expr::Pred(operand, test) => sole_predicate(operand, test),
        Expr::And(members) => common(members.as_slice()),
        Expr::Or(members) => common(members.as_slice()),
        Expr::Not(_) | Expr::Inter(_) => None,
    }
}

// The attribute that all members are sole on.
#[cycle(sole)]
fn common(members: &[Expr]) -> Option<&Text>
    ensures { option_copied result ≡ common (map sole members.now) }
{
    let (first, others) = members.split_first()?;
    let attr = sole(first)?;
    for other in others {
        if !is_sole_on(attr, sole(other)) {
            return None;
        }
    }
    Some(attr)
}

// Whether a condition that is sole so is sole on that attribute.
pub(crate) fn is_sole_on(attr: &Text, sole: Option<&Text>) -> bool
    ensures { result ≡ same_attr (Some attr.now) (option_copied sole.entry) }
{
    match sole {
        Some(name) => attr == name,
        None => false,
    }
}

fn sole_predicate<'a>(operand: &'a Operand, test: &Test) -> Option<&'a Text>
    ensures { option_copied result ≡ sole_predicate operand.now test.now }
{
    match operand {
        Operand::Attr(attr) => { if is_null_test(test) { None } else { Some(attr) } }
        Operand::Every(_) | Operand::ItemName => None,
    }
}

// Whether the test asks for absence or presence.
pub(crate) fn is_null_test(test: &Test) -> bool
    ensures { result ≡ is_null_test test.now }
{
    matches!(test, Test::IsNull | Test::IsNotNull)
}
