// What a condition asks of one value.
ghost use Rattle.std.specs.Prelude.{◌≡◌, Some, not, ◌||◌};
ghost use Rattle.std.specs.List.{list_all, list_any};
ghost use Rattle.sdb_parse.specs.Fits.{fits};
ghost use Rattle.sdb_parse.specs.Meaning.{asks, same_attr, sole};

use crate::attr::{is_null_test, is_sole_on, sole};
use sdb_base::Text;
use sdb_parse::{Expr, Test, fits};

/// Whether a condition that is sole on an attribute asks for that value of it. It takes no memory.
#[cycle(asks)]
#[tactic(auto, using(sdb_parse::proofs::MeaningLemmas::asks_laws))]
pub fn asks(expr: &Expr, value: &Text) -> bool
    ensures { result ≡ asks expr.now value.now }
{
    match expr {
        Expr::Pred(_, test) => passes(test, value),
        Expr::And(members) => all_ask(members.as_slice(), value),
        Expr::Or(members) => some_asks(members.as_slice(), value),
        Expr::Not(_) | Expr::Inter(_) => false,
    }
}

#[cycle(asks)]
fn all_ask(members: &[Expr], value: &Text) -> bool
    ensures { result ≡ list_all (λ e. asks e value.now) members.now }
{
    for member in members {
        if !asks(member, value) {
            return false;
        }
    }
    true
}

#[cycle(asks)]
pub(crate) fn some_asks(members: &[Expr], value: &Text) -> bool
    ensures { result ≡ list_any (λ e. asks e value.now) members.now }
{
    for member in members {
        if asks(member, value) {
            return true;
        }
    }
    false
}

// Whether all members that are sole on the attribute ask for that value of it.
pub(crate) fn together(members: &[Expr], attr: &Text, value: &Text) -> bool
    ensures { result ≡ list_all (λ e. not (same_attr (Some attr.now) (sole e)) || asks e value.now) members.now }
{
    for member in members {
        if !may_stand(member, attr, value) {
            return false;
        }
    }
    true
}

// Whether a member isn't sole on the attribute, or asks for that value of it.
fn may_stand(member: &Expr, attr: &Text, value: &Text) -> bool
    ensures { result ≡ (not (same_attr (Some attr.now) (sole member.now)) || asks member.now value.now) }
{
    !is_sole_on(attr, sole(member)) || asks(member, value)
}

// Whether the value fits; a null test asks for no value.
pub(crate) fn passes(test: &Test, value: &Text) -> bool
    ensures { result ≡ fits test.now value.now }
{
    !is_null_test(test) && fits(test, value)
}
