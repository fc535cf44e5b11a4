// What a conditional write expects, judged over an item.
ghost use Rattle.std.specs.Prelude.{◌≡◌, ◌+◌, ◌≤◌, [], map, unwrap_or, MatchResult, Some, None};
ghost use Rattle.std.specs.Option.{option_copied};
ghost use Rattle.sdb_pairs.specs.Accounts.{pairs_at};
ghost use Rattle.sdb_write.specs.Checks.{Checks};
ghost use Rattle.sdb_write.specs.Expectation.{judged, unmet};

use sdb_action::Expect;
use sdb_base::{Steps, Text};
use sdb_domain::Domain;
use sdb_pairs::{Item, Pair};
use sdb_tables::Refusal;

// Whether an item is as expected. It is looked at only where something is expected.
pub(crate) fn check<L>(
    domain: &Domain,
    name: &Text,
    expect: Option<&Expect>,
    looks: &mut Steps<L>,
) -> Result<(), Refusal>
    ensures answer { Checks (unmet (option_copied expect.entry) (pairs_at domain.now name.now)) result }
    ensures later { looks.old ≤ looks.new }
    ensures ticks { looks.new ≤ looks.old + 1 }
{
    match expect {
        Some(_) => judge_item(domain.item(name, looks), expect),
        None => Ok(()),
    }
}

// Whether an item is as expected. One that isn't there has no values.
pub(crate) fn judge_item(item: Option<&Item>, expect: Option<&Expect>) -> Result<(), Refusal>
    ensures { Checks (unmet (option_copied expect.entry) (unwrap_or (option_copied item.entry) [])) result }
{
    let Some(expect) = expect else {
        return Ok(());
    };
    match item {
        Some(item) => judge(expect.value.as_ref(), item.values(&expect.name)),
        None => judge(expect.value.as_ref(), &[]),
    }
}

// The table of expectations, over the pairs of the expected name.
fn judge(wanted: Option<&Text>, pairs: &[Pair]) -> Result<(), Refusal>
    ensures { MatchResult result
        (λ _. judged (option_copied wanted.entry) (map (λ p. p.value) pairs.now) ≡ None)
        (λ refusal. judged (option_copied wanted.entry) (map (λ p. p.value) pairs.now) ≡ Some refusal) }
{
    match wanted {
        Some(wanted) => judge_value(wanted, pairs),
        None if pairs.is_empty() => Ok(()),
        None => Err(Refusal::ConditionalCheckFailed),
    }
}

fn judge_value(wanted: &Text, pairs: &[Pair]) -> Result<(), Refusal>
    ensures { MatchResult result
        (λ _. judged (Some wanted.now) (map (λ p. p.value) pairs.now) ≡ None)
        (λ refusal. judged (Some wanted.now) (map (λ p. p.value) pairs.now) ≡ Some refusal) }
{
    match pairs {
        [] => Err(Refusal::AttributeDoesNotExist),
        [pair] if pair.value == *wanted => Ok(()),
        [_] => Err(Refusal::ConditionalCheckFailed),
        _ => Err(Refusal::MultiValuedAttribute),
    }
}
