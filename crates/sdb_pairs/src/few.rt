// The pairs of one name among a few, whose names are compared one after the other.
ghost use Rattle.std.specs.Prelude.{◌≡◌, ◌&&◌, true, bytes_eq, slice_index_or};
ghost use Rattle.std.specs.List.{list_any};
ghost use Rattle.std.specs.List.Sorted.{IsStrictlySortedBy};
ghost use Rattle.sdb_pairs.specs.Pairs.{pair_cmp, is_named, part_named};
ghost use Rattle.sdb_pairs.specs.declared.pair.Pair.{Pair};

use crate::pair::Pair;
use sdb_base::Text;

// The pairs of that name. Among a few pairs this takes less than a search does.
pub(crate) fn few_named<'a>(pairs: &'a [Pair], name: &Text) -> &'a [Pair]
    requires { IsStrictlySortedBy pair_cmp pairs.now }
    ensures { result.now ≡ part_named name.now pairs.now }
{
    for (place, pair) in pairs.iter().enumerate() {
        if pair.name == *name {
            return front_named(&pairs[place..], name);
        }
    }
    &[]
}

// The same where the first pair has the name.
fn front_named<'a>(pairs: &'a [Pair], name: &Text) -> &'a [Pair]
    requires rising { IsStrictlySortedBy pair_cmp pairs.now }
    requires first { (d : Pair) → is_named name.now (slice_index_or pairs.now 0 d) ≡ true }
    ensures { result.now ≡ part_named name.now pairs.now }
{
    for (place, pair) in pairs.iter().enumerate() {
        if pair.name != *name {
            return &pairs[..place];
        }
    }
    pairs
}

// Whether one of the pairs has that name and that value. Values are compared first, since they differ more often.
pub(crate) fn few_have(pairs: &[Pair], name: &Text, value: &Text) -> bool
    ensures { result ≡ list_any (λ p. bytes_eq p.value value.now && is_named name.now p) pairs.now }
{
    for pair in pairs {
        if pair.value == *value && pair.name == *name {
            return true;
        }
    }
    false
}
