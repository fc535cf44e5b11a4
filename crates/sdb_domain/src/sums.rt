// Sums over the items of a domain.
ghost use Rattle.std.specs.Prelude.{◌≡◌, ◌+◌, ◌-◌, ◌<◌, ◌≤◌, ◌^◌, IfSome, IfNone, length};
ghost use Rattle.std.specs.Option.{SomeIff};
ghost use Rattle.std.specs.List.{sum_by};
ghost use Rattle.sdb_domain.specs.Weights.{item_weight, pair_weight, value_bytes_of};
ghost use Rattle.sdb_domain.specs.Sums.{part_sums, exchanged, SomeReachesLimit};

use sdb_base::Text;
use sdb_pairs::Pair;

// What a weight adds for each item and for each pair.
const OVERHEAD: u64 = 64;

// Sums over the items of a domain.
#[derive(Clone, Copy)]
pub(crate) struct Sums {
    pub(crate) items: u64,
    pub(crate) item_bytes: u64,
    pub(crate) pairs: u64,
    pub(crate) value_bytes: u64,
    pub(crate) weight: u64,
}

// The bytes of the values of some pairs, and their weight.
#[derive(Clone, Copy)]
struct PairSums {
    value_bytes: u64,
    weight: u64,
}

/// The weight of an item of these pairs: the bytes of its name and 64, and for each pair the bytes of its
/// name and value and 64. `None` where that reaches 2^64.
pub fn item_weight(name: &Text, pairs: &[Pair]) -> Option<u64>
    ensures { SomeIff result (item_weight (name.now, pairs.now) < 2 ^ 64) (item_weight (name.now, pairs.now)) }
{
    named_weight(name, sum_pairs(pairs)?.weight)
}

// The weight of an item whose pairs have that weight.
fn named_weight(name: &Text, pairs: u64) -> Option<u64>
    ensures { SomeIff result (length name.now + 64 + pairs < 2 ^ 64) (length name.now + 64 + pairs) }
{
    let bytes = name.as_str().len() as u64;
    bytes.checked_add(OVERHEAD)?.checked_add(pairs)
}

impl Sums {
    ghost use Rattle.sdb_domain.specs.Sums.{no_sums};

    pub(crate) fn none() -> Sums
        ensures { result ≡ no_sums }
    {
        Sums {
            items: 0,
            item_bytes: 0,
            pairs: 0,
            value_bytes: 0,
            weight: 0,
        }
    }

    // What these pairs of a row add, and the row itself where it is counted with them. `None` where its weight
    // reaches 2^64.
    pub(crate) fn of_part(name: &Text, counted: bool, pairs: &[Pair]) -> Option<Sums>
        ensures value { IfSome result (λ sums. sums ≡ part_sums name.now counted pairs.now) }
        ensures none { IfNone result (2 ^ 64 ≤ item_weight (name.now, pairs.now)) }
    {
        let sums = sum_pairs(pairs)?;
        let part = Sums {
            items: 0,
            item_bytes: 0,
            pairs: pairs.len() as u64,
            value_bytes: sums.value_bytes,
            weight: sums.weight,
        };
        if !counted {
            return Some(part);
        }
        Some(Sums {
            items: 1,
            item_bytes: name.as_str().len() as u64,
            weight: named_weight(name, sums.weight)?,
            ..part
        })
    }

    // The sums once `new` stands in the place of `old`. `None` where a sum reaches 2^64.
    pub(crate) fn exchange(&self, old: &Sums, new: &Sums) -> Option<Sums>
        ensures value { IfSome result (λ sums. sums ≡ exchanged self.now old.now new.now) }
        ensures none { IfNone result (SomeReachesLimit (exchanged self.now old.now new.now)) }
    {
        Some(Sums {
            items: moved(self.items, old.items, new.items)?,
            item_bytes: moved(self.item_bytes, old.item_bytes, new.item_bytes)?,
            pairs: moved(self.pairs, old.pairs, new.pairs)?,
            value_bytes: moved(self.value_bytes, old.value_bytes, new.value_bytes)?,
            weight: moved(self.weight, old.weight, new.weight)?,
        })
    }
}

// A sum once `new` stands in the place of `old`. `None` where it reaches 2^64.
pub(crate) fn moved(sum: u64, old: u64, new: u64) -> Option<u64>
    ensures { SomeIff result (sum - old + new < 2 ^ 64) (sum - old + new) }
{
    sum.saturating_sub(old).checked_add(new)
}

// `None` where the weight reaches 2^64.
fn sum_pairs(pairs: &[Pair]) -> Option<PairSums>
    ensures value { IfSome result (λ sums. sums.value_bytes ≡ value_bytes_of pairs.now) }
    ensures weight { IfSome result (λ sums. sums.weight ≡ sum_by pair_weight pairs.now) }
    ensures none { IfNone result (2 ^ 64 ≤ sum_by pair_weight pairs.now) }
{
    let mut value_bytes: u64 = 0;
    let mut weight: u64 = 0;
    for pair in pairs {
        let value = pair.value.as_str().len() as u64;
        let bytes = (pair.name.as_str().len() as u64)
            .checked_add(value)?
            .checked_add(OVERHEAD)?;
        weight = weight.checked_add(bytes)?;
        value_bytes += value;
    }
    Some(PairSums {
        value_bytes,
        weight,
    })
}
