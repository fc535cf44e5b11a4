// Items: sets of pairs in order.
ghost use Rattle.std.specs.Prelude.{◌≡◌, ◌≤◌, not, [], bytes_eq, length, slice_range, filter, IfOk, OnOk, OnErr};
ghost use Rattle.std.specs.List.{list_any, remove_range};
ghost use Rattle.std.specs.List.Sorted.{IsStrictlySortedBy};
ghost use Rattle.sdb_pairs.specs.Pairs.{pair_cmp, is_named, part_named};

use crate::few::{few_have, few_named};
use crate::op::Op;
use crate::pair::Pair;
use sdb_base::{OutOfMemory, Text};
use std::alloc::Global;
use std::marker::Model;

// Up to so many pairs are looked through one by one where those of a name are wanted.
const FEW: usize = 8;

/// The pairs of one item, strictly rising by name and then by value.
#[derive(Debug, Drop)]
pub struct Item {
    pub(crate) pairs: Vec<Pair>,
}

impl Model for Item {
    ghost use Rattle.std.specs.Prelude.{List};
    ghost use Rattle.std.specs.List.Sorted.{IsStrictlySortedBy};
    ghost use Rattle.sdb_pairs.specs.declared.pair.Pair.{Pair};
    ghost use Rattle.sdb_pairs.specs.Pairs.{pair_cmp};

    ghost Value = { List Pair };

    ghost view = { λ it. it.pairs.items };

    ghost invariant = { λ it. IsStrictlySortedBy pair_cmp it.pairs.items };
}

impl Item {
    ghost use Rattle.sdb_pairs.specs.Pairs.{pair_cmp, pair_eq, is_named, part_named, with_pair, after_op};

    /// An item without pairs, which takes no memory.
    pub fn new(alloc: Global) -> Self
        ensures { result ≡ [] }
    {
        Item {
            pairs: Vec::new(alloc),
        }
    }

    /// Every pair, strictly rising.
    pub fn pairs(&self) -> &[Pair]
        ensures same { result.now ≡ self.now }
        ensures rising { IsStrictlySortedBy pair_cmp self.now }
    {
        self.pairs.as_slice()
    }

    /// The pairs of that name, strictly rising by value. It takes no memory.
    pub fn values(&self, name: &Text) -> &[Pair]
        ensures { result.now ≡ part_named name.now self.now }
    {
        let pairs = self.pairs.as_slice();
        if pairs.len() <= FEW {
            return few_named(pairs, name);
        }
        let (start, end) = span_of(pairs, name);
        &pairs[start..end]
    }

    /// Whether the item has a pair of that name and that value. It takes no memory.
    pub fn has(&self, name: &Text, value: &Text) -> bool
        ensures { result ≡ list_any (λ p. bytes_eq p.value value.now) (part_named name.now self.now) }
    {
        let pairs = self.pairs.as_slice();
        if pairs.len() <= FEW {
            return few_have(pairs, name, value);
        }
        one_has_value(self.values(name), value)
    }

    // A second item of the same pairs, with room for so many.
    pub(crate) fn copy(&self, alloc: Global, room: usize) -> Result<Item, OutOfMemory>
        ensures { IfOk result (λ copied. copied ≡ self.now) }
    {
        let mut pairs = Vec::with_capacity(alloc, room)?;
        for pair in &self.pairs {
            pairs.push(pair.copy(alloc)?)?;
        }
        Ok(Item { pairs })
    }

    // Applies one operation.
    pub(crate) fn take(&mut self, alloc: Global, op: &Op) -> Result<(), OutOfMemory>
        ensures ok { OnOk result (self.new ≡ after_op self.old op.now) }
        ensures err { OnErr result (self.new ≡ self.old) }
    {
        match op {
            Op::AddPair(pair) => return self.add_pair(alloc, pair),
            Op::DropPair(pair) => self.drop_pair(pair),
            Op::DropName(name) => self.drop_name(name),
            Op::DropAll => self.pairs.clear(),
        }
        Ok(())
    }

    pub(crate) fn add_pair(&mut self, alloc: Global, pair: &Pair) -> Result<(), OutOfMemory>
        ensures ok { OnOk result (self.new ≡ with_pair self.old pair.now) }
        ensures err { OnErr result (self.new ≡ self.old) }
    {
        if let Err(place) = self.pairs.binary_search(pair) {
            let added = pair.copy(alloc)?;
            self.pairs.insert(place, added)?;
        }
        Ok(())
    }

    fn drop_pair(&mut self, pair: &Pair)
        ensures { self.new ≡ filter (λ q. not (pair_eq q pair.now)) self.old }
    {
        if let Ok(place) = self.pairs.binary_search(pair) {
            self.pairs.remove(place);
        }
    }

    fn drop_name(&mut self, name: &Text)
        ensures { self.new ≡ filter (λ q. not (is_named name.now q)) self.old }
    {
        let (start, end) = span_of(self.pairs.as_slice(), name);
        self.pairs.drain(start..end);
    }
}

// Whether one of the pairs has that value.
fn one_has_value(pairs: &[Pair], value: &Text) -> bool
    ensures { result ≡ list_any (λ p. bytes_eq p.value value.now) pairs.now }
{
    for pair in pairs {
        if pair.value == *value {
            return true;
        }
    }
    false
}

// Where the part with that name begins, and where it ends.
fn span_of(pairs: &[Pair], name: &Text) -> (usize, usize)
    requires { IsStrictlySortedBy pair_cmp pairs.now }
    ensures order { result.0 ≤ result.1 }
    ensures within { result.1 ≤ length pairs.now }
    ensures part { slice_range pairs.now result.0 result.1 ≡ part_named name.now pairs.now }
    ensures others { remove_range pairs.now result.0 result.1 ≡ filter (λ q. not (is_named name.now q)) pairs.now }
{
    let start = pairs.partition_point(|pair| pair.name < *name);
    let (_, rest) = pairs.split_at(start);
    let count = rest.partition_point(|pair| pair.name == *name);
    (start, start + count)
}
