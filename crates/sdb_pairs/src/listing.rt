// What an answer shows of items.
ghost use Rattle.std.specs.Prelude.{◌≡◌, [], ◌∷◌, ◌++◌, ◌↔◌, length, IsTrue, OnOk, OnErr};
ghost use Rattle.sdb_pairs.specs.Listing.{lent, ShownItem};

use crate::pair::Pair;
use sdb_base::{List, OutOfMemory, Text};
use std::alloc::Global;
use std::marker::Model;

/// Pairs in order, as an answer shows them, lent from the items that have them. Contracts see the pairs.
#[derive(Debug, Drop)]
pub struct Pairs<'a> {
    inner: Vec<&'a Pair>,
}

impl<'a> Model for Pairs<'a> {
    ghost use Rattle.std.specs.Prelude.{List};
    ghost use Rattle.sdb_pairs.specs.Listing.{lent};
    ghost use Rattle.sdb_pairs.specs.declared.pair.Pair.{Pair};

    ghost Value = { List Pair };

    ghost view = { λ it. lent it.inner.items };
}

impl<'a> Pairs<'a> {
    /// No pairs. It takes no memory, and later calls use this allocator.
    pub fn new(alloc: Global) -> Pairs<'a>
        ensures { result ≡ [] }
    {
        Pairs {
            inner: Vec::new(alloc),
        }
    }

    /// Puts a pair at the end.
    pub fn push(&mut self, pair: &'a Pair) -> Result<(), OutOfMemory>
        ensures ok { OnOk result (self.new ≡ self.old ++ pair.now ∷ []) }
        ensures err { OnErr result (self.new ≡ self.old) }
    {
        self.inner.push(pair)?;
        Ok(())
    }

    /// The number of pairs.
    pub fn len(&self) -> usize
        ensures { result ≡ length self.now }
    {
        self.inner.len()
    }

    /// Whether there is no pair.
    pub fn is_empty(&self) -> bool
        ensures { IsTrue result ↔ (self.now ≡ []) }
    {
        self.inner.is_empty()
    }

    /// The pairs in their order, each lent from its item.
    pub fn as_slice(&self) -> &[&'a Pair]
        ensures { lent result.now ≡ self.now }
    {
        self.inner.as_slice()
    }
}

/// An item as an answer shows it: its name, and those of its pairs that were asked for.
#[derive(Debug, Drop)]
pub struct ItemOut<'a> {
    name: &'a Text,
    pairs: Pairs<'a>,
}

impl<'a> Model for ItemOut<'a> {
    ghost use Rattle.sdb_pairs.specs.Listing.{ShownItem};

    ghost Value = { ShownItem };

    ghost view = { λ it. record { name = it.name.now; pairs = it.pairs } };
}

impl<'a> ItemOut<'a> {
    /// The item of that name, with the pairs that are shown of it.
    pub fn new(name: &'a Text, pairs: Pairs<'a>) -> ItemOut<'a>
        ensures { result ≡ record { name = name.now; pairs = pairs.entry } }
    {
        ItemOut { name, pairs }
    }

    /// The item's name.
    pub fn name(&self) -> &'a Text
        ensures { result.now ≡ self.now.name }
    {
        self.name
    }

    /// The pairs that are shown of the item.
    pub fn pairs(&self) -> &Pairs<'a>
        ensures { result.now ≡ self.now.pairs }
    {
        &self.pairs
    }
}

/// Items in the order of an answer.
pub type ItemsOut<'a> = List<ItemOut<'a>>;
