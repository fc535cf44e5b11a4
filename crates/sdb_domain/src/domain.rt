// One domain, as callers see it.
ghost use Rattle.std.specs.Prelude.{◌≡◌, ◌+◌, ◌≤◌, IfOk, OnOk, map, option_map, length, List, ℕ};
ghost use Rattle.sdb_pairs.specs.declared.pair.Pair.{Pair};
ghost use Rattle.std.specs.Option.{option_copied};
ghost use Rattle.sdb_base.specs.Texts.{text_cmp};
ghost use Rattle.sdb_base.specs.Entries.{found};
ghost use Rattle.sdb_pairs.specs.Accounts.{AreItems};
ghost use Rattle.sdb_domain.specs.Held.{items_kept, IsClean};
ghost use Rattle.sdb_domain.specs.LookUps.{least_after, held_text};
ghost use Rattle.sdb_domain.specs.Metadata.{Describes};
ghost use Rattle.sdb_domain.specs.Rows.{seen_row};
ghost use Rattle.sdb_domain.specs.Weights.{domain_weight, pair_count};

use crate::held::Held;
use crate::items::Items;
use crate::metadata::Metadata;
use crate::row::Row;
use sdb_base::{OutOfMemory, Steps, Text};
use sdb_pairs::Item;
use std::alloc::Global;
use std::fmt;
use std::marker::Model;

/// The items of one domain, strictly rising by name, each with at least one pair. Looking up takes no memory.
#[derive(Drop)]
pub struct Domain {
    held: Held,
}

impl Model for Domain {
    ghost use Rattle.sdb_pairs.specs.Accounts.{ItemEntries};
    ghost use Rattle.sdb_domain.specs.Held.{items_kept, IsInOrder};

    ghost Value = { ItemEntries };

    ghost view = { λ it. items_kept it.held };

    ghost invariant = { λ it. IsInOrder it.held };
}

// The items are seen by `item`, `items`, `scan` and `scan_all` alone.
impl fmt::Debug for Domain {
    fn fmt<W: fmt::Write>(&self, f: &mut fmt::Formatter<W>) -> fmt::Result {
        f.debug_struct("Domain").finish_non_exhaustive()
    }
}

impl Domain {
    // Nothing is hidden in it.
    pub(crate) fn of(held: Held) -> Domain
        requires { IsClean held }
        ensures { result ≡ items_kept held }
    {
        let _sums = held.sums();
        Domain { held }
    }

    pub(crate) fn into_held(self) -> Held
        ensures same { items_kept result ≡ self }
        ensures clean { IsClean result }
    {
        let Domain { held } = self;
        held
    }

    /// The item of that name. Counts one step.
    pub fn item<L>(&self, name: &Text, items: &mut Steps<L>) -> Option<&Item>
        ensures found { option_map (λ i. i.now) result ≡ found text_cmp self.now name.now }
        ensures ticks { items.new ≡ items.old + 1 }
        ensures in_order { AreItems self.now }
    {
        items.tick();
        self.held.item(name)
    }

    /// The item of the least name above the given one, or of the least name of all. Counts one step.
    pub fn scan<L>(&self, after: Option<&Text>, items: &mut Steps<L>) -> Option<(&Text, &Item)>
        ensures item { option_map {U = List ℕ × List Pair} (λ p. (p.0.now, p.1.now)) result ≡ least_after self.now (option_copied after.entry) }
        ensures ticks { items.new ≡ items.old + 1 }
        ensures in_order { AreItems self.now }
    {
        items.tick();
        self.held.scan(after)
    }

    /// All items, lent one after the other in their order. Counts one step for each. Takes no memory.
    pub fn items<L>(&self, items: &mut Steps<L>) -> Items<'_>
        ensures items { result ≡ self.now }
        ensures ticks { items.new ≡ items.old + length self.now }
        ensures in_order { AreItems self.now }
    {
        for _place in 0..self.held.item_count() {
            items.tick();
        }
        Items::of(self.held.items())
    }

    /// All items in their order, by one walk. Counts one step for each; where memory is wanting it may have met fewer.
    pub fn scan_all<L>(
        &self,
        alloc: Global,
        items: &mut Steps<L>,
    ) -> Result<Vec<Row<'_>>, OutOfMemory>
        ensures all { IfOk result (λ rows. map seen_row rows.items ≡ self.now) }
        ensures ticks { OnOk result (items.new ≡ items.old + length self.now) }
        ensures later { items.old ≤ items.new }
        ensures most { items.new ≤ items.old + length self.now }
        ensures in_order { AreItems self.now }
    {
        let mut rows = Vec::with_capacity(alloc, self.held.item_count() as usize)?;
        for (name, item) in self.held.items() {
            items.tick();
            rows.push(Row { name, item })?;
        }
        Ok(rows)
    }

    /// The domain's own copy of the name, where it has such an item. It tells nothing of the item's pairs.
    pub fn held_name(&self, name: &Text) -> Option<&Text>
        ensures { option_map (λ t. t.now) result ≡ held_text self.now name.now }
    {
        self.held.held_name(name)
    }

    pub fn item_count(&self) -> u64
        ensures count { result ≡ length self.now }
        ensures in_order { AreItems self.now }
    {
        self.held.item_count()
    }

    /// The number of pairs of all items.
    pub fn pair_count(&self) -> u64
        ensures { result ≡ pair_count self.now }
    {
        self.held.pair_count()
    }

    /// The weight of the items: each weighs the bytes of its name and 64, and each pair the bytes of its
    /// name and value and 64.
    pub fn weight(&self) -> u64
        ensures { result ≡ domain_weight self.now }
    {
        self.held.weight()
    }

    /// Numbers that describe the domain, which are kept as sums.
    pub fn metadata(&self) -> Metadata
        ensures { Describes self.now result }
    {
        self.held.metadata()
    }
}
