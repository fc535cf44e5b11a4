// Entries of an ordered map, written and put back.
ghost use Rattle.std.specs.Prelude.{◌≡◌, ◌^◌, ◌<◌, length, [], IfOk, OnOk, OnErr, IfSome, option_map, List, ℕ};
ghost use Rattle.std.specs.Option.{option_copied};
ghost use Rattle.std.specs.Map.{remove_entry, set_value};
ghost use Rattle.std.specs.BTreeMap.{is_at, insert_entry};
ghost use Rattle.sdb_base.specs.Texts.{text_cmp};
ghost use Rattle.sdb_base.specs.Entries.{found, IsRising};
ghost use Rattle.sdb_domain.specs.Keyed.{back, bound_after};
ghost use Rattle.sdb_domain.specs.LookUps.{entries_after, least_after};

use sdb_base::{OutOfMemory, Text};
use std::alloc::Global;
use std::collections::BTreeMap;
use std::collections::btree_map::Range;
use std::marker::Model;
use std::mem::replace;
use std::ops::Bound;

// Values under texts in rising order, whose changes can be taken back without memory.
#[derive(Drop)]
pub(crate) struct Keyed<V> {
    map: BTreeMap<Text, V>,
}

impl<V> Model for Keyed<V> {
    ghost use Rattle.std.specs.Prelude.{List, ℕ};
    ghost use Rattle.std.specs.Coded.{coded_list, coded×, coded_ℕ};
    ghost use Rattle.sdb_base.specs.Texts.{text_cmp};
    ghost use Rattle.sdb_base.specs.Entries.{IsRising};

    ghost Value = { List (List ℕ × V) };

    ghost coded = { coded_list (coded× (coded_list coded_ℕ) V.code) };

    ghost view = { λ it. it.map.entries };

    ghost invariant = { λ it. IsRising text_cmp it.map.entries };
}

impl<V> Keyed<V> {
    ghost use Rattle.std.specs.Borrow.{sem};
    ghost use Rattle.std.specs.Option.{option_copied_mut};
    ghost use Rattle.sdb_domain.specs.Lending.{LendsValue};

    pub(crate) fn new(alloc: Global) -> Keyed<V>
        ensures { result ≡ [] }
    {
        Keyed {
            map: BTreeMap::new(alloc),
        }
    }

    pub(crate) fn get(&self, key: &Text) -> Option<&V>
        ensures value { option_copied result ≡ found text_cmp self.now key.now }
        ensures rising { IsRising text_cmp self.now }
    {
        self.map.get(key)
    }

    // The value under the key, to be written in place.
    pub(crate) fn get_mut(&mut self, key: &Text) -> Option<&mut V>
        ensures* writes_back { sem 𝓛 (LendsValue V.row self.entry key.now result) }
        ensures value { option_copied_mut result ≡ found text_cmp self.old key.now }
        ensures rising { IsRising text_cmp self.old }
    {
        self.map.get_mut(key)
    }

    // The first entry whose key is above the given one, or of all.
    pub(crate) fn first_after(&self, after: Option<&Text>) -> Option<(&Text, &V)>
        ensures entry { option_map {U = List ℕ × V} (λ p. (p.0.now, p.1.now)) result ≡ least_after self.now (option_copied after.entry) }
        ensures rising { IsRising text_cmp self.now }
    {
        self.range_after(after).next()
    }

    // The stored key too.
    pub(crate) fn get_key_value(&self, key: &Text) -> Option<(&Text, &V)>
        ensures key { IfSome result (λ p. p.0.now ≡ key.now) }
        ensures value { option_map (λ p. p.1.now) result ≡ found text_cmp self.now key.now }
    {
        self.map.get_key_value(key)
    }

    // The entries above the key, in order, or all.
    pub(crate) fn range_after(&self, after: Option<&Text>) -> Range<'_, Text, V>
        ensures entries { result ≡ entries_after self.now (option_copied after.entry) }
        ensures fits { length result < 2 ^ 63 }
        ensures rising { IsRising text_cmp self.now }
    {
        self.map.range((start_after(after), Bound::Unbounded))
    }
}

// The bound from which the keys above the given one begin.
fn start_after(after: Option<&Text>) -> Bound<&Text>
    ensures { result ≡ bound_after after.entry }
{
    match after {
        Some(key) => Bound::Excluded(key),
        None => Bound::Unbounded,
    }
}

impl<V: Drop> Keyed<V> {
    // Sets the value under the key, in place where one is there, and gives the old one.
    pub(crate) fn set(
        &mut self,
        alloc: Global,
        key: &Text,
        value: V,
    ) -> Result<Option<V>, OutOfMemory>
        ensures old { IfOk result (λ old. old ≡ found text_cmp self.old key.now) }
        ensures ok { OnOk result (self.new ≡ insert_entry text_cmp self.old key.now value) }
        ensures err { OnErr result (self.new ≡ self.old) }
        ensures rising { IsRising text_cmp self.old }
    {
        match self.get_mut(key) {
            Some(held) => Ok(Some(replace(held, value))),
            None => self.insert(key.copy(alloc)?, value),
        }
    }

    pub(crate) fn insert(&mut self, key: Text, value: V) -> Result<Option<V>, OutOfMemory>
        ensures old { IfOk result (λ old. old ≡ found text_cmp self.old key) }
        ensures ok { OnOk result (self.new ≡ insert_entry text_cmp self.old key value) }
        ensures err { OnErr result (self.new ≡ self.old) }
    {
        let old = self.map.insert(key, value)?;
        Ok(old)
    }

    pub(crate) fn remove(&mut self, key: &Text)
        ensures { self.new ≡ remove_entry (is_at (text_cmp key.now)) self.old }
    {
        self.map.remove(key);
    }

    // Sets the value of a key that is there.
    fn write(&mut self, key: &Text, value: V)
        ensures { self.new ≡ set_value (is_at (text_cmp key.now)) self.old value }
    {
        if let Some(held) = self.get_mut(key) {
            *held = value;
        }
    }

    // Takes a change back: `was` is what stood under the key before.
    pub(crate) fn back(&mut self, key: &Text, was: Option<V>)
        ensures { self.new ≡ back self.old key.now was }
    {
        match was {
            Some(value) => self.write(key, value),
            None => self.remove(key),
        }
    }
}
