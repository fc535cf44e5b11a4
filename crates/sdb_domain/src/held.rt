// What is kept of a domain: its rows, with counts and sums beside them.
ghost use Rattle.std.specs.Prelude.{◌≡◌, IfOk, OnOk, OnErr, option_map, length, List, ℕ, [], true, false, Some};
ghost use Rattle.sdb_pairs.specs.declared.pair.Pair.{Pair};
ghost use Rattle.std.specs.Option.{option_copied};
ghost use Rattle.sdb_domain.specs.LookUps.{least_after, held_text};
ghost use Rattle.sdb_domain.specs.Weights.{domain_weight, pair_count};
ghost use Rattle.sdb_base.specs.Texts.{text_cmp};
ghost use Rattle.sdb_base.specs.Entries.{found, IsRising};
ghost use Rattle.sdb_pairs.specs.Changes.{edited};
ghost use Rattle.sdb_domain.specs.Sums.{has_left, sums_after};
ghost use Rattle.sdb_domain.specs.Undo.{RowExchanges, HasRoom, row_back, SweepsRow};

use crate::keyed::Keyed;
use crate::metadata::Metadata;
use crate::names::{NameWas, Names};
use crate::sums::Sums;
use sdb_base::{OutOfMemory, Text};
use sdb_pairs::{Exchange, Item, Ops, Pair, merge, touched};
use std::alloc::Global;
use std::collections::btree_map::Range;
use std::marker::Model;

// A domain's rows with their counts and sums. A row without pairs stands for no item; one is left where an
// edit takes an item's last pair, so that the edit can be taken back without memory.
#[derive(Drop)]
pub(crate) struct Held {
    rows: Keyed<Item>,
    names: Names,
    sums: Sums,
}

impl Model for Held {
    ghost use Rattle.sdb_domain.specs.Held.{Kept, IsWhole};

    ghost Value = { Kept };

    ghost view = { λ it. record { rows = it.rows; names = it.names; sums = it.sums } };

    ghost invariant = { λ it. IsWhole (record { rows = it.rows; names = it.names; sums = it.sums }) };
}

// What stood in a domain before an edit of a row, by what takes the edit back: a row that the edit made goes.
// And whether the edit left the row without pairs.
#[derive(Drop)]
pub(crate) struct RowWas {
    name: Text,
    exchange: Option<Exchange>,
    emptied: bool,
    names: Vec<NameWas>,
    sums: Sums,
}

impl Held {
    ghost use Rattle.sdb_domain.specs.Metadata.{Describes};
    ghost use Rattle.sdb_domain.specs.Held.{IsWhole, IsClean, nothing_kept, items_kept};
    ghost use Rattle.sdb_domain.specs.Undo.{row_undone, FitsRow, ChangesOnly, Sweeps};

    pub(crate) fn new(alloc: Global) -> Held
        ensures { result ≡ nothing_kept }
    {
        Held {
            rows: Keyed::new(alloc),
            names: Names::new(alloc),
            sums: Sums::none(),
        }
    }

    // Applies the operations to the row of that name. Gives what takes it back.
    pub(crate) fn edit(
        &mut self,
        alloc: Global,
        name: &Text,
        ops: &Ops,
    ) -> Result<RowWas, OutOfMemory>
        ensures ok { OnOk result (items_kept self.new ≡ edited (items_kept self.old) name.now ops.now) }
        ensures back { IfOk result (λ was. row_undone self.new was ≡ self.old) }
        ensures only { IfOk result (λ was. ChangesOnly self.old self.new was) }
        ensures err { OnErr result (self.new ≡ self.old) }
        ensures room { IfOk result (λ was. FitsRow self.new was) }
        ensures was_whole { IsWhole self.old }
    {
        let none = Item::new(alloc);
        let old = self.rows.get(name).unwrap_or(&none);
        let out = touched(alloc, old, ops)?;
        let put = merge(alloc, &out, ops)?;
        let sums = sums_after(&self.sums, name, old.pairs(), out.pairs(), put.pairs())?;
        let left = has_left(old.pairs(), out.pairs(), put.pairs());
        let kept = name.copy(alloc)?;
        let names = self.names.recount(alloc, out.pairs(), put.pairs())?;
        match exchange(&mut self.rows, alloc, name, out, put) {
            Ok(exchange) => {
                let before = self.sums;
                self.sums = sums;
                Ok(RowWas {
                    name: kept,
                    exchange,
                    emptied: !left,
                    names,
                    sums: before,
                })
            }
            Err(error) => {
                self.names.unwind(names);
                Err(error)
            }
        }
    }

    pub(crate) fn item(&self, name: &Text) -> Option<&Item>
        requires { IsClean self.now }
        ensures { option_map (λ i. i.now) result ≡ found text_cmp (items_kept self.now) name.now }
    {
        self.rows.get(name)
    }

    pub(crate) fn sums(&self) -> Sums
        ensures sums { result ≡ self.now.sums }
        ensures whole { IsWhole self.now }
    {
        self.sums
    }

    pub(crate) fn item_count(&self) -> u64
        ensures { result ≡ length (items_kept self.now) }
    {
        self.sums.items
    }

    pub(crate) fn pair_count(&self) -> u64
        ensures { result ≡ pair_count (items_kept self.now) }
    {
        self.sums.pairs
    }

    pub(crate) fn weight(&self) -> u64
        ensures { result ≡ domain_weight (items_kept self.now) }
    {
        self.sums.weight
    }

    pub(crate) fn metadata(&self) -> Metadata
        ensures { Describes (items_kept self.now) result }
    {
        Metadata {
            items: self.sums.items,
            item_bytes: self.sums.item_bytes,
            names: self.names.number,
            name_bytes: self.names.bytes,
            pairs: self.sums.pairs,
            value_bytes: self.sums.value_bytes,
        }
    }

    pub(crate) fn scan(&self, after: Option<&Text>) -> Option<(&Text, &Item)>
        requires { IsClean self.now }
        ensures { option_map {U = List ℕ × List Pair} (λ p. (p.0.now, p.1.now)) result ≡ least_after (items_kept self.now) (option_copied after.entry) }
    {
        self.rows.first_after(after)
    }

    // All items, in order.
    pub(crate) fn items(&self) -> Range<'_, Text, Item>
        requires { IsClean self.now }
        ensures { result ≡ items_kept self.now }
    {
        self.rows.range_after(None)
    }

    pub(crate) fn held_name(&self, name: &Text) -> Option<&Text>
        requires { IsClean self.now }
        ensures { option_map (λ t. t.now) result ≡ held_text (items_kept self.now) name.now }
    {
        let (held, _) = self.rows.get_key_value(name)?;
        Some(held)
    }

    // Takes out what an edit left hidden: a row that it emptied, where no later one has filled it, and names
    // that no item has.
    pub(crate) fn sweep(&mut self, was: &RowWas)
        ensures same { items_kept self.new ≡ items_kept self.old }
        ensures swept { Sweeps self.old self.new was.now }
    {
        sweep_row(&mut self.rows, &was.name, was.emptied);
        self.names.sweep(was.names.as_slice());
    }

    // Takes an edit back.
    pub(crate) fn undo(&mut self, was: RowWas)
        requires whole { IsWhole (row_undone self.old was) }
        requires room { FitsRow self.old was }
        ensures { self.new ≡ row_undone self.old was }
    {
        let RowWas {
            name,
            exchange,
            emptied: _,
            names,
            sums,
        } = was;
        take_back(&mut self.rows, &name, exchange);
        self.names.unwind(names);
        self.sums = sums;
    }
}

// The sums once some pairs of an item are taken out and others put in.
fn sums_after(
    sums: &Sums,
    name: &Text,
    item: &[Pair],
    out: &[Pair],
    put: &[Pair],
) -> Result<Sums, OutOfMemory>
    ensures { IfOk result (λ after. after ≡ sums_after sums.now name.now item.now out.now put.now) }
{
    let (Some(out), Some(put)) = (
        Sums::of_part(name, !item.is_empty(), out),
        Sums::of_part(name, has_left(item, out, put), put),
    ) else {
        return Err(OutOfMemory);
    };
    match sums.exchange(&out, &put) {
        Some(after) => Ok(after),
        None => Err(OutOfMemory),
    }
}

// Whether an item has pairs once some are taken out and others put in.
fn has_left(item: &[Pair], out: &[Pair], put: &[Pair]) -> bool
    ensures { result ≡ has_left item.now out.now put.now }
{
    item.len() != out.len() || !put.is_empty()
}

// Takes pairs out of a row and puts others in, or makes the row. Gives what takes that back, where the row was there.
fn exchange(
    rows: &mut Keyed<Item>,
    alloc: Global,
    name: &Text,
    out: Item,
    put: Item,
) -> Result<Option<Exchange>, OutOfMemory>
    ensures ok { IfOk result (λ exchange. RowExchanges rows.old rows.new name.now out put exchange) }
    ensures err { OnErr result (rows.new ≡ rows.old) }
    ensures rising { IsRising text_cmp rows.old }
{
    match rows.get_mut(name) {
        Some(item) => match item.exchange(alloc, out, put) {
            Ok(exchange) => Ok(Some(exchange)),
            Err(error) => Err(error),
        },
        None => {
            rows.insert(name.copy(alloc)?, put)?;
            Ok(None)
        }
    }
}

// Takes an exchange back, or a row out that an edit made.
fn take_back(rows: &mut Keyed<Item>, name: &Text, exchange: Option<Exchange>)
    requires { HasRoom (found text_cmp rows.old name.now) exchange }
    ensures { rows.new ≡ row_back rows.old name.now exchange }
{
    match exchange {
        None => rows.remove(name),
        Some(exchange) => {
            if let Some(item) = rows.get_mut(name) {
                item.take_back(exchange);
            }
        }
    }
}

// Takes a row out that was emptied, where it is without pairs still. No other is looked up.
fn sweep_row(rows: &mut Keyed<Item>, name: &Text, emptied: bool)
    ensures { SweepsRow emptied rows.old rows.new name.now }
{
    if emptied && is_hidden(rows, name) {
        rows.remove(name);
    }
}

fn is_hidden(rows: &Keyed<Item>, name: &Text) -> bool
    ensures yes { result ≡ true → found text_cmp rows.now name.now ≡ Some [] }
    ensures no { result ≡ false → found text_cmp rows.now name.now ≡ Some [] → ⊥ }
{
    match rows.get(name) {
        Some(item) => item.pairs().is_empty(),
        None => false,
    }
}
