// The part of an item that operations may change, and its exchange in place.
ghost use Rattle.std.specs.Prelude.{◌≡◌, ◌+◌, ◌<◌, ◌≤◌, not, length, filter, fold, IfOk, OnOk, OnErr};
ghost use Rattle.std.specs.Option.{option_copied};
ghost use Rattle.std.specs.Vec.{vec_capacity};
ghost use Rattle.std.specs.List.Sorted.{IsStrictlySortedBy};
ghost use Rattle.sdb_pairs.specs.Pairs.{pair_cmp, pair_eq, with_pair};
ghost use Rattle.sdb_pairs.specs.Parts.{name_of, part_given, touched, AddsTouched, without, exchanged, taken_back};

use crate::item::Item;
use crate::op::{Op, Ops};
use crate::pair::Pair;
use sdb_base::{OutOfMemory, Text};
use std::alloc::Global;
use std::marker::Model;
use std::mem::replace;

/// The pairs of the item under the names that the operations name. Where one drops all, these are all.
pub fn touched(alloc: Global, item: &Item, ops: &Ops) -> Result<Item, OutOfMemory>
    ensures { IfOk result (λ part. part ≡ touched item.now ops.now) }
{
    let mut part = Item::new(alloc);
    if item.pairs().is_empty() {
        return Ok(part);
    }
    for op in ops.as_slice() {
        add_touched(&mut part, alloc, item, op)?;
    }
    Ok(part)
}

// Adds what one operation touches, unless it is there.
fn add_touched(part: &mut Item, alloc: Global, item: &Item, op: &Op) -> Result<(), OutOfMemory>
    ensures { OnOk result (AddsTouched part.old part.new item.now op.now) }
{
    if let Some(name) = name_of(op) {
        if !part.values(name).is_empty() {
            return Ok(());
        }
    }
    add_all(part, alloc, part_given(item, name_of(op)))
}

// The name whose pairs the operation may change. `None` where it may change all.
fn name_of(op: &Op) -> Option<&Text>
    ensures { option_copied result ≡ name_of op.now }
{
    match op {
        Op::AddPair(pair) => Some(&pair.name),
        Op::DropPair(pair) => Some(&pair.name),
        Op::DropName(name) => Some(name),
        Op::DropAll => None,
    }
}

// The pairs of that name, or all.
fn part_given<'a>(item: &'a Item, name: Option<&Text>) -> &'a [Pair]
    ensures { result.now ≡ part_given (option_copied name.entry) item.now }
{
    match name {
        Some(name) => item.values(name),
        None => item.pairs(),
    }
}

fn add_all(part: &mut Item, alloc: Global, pairs: &[Pair]) -> Result<(), OutOfMemory>
    ensures { OnOk result (part.new ≡ fold with_pair part.old pairs.now) }
{
    for pair in pairs {
        part.add_pair(alloc, pair)?;
    }
    Ok(())
}

/// What takes an exchange of pairs back, without memory: there is room for the pairs that were taken out and
/// all others.
#[derive(Drop)]
pub struct Exchange {
    out: Vec<Pair>,
    put: Item,
}

impl Model for Exchange {
    ghost use Rattle.sdb_pairs.specs.Parts.{ExchangeKept};
    ghost use Rattle.sdb_pairs.specs.Pairs.{pair_cmp};
    ghost use Rattle.std.specs.List.Sorted.{IsStrictlySortedBy};
    ghost use Rattle.std.specs.Vec.{vec_capacity};

    ghost Value = { ExchangeKept };

    ghost view = { λ it. record { out = it.out.items; put = it.put; room = vec_capacity it.out } };

    ghost invariant = { λ it. IsStrictlySortedBy pair_cmp it.out.items };
}

impl Item {
    /// Takes pairs out and puts others in, in place. Gives what takes that back.
    pub fn exchange(&mut self, alloc: Global, out: Item, put: Item) -> Result<Exchange, OutOfMemory>
        ensures ok { OnOk result (self.new ≡ exchanged self.old out put) }
        ensures out { IfOk result (λ exchange. exchange.out ≡ out) }
        ensures put { IfOk result (λ exchange. exchange.put ≡ put) }
        ensures room { IfOk result (λ exchange. length out + length self.old ≤ exchange.room) }
        ensures err { OnErr result (self.new ≡ self.old) }
    {
        let Item { pairs: mut out } = out;
        out.reserve(self.pairs.len())?;
        let added = put.copy(alloc, put.pairs.len())?;
        self.pairs.reserve(put.pairs.len())?;
        take_out(&mut self.pairs, &out);
        put_in(&mut self.pairs, added.pairs);
        Ok(Exchange { out, put })
    }

    /// Takes an exchange back.
    pub fn take_back(&mut self, exchange: Exchange)
        requires { length exchange.out + length (without self.old exchange.put) ≤ exchange.room }
        ensures { self.new ≡ taken_back self.old exchange }
    {
        let Exchange { out, put } = exchange;
        take_out(&mut self.pairs, put.pairs());
        let others = replace(&mut self.pairs, out);
        put_in(&mut self.pairs, others);
    }
}

// Takes pairs out, the last one first: where all go, none of the others has to move.
fn take_out(pairs: &mut Vec<Pair>, out: &[Pair])
    requires { IsStrictlySortedBy pair_cmp pairs.old.items }
    ensures items { pairs.new.items ≡ without pairs.old.items out.now }
    ensures capacity { vec_capacity pairs.new ≡ vec_capacity pairs.old }
{
    for taken in 0..out.len() {
        take_one(pairs, &out[out.len() - 1 - taken]);
    }
}

fn take_one(pairs: &mut Vec<Pair>, pair: &Pair)
    requires { IsStrictlySortedBy pair_cmp pairs.old.items }
    ensures items { pairs.new.items ≡ filter (λ q. not (pair_eq q pair.now)) pairs.old.items }
    ensures capacity { vec_capacity pairs.new ≡ vec_capacity pairs.old }
{
    if let Ok(place) = pairs.binary_search(pair) {
        pairs.remove(place);
    }
}

// Puts pairs in, the first one first: behind all others it is put without a move of theirs.
fn put_in(pairs: &mut Vec<Pair>, mut added: Vec<Pair>)
    requires rising { IsStrictlySortedBy pair_cmp pairs.old.items }
    requires room { length pairs.old.items + length added.items ≤ vec_capacity pairs.old }
    ensures { pairs.new.items ≡ fold with_pair pairs.old.items added.items }
{
    added.reverse();
    while let Some(pair) = added.pop() {
        put_one(pairs, pair);
    }
}

fn put_one(pairs: &mut Vec<Pair>, pair: Pair)
    requires rising { IsStrictlySortedBy pair_cmp pairs.old.items }
    requires room { length pairs.old.items < vec_capacity pairs.old }
    ensures items { pairs.new.items ≡ with_pair pairs.old.items pair }
    ensures longer { length pairs.new.items ≤ length pairs.old.items + 1 }
    ensures capacity { vec_capacity pairs.old ≤ vec_capacity pairs.new }
{
    if let Err(place) = pairs.binary_search(&pair) {
        match pairs.insert(place, pair) {
            Ok(()) => {}
            Err(_) => unreachable!(),
        }
    }
}
