// How many items of a domain have each attribute name.
ghost use Rattle.std.specs.Prelude.{◌≡◌, ◌+◌, ◌-◌, ◌<◌, ◌≤◌, ◌||◌, length, IfOk, OnOk, OnErr, List, ℕ, unwrap_or};
ghost use Rattle.std.specs.List.{list_any};
ghost use Rattle.std.specs.List.Sorted.{IsStrictlySortedBy};
ghost use Rattle.std.specs.BTreeMap.{is_at, insert_entry};
ghost use Rattle.sdb_base.specs.Texts.{text_cmp};
ghost use Rattle.sdb_base.specs.Entries.{found, IsRising};
ghost use Rattle.sdb_pairs.specs.Pairs.{pair_cmp};

use crate::keyed::Keyed;
use crate::sums::moved;
use sdb_base::{OutOfMemory, Text};
use sdb_pairs::Pair;
use std::alloc::Global;
use std::cmp::Ordering;

// The count of each name, with how many names have items and the bytes of those. A count of 0 stands for no
// name: one is left where an edit takes the name from the last item that had it, so that the edit can be
// taken back without memory.
#[derive(Drop)]
pub(crate) struct Names {
    counts: Keyed<u64>,
    pub(crate) number: u64,
    pub(crate) bytes: u64,
}

// An attribute name, and what stood there before a step on it.
#[derive(Drop)]
pub(crate) struct NameWas {
    name: Text,
    count: Option<u64>,
    number: u64,
    bytes: u64,
}

ghost use Rattle.sdb_domain.specs.Names.{count_of, counted_weight, no_names, first_name, past_first, presence, IsSide, Recounts, IsTallied, is_logged, ChangesLogged, SweepsNames, name_undone};
ghost use Rattle.sdb_domain.specs.Keyed.{unwound, IsSwept};

impl Names {
    pub(crate) fn new(alloc: Global) -> Names
        ensures { result ≡ no_names }
    {
        Names {
            counts: Keyed::new(alloc),
            number: 0,
            bytes: 0,
        }
    }

    // Counts the names that stand in one of the two lists alone, where the new one comes in the place of the
    // old one. Gives what takes it back.
    pub(crate) fn recount(
        &mut self,
        alloc: Global,
        old: &[Pair],
        new: &[Pair],
    ) -> Result<Vec<NameWas>, OutOfMemory>
        requires old_rises { IsStrictlySortedBy pair_cmp old.now }
        requires new_rises { IsStrictlySortedBy pair_cmp new.now }
        requires counted { (name : List ℕ) → presence name old.now ≤ count_of self.old.counts name }
        ensures ok { OnOk result (Recounts old.now new.now self.old.counts self.new.counts) }
        ensures tallied { OnOk result (IsTallied self.old → IsTallied self.new) }
        ensures logged { IfOk result (λ log. ChangesLogged self.old.counts self.new.counts log.items) }
        ensures back { IfOk result (λ log. unwound name_undone self.new log.items ≡ self.old) }
        ensures err { OnErr result (self.new ≡ self.old) }
    {
        let mut log = Vec::new(alloc);
        match count_apart(self, alloc, old, new, &mut log) {
            Ok(()) => Ok(log),
            Err(error) => {
                self.unwind(log);
                Err(error)
            }
        }
    }

    // Takes the steps of a log back, the newest first.
    pub(crate) fn unwind(&mut self, mut log: Vec<NameWas>)
        ensures { self.new ≡ unwound name_undone self.old log.items }
    {
        while let Some(was) = log.pop() {
            self.undo(was);
        }
    }

    fn undo(&mut self, was: NameWas)
        ensures { self.new ≡ name_undone self.old was }
    {
        let NameWas {
            name,
            count,
            number,
            bytes,
        } = was;
        self.counts.back(&name, count);
        self.number = number;
        self.bytes = bytes;
    }

    // Takes out the names of the log that no item has.
    pub(crate) fn sweep(&mut self, log: &[NameWas])
        ensures { SweepsNames self.old self.new log.now }
    {
        for was in log {
            sweep_name(&mut self.counts, &was.name);
        }
    }
}

// One walk over both lists.
fn count_apart(
    names: &mut Names,
    alloc: Global,
    old: &[Pair],
    new: &[Pair],
    log: &mut Vec<NameWas>,
) -> Result<(), OutOfMemory>
    requires old_rises { IsStrictlySortedBy pair_cmp old.now }
    requires new_rises { IsStrictlySortedBy pair_cmp new.now }
    requires counted { (name : List ℕ) → presence name old.now ≤ count_of names.old.counts name }
    ensures ok { OnOk result (Recounts old.now new.now names.old.counts names.new.counts) }
    ensures tallied { OnOk result (IsTallied names.old → IsTallied names.new) }
    ensures logged { OnOk result (ChangesLogged names.old.counts names.new.counts log.new.items) }
    ensures back { unwound name_undone names.new log.new.items ≡ unwound name_undone names.old log.old.items }
{
    let mut old_rest = old;
    let mut new_rest = new;
    while let Some(side) = least_in(old_rest, new_rest) {
        match side {
            Side::Old => {
                lower(names, alloc, name_of_first(old_rest), log)?;
                old_rest = behind_first(old_rest);
            }
            Side::New => {
                raise(names, alloc, name_of_first(new_rest), log)?;
                new_rest = behind_first(new_rest);
            }
            Side::Both => {
                old_rest = behind_first(old_rest);
                new_rest = behind_first(new_rest);
            }
        }
    }
    Ok(())
}

// In which of two lists a name stands.
enum Side {
    Old,
    New,
    Both,
}

// Where the least name of two rising lists stands. `None` where both are empty.
fn least_in(old: &[Pair], new: &[Pair]) -> Option<Side>
    ensures { IsSide old.now new.now result }
{
    match (old.len(), new.len()) {
        (0, 0) => None,
        (_, 0) => Some(Side::Old),
        (0, _) => Some(Side::New),
        (_, _) => match name_of_first(old).cmp(name_of_first(new)) {
            Ordering::Less => Some(Side::Old),
            Ordering::Equal => Some(Side::Both),
            Ordering::Greater => Some(Side::New),
        },
    }
}

fn name_of_first(pairs: &[Pair]) -> &Text
    requires { 0 < length pairs.now }
    ensures { result.now ≡ first_name pairs.now }
{
    &pairs[0].name
}

// The pairs behind those that have the first one's name.
fn behind_first(pairs: &[Pair]) -> &[Pair]
    requires some { 0 < length pairs.now }
    requires rising { IsStrictlySortedBy pair_cmp pairs.now }
    ensures rest { result.now ≡ past_first pairs.now }
    ensures shorter { length result.now < length pairs.now }
{
    let name = name_of_first(pairs);
    for (place, pair) in pairs.iter().enumerate() {
        if pair.name != *name {
            return &pairs[place..];
        }
    }
    &[]
}

// One item fewer has the name.
fn lower(
    names: &mut Names,
    alloc: Global,
    name: &Text,
    log: &mut Vec<NameWas>,
) -> Result<(), OutOfMemory>
    requires { 1 ≤ count_of names.old.counts name.now }
    ensures ok { OnOk result (names.new.counts ≡ insert_entry text_cmp names.old.counts name.now (count_of names.old.counts name.now - 1)) }
    ensures tallied { OnOk result (IsTallied names.old → IsTallied names.new) }
    ensures logged { OnOk result ((q : List ℕ) → is_logged q log.new.items ≡ (is_logged q log.old.items || is_at (text_cmp q) name.now)) }
    ensures back { unwound name_undone names.new log.new.items ≡ unwound name_undone names.old log.old.items }
{
    let count = names.counts.get(name).copied();
    set_count(names, alloc, name, count, count.unwrap_or(0) - 1, log)
}

// One item more has the name.
fn raise(
    names: &mut Names,
    alloc: Global,
    name: &Text,
    log: &mut Vec<NameWas>,
) -> Result<(), OutOfMemory>
    ensures ok { OnOk result (names.new.counts ≡ insert_entry text_cmp names.old.counts name.now (count_of names.old.counts name.now + 1)) }
    ensures tallied { OnOk result (IsTallied names.old → IsTallied names.new) }
    ensures logged { OnOk result ((q : List ℕ) → is_logged q log.new.items ≡ (is_logged q log.old.items || is_at (text_cmp q) name.now)) }
    ensures back { unwound name_undone names.new log.new.items ≡ unwound name_undone names.old log.old.items }
{
    let count = names.counts.get(name).copied();
    let Some(more) = count.unwrap_or(0).checked_add(1) else {
        return Err(OutOfMemory);
    };
    set_count(names, alloc, name, count, more, log)
}

// Sets the count of a name from what stands there. The log gets its entry first: with it alone, taking back
// changes nothing.
fn set_count(
    names: &mut Names,
    alloc: Global,
    name: &Text,
    was: Option<u64>,
    count: u64,
    log: &mut Vec<NameWas>,
) -> Result<(), OutOfMemory>
    requires { was ≡ found text_cmp names.old.counts name.now }
    ensures ok { OnOk result (names.new.counts ≡ insert_entry text_cmp names.old.counts name.now count) }
    ensures tallied { OnOk result (IsTallied names.old → IsTallied names.new) }
    ensures logged { OnOk result ((q : List ℕ) → is_logged q log.new.items ≡ (is_logged q log.old.items || is_at (text_cmp q) name.now)) }
    ensures back { unwound name_undone names.new log.new.items ≡ unwound name_undone names.old log.old.items }
{
    let old = was.unwrap_or(0);
    let length = name.as_str().len() as u64;
    let Some(number) = moved(names.number, if_counted(old, 1), if_counted(count, 1)) else {
        return Err(OutOfMemory);
    };
    let Some(bytes) = moved(
        names.bytes,
        if_counted(old, length),
        if_counted(count, length),
    ) else {
        return Err(OutOfMemory);
    };
    log.push(NameWas {
        name: name.copy(alloc)?,
        count: was,
        number: names.number,
        bytes: names.bytes,
    })?;
    names.counts.set(alloc, name, count)?;
    names.number = number;
    names.bytes = bytes;
    Ok(())
}

// What a name with that count adds.
fn if_counted(count: u64, weight: u64) -> u64
    ensures { result ≡ counted_weight count weight }
{
    if count == 0 { 0 } else { weight }
}

fn sweep_name(counts: &mut Keyed<u64>, name: &Text)
    ensures swept { IsSwept 0 counts.old counts.new name.now }
    ensures rising { IsRising text_cmp counts.old }
{
    if counts.get(name).copied() == Some(0) {
        counts.remove(name);
    }
}
