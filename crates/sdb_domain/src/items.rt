// The items of a domain, lent one after the other.
ghost use Rattle.std.specs.Prelude.{◌≡◌};

use sdb_base::Text;
use sdb_pairs::Item;
use std::collections::btree_map::Range;
use std::marker::Model;

/// The items of a domain with their names, in order, which are lent one after the other.
#[derive(Drop)]
pub struct Items<'a> {
    range: Range<'a, Text, Item>,
}

impl<'a> Model for Items<'a> {
    ghost use Rattle.sdb_pairs.specs.Accounts.{ItemEntries};

    ghost Value = { ItemEntries };

    ghost view = { λ it. it.range };
}

impl<'a> Items<'a> {
    pub(crate) fn of(range: Range<'a, Text, Item>) -> Items<'a>
        ensures { result ≡ range.entry }
    {
        Items { range }
    }
}

impl<'a> Iterator for Items<'a> {
    ghost use Rattle.std.specs.Prelude.{length};
    ghost use Rattle.std.specs.Map.Iter.{TakesFirst, deref_pair};
    ghost use Rattle.std.specs.Iterator.{at_most};

    type Item = (&'a Text, &'a Item);

    ghost next_gives = { TakesFirst deref_pair };

    ghost remaining = { λ it. at_most (length it) };

    fn next(&mut self) -> Option<(&'a Text, &'a Item)> {
        self.range.next()
    }

    fn size_hint(&self) -> (usize, Option<usize>) {
        self.range.size_hint()
    }
}
