//! Requests executed, one after the other.

ghost use Rattle.std.specs.Prelude.{◌≡◌, ◌≤◌, ◌+◌, ◌*◌, true, length, option_map};
ghost use Rattle.sdb_record.specs.Spelling.{spelling};
ghost use Rattle.sdb_respond.specs.Reply.{allowance_in_line};
ghost use Rattle.sdb_respond.specs.Staged.{most_spelled};
ghost use Rattle.sdb_core.specs.Inside.{ExecutesTo, Fills, FillsIf, HasRoom};

use sdb_arrivals::{Line, Queued};
use sdb_base::{Bytes, Steps};
use sdb_respond::respond;
use sdb_store::Store;
use std::alloc::Global;

// Executes requests that wait, until 64 answers are held. The store is sound.
pub(crate) fn fill<L>(alloc: Global, line: &mut Line, store: &mut Store, items: &mut Steps<L>)
    requires sound { store.old.sound ≡ true }
    requires room { HasRoom line.old store.old }
    ensures fills { Fills line.old store.old line.new store.new items.old items.new }
    ensures room { HasRoom line.new store.new }
    ensures later { items.old ≤ items.new }
{
    'requests: while line.can_hold() {
        let Some(first) = line.first_waiting() else {
            return;
        };
        let answer = execute(alloc, first, store, items);
        line.hold(answer);
    }
}

// The same, where the store is sound.
pub(crate) fn fill_if_sound<L>(
    alloc: Global,
    line: &mut Line,
    store: &mut Store,
    items: &mut Steps<L>,
)
    requires { HasRoom line.old store.old }
    ensures fills { FillsIf line.old store.old line.new store.new items.old items.new }
    ensures room { HasRoom line.new store.new }
    ensures later { items.old ≤ items.new }
{
    if store.is_sound() {
        fill(alloc, line, store, items);
    }
}

// Executes a request over the accounts as they are seen, and stages its changes. Without memory nothing changes, and
// there is no answer.
fn execute<L>(
    alloc: Global,
    first: &Queued,
    store: &mut Store,
    items: &mut Steps<L>,
) -> Option<Bytes>
    requires sound { store.old.sound ≡ true }
    requires room { length (spelling store.old.pending) ≤ 4 + 63 * most_spelled }
    ensures executes { ExecutesTo (option_map (λ b. b.bytes) result) first.now store.old store.new }
    ensures later { items.old ≤ items.new }
    ensures looks { items.new ≤ items.old + allowance_in_line store.old.accounts first.now }
    ensures size { length (spelling store.new.pending) ≤ length (spelling store.old.pending) + most_spelled }
{
    let Ok(response) = respond(alloc, store.accounts(), first, items) else {
        return None;
    };
    match store.stage(response.changes) {
        Ok(()) => Some(response.bytes),
        Err(_) => None,
    }
}
