//! The core: keys, connections, the line of requests and answers, and the store.

ghost use Rattle.std.specs.Prelude.{◌≡◌, ◌≢◌, ◌<◌, ◌≤◌, ◌+◌, ◌||◌, not, ◌==◌, ℕ, true, List, [], ◌∷◌, length, IsTrue, IfOk, MatchOption};
ghost use Rattle.sdb_arrivals.specs.Queues.{no_queues, sent_of, with_out};
ghost use Rattle.sdb_arrivals.specs.Story.{NotAStore, Step, answer_of, event_of};
ghost use Rattle.sdb_arrivals.specs.Tables.{no_connections, open_in};
ghost use Rattle.sdb_disk.specs.Disk.{Files, Image, LeavesOnly, Elapses};
ghost use Rattle.sdb_journal.specs.Looks.{OnRefusal, HasOpenCause};
ghost use Rattle.sdb_pairs.specs.Accounts.{DomainEntries};
ghost use Rattle.sdb_record.specs.Stands.{IsFirstBad, StandsFor as FilesStandFor};
ghost use Rattle.sdb_store.specs.Kept.{Ready};
ghost use Rattle.sdb_store.specs.Opened.{IsBadFile, StandsAsBefore};
ghost use Rattle.sdb_core.specs.Causes.{CanCome, Finds, HasCause, is_of_connection};
ghost use Rattle.sdb_core.specs.Inside.{IsSure};
ghost use Rattle.sdb_core.specs.Ledgers.{Opening};
ghost use Rattle.sdb_core.specs.Told.{Begins, StandsFor, Steps as StepsTo, Told};

use crate::committing::commit;
use crate::events::{open, piece, work};
use sdb_arrivals::{CoreFault, Event, Line, Table};
use sdb_base::{Out, Steps};
use sdb_disk::{Disk, OpenFault};
use sdb_domain::Accounts;
use sdb_keys::Keys;
use sdb_store::Store;
use std::alloc::Global;
use std::marker::Model;

/// A server without its sockets: it is told what happens, event by event, and gives the answers that are ready to be
/// sent. At most 64 connections are live, and at most 64 answers are held until what they rest on is durable.
#[derive(Drop)]
pub struct Core {
    alloc: Global,
    keys: Keys,
    table: Table,
    line: Line,
    store: Store,
}

impl Model for Core {
    ghost use Rattle.sdb_core.specs.Inside.{IsCore};
    ghost use Rattle.sdb_core.specs.Kept.{View};

    ghost Value = { View };

    ghost view = { λ it. record { keys = it.keys; table = it.table; line = it.line; store = it.store } };

    ghost invariant = { λ it. IsCore (record { keys = it.keys; table = it.table; line = it.line; store = it.store }) };
}

impl Core {
    /// Opens the store in the files of a disk. The core stands for the empty story, over the accounts and the number
    /// for which the files stood.
    ///
    /// # Errors
    ///
    /// `NotAStore` exactly where the files stand for no accounts, with the first bad file; `Disk` only where the disk's
    /// count of faults rose.
    pub fn start<D: Disk>(alloc: Global, keys: Keys, disk: &mut D) -> Result<Core, OpenFault>
        ensures begins { IfOk result (λ core. IsTrue (D.state disk.old).told → Begins keys core (D.state disk.old) (D.state disk.new)) }
        ensures kept { IfOk result (λ core. IsTrue (D.state disk.old).told → (accounts : DomainEntries) (number : ℕ)
            → ((c : Files) → Image (D.state disk.old) c → FilesStandFor accounts number c)
            → StandsFor core (D.state disk.new) (record { keys = keys; accounts = accounts; number = number; moment = (D.state disk.new).moment }) []) }
        ensures empty { IfOk result (λ core. (core.keys ≡ keys) × (core.table.last_opened ≡ 0) × (core.table.bytes_taken ≡ 0) × (core.line.out ≡ []) × (core.store.sound ≡ true)) }
        ensures ready { IfOk result (λ core. Ready core.store (D.state disk.new)) }
        ensures images { IsTrue (D.state disk.old).told → LeavesOnly (D.state disk.old) (D.state disk.new) (StandsAsBefore (D.state disk.old)) }
        ensures refused { OnRefusal result (λ k. (k < 4) × (IsTrue (D.state disk.old).told → IsFirstBad k (D.state disk.old).seen)) }
        ensures bad { OnRefusal result (λ k. IsBadFile k (D.state disk.new)) }
        ensures sure { IsTrue (D.state disk.old).told → (accounts : DomainEntries) (number : ℕ) → FilesStandFor accounts number (D.state disk.old).seen → OnRefusal result (λ k. ⊥) }
        ensures time { Elapses (D.state disk.old) (D.state disk.new) }
        ensures told { (D.state disk.new).told ≡ (D.state disk.old).told }
        ensures cause { HasOpenCause (D.state disk.old).faults (D.state disk.new).faults result }
    {
        match Store::start(alloc, disk) {
            Ok(store) => match empty(alloc) {
                Some((table, line)) => Ok(Core {
                    alloc,
                    keys,
                    table,
                    line,
                    store,
                }),
                None => Err(OpenFault::OutOfMemory),
            },
            Err(fault) => Err(fault),
        }
    }

    /// Makes one step: what the event makes of connections, requests, answers and store.
    ///
    /// # Errors
    ///
    /// `Full` of an opening alone, where 64 connections are live. `Disk` of a commit and of background work: the disk
    /// failed. `NotAStore` of a commit that opens the store again, exactly where the files stand for no accounts, with the
    /// first bad file. `OutOfMemory`: a piece then hasn't come.
    pub fn step<D: Disk, L>(
        &mut self,
        event: Event<'_>,
        disk: &mut D,
        items: &mut Steps<L>,
    ) -> Result<(), CoreFault>
        requires ready { Ready self.old.store (D.state disk.old) }
        requires event { CanCome (event_of event) self.old.table }
        ensures exact { StepsTo (event_of event.entry) (answer_of result) self.old self.new (D.state disk.old) (D.state disk.new) items.old items.new }
        ensures story { IsTrue (D.state disk.old).told → (o : Opening) (story : List Step) → StandsFor self.old (D.state disk.old) o story
            → Told (event_of event.entry) (answer_of result) self.old self.new (D.state disk.old) (D.state disk.new) items.old items.new o story }
        ensures sure { IsTrue (D.state disk.old).told → (o : Opening) (story : List Step) → StandsFor self.old (D.state disk.old) o story
            → (k : ℕ) → answer_of result ≢ NotAStore k }
        ensures disk { is_of_connection (event_of event.entry) ≡ true → disk.new ≡ disk.old }
        ensures cause { HasCause (event_of event.entry) (answer_of result) self.old self.new (D.state disk.old) (D.state disk.new) }
        ensures files { Finds (event_of event.entry) (answer_of result) self.old self.new (D.state disk.old) (D.state disk.new) }
        ensures later { items.old ≤ items.new }
        ensures ready { Ready self.new.store (D.state disk.new) }
        ensures time { Elapses (D.state disk.old) (D.state disk.new) }
        ensures told { (D.state disk.new).told ≡ (D.state disk.old).told }
    {
        self.advance(event, disk, items)
    }

    // A step, exactly on the value: of every ledger.
    fn advance<D: Disk, L>(
        &mut self,
        event: Event<'_>,
        disk: &mut D,
        items: &mut Steps<L>,
    ) -> Result<(), CoreFault>
        requires ready { Ready self.old.store (D.state disk.old) }
        requires event { CanCome (event_of event) self.old.table }
        ensures steps { StepsTo (event_of event.entry) (answer_of result) self.old self.new (D.state disk.old) (D.state disk.new) items.old items.new }
        ensures sure { IsSure (D.state disk.old).told (answer_of result) self.old.line self.old.store (D.state disk.old) }
        ensures disk { is_of_connection (event_of event.entry) ≡ true → disk.new ≡ disk.old }
        ensures cause { HasCause (event_of event.entry) (answer_of result) self.old self.new (D.state disk.old) (D.state disk.new) }
        ensures files { Finds (event_of event.entry) (answer_of result) self.old self.new (D.state disk.old) (D.state disk.new) }
        ensures later { items.old ≤ items.new }
        ensures ready { Ready self.new.store (D.state disk.new) }
        ensures time { Elapses (D.state disk.old) (D.state disk.new) }
        ensures told { (D.state disk.new).told ≡ (D.state disk.old).told }
    {
        match event {
            Event::Opened(conn) => open(self.alloc, &mut self.table, &self.line, conn),
            Event::Piece(conn, moment, bytes) => {
                match piece(
                    self.alloc,
                    &self.keys,
                    &mut self.table,
                    &mut self.line,
                    &mut self.store,
                    items,
                    conn,
                    moment,
                    bytes,
                ) {
                    Ok(()) => Ok(()),
                    Err(_) => Err(CoreFault::OutOfMemory),
                }
            }
            Event::Ended(conn) => {
                self.table.end(self.alloc, conn);
                Ok(())
            }
            Event::Commit => commit(self.alloc, &mut self.line, &mut self.store, disk, items),
            Event::Work => work(&mut self.store, disk),
        }
    }

    /// Takes off the oldest answer that is released. None comes exactly where there is none. It takes no memory.
    pub fn take_out(&mut self) -> Option<Out>
        ensures taken { MatchOption result ((self.new ≡ self.old) × (self.old.line.out ≡ []))
            (λ out. self.old ≡ record self.new { line = with_out (sent_of out) self.new.line }) }
        ensures store { self.new.store ≡ self.old.store }
        ensures table { self.new.table ≡ self.old.table }
    {
        self.line.take_out()
    }

    /// Whether an answer is held or a request waits.
    pub fn is_waiting(&self) -> bool
        ensures { result ≡ (not (length self.now.line.held == 0) || not (length self.now.line.waiting == 0)) }
    {
        self.line.is_waiting()
    }

    /// Whether a connection is open.
    pub fn is_open(&self, conn: u32) -> bool
        ensures { result ≡ open_in conn self.now.table.entries }
    {
        self.table.is_open(conn)
    }

    /// The last number that was to be opened, or 0.
    pub fn last_opened(&self) -> u32
        ensures { result ≡ self.now.table.last_opened }
    {
        self.table.last_opened()
    }

    /// How many bytes came on open connections.
    pub fn bytes_taken(&self) -> u64
        ensures { result ≡ self.now.table.bytes_taken }
    {
        self.table.bytes_taken()
    }

    /// The number of the last group that is durable.
    pub fn sequence(&self) -> u64
        ensures { result ≡ self.now.store.journal.sequence }
    {
        self.store.sequence()
    }

    /// The accounts, with what isn't durable yet.
    pub fn accounts(&self) -> &Accounts
        ensures { result.now ≡ self.now.store.accounts }
    {
        self.store.accounts()
    }
}

// An empty table and an empty line.
fn empty(alloc: Global) -> Option<(Table, Line)>
    ensures { MatchOption result (Unit {0}) (λ x. (x.0 ≡ no_connections) × (x.1 ≡ no_queues)) }
{
    let Ok(table) = Table::new(alloc) else {
        return None;
    };
    let Ok(line) = Line::new(alloc) else {
        return None;
    };
    Some((table, line))
}
