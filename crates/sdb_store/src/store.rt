// A store: accounts in memory, and the journal that makes them durable.
ghost use Rattle.std.specs.Prelude.{◌≡◌, ◌≢◌, ◌<◌, ◌≤◌, ◌+◌, ◌^◌, ◌++◌, ◌↔◌, ℕ, true, false, List, [], length, Option, None, Some, IsTrue, IfOk, IfErr, OnOk, OnErr};
ghost use Rattle.sdb_base.specs.Causes.{HasCause, Rose};
ghost use Rattle.sdb_disk.specs.declared.fault.WorkFault.TheVariants.{Disk as DiskFailed, OutOfMemory as NoMemory};
ghost use Rattle.sdb_disk.specs.Disk.{Files, Image, LeavesOnly, Elapses};
ghost use Rattle.sdb_pairs.specs.Accounts.{DomainEntries};
ghost use Rattle.sdb_pairs.specs.Changes.{state};
ghost use Rattle.sdb_pairs.specs.Lawful.{AreLawfulChanges};
ghost use Rattle.sdb_record.specs.Journals.{Group};
ghost use Rattle.sdb_record.specs.Spelling.{spelling};
ghost use Rattle.sdb_record.specs.Stands.{StandsFor, HasSmallItems, IsFirstBad};
ghost use Rattle.sdb_journal.specs.Looks.{OnRefusal, HasOpenCause};
ghost use Rattle.sdb_journal.specs.Rests.{StandsWith};
ghost use Rattle.sdb_store.specs.Kept.{Keeps, Ready, Decides, waiting, number_with};
ghost use Rattle.sdb_store.specs.Opened.{IsBadFile, StandsAsBefore};

use crate::commit::commit_frame;
use crate::frame::{clear, empty_frame, entries_in, make_room, put_entries};
use crate::opening::open_files;
use sdb_base::OutOfMemory;
use sdb_disk::{Disk, DiskFault, OpenFault, WorkFault};
use sdb_domain::Accounts;
use sdb_journal::Journal;
use sdb_pairs::Changes;
use sdb_record::write_changes;
use std::alloc::Global;
use std::marker::Model;

/// Durable accounts. Changes are staged one list after the other, and a commit makes all that were staged one record of
/// the journal. The pending group is kept as the bytes of its record, in the frame that the journal takes.
#[derive(Debug, Drop)]
pub struct Store {
    alloc: Global,
    journal: Journal,
    accounts: Accounts,
    frame: Vec<u8>,
    count: u32,
    sound: bool,
}

impl Model for Store {
    ghost use Rattle.std.specs.Prelude.{IsTrue};
    ghost use Rattle.sdb_record.specs.Stands.{HasSmallItems};
    ghost use Rattle.sdb_store.specs.Frames.{group_in, is_frame};
    ghost use Rattle.sdb_store.specs.Kept.{Contents};

    ghost Value = { Contents };

    ghost view = { λ it. record { journal = it.journal; accounts = it.accounts; pending = group_in it.count it.frame.items; sound = it.sound } };

    ghost invariant = { λ it. IsTrue (is_frame it.count it.frame.items) × HasSmallItems it.accounts };
}

impl Store {
    /// Opens the store in the files: syncs all four, reads them, and makes the first journal where there is none. A
    /// refusal comes exactly where the files stand for no accounts, with the first bad file, and leaves them as they are.
    pub fn start<D: Disk>(alloc: Global, disk: &mut D) -> Result<Store, OpenFault>
        ensures sound { IfOk result (λ store. store.sound ≡ true) }
        ensures pending { IfOk result (λ store. store.pending ≡ []) }
        ensures value { IfOk result (λ store. IsTrue (D.state disk.old).told → StandsFor store.accounts store.journal.sequence (D.state disk.old).seen) }
        ensures ready { IfOk result (λ store. Ready store (D.state disk.new)) }
        ensures keeps { IfOk result (λ store. IsTrue (D.state disk.old).told → Keeps store (D.state disk.new) store.accounts store.journal.sequence None) }
        ensures kept { IfOk result (λ store. IsTrue (D.state disk.old).told → (accounts : DomainEntries) (number : ℕ)
            → ((c : Files) → Image (D.state disk.old) c → StandsFor accounts number c) → Keeps store (D.state disk.new) accounts number None) }
        ensures images { IsTrue (D.state disk.old).told → LeavesOnly (D.state disk.old) (D.state disk.new) (StandsAsBefore (D.state disk.old)) }
        ensures refused { OnRefusal result (λ k. (k < 4) × (IsTrue (D.state disk.old).told → IsFirstBad k (D.state disk.old).seen)) }
        ensures unwritten { OnRefusal result (λ k. (D.state disk.new).seen ≡ (D.state disk.old).seen) }
        ensures bad { OnRefusal result (λ k. IsBadFile k (D.state disk.new)) }
        ensures sure { IsTrue (D.state disk.old).told → (accounts : DomainEntries) (number : ℕ) → StandsFor accounts number (D.state disk.old).seen → OnRefusal result (λ k. ⊥) }
        ensures time { Elapses (D.state disk.old) (D.state disk.new) }
        ensures told { (D.state disk.new).told ≡ (D.state disk.old).told }
        ensures cause { HasOpenCause (D.state disk.old).faults (D.state disk.new).faults result }
    {
        match open_files(alloc, disk) {
            Ok((journal, accounts)) => match empty_frame(alloc) {
                Ok(frame) => Ok(Store {
                    alloc,
                    journal,
                    accounts,
                    frame,
                    count: 0,
                    sound: true,
                }),
                Err(_) => Err(OpenFault::OutOfMemory),
            },
            Err(fault) => Err(fault),
        }
    }

    /// The accounts, with what is pending.
    pub fn accounts(&self) -> &Accounts
        ensures same { result.now ≡ self.now.accounts }
        ensures small { HasSmallItems self.now.accounts }
    {
        &self.accounts
    }

    /// The number of the last record.
    pub fn sequence(&self) -> u64
        ensures { result ≡ self.now.journal.sequence }
    {
        self.journal.sequence()
    }

    /// Whether changes are staged that no commit has made durable.
    pub fn has_pending(&self) -> bool
        ensures { IsTrue result ↔ (self.now.pending ≢ []) }
    {
        self.count > 0
    }

    /// Whether the store may be used; otherwise it has to be opened again.
    pub fn is_sound(&self) -> bool
        ensures { result ≡ self.now.sound }
    {
        self.sound
    }

    /// Applies changes and adds them to the pending group, or does neither, where memory ends.
    pub fn stage(&mut self, changes: Changes) -> Result<(), OutOfMemory>
        requires sound { IsTrue self.old.sound }
        requires changes { AreLawfulChanges changes }
        requires small { HasSmallItems (state self.old.accounts changes) }
        requires fits { length (spelling (self.old.pending ++ changes)) < 2 ^ 32 }

        ensures accounts { OnOk result (self.new.accounts ≡ state self.old.accounts changes) }
        ensures pending { OnOk result (self.new.pending ≡ self.old.pending ++ changes) }
        ensures journal { self.new.journal ≡ self.old.journal }
        ensures sound { self.new.sound ≡ self.old.sound }
        ensures err { OnErr result (self.new ≡ self.old) }
    {
        if changes.is_empty() {
            return Ok(());
        }
        let bytes = write_changes(self.alloc, &changes)?;
        let entries = entries_in(bytes.as_slice());
        make_room(&mut self.frame, entries.len())?;
        self.accounts.apply(&changes)?;
        put_entries(&mut self.frame, entries);
        self.count += changes.len() as u32;
        Ok(())
    }

    /// Makes the pending group durable as one record. Without one it makes no disk call. It takes no memory. After a
    /// fault the store isn't sound, and whether the group counts is decided when the store is opened again.
    pub fn commit<D: Disk>(&mut self, disk: &mut D) -> Result<(), DiskFault>
        requires sound { IsTrue self.old.sound }
        requires ready { Ready self.old (D.state disk.old) }

        ensures kept_ok { OnOk result (IsTrue (D.state disk.old).told → (accounts : DomainEntries) (number : ℕ) → Keeps self.old (D.state disk.old) accounts number None
            → Keeps self.new (D.state disk.new) (state accounts self.old.pending) (number_with self.old.pending number) None) }
        ensures kept_err { OnErr result (IsTrue (D.state disk.old).told → (accounts : DomainEntries) (number : ℕ) → Keeps self.old (D.state disk.old) accounts number None
            → Keeps self.new (D.state disk.new) accounts number (waiting self.old.pending)) }
        ensures images { IsTrue (D.state disk.old).told → (accounts : DomainEntries) (number : ℕ) → Keeps self.old (D.state disk.old) accounts number None
            → LeavesOnly (D.state disk.old) (D.state disk.new) (StandsWith accounts number (waiting self.old.pending)) }
        ensures ready { Ready self.new (D.state disk.new) }

        ensures ok { OnOk result ((self.new.sound ≡ true) × (self.new.accounts ≡ self.old.accounts)) }
        ensures sequence { OnOk result (self.new.journal.sequence ≡ number_with self.old.pending self.old.journal.sequence) }
        ensures pending { self.new.pending ≡ [] }
        ensures err { OnErr result ((self.new.sound ≡ false) × (self.new.journal ≡ self.old.journal)) }
        ensures idle { self.old.pending ≡ [] → disk.new ≡ disk.old }

        ensures time { Elapses (D.state disk.old) (D.state disk.new) }
        ensures told { (D.state disk.new).told ≡ (D.state disk.old).told }
        ensures cause { HasCause (D.state disk.old).faults (D.state disk.new).faults result }
        ensures syncs { (D.state disk.new).syncs ≤ (D.state disk.old).syncs + 2 }
    {
        if self.count == 0 {
            return Ok(());
        }
        match commit_frame(&mut self.journal, &mut self.frame, self.count, disk) {
            Ok(()) => {
                self.count = 0;
                Ok(())
            }
            Err(fault) => {
                self.count = 0;
                self.sound = false;
                Err(fault)
            }
        }
    }

    /// Makes one step of background work, of which there is none yet.
    pub fn work<D: Disk>(&mut self, disk: &mut D) -> Result<(), WorkFault>
        requires sound { IsTrue self.old.sound }
        requires ready { Ready self.old (D.state disk.old) }

        ensures keeps { IsTrue (D.state disk.old).told → (accounts : DomainEntries) (number : ℕ) → Keeps self.old (D.state disk.old) accounts number None
            → Keeps self.new (D.state disk.new) accounts number None }
        ensures images { IsTrue (D.state disk.old).told → (accounts : DomainEntries) (number : ℕ) → Keeps self.old (D.state disk.old) accounts number None
            → LeavesOnly (D.state disk.old) (D.state disk.new) (StandsWith accounts number None) }
        ensures ready { Ready self.new (D.state disk.new) }

        ensures accounts { self.new.accounts ≡ self.old.accounts }
        ensures pending { self.new.pending ≡ self.old.pending }
        ensures sequence { self.new.journal.sequence ≡ self.old.journal.sequence }
        ensures sound { OnOk result (self.new.sound ≡ true) }
        ensures fault { IfErr result (λ fault. fault ≡ DiskFailed → (self.new.sound ≡ false) × (self.old.pending ≡ []) × Rose (D.state disk.old).faults (D.state disk.new).faults) }
        ensures memory { IfErr result (λ fault. fault ≡ NoMemory → self.new.sound ≡ true) }
        ensures idle { disk.new ≡ disk.old }

        ensures time { Elapses (D.state disk.old) (D.state disk.new) }
        ensures told { (D.state disk.new).told ≡ (D.state disk.old).told }
    {
        Ok(())
    }

    /// Opens the store again, as `start` does. After Ok it is sound and nothing is pending. After a refusal it isn't
    /// sound.
    pub fn reopen<D: Disk>(&mut self, disk: &mut D) -> Result<(), OpenFault>
        ensures kept_ok { OnOk result (IsTrue (D.state disk.old).told → (accounts : DomainEntries) (number : ℕ) (undecided : Option Group)
            → Keeps self.old (D.state disk.old) accounts number undecided → Decides self.new (D.state disk.new) accounts number undecided) }
        ensures kept_err { OnErr result (IsTrue (D.state disk.old).told → (accounts : DomainEntries) (number : ℕ) (undecided : Option Group)
            → Keeps self.old (D.state disk.old) accounts number undecided → Keeps self.new (D.state disk.new) accounts number undecided) }
        ensures images { IsTrue (D.state disk.old).told → (accounts : DomainEntries) (number : ℕ) (undecided : Option Group)
            → Keeps self.old (D.state disk.old) accounts number undecided → LeavesOnly (D.state disk.old) (D.state disk.new) (StandsWith accounts number undecided) }
        ensures sure { IsTrue (D.state disk.old).told → (accounts : DomainEntries) (number : ℕ) (undecided : Option Group)
            → Keeps self.old (D.state disk.old) accounts number undecided → OnRefusal result (λ k. ⊥) }
        ensures refused { OnRefusal result (λ k. (k < 4) × (IsTrue (D.state disk.old).told → IsFirstBad k (D.state disk.old).seen)) }
        ensures unwritten { OnRefusal result (λ k. (D.state disk.new).seen ≡ (D.state disk.old).seen) }
        ensures bad { OnRefusal result (λ k. IsBadFile k (D.state disk.new)) }
        ensures value { OnOk result (IsTrue (D.state disk.old).told → StandsFor self.new.accounts self.new.journal.sequence (D.state disk.old).seen) }
        ensures still { OnOk result (IsTrue (D.state disk.old).told → StandsFor self.new.accounts self.new.journal.sequence (D.state disk.new).seen) }
        ensures ready { Ready self.new (D.state disk.new) }

        ensures ok { OnOk result ((self.new.sound ≡ true) × (self.new.pending ≡ [])) }
        ensures err { OnErr result ((self.new.sound ≡ false) × (self.new.journal ≡ self.old.journal)) }
        ensures pending { OnErr result (self.new.pending ≡ self.old.pending) }
        ensures time { Elapses (D.state disk.old) (D.state disk.new) }
        ensures told { (D.state disk.new).told ≡ (D.state disk.old).told }
        ensures cause { HasOpenCause (D.state disk.old).faults (D.state disk.new).faults result }
    {
        self.sound = false;
        match open_files(self.alloc, disk) {
            Ok((journal, accounts)) => {
                self.journal = journal;
                self.accounts = accounts;
                clear(&mut self.frame);
                self.count = 0;
                self.sound = true;
                Ok(())
            }
            Err(fault) => Err(fault),
        }
    }
}
