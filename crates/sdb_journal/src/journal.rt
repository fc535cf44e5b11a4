// A journal that is open for records.
ghost use Rattle.std.specs.Prelude.{◌≡◌, ◌<◌, ◌≤◌, ◌+◌, ◌^◌, ℕ, List, [], ◌∷◌, ◌++◌, length, IsTrue, IfOk, OnOk, OnErr, Some};
ghost use Rattle.sdb_base.specs.Causes.{HasCause};
ghost use Rattle.sdb_disk.specs.Disk.{SettledFile, LeavesOnly, Elapses};
ghost use Rattle.sdb_pairs.specs.declared.change.Change.{Change};
ghost use Rattle.sdb_pairs.specs.Accounts.{DomainEntries};
ghost use Rattle.sdb_pairs.specs.Changes.{state};
ghost use Rattle.sdb_record.specs.Journals.{Group, IsClosed, IsGroup, last, next};
ghost use Rattle.sdb_record.specs.Stands.{journal_of, reached, HasSmallItems, StandsFor};
ghost use Rattle.sdb_journal.specs.Creates.{Makes, Created, StandOn};
ghost use Rattle.sdb_journal.specs.Places.{IsAt};
ghost use Rattle.sdb_journal.specs.Appends.{body_of, BeforeOrAfter, Appended};
ghost use Rattle.sdb_journal.specs.Rests.{StandsWith, RestsAt, base_of};
ghost use Rattle.sdb_journal.specs.Heads.{HasHead};
ghost use Rattle.sdb_journal.specs.Looks.{Looks, OnRefusal, HasOpenCause};
ghost use Rattle.sdb_journal.specs.Reads.{Started, IsBadJournal};

use crate::append::append_at;
use crate::create::make_first;
use crate::cursor::read_records;
use crate::head::read_head;
use crate::window::Window;
use sdb_disk::{Disk, DiskFault, OpenFault};
use sdb_pairs::Changes;
use std::alloc::Global;
use std::marker::Model;

// The place of the first gate, behind the header.
const FIRST_GATE: u64 = 25;

/// A journal that records are appended to: its generation, the number before its first record, the place of its
/// current gate in its file, and the number of its last record.
#[derive(Debug, Drop)]
pub struct Journal {
    generation: u64,
    first: u64,
    gate: u64,
    sequence: u64,
}

impl Model for Journal {
    ghost use Rattle.std.specs.Prelude.{◌≤◌, ◌^◌};
    ghost use Rattle.sdb_journal.specs.Places.{Place};

    ghost Value = { Place };

    ghost view = { λ it. record { generation = it.generation; first = it.first; gate = it.gate; sequence = it.sequence } };

    ghost invariant = { λ it. it.gate ≤ 2 ^ 62 };
}

impl Journal {
    /// Makes the first journal, where its file isn't open. Whatever a crash leaves stands for what the files stood for
    /// before. It takes no memory. After a fault nothing but a new start may use the disk.
    pub fn create<D: Disk>(disk: &mut D) -> Result<Journal, DiskFault>
        requires closed { IsTrue (D.state disk.old).told → IsClosed 26 ((D.state disk.old).seen 2) }
        requires settled { SettledFile (D.state disk.old) 2 }

        ensures done { IfOk result (λ journal. Created journal (D.state disk.old) (D.state disk.new)) }
        ensures images { IsTrue (D.state disk.old).told → LeavesOnly (D.state disk.old) (D.state disk.new) (Makes (D.state disk.old)) }
        ensures stands { IsTrue (D.state disk.old).told → (accounts : DomainEntries) (number : ℕ) → StandOn accounts number (D.state disk.old)
            → LeavesOnly (D.state disk.old) (D.state disk.new) (StandsFor accounts number) }
        ensures time { Elapses (D.state disk.old) (D.state disk.new) }
        ensures told { (D.state disk.new).told ≡ (D.state disk.old).told }
        ensures cause { HasCause (D.state disk.old).faults (D.state disk.new).faults result }
        ensures syncs { (D.state disk.new).syncs ≤ (D.state disk.old).syncs + 3 }
    {
        make_first(disk)?;
        Ok(Journal {
            generation: 0,
            first: 0,
            gate: 25,
            sequence: 0,
        })
    }

    /// The journal in an open file, and the changes of all its records, one list after the other. The file is read in
    /// pieces, each byte behind the header once, and the memory is that of the changes and of one record. NotAStore
    /// comes exactly where the file is no journal that belongs into it.
    pub fn start<D: Disk>(
        alloc: Global,
        file: u8,
        disk: &mut D,
    ) -> Result<(Journal, Changes), OpenFault>
        requires file { file < 4 }
        requires gate { IsTrue (D.state disk.old).told → IsClosed 26 ((D.state disk.old).seen file) → ⊥ }

        ensures value { IfOk result (λ x. IsTrue (D.state disk.old).told → Started x.0 x.1 ((D.state disk.old).seen file)) }
        ensures own { IfOk result (λ x. journal_of x.0.generation ≡ file) }
        ensures refused { OnRefusal result (λ k. (k ≡ file) × (IsTrue (D.state disk.old).told → IsBadJournal file ((D.state disk.old).seen file))) }
        ensures cause { HasOpenCause (D.state disk.old).faults (D.state disk.new).faults result }
        ensures looks { Looks (D.state disk.old) (D.state disk.new) }
    {
        match read_head(file, disk) {
            Ok(Some((generation, first))) => {
                match Journal::behind_head(alloc, file, generation, first, disk) {
                    Ok(started) => Ok(started),
                    Err(fault) => Err(fault),
                }
            }
            Ok(None) => Err(OpenFault::NotAStore(file)),
            Err(fault) => Err(fault),
        }
    }

    // The journal behind that header, and the changes of its records.
    fn behind_head<D: Disk>(
        alloc: Global,
        file: u8,
        generation: u64,
        first: u64,
        disk: &mut D,
    ) -> Result<(Journal, Changes), OpenFault>
        requires file { file < 4 }
        requires head { IsTrue (D.state disk.old).told → HasHead generation first ((D.state disk.old).seen file) }

        ensures value { IfOk result (λ x. IsTrue (D.state disk.old).told → Started x.0 x.1 ((D.state disk.old).seen file)) }
        ensures generation { IfOk result (λ x. x.0.generation ≡ generation) }
        ensures refused { OnRefusal result (λ k. (k ≡ file) × (IsTrue (D.state disk.old).told → IsBadJournal file ((D.state disk.old).seen file))) }
        ensures cause { HasOpenCause (D.state disk.old).faults (D.state disk.new).faults result }
        ensures looks { Looks (D.state disk.old) (D.state disk.new) }
    {
        let Ok(len) = disk.len(file) else {
            return Err(OpenFault::Disk);
        };
        let mut window = Window::new(alloc, FIRST_GATE, len.saturating_sub(FIRST_GATE));
        match read_records(alloc, file, first, &mut window, disk) {
            Ok((changes, sequence)) => {
                let journal = Journal {
                    generation,
                    first,
                    gate: window.place(),
                    sequence,
                };
                Ok((journal, changes))
            }
            Err(fault) => Err(fault),
        }
    }

    /// The number of the last record.
    pub fn sequence(&self) -> u64
        ensures { result ≡ self.now.sequence }
    {
        self.sequence
    }

    /// The place of the current gate.
    pub fn size(&self) -> u64
        ensures { result ≡ self.now.gate }
    {
        self.gate
    }

    /// Appends a record. `frame` is 12 bytes, then the body, which is exactly one list of lawful changes, then one byte;
    /// the call fills in the 12 bytes and the last. It takes no memory. After a fault the journal is as before, and
    /// nothing but a new start may use the disk.
    pub fn append<D: Disk>(&mut self, frame: &mut [u8], disk: &mut D) -> Result<(), DiskFault>
        requires least { 13 ≤ length frame.old }
        requires most { length frame.old < 2 ^ 32 + 13 }
        requires within { IsTrue (D.state disk.old).told → self.old.gate < length ((D.state disk.old).seen (journal_of self.old.generation)) }
        requires settled { SettledFile (D.state disk.old) (journal_of self.old.generation) }

        ensures images { IsTrue (D.state disk.old).told → (bodies : List (List ℕ)) → IsAt self.old bodies ((D.state disk.old).seen (journal_of self.old.generation))
            → LeavesOnly (D.state disk.old) (D.state disk.new)
            (BeforeOrAfter (journal_of self.old.generation) self.old.generation self.old.first bodies (body_of frame.old) (D.state disk.old)) }
        ensures done { OnOk result (IsTrue (D.state disk.old).told → (bodies : List (List ℕ)) → IsAt self.old bodies ((D.state disk.old).seen (journal_of self.old.generation))
            → Appended (journal_of self.old.generation) self.new (bodies ++ body_of frame.old ∷ []) (D.state disk.old) (D.state disk.new)) }
        ensures stands { IsTrue (D.state disk.old).told → (changes : List Change) (groups : List Group) (group : Group) → RestsAt self.old changes groups (D.state disk.old)
            → IsGroup group (body_of frame.old) → HasSmallItems (reached (base_of self.old changes) groups)
            → HasSmallItems (state (reached (base_of self.old changes) groups) group) → LeavesOnly (D.state disk.old) (D.state disk.new)
            (StandsWith (reached (base_of self.old changes) groups) (last self.old.first groups) (Some group)) }
        ensures rests { OnOk result (IsTrue (D.state disk.old).told → (changes : List Change) (groups : List Group) (group : Group) → RestsAt self.old changes groups (D.state disk.old)
            → IsGroup group (body_of frame.old) → RestsAt self.new changes (groups ++ group ∷ []) (D.state disk.new)) }
        ensures settled { OnOk result (SettledFile (D.state disk.new) (journal_of self.new.generation)) }
        ensures sequence { OnOk result (self.new.sequence ≡ next self.old.sequence) }
        ensures same_journal { OnOk result ((self.new.generation ≡ self.old.generation) × (self.new.first ≡ self.old.first)) }
        ensures kept { OnErr result (self.new ≡ self.old) }
        ensures time { Elapses (D.state disk.old) (D.state disk.new) }
        ensures told { (D.state disk.new).told ≡ (D.state disk.old).told }
        ensures cause { HasCause (D.state disk.old).faults (D.state disk.new).faults result }
        ensures syncs { (D.state disk.new).syncs ≤ (D.state disk.old).syncs + 2 }
    {
        let file = 2 + (self.generation % 2) as u8;
        let number = self.sequence.wrapping_add(1);
        append_at(file, self.gate, number, frame, disk)?;
        self.gate += frame.len() as u64;
        self.sequence = number;
        Ok(())
    }
}
