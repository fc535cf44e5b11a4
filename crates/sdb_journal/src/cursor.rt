// The records of a journal's file, one after the other.
ghost use Rattle.std.specs.Prelude.{◌≡◌, ◌<◌, ◌≤◌, ◌+◌, ◌^◌, ℕ, true, false, length, drop, slice_index, IsTrue, IfOk, IfSome, IfNone, OnOk};
ghost use Rattle.sdb_journal.specs.Heads.{HasRecordHead};
ghost use Rattle.sdb_journal.specs.Looks.{Looks, OnRefusal, HasOpenCause};
ghost use Rattle.sdb_journal.specs.Reads.{NoRecords, IsShut, OneRecord, Passed};
ghost use Rattle.sdb_journal.specs.Windows.{ahead, Shows};

use crate::record::{changes_in, size_in};
use crate::window::Window;
use sdb_disk::{Disk, OpenFault};
use sdb_pairs::Changes;
use std::alloc::Global;

// So many bytes stand ahead, or the file ends too early.
fn require<D: Disk>(
    file: u8,
    need: usize,
    window: &mut Window,
    disk: &mut D,
) -> Result<(), OpenFault>
    requires file { file < 4 }
    requires need { need ≤ 2 ^ 62 }
    requires shows { IsTrue (D.state disk.old).told → Shows (ahead window.old) window.old.place window.old.left ((D.state disk.old).seen file) }

    ensures shows { OnOk result (IsTrue (D.state disk.old).told → Shows (ahead window.new) window.new.place window.new.left ((D.state disk.old).seen file)) }
    ensures place { OnOk result (window.new.place ≡ window.old.place) }
    ensures there { OnOk result (need ≤ length (ahead window.new)) }
    ensures no_more { OnOk result (length (ahead window.new) + window.new.left ≤ length (ahead window.old) + window.old.left) }
    ensures refused { OnRefusal result (λ k. (k ≡ file) × (IsTrue (D.state disk.old).told → length (drop window.old.place ((D.state disk.old).seen file)) < need)) }
    ensures cause { HasOpenCause (D.state disk.old).faults (D.state disk.new).faults result }
    ensures looks { Looks (D.state disk.old) (D.state disk.new) }
{
    match window.reaches(file, need, disk) {
        Ok(true) => Ok(()),
        Ok(false) => Err(OpenFault::NotAStore(file)),
        Err(fault) => Err(fault),
    }
}

// Whether the gate ahead is open.
fn is_open<D: Disk>(file: u8, window: &mut Window, disk: &mut D) -> Result<bool, OpenFault>
    requires file { file < 4 }
    requires shows { IsTrue (D.state disk.old).told → Shows (ahead window.old) window.old.place window.old.left ((D.state disk.old).seen file) }

    ensures is_open { IfOk result (λ gate. gate ≡ true → IsTrue (D.state disk.old).told → slice_index (drop window.old.place ((D.state disk.old).seen file)) 0 ≡ 1) }
    ensures is_shut { IfOk result (λ gate. gate ≡ false → IsTrue (D.state disk.old).told → IsShut (drop window.old.place ((D.state disk.old).seen file))) }
    ensures shows { IfOk result (λ gate. IsTrue (D.state disk.old).told → Shows (ahead window.new) window.new.place window.new.left ((D.state disk.old).seen file)) }
    ensures place { IfOk result (λ gate. window.new.place ≡ window.old.place) }
    ensures no_more { IfOk result (λ gate. length (ahead window.new) + window.new.left ≤ length (ahead window.old) + window.old.left) }
    ensures refused { OnRefusal result (λ k. (k ≡ file) × (IsTrue (D.state disk.old).told → (n : ℕ) → NoRecords n (drop window.old.place ((D.state disk.old).seen file)))) }
    ensures cause { HasOpenCause (D.state disk.old).faults (D.state disk.new).faults result }
    ensures looks { Looks (D.state disk.old) (D.state disk.new) }
{
    match require(file, 1, window, disk) {
        Ok(()) => Ok(window.as_slice()[0] == 1),
        Err(fault) => Err(fault),
    }
}

// The size of the body of the record behind the open gate ahead.
fn size_at<D: Disk>(
    file: u8,
    sequence: u64,
    window: &mut Window,
    disk: &mut D,
) -> Result<u32, OpenFault>
    requires file { file < 4 }
    requires shows { IsTrue (D.state disk.old).told → Shows (ahead window.old) window.old.place window.old.left ((D.state disk.old).seen file) }
    requires is_open { IsTrue (D.state disk.old).told → slice_index (drop window.old.place ((D.state disk.old).seen file)) 0 ≡ 1 }

    ensures head { IfOk result (λ size. IsTrue (D.state disk.old).told → HasRecordHead sequence size (drop window.old.place ((D.state disk.old).seen file))) }
    ensures fits { IfOk result (λ size. size < 2 ^ 32) }
    ensures shows { IfOk result (λ size. IsTrue (D.state disk.old).told → Shows (ahead window.new) window.new.place window.new.left ((D.state disk.old).seen file)) }
    ensures place { IfOk result (λ size. window.new.place ≡ window.old.place) }
    ensures no_more { IfOk result (λ size. length (ahead window.new) + window.new.left ≤ length (ahead window.old) + window.old.left) }
    ensures refused { OnRefusal result (λ k. (k ≡ file) × (IsTrue (D.state disk.old).told → NoRecords sequence (drop window.old.place ((D.state disk.old).seen file)))) }
    ensures cause { HasOpenCause (D.state disk.old).faults (D.state disk.new).faults result }
    ensures looks { Looks (D.state disk.old) (D.state disk.new) }
{
    match require(file, 14, window, disk) {
        Ok(()) => {
            let head = &window.as_slice()[1..13];
            match size_in(head, sequence.wrapping_add(1)) {
                Some(size) => Ok(size),
                None => Err(OpenFault::NotAStore(file)),
            }
        }
        Err(fault) => Err(fault),
    }
}

// The changes of the record ahead, whose body has that size. The window passes the record.
fn body_at<D: Disk>(
    alloc: Global,
    file: u8,
    size: u32,
    window: &mut Window,
    disk: &mut D,
) -> Result<Changes, OpenFault>
    requires file { file < 4 }
    requires shows { IsTrue (D.state disk.old).told → Shows (ahead window.old) window.old.place window.old.left ((D.state disk.old).seen file) }

    ensures found { IfOk result (λ changes. IsTrue (D.state disk.old).told → (n : ℕ) → HasRecordHead n size (drop window.old.place ((D.state disk.old).seen file))
        → OneRecord n changes window.old.place window.new.place (drop window.old.place ((D.state disk.old).seen file)) (drop window.new.place ((D.state disk.old).seen file))) }
    ensures shows { IfOk result (λ changes. IsTrue (D.state disk.old).told → Shows (ahead window.new) window.new.place window.new.left ((D.state disk.old).seen file)) }
    ensures less { IfOk result (λ changes. length (ahead window.new) + window.new.left + 13 ≤ length (ahead window.old) + window.old.left) }
    ensures refused { OnRefusal result (λ k. (k ≡ file) × (IsTrue (D.state disk.old).told → (n : ℕ) → HasRecordHead n size (drop window.old.place ((D.state disk.old).seen file))
        → NoRecords n (drop window.old.place ((D.state disk.old).seen file)))) }
    ensures cause { HasOpenCause (D.state disk.old).faults (D.state disk.new).faults result }
    ensures looks { Looks (D.state disk.old) (D.state disk.new) }
{
    let end = 13 + size as usize;
    match require(file, end + 1, window, disk) {
        Ok(()) => match changes_in(alloc, &window.as_slice()[13..end]) {
            Ok(Some(changes)) => {
                window.pass(end);
                Ok(changes)
            }
            Ok(None) => Err(OpenFault::NotAStore(file)),
            Err(_) => Err(OpenFault::OutOfMemory),
        },
        Err(fault) => Err(fault),
    }
}

// The changes of the record ahead, which the window passes; None where the gate isn't open.
fn next_record<D: Disk>(
    alloc: Global,
    file: u8,
    sequence: u64,
    window: &mut Window,
    disk: &mut D,
) -> Result<Option<Changes>, OpenFault>
    requires file { file < 4 }
    requires shows { IsTrue (D.state disk.old).told → Shows (ahead window.old) window.old.place window.old.left ((D.state disk.old).seen file) }

    ensures none { IfOk result (λ found. IfNone found (IsTrue (D.state disk.old).told → IsShut (drop window.old.place ((D.state disk.old).seen file)))) }
    ensures place { IfOk result (λ found. IfNone found (window.new.place ≡ window.old.place)) }
    ensures some { IfOk result (λ found. IfSome found (λ changes. IsTrue (D.state disk.old).told
        → OneRecord sequence changes window.old.place window.new.place (drop window.old.place ((D.state disk.old).seen file)) (drop window.new.place ((D.state disk.old).seen file)))) }
    ensures shows { IfOk result (λ found. IsTrue (D.state disk.old).told → Shows (ahead window.new) window.new.place window.new.left ((D.state disk.old).seen file)) }
    ensures less { IfOk result (λ found. IfSome found (λ changes. length (ahead window.new) + window.new.left + 13 ≤ length (ahead window.old) + window.old.left)) }
    ensures refused { OnRefusal result (λ k. (k ≡ file) × (IsTrue (D.state disk.old).told → NoRecords sequence (drop window.old.place ((D.state disk.old).seen file)))) }
    ensures cause { HasOpenCause (D.state disk.old).faults (D.state disk.new).faults result }
    ensures looks { Looks (D.state disk.old) (D.state disk.new) }
{
    match is_open(file, window, disk) {
        Ok(true) => match record_at(alloc, file, sequence, window, disk) {
            Ok(changes) => Ok(Some(changes)),
            Err(fault) => Err(fault),
        },
        Ok(false) => Ok(None),
        Err(fault) => Err(fault),
    }
}

// The changes of the record behind the open gate ahead, which the window passes.
fn record_at<D: Disk>(
    alloc: Global,
    file: u8,
    sequence: u64,
    window: &mut Window,
    disk: &mut D,
) -> Result<Changes, OpenFault>
    requires file { file < 4 }
    requires shows { IsTrue (D.state disk.old).told → Shows (ahead window.old) window.old.place window.old.left ((D.state disk.old).seen file) }
    requires is_open { IsTrue (D.state disk.old).told → slice_index (drop window.old.place ((D.state disk.old).seen file)) 0 ≡ 1 }

    ensures found { IfOk result (λ changes. IsTrue (D.state disk.old).told
        → OneRecord sequence changes window.old.place window.new.place (drop window.old.place ((D.state disk.old).seen file)) (drop window.new.place ((D.state disk.old).seen file))) }
    ensures shows { IfOk result (λ changes. IsTrue (D.state disk.old).told → Shows (ahead window.new) window.new.place window.new.left ((D.state disk.old).seen file)) }
    ensures less { IfOk result (λ changes. length (ahead window.new) + window.new.left + 13 ≤ length (ahead window.old) + window.old.left) }
    ensures refused { OnRefusal result (λ k. (k ≡ file) × (IsTrue (D.state disk.old).told → NoRecords sequence (drop window.old.place ((D.state disk.old).seen file)))) }
    ensures cause { HasOpenCause (D.state disk.old).faults (D.state disk.new).faults result }
    ensures looks { Looks (D.state disk.old) (D.state disk.new) }
{
    match size_at(file, sequence, window, disk) {
        Ok(size) => match body_at(alloc, file, size, window, disk) {
            Ok(changes) => Ok(changes),
            Err(fault) => Err(fault),
        },
        Err(fault) => Err(fault),
    }
}

// The changes of all records ahead, one list after the other, and the number of the last record. The window stands
// at the gate behind them.
pub(crate) fn read_records<D: Disk>(
    alloc: Global,
    file: u8,
    first: u64,
    window: &mut Window,
    disk: &mut D,
) -> Result<(Changes, u64), OpenFault>
    requires file { file < 4 }
    requires shows { IsTrue (D.state disk.old).told → Shows (ahead window.old) window.old.place window.old.left ((D.state disk.old).seen file) }

    ensures read { IfOk result (λ x. IsTrue (D.state disk.old).told
        → Passed first x.0 window.old.place window.new.place x.1 (drop window.old.place ((D.state disk.old).seen file)) (drop window.new.place ((D.state disk.old).seen file))) }
    ensures end { IfOk result (λ x. IsTrue (D.state disk.old).told → IsShut (drop window.new.place ((D.state disk.old).seen file))) }
    ensures refused { OnRefusal result (λ k. (k ≡ file) × (IsTrue (D.state disk.old).told → NoRecords first (drop window.old.place ((D.state disk.old).seen file)))) }
    ensures cause { HasOpenCause (D.state disk.old).faults (D.state disk.new).faults result }
    ensures looks { Looks (D.state disk.old) (D.state disk.new) }
{
    let mut all = Changes::new(alloc);
    let mut sequence = first;
    'records: loop {
        match next_record(alloc, file, sequence, window, disk) {
            Ok(Some(mut changes)) => {
                if all.append(&mut changes).is_err() {
                    return Err(OpenFault::OutOfMemory);
                }
                sequence = sequence.wrapping_add(1);
            }
            Ok(None) => return Ok((all, sequence)),
            Err(fault) => return Err(fault),
        }
    }
}
