// Tests of the journal's bytes, of reading them back, and of crashes.
ghost use Rattle.std.specs.Prelude.{◌<◌, ◌≤◌, IsTrue, length};
ghost use Rattle.sdb_disk.specs.Disk.{SettledFile};
ghost use Rattle.sdb_disk.specs.Memory.{memory_state};
ghost use Rattle.sdb_record.specs.Journals.{IsClosed};

use sdb_base::{Bytes, Numbers};
use sdb_disk::{Disk, DiskFault, MemoryDisk, OpenFault};
use sdb_journal::{Journal, read_head};
use std::alloc::Global;
use std::process::Abort;
use std::test::Fail;

// A journal with the records 1, CreateDomain `books` of account 1, and 2, a put of title = Emma to its item i1.
const FILE: [u8; 96] =
    *b"\x01SDBJRNL1\0\0\0\0\0\0\0\0\0\0\0\0\0\0\0\0\x01\0\0\0\x0c\0\0\0\0\0\0\0\x01\0\0\0\x01\0\x01\x05books\x01\0\0\0\x20\0\0\0\0\0\0\0\x02\0\0\0\x01\x02\x01\x05books\0\x02i1\0\x01\0\0\x05title\0\x04Emma\0";

// An empty disk that stops after so many calls.
fn empty_disk(alloc: Global, stop: Option<u64>) -> MemoryDisk
    ensures closed { IsClosed 26 ((memory_state result).seen 2) }
    ensures settled { SettledFile (memory_state result) 2 }
{
    MemoryDisk::new(alloc, Numbers::new(alloc), stop)
}

// Makes that journal; gives its size and its last number.
fn make<D: Disk>(disk: &mut D) -> Result<(u64, u64), DiskFault>
    requires closed { IsTrue (D.state disk.old).told → IsClosed 26 ((D.state disk.old).seen 2) }
    requires settled { SettledFile (D.state disk.old) 2 }
{
    let mut journal = Journal::create(disk)?;
    let mut made = *b"............\0\0\0\x01\0\x01\x05books.";
    journal.append(&mut made, disk)?;
    let mut edited =
        *b"............\0\0\0\x01\x02\x01\x05books\0\x02i1\0\x01\0\0\x05title\0\x04Emma.";
    journal.append(&mut edited, disk)?;
    Ok((journal.size(), journal.sequence()))
}

// The number of the last record and the number of changes; None where the journal is closed.
fn opened<D: Disk>(alloc: Global, disk: &mut D) -> Result<Option<(u64, usize)>, OpenFault> {
    match read_head(2, disk) {
        Ok(Some(_)) => match Journal::start(alloc, 2, disk) {
            Ok((journal, changes)) => Ok(Some((journal.sequence(), changes.len()))),
            Err(fault) => Err(fault),
        },
        Ok(None) => Ok(None),
        Err(fault) => Err(fault),
    }
}

// What opening a journal of these bytes gives.
fn opened_bytes(
    alloc: Global,
    bytes: &[u8],
) -> Result<Result<Option<(u64, usize)>, OpenFault>, Fail>
    requires { length bytes.now ≤ 96 }
{
    let files = [
        Bytes::new(alloc),
        Bytes::new(alloc),
        Bytes::from_slice(alloc, bytes)?,
        Bytes::new(alloc),
    ];
    let mut disk = MemoryDisk::with_files(alloc, files);
    Ok(opened(alloc, &mut disk))
}

// The journal with one byte changed.
fn altered(place: usize, byte: u8) -> [u8; 96]
    requires { place < 96 }
{
    let mut file = FILE;
    file[place] = byte;
    file
}

#[test]
fn records_stand_behind_their_gates(rt: HostRuntime) -> Result<(), Fail> {
    let mut disk = empty_disk(rt.alloc(), None);
    assert_eq!(rt; make(&mut disk), Ok((95, 2)));
    let mut buf = [0u8; 128];
    let count = disk.read(2, 0, &mut buf)?;
    assert_eq!(rt; &buf[..count], FILE.as_slice());
    Ok(())
}

#[test]
fn a_journal_is_read_back_or_refused(rt: HostRuntime) -> Result<(), Fail> {
    let alloc = rt.alloc();
    let refused = Err(OpenFault::NotAStore(2));
    assert_eq!(rt; opened_bytes(alloc, &FILE)?, Ok(Some((2, 2))));
    assert_eq!(rt;
        opened_bytes(alloc, &FILE[..25])?,
        Ok(None),
        "too short to be open"
    );
    assert_eq!(rt;
        opened_bytes(alloc, &altered(0, 7))?,
        Ok(None),
        "its gate is shut"
    );
    assert_eq!(rt;
        opened_bytes(alloc, &altered(50, 255))?,
        Ok(Some((1, 1))),
        "the second record's gate"
    );
    assert_eq!(rt;
        opened_bytes(alloc, &altered(8, b'9'))?,
        refused,
        "another magic"
    );
    assert_eq!(rt;
        opened_bytes(alloc, &altered(62, 3))?,
        refused,
        "a number is skipped"
    );
    assert_eq!(rt;
        opened_bytes(alloc, &altered(95, 1))?,
        refused,
        "a record runs past the end"
    );
    Ok(())
}

// Makes the journal on a disk that stops after so many calls, and crashes it. What is opened then is a prefix, and
// the whole where the making ended.
fn assert_prefix(rt: &impl Abort, alloc: Global, stop: u64, fill: Option<u8>) {
    let mut disk = empty_disk(alloc, Some(stop));
    let done = make(&mut disk).is_ok();
    let mut after = disk.crash(fill);
    match opened(alloc, &mut after) {
        Ok(Some((number, changes))) => {
            assert!(rt; number <= 2 && changes as u64 == number);
            assert!(rt; !done || number == 2);
        }
        Ok(None) => assert!(rt; !done),
        Err(_) => assert!(rt; false),
    }
}

#[test]
fn a_crash_after_any_call_leaves_a_prefix(rt: HostRuntime) -> Result<(), Fail> {
    for stop in 0..18 {
        assert_prefix(&rt, rt.alloc(), stop, None);
        for fill in [0, 1, 7, 255] {
            assert_prefix(&rt, rt.alloc(), stop, Some(fill));
        }
    }
    Ok(())
}
