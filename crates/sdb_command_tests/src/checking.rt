// Checks over files in memory.
use sdb_base::{Bytes, Numbers};
use sdb_check::check;
use sdb_disk::MemoryDisk;
use sdb_io::MemorySink;
use sdb_status::Status;
use std::alloc::Global;
use std::test::Fail;

// A journal with the records 1, CreateDomain `books` of account 1, and 2, a put of title = Emma to its item i1.
const JOURNAL: [u8; 96] =
    *b"\x01SDBJRNL1\0\0\0\0\0\0\0\0\0\0\0\0\0\0\0\0\x01\0\0\0\x0c\0\0\0\0\0\0\0\x01\0\0\0\x01\0\x01\x05books\x01\0\0\0\x20\0\0\0\0\0\0\0\x02\0\0\0\x01\x02\x01\x05books\0\x02i1\0\x01\0\0\x05title\0\x04Emma\0";

fn first_call(alloc: Global) -> Result<Numbers, Fail> {
    let mut calls = Numbers::new(alloc);
    calls.push(0)?;
    Ok(calls)
}

#[test]
fn what_the_journal_holds_is_written(rt: HostRuntime) -> Result<(), Fail> {
    let alloc = rt.alloc();
    let files = [
        Bytes::new(alloc),
        Bytes::new(alloc),
        Bytes::from_slice(alloc, &JOURNAL)?,
        Bytes::new(alloc),
    ];
    let mut disk = MemoryDisk::with_files(alloc, files);
    let mut output = MemorySink::new(alloc, Numbers::new(alloc));
    assert_eq!(rt; check(alloc, &mut output, &mut disk), Status::Done);
    assert_eq!(rt; output.written(), b"sequence 2\n1 books 1 1\n".as_slice());
    Ok(())
}

#[test]
fn four_empty_files_have_sequence_0(rt: HostRuntime) -> Result<(), Fail> {
    let alloc = rt.alloc();
    let mut disk = MemoryDisk::new(alloc, Numbers::new(alloc), None);
    let mut output = MemorySink::new(alloc, Numbers::new(alloc));
    assert_eq!(rt; check(alloc, &mut output, &mut disk), Status::Done);
    assert_eq!(rt; output.written(), b"sequence 0\n".as_slice());
    Ok(())
}

#[test]
fn faults_have_their_statuses(rt: HostRuntime) -> Result<(), Fail> {
    let alloc = rt.alloc();
    let mut failing = MemorySink::new(alloc, first_call(alloc)?);
    let mut disk = MemoryDisk::new(alloc, Numbers::new(alloc), None);
    assert_eq!(rt; check(alloc, &mut failing, &mut disk), Status::WriteFault);

    let mut output = MemorySink::new(alloc, Numbers::new(alloc));
    let mut failing = MemoryDisk::new(alloc, first_call(alloc)?, None);
    assert_eq!(rt; check(alloc, &mut output, &mut failing), Status::DiskFault);

    let files = [
        Bytes::from_slice(alloc, b"\x01xxxxxxxxxxxxxxxxxxxxxxxxxxxxxxxx")?,
        Bytes::new(alloc),
        Bytes::new(alloc),
        Bytes::new(alloc),
    ];
    let mut disk = MemoryDisk::with_files(alloc, files);
    assert_eq!(rt; check(alloc, &mut output, &mut disk), Status::NotAStore(0));
    assert_eq!(rt; output.written(), b"".as_slice());
    Ok(())
}
