// Tests of a store: files written out, a story stopped at each disk call and crashed, and real files.
ghost use Rattle.std.specs.Prelude.{◌≡◌, ◌≤◌, true, [], length, IfOk};
ghost use Rattle.sdb_base.specs.Names.{IsDomainName};
ghost use Rattle.sdb_store.specs.Kept.{Ready};

use sdb_base::{AccountId, Bytes, Numbers, Text};
use sdb_disk::{Disk, FileDisk, MemoryDisk, OpenFault};
use sdb_pairs::{Change, Changes};
use sdb_store::Store;
use std::alloc::Global;
use std::fs;
use std::process::Abort;
use std::rt::Files;
use std::test::Fail;

// A journal with the records 1, CreateDomain `books` of account 1, 2, a put of title = Emma to its item i1, and 3, the
// same put to i2. The gate of the third record stands at 95.
const FILE: [u8; 141] =
    *b"\x01SDBJRNL1\0\0\0\0\0\0\0\0\0\0\0\0\0\0\0\0\x01\0\0\0\x0c\0\0\0\0\0\0\0\x01\0\0\0\x01\0\x01\x05books\x01\0\0\0\x20\0\0\0\0\0\0\0\x02\0\0\0\x01\x02\x01\x05books\0\x02i1\0\x01\0\0\x05title\0\x04Emma\x01\0\0\0\x20\0\0\0\0\0\0\0\x03\0\0\0\x01\x02\x01\x05books\0\x02i2\0\x01\0\0\x05title\0\x04Emma\0";

// The number of the last record, of the domains of account 1, and of the items of `books`.
fn numbers_of(alloc: Global, store: &Store) -> Result<(u64, u64, u64), Fail> {
    let accounts = store.accounts();
    let items = match accounts.domain(AccountId(1), &Text::from_str(alloc, "books")?) {
        Some(domain) => domain.item_count(),
        None => 0,
    };
    Ok((store.sequence(), accounts.domain_count(AccountId(1)), items))
}

// What a store finds in files of which the journal has these bytes.
fn found_in(
    alloc: Global,
    journal: &[u8],
    other: &[u8],
) -> Result<Result<(u64, u64, u64), OpenFault>, Fail>
    requires journal { length journal.now ≤ 256 }
    requires other { length other.now ≤ 256 }
{
    let files = [
        Bytes::new(alloc),
        Bytes::new(alloc),
        Bytes::from_slice(alloc, journal)?,
        Bytes::from_slice(alloc, other)?,
    ];
    let mut disk = MemoryDisk::with_files(alloc, files);
    match Store::start(alloc, &mut disk) {
        Ok(store) => Ok(Ok(numbers_of(alloc, &store)?)),
        Err(fault) => Ok(Err(fault)),
    }
}

// The journal with another byte at the gate of its third record.
fn gated(byte: u8) -> [u8; 141] {
    let mut file = FILE;
    file[95] = byte;
    file
}

#[test]
fn files_are_opened_or_refused(rt: HostRuntime) -> Result<(), Fail> {
    let alloc = rt.alloc();
    assert_eq!(rt; found_in(alloc, b"", b"")?, Ok((0, 0, 0)));
    assert_eq!(rt; found_in(alloc, &gated(7), b"")?, Ok((2, 1, 1)));
    assert_eq!(rt; found_in(alloc, &gated(1), b"")?, Ok((3, 1, 2)));
    assert_eq!(rt; found_in(alloc, &FILE[..25], b"")?, Ok((0, 0, 0)));
    assert_eq!(rt;
        found_in(alloc, &FILE[..140], b"")?,
        Err(OpenFault::NotAStore(2))
    );
    assert_eq!(rt; found_in(alloc, b"", &FILE)?, Err(OpenFault::NotAStore(3)));
    Ok(())
}

// Makes a domain of account 1, as one group. Gives the number of its domains before.
fn commit_domain<D: Disk>(
    alloc: Global,
    name: &str,
    store: &mut Store,
    disk: &mut D,
) -> Result<u64, OpenFault>
    requires name { IsDomainName name.now }
    requires sound { store.old.sound ≡ true }
    requires pending { store.old.pending ≡ [] }
    requires ready { Ready store.old (D.state disk.old) }

    ensures sound { IfOk result (λ domains. store.new.sound ≡ true) }
    ensures pending { IfOk result (λ domains. store.new.pending ≡ []) }
    ensures ready { IfOk result (λ domains. Ready store.new (D.state disk.new)) }
{
    let domains = store.accounts().domain_count(AccountId(1));
    let mut changes = Changes::new(alloc);
    let Ok(name) = Text::from_str(alloc, name) else {
        return Err(OpenFault::OutOfMemory);
    };
    let Ok(()) = changes.push(Change::MakeDomain(AccountId(1), name)) else {
        return Err(OpenFault::OutOfMemory);
    };
    let Ok(()) = store.stage(changes) else {
        return Err(OpenFault::OutOfMemory);
    };
    let Ok(()) = store.commit(disk) else {
        return Err(OpenFault::Disk);
    };
    Ok(domains)
}

// Five groups, each a domain, with a reopening and a new start between them. Counts those that were committed.
fn story<D: Disk>(alloc: Global, disk: &mut D, committed: &mut u64) -> Result<(), OpenFault> {
    let mut store = Store::start(alloc, disk)?;
    commit_domain(alloc, "one", &mut store, disk)?;
    *committed = 1;
    commit_domain(alloc, "two", &mut store, disk)?;
    *committed = 2;
    store.reopen(disk)?;
    commit_domain(alloc, "three", &mut store, disk)?;
    *committed = 3;
    store = Store::start(alloc, disk)?;
    commit_domain(alloc, "four", &mut store, disk)?;
    *committed = 4;
    commit_domain(alloc, "five", &mut store, disk)?;
    *committed = 5;
    Ok(())
}

// The story on a disk that stops after so many calls, and then crashes: a new start finds a prefix that has every
// group that was committed, and one more at most.
fn assert_prefix(rt: &impl Abort, alloc: Global, stop: u64, fill: Option<u8>) -> Result<(), Fail> {
    let mut disk = MemoryDisk::new(alloc, Numbers::new(alloc), Some(stop));
    let mut committed = 0;
    let ended = story(alloc, &mut disk, &mut committed).is_ok();
    let mut after = disk.crash(fill);
    let store = Store::start(alloc, &mut after)?;
    let (number, domains, _) = numbers_of(alloc, &store)?;
    assert_eq!(rt; number, domains);
    assert!(rt; committed <= number && number <= committed.saturating_add(1));
    assert!(rt; !ended || number == 5);
    Ok(())
}

#[test]
fn a_crash_after_any_call_leaves_a_prefix(rt: HostRuntime) -> Result<(), Fail> {
    for stop in 0..70 {
        assert_prefix(&rt, rt.alloc(), stop, None)?;
        for fill in [0, 1, 255] {
            assert_prefix(&rt, rt.alloc(), stop, Some(fill))?;
        }
    }
    Ok(())
}

// Three groups, each a domain, on a disk that stops after so many calls. Gives the disk, and whether all were committed.
fn three_groups(alloc: Global, stop: u64) -> (MemoryDisk, bool) {
    let mut disk = MemoryDisk::new(alloc, Numbers::new(alloc), Some(stop));
    let ended = commit_three(alloc, &mut disk).is_ok();
    (disk, ended)
}

fn commit_three<D: Disk>(alloc: Global, disk: &mut D) -> Result<(), OpenFault> {
    let mut store = Store::start(alloc, disk)?;
    commit_domain(alloc, "one", &mut store, disk)?;
    commit_domain(alloc, "two", &mut store, disk)?;
    commit_domain(alloc, "three", &mut store, disk)?;
    Ok(())
}

// What a new start finds after three groups, a stop after so many calls, and a crash that fills what isn't synced.
fn found_after(alloc: Global, stop: u64, fill: u8) -> Result<(u64, u64, u64), Fail> {
    let (disk, _) = three_groups(alloc, stop);
    let mut after = disk.crash(Some(fill));
    let store = Store::start(alloc, &mut after)?;
    numbers_of(alloc, &store)
}

#[test]
fn the_byte_at_the_gate_decides_of_the_last_group(rt: HostRuntime) -> Result<(), Fail> {
    let alloc = rt.alloc();
    for calls in 2..100 {
        let (_, ended) = three_groups(alloc, calls);
        if ended {
            // Without the last sync the gate is unsynced, and without the write before it what stood there stays.
            assert_eq!(rt; found_after(alloc, calls - 1, 7)?, (2, 2, 0));
            assert_eq!(rt; found_after(alloc, calls - 1, 1)?, (3, 3, 0));
            assert_eq!(rt; found_after(alloc, calls - 2, 1)?, (2, 2, 0));
            return Ok(());
        }
    }
    assert!(rt; false, "the groups are never committed");
    Ok(())
}

fn remove_store(rt: &impl Files) {
    for name in ["sdb.c0", "sdb.c1", "sdb.j0", "sdb.j1"] {
        let _ = fs::remove_file(rt, name);
    }
}

#[test]
fn real_files_keep_the_accounts(rt: HostRuntime) -> Result<(), Fail> {
    remove_store(&rt);
    let alloc = rt.alloc();
    let mut disk = FileDisk::new(rt.clone()?);
    let mut committed = 0;
    story(alloc, &mut disk, &mut committed)?;
    drop(disk);
    let mut again = FileDisk::new(rt.clone()?);
    let store = Store::start(alloc, &mut again)?;
    assert_eq!(rt; numbers_of(alloc, &store)?, (5, 5, 0));
    assert!(rt; store.is_sound() && !store.has_pending());
    remove_store(&rt);
    Ok(())
}
