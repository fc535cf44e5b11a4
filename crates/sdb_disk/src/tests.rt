// Tests of the disk in memory, of crashes, and of real files.
ghost use Rattle.std.specs.Prelude.{◌<◌};

use super::*;
use sdb_base::{Bytes, Numbers};
use std::alloc::Global;
use std::fs;
use std::process::Abort;
use std::rt::Files;
use std::test::Fail;

// Writes at a place that is tried first.
fn put<D: Disk>(disk: &mut D, file: u8, at: u64, bytes: &[u8]) -> Result<(), DiskFault>
    requires { file < 4 }
{
    if at > disk.len(file)? {
        return Err(DiskFault);
    }
    disk.write(file, at, bytes)
}

fn cut<D: Disk>(disk: &mut D, file: u8, len: u64) -> Result<(), DiskFault>
    requires { file < 4 }
{
    if len > disk.len(file)? {
        return Err(DiskFault);
    }
    disk.cut(file, len)
}

// The file begins with these bytes and ends with them.
fn assert_holds<D: Disk>(
    rt: &impl Abort,
    disk: &mut D,
    file: u8,
    bytes: &[u8],
) -> Result<(), DiskFault>
    requires { file < 4 }
{
    let mut buf = [0u8; 16];
    let count = disk.read(file, 0, &mut buf)?;
    assert_eq!(rt; &buf[..count], bytes);
    assert_eq!(rt; disk.len(file)?, bytes.len() as u64);
    Ok(())
}

fn numbers(alloc: Global, all: &[u64]) -> Result<Numbers, Fail> {
    let mut list = Numbers::new(alloc);
    for number in all {
        list.push(*number)?;
    }
    Ok(list)
}

// A synced file of which two bytes were written over and two added since.
fn unsynced(alloc: Global) -> Result<MemoryDisk, Fail> {
    let mut disk = MemoryDisk::new(alloc, Numbers::new(alloc), None);
    put(&mut disk, 1, 0, b"settled")?;
    disk.sync(1)?;
    put(&mut disk, 1, 2, b"--")?;
    put(&mut disk, 1, 7, b"++")?;
    put(&mut disk, 2, 0, b"new")?;
    Ok(disk)
}

#[test]
fn a_disk_in_memory_reads_what_was_written(rt: HostRuntime) -> Result<(), Fail> {
    let mut disk = MemoryDisk::new(rt.alloc(), Numbers::new(rt.alloc()), None);
    put(&mut disk, 2, 0, b"journal")?;
    put(&mut disk, 2, 4, b"neyman")?;
    cut(&mut disk, 2, 7)?;
    disk.sync(2)?;
    assert_holds(&rt, &mut disk, 2, b"journey")?;
    assert_holds(&rt, &mut disk, 3, b"")?;
    Ok(())
}

#[test]
fn calls_fail_by_their_numbers(rt: HostRuntime) -> Result<(), Fail> {
    let fails = numbers(rt.alloc(), &[1])?;
    let mut disk = MemoryDisk::new(rt.alloc(), fails, Some(4));
    assert_eq!(rt; disk.write(0, 0, b"a"), Ok(()));
    assert_eq!(rt; disk.write(0, 0, b"b"), Err(DiskFault));
    assert_eq!(rt; disk.len(0), Ok(1));
    assert_eq!(rt; disk.sync(0), Ok(()));
    assert_eq!(rt; disk.sync(0), Err(DiskFault));
    assert_eq!(rt; disk.len(0), Err(DiskFault));
    let mut after = disk.crash(Some(0));
    assert_holds(&rt, &mut after, 0, b"a")?;
    Ok(())
}

#[test]
fn a_crash_fills_what_was_not_synced(rt: HostRuntime) -> Result<(), Fail> {
    let mut filled = unsynced(rt.alloc())?.crash(Some(b'?'));
    assert_holds(&rt, &mut filled, 1, b"se??led??")?;
    assert_holds(&rt, &mut filled, 2, b"???")?;
    let mut kept = unsynced(rt.alloc())?.crash(None);
    assert_holds(&rt, &mut kept, 1, b"se--led++")?;
    assert_holds(&rt, &mut kept, 2, b"new")?;
    Ok(())
}

#[test]
fn a_durable_write_outlives_a_crash(rt: HostRuntime) -> Result<(), Fail> {
    let alloc = rt.alloc();
    let files = [
        Bytes::from_slice(alloc, b"one")?,
        Bytes::new(alloc),
        Bytes::new(alloc),
        Bytes::new(alloc),
    ];
    let mut disk = MemoryDisk::with_files(alloc, files);
    write_durably(0, 0, b"On", &mut disk)?;
    let mut after = disk.crash(Some(0));
    assert_holds(&rt, &mut after, 0, b"One")?;
    Ok(())
}

fn remove_store(rt: &impl Files) {
    for name in ["sdb.c0", "sdb.c1", "sdb.j0", "sdb.j1"] {
        let _ = fs::remove_file(rt, name);
    }
}

#[test]
fn real_files_are_made_kept_and_refused(rt: HostRuntime) -> Result<(), Fail> {
    remove_store(&rt);
    let mut disk = FileDisk::new(rt.clone()?);
    put(&mut disk, 0, 0, b"checkpoint")?;
    disk.sync(0)?;
    cut(&mut disk, 0, 5)?;
    put(&mut disk, 0, 5, b"er")?;
    assert_holds(&rt, &mut disk, 0, b"checker")?;
    assert_holds(&rt, &mut disk, 3, b"")?;
    assert!(rt; fs::exists(&rt, "sdb.j1")?);
    assert!(rt;
        !fs::exists(&rt, "sdb.j0")?,
        "opened at its first use alone"
    );
    fs::create_dir(&rt, "sdb.c1")?;
    assert_eq!(rt; disk.len(1), Err(DiskFault));
    fs::remove_dir(&rt, "sdb.c1")?;
    assert_eq!(rt; disk.len(1), Ok(0));
    let mut again = FileDisk::new(rt.clone()?);
    assert_eq!(rt; again.sync(0), Err(DiskFault));
    let held = Failure {
        file: "sdb.c0",
        cause: FailureCause::Held,
    };
    assert_eq!(rt; again.failure(), Some(held));
    drop(disk);
    assert_holds(&rt, &mut again, 0, b"checker")?;
    remove_store(&rt);
    Ok(())
}
