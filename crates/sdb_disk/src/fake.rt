// Files in memory in place of the system's, with one mishap, and what the disk does about it.
ghost use Rattle.std.specs.Io.{ReadsAtMost, WritesAtMost};
ghost use Rattle.std.specs.Prelude.{◌<◌};

use crate::patient::PatientFiles;
use crate::raw::RawFiles;
use crate::{Failure, FailureCause};
use sdb_base::{Bytes, List, OutOfMemory};
use std::alloc::Global;
use std::io::{self, ErrorKind};
use std::process::Abort;
use std::test::Fail;

// A call of the system that changes a file or makes it last: the file, the place and the number of bytes that it
// took.
#[derive(Clone, Copy, Debug, PartialEq, Eq, Drop)]
enum RawCall {
    Open(u8),
    Write(u8, u64, usize),
    Cut(u8, u64),
    Sync(u8),
    Folder,
}

// What goes wrong with one call.
#[derive(Clone, Copy, Debug, PartialEq, Eq, Drop)]
enum Mishap {
    // It fails and does nothing.
    Fails,
    // It takes one byte.
    IsShort,
    // It is interrupted before it does anything.
    IsInterrupted,
}

// Files of at most 16 bytes that record what was done. The call of a number, from 0 over reads, writes, syncs of
// files and of the folder, has a mishap.
#[derive(Drop)]
struct FakeFiles {
    content: [[u8; 16]; 4],
    lens: [u64; 4],
    is_open: [bool; 4],
    done: List<RawCall>,
    calls: u64,
    mishap: Option<(u64, Mishap)>,
}

impl FakeFiles {
    fn new(alloc: Global, mishap: Option<(u64, Mishap)>) -> FakeFiles {
        FakeFiles {
            content: [[0; 16]; 4],
            lens: [0; 4],
            is_open: [false; 4],
            done: List::new(alloc),
            calls: 0,
            mishap,
        }
    }

    // How many bytes the next call takes at most.
    fn limit(&mut self) -> io::Result<usize> {
        let number = self.calls;
        self.calls = number.saturating_add(1);
        match self.mishap {
            Some((at, Mishap::Fails)) if at == number => Err(io::Error::from(ErrorKind::Other)),
            Some((at, Mishap::IsShort)) if at == number => Ok(1),
            Some((at, Mishap::IsInterrupted)) if at == number => {
                Err(io::Error::from(ErrorKind::Interrupted))
            }
            _ => Ok(usize::MAX),
        }
    }

    fn record(&mut self, call: RawCall) -> io::Result<()> {
        match self.done.push(call) {
            Ok(()) => Ok(()),
            Err(OutOfMemory) => Err(io::Error::from(ErrorKind::OutOfMemory)),
        }
    }
}

impl RawFiles for FakeFiles {
    fn open(&mut self, file: u8) -> Result<(), FailureCause> {
        if !self.is_open[file as usize] {
            self.is_open[file as usize] = true;
            self.record(RawCall::Open(file))?;
        }
        Ok(())
    }

    fn len(&mut self, file: u8) -> io::Result<u64> {
        Ok(self.lens[file as usize])
    }

    fn read_at(&mut self, file: u8, at: u64, buf: &mut [u8]) -> io::Result<usize> {
        let left = self.lens[file as usize].saturating_sub(at) as usize;
        let count = left.min(self.limit()?).min(buf.len());
        for (place, byte) in buf[..count].iter_mut().enumerate() {
            *byte = match self.content[file as usize].get((at as usize).saturating_add(place)) {
                Some(stored) => *stored,
                None => 0,
            };
        }
        Ok(count)
    }

    fn write_at(&mut self, file: u8, at: u64, bytes: &[u8]) -> io::Result<usize> {
        let count = bytes.len().min(self.limit()?);
        for (place, byte) in bytes[..count].iter().enumerate() {
            let place = (at as usize).saturating_add(place);
            if let Some(stored) = self.content[file as usize].get_mut(place) {
                *stored = *byte;
            }
        }
        let end = at.saturating_add(count as u64);
        self.lens[file as usize] = self.lens[file as usize].max(end);
        self.record(RawCall::Write(file, at, count))?;
        Ok(count)
    }

    fn set_len(&mut self, file: u8, len: u64) -> io::Result<()> {
        self.limit()?;
        self.lens[file as usize] = len;
        self.record(RawCall::Cut(file, len))
    }

    fn sync_data(&mut self, file: u8) -> io::Result<()> {
        self.limit()?;
        self.record(RawCall::Sync(file))
    }

    fn sync_folder(&mut self) -> io::Result<()> {
        self.limit()?;
        self.record(RawCall::Folder)
    }
}

// A trial: two writes and a sync of file 2 with one to file 0 between them, and a second sync of it. Which of the
// last four calls are done, and everything that the files were made to do.
fn assert_trial(
    rt: &impl Abort,
    alloc: Global,
    mishap: Option<(u64, Mishap)>,
    done: [bool; 4],
    calls: &[RawCall],
) {
    let mut files = PatientFiles::new(FakeFiles::new(alloc, mishap));
    let first = files.write(2, 0, b"abcd").is_ok();
    assert!(rt; files.write(0, 1, b"x").is_ok());
    let second = files.sync(2).is_ok();
    assert!(rt; files.write(2, 4, b"ef").is_ok());
    let third = files.sync(2).is_ok();
    let fourth = files.sync(2).is_ok();
    assert_eq!(rt; [first, second, third, fourth], done);
    assert_eq!(rt; files.raw().done.as_slice(), calls);
    let mut buf = [0u8; 8];
    assert_eq!(rt; files.read(2, 0, &mut buf), Ok(6));
    assert_eq!(rt; &buf, b"abcdef\0\0");
}

#[test]
fn mishaps_lose_nothing(rt: HostRuntime) {
    use Mishap::{Fails, IsInterrupted, IsShort};
    use RawCall::{Folder, Open, Sync, Write};
    let alloc = rt.alloc();
    let all = [true; 4];
    let whole = [
        Open(2),
        Write(2, 0, 4),
        Open(0),
        Write(0, 1, 1),
        Sync(2),
        Folder,
        Write(2, 4, 2),
        Sync(2),
        Sync(2),
    ];
    assert_trial(&rt, alloc, None, all, &whole);
    assert_trial(&rt, alloc, Some((0, IsInterrupted)), all, &whole);
    let in_parts = [
        Open(2),
        Write(2, 0, 1),
        Write(2, 1, 3),
        Open(0),
        Write(0, 1, 1),
        Sync(2),
        Folder,
        Write(2, 4, 2),
        Sync(2),
        Sync(2),
    ];
    assert_trial(&rt, alloc, Some((0, IsShort)), all, &in_parts);
    let synced_again = [
        Open(2),
        Write(2, 0, 4),
        Open(0),
        Write(0, 1, 1),
        Write(2, 4, 2),
        Write(2, 0, 6),
        Sync(2),
        Folder,
        Sync(2),
    ];
    assert_trial(
        &rt,
        alloc,
        Some((2, Fails)),
        [true, false, true, true],
        &synced_again,
    );
    let folder_again = [
        Open(2),
        Write(2, 0, 4),
        Open(0),
        Write(0, 1, 1),
        Sync(2),
        Write(2, 4, 2),
        Write(2, 0, 6),
        Sync(2),
        Folder,
        Sync(2),
    ];
    assert_trial(
        &rt,
        alloc,
        Some((3, Fails)),
        [true, false, true, true],
        &folder_again,
    );
    let later = [
        Open(2),
        Write(2, 0, 4),
        Open(0),
        Write(0, 1, 1),
        Sync(2),
        Folder,
        Write(2, 4, 2),
        Write(2, 4, 2),
        Sync(2),
    ];
    assert_trial(
        &rt,
        alloc,
        Some((5, Fails)),
        [true, true, false, true],
        &later,
    );
    assert_trial(&rt, alloc, Some((8, IsShort)), all, &whole);
}

#[test]
fn reads_stop_at_the_end(rt: HostRuntime) {
    let mut files = PatientFiles::new(FakeFiles::new(rt.alloc(), Some((1, Mishap::IsShort))));
    assert!(rt; files.write(3, 0, b"journal").is_ok());
    let mut buf = [0u8; 4];
    assert_eq!(rt; files.read(3, 4, &mut buf), Ok(3));
    assert_eq!(rt; &buf, b"nal\0");
    assert_eq!(rt; files.read(3, u64::MAX, &mut buf), Ok(0));
    assert!(rt; files.cut(3, 4).is_ok());
    assert_eq!(rt; files.len(3), Ok(4));
    assert_eq!(rt; files.write(3, 1 << 62, b"x"), Err(FailureCause::TooLong));
}

#[test]
fn failures_are_told(rt: HostRuntime) -> Result<(), Fail> {
    let failure = Failure {
        file: "sdb.j0",
        cause: FailureCause::Held,
    };
    assert_eq!(rt;
        failure.to_string(rt.alloc())?.as_str(),
        "sdb.j0: another process holds the store"
    );
    Ok(())
}
