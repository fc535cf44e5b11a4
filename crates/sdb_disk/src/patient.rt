// The calls of a disk over those of the system: whole reads and writes, syncs that hold, and what failed.
ghost use Rattle.std.specs.Io.{ReadsAtMost, WritesAtMost};
ghost use Rattle.std.specs.Prelude.{◌<◌, ◌≤◌, ◌+◌, ◌^◌, length, IfOk, OnOk};

use crate::FailureCause;
use crate::raw::RawFiles;
use std::io::{self, ErrorKind};

// How often one call is tried that is interrupted.
const MAX_TRIES: u32 = 1000;

// A file has at most so many bytes.
pub(crate) const MAX_LEN: u64 = 1 << 62;

// What is known of a file since its last sync.
#[derive(Clone, Copy, Drop)]
struct Unsynced {
    // Where the bytes begin and end that were written.
    start: u64,
    end: u64,
    // A write, a cut or a sync failed. The system may take pages for written then that aren't.
    is_doubtful: bool,
}

impl Unsynced {
    const NOTHING: Unsynced = Unsynced {
        start: u64::MAX,
        end: 0,
        is_doubtful: false,
    };

    // Bytes were written, or perhaps a part of them.
    fn cover(&mut self, at: u64, count: u64) {
        self.start = self.start.min(at);
        self.end = self.end.max(at.saturating_add(count));
    }
}

// The files of a store over calls that may do a part of the work, be interrupted or fail.
#[derive(Drop)]
pub(crate) struct PatientFiles<S> {
    raw: S,
    unsynced: [Unsynced; 4],
    // The folder was synced since the file was opened here.
    in_folder: [bool; 4],
}

impl<S: RawFiles> PatientFiles<S> {
    pub(crate) fn new(raw: S) -> PatientFiles<S> {
        PatientFiles {
            raw,
            unsynced: [Unsynced::NOTHING; 4],
            in_folder: [false; 4],
        }
    }

    // What the calls are made of.
    #[cfg(test)]
    pub(crate) fn raw(&self) -> &S {
        &self.raw
    }

    pub(crate) fn len(&mut self, file: u8) -> Result<u64, FailureCause>
        requires { file < 4 }
        ensures { IfOk result (λ n. n ≤ 2 ^ 62) }
    {
        self.raw.open(file)?;
        match self.raw.len(file)? {
            len if len <= MAX_LEN => Ok(len),
            _ => Err(FailureCause::TooLong),
        }
    }

    // Fills the buffer as far as the file goes.
    pub(crate) fn read(&mut self, file: u8, at: u64, buf: &mut [u8]) -> Result<usize, FailureCause>
        requires { file < 4 }
        ensures { ReadsAtMost result buf.new }
    {
        self.raw.open(file)?;
        match read_whole(&mut self.raw, file, at, buf) {
            Ok(count) => Ok(count),
            Err(e) => Err(FailureCause::from(e)),
        }
    }

    pub(crate) fn write(&mut self, file: u8, at: u64, bytes: &[u8]) -> Result<(), FailureCause>
        requires { file < 4 }
        ensures { OnOk result (at + length bytes.now ≤ 2 ^ 62) }
    {
        if at > MAX_LEN || bytes.len() as u64 > MAX_LEN - at {
            return Err(FailureCause::TooLong);
        }
        self.raw.open(file)?;
        let unsynced = &mut self.unsynced[file as usize];
        unsynced.cover(at, bytes.len() as u64);
        let result = write_whole(&mut self.raw, file, at, bytes);
        unsynced.is_doubtful = unsynced.is_doubtful || result.is_err();
        Ok(result?)
    }

    pub(crate) fn cut(&mut self, file: u8, len: u64) -> Result<(), FailureCause>
        requires { file < 4 }
    {
        self.raw.open(file)?;
        let result = self.raw.set_len(file, len);
        let unsynced = &mut self.unsynced[file as usize];
        unsynced.is_doubtful = unsynced.is_doubtful || result.is_err();
        Ok(result?)
    }

    pub(crate) fn sync(&mut self, file: u8) -> Result<(), FailureCause>
        requires { file < 4 }
    {
        self.raw.open(file)?;
        let result = self.settle(file);
        let unsynced = &mut self.unsynced[file as usize];
        match result {
            Ok(()) => *unsynced = Unsynced::NOTHING,
            Err(_) => unsynced.is_doubtful = true,
        }
        Ok(result?)
    }

    // Syncs a file, and at its first sync the folder too. Where a call failed since the last sync, what was
    // written since is written again first: the system may take for written what it couldn't write.
    fn settle(&mut self, file: u8) -> io::Result<()>
        requires { file < 4 }
    {
        let unsynced = self.unsynced[file as usize];
        if unsynced.is_doubtful {
            rewrite(&mut self.raw, file, unsynced.start, unsynced.end)?;
        }
        self.raw.sync_data(file)?;
        if !self.in_folder[file as usize] {
            self.raw.sync_folder()?;
            self.in_folder[file as usize] = true;
        }
        Ok(())
    }
}

// Fills the buffer as far as the file goes.
fn read_whole<S: RawFiles>(raw: &mut S, file: u8, at: u64, buf: &mut [u8]) -> io::Result<usize>
    requires { file < 4 }
    ensures { ReadsAtMost result buf.new }
{
    let mut filled = 0;
    'reads: for _ in 0..u64::MAX {
        let place = at.saturating_add(filled as u64);
        if filled >= buf.len() || place >= MAX_LEN {
            return Ok(filled);
        }
        match read_patiently(raw, file, place, &mut buf[filled..])? {
            0 => return Ok(filled),
            count => filled += count,
        }
    }
    Err(io::Error::from(ErrorKind::Interrupted))
}

// One read, which is tried again where it was interrupted.
fn read_patiently<S: RawFiles>(raw: &mut S, file: u8, at: u64, buf: &mut [u8]) -> io::Result<usize>
    requires { file < 4 }
    ensures { ReadsAtMost result buf.new }
{
    'tries: for _ in 0..MAX_TRIES {
        match raw.read_at(file, at, buf) {
            Err(e) if e.kind() == ErrorKind::Interrupted => {}
            result => return result,
        }
    }
    Err(io::Error::from(ErrorKind::Interrupted))
}

// Writes all the bytes.
fn write_whole<S: RawFiles>(raw: &mut S, file: u8, at: u64, bytes: &[u8]) -> io::Result<()>
    requires { file < 4 }
{
    let mut done = 0;
    'writes: for _ in 0..u64::MAX {
        if done >= bytes.len() {
            return Ok(());
        }
        match write_patiently(raw, file, at.saturating_add(done as u64), &bytes[done..])? {
            0 => return Err(io::Error::from(ErrorKind::WriteZero)),
            count => done += count,
        }
    }
    Err(io::Error::from(ErrorKind::Interrupted))
}

// One write, which is tried again where it was interrupted.
fn write_patiently<S: RawFiles>(raw: &mut S, file: u8, at: u64, bytes: &[u8]) -> io::Result<usize>
    requires { file < 4 }
    ensures { WritesAtMost result bytes.now }
{
    'tries: for _ in 0..MAX_TRIES {
        match raw.write_at(file, at, bytes) {
            Err(e) if e.kind() == ErrorKind::Interrupted => {}
            result => return result,
        }
    }
    Err(io::Error::from(ErrorKind::Interrupted))
}

// Writes again what stands between two places, as far as the file goes.
fn rewrite<S: RawFiles>(raw: &mut S, file: u8, start: u64, end: u64) -> io::Result<()>
    requires { file < 4 }
{
    let mut piece = [0u8; 4096];
    let mut at = start;
    'pieces: for _ in 0..u64::MAX {
        if at >= end {
            return Ok(());
        }
        let wanted = (end - at).min(4096) as usize;
        let count = read_whole(raw, file, at, &mut piece[..wanted])?;
        if count == 0 {
            return Ok(());
        }
        write_whole(raw, file, at, &piece[..count])?;
        at = at.saturating_add(count as u64);
    }
    Err(io::Error::from(ErrorKind::Interrupted))
}
