// The system's calls on the files of a store, one each, so that a test can stand in for them.
ghost use Rattle.std.specs.Io.{ReadsAtMost, WritesAtMost};
ghost use Rattle.std.specs.Prelude.{◌<◌};

use crate::FailureCause;
use std::fs::{File, OpenOptions, TryLockError};
use std::io::{self, ErrorKind};
use std::os::unix::fs::{FileExt, OpenOptionsExt};
use std::rt::Files;

// The files' names by their numbers.
pub(crate) const NAMES: [&str; 4] = ["sdb.c0", "sdb.c1", "sdb.j0", "sdb.j1"];

// A new file is its owner's alone.
const OWNER_ALONE: u32 = 0o600;

// Files by their numbers from 0 to 3. Each method is one call of the system, which may do a part of the work or
// be interrupted.
pub(crate) trait RawFiles {
    // Opens a file, which is made where it is missing, and locks it. A file that is open stays as it is.
    fn open(&mut self, file: u8) -> Result<(), FailureCause>
        requires { file < 4 };

    fn len(&mut self, file: u8) -> io::Result<u64>
        requires { file < 4 };

    fn read_at(&mut self, file: u8, at: u64, buf: &mut [u8]) -> io::Result<usize>
        requires { file < 4 }
        ensures { ReadsAtMost result buf.new };

    fn write_at(&mut self, file: u8, at: u64, bytes: &[u8]) -> io::Result<usize>
        requires { file < 4 }
        ensures { WritesAtMost result bytes.now };

    fn set_len(&mut self, file: u8, len: u64) -> io::Result<()>
        requires { file < 4 };

    fn sync_data(&mut self, file: u8) -> io::Result<()>
        requires { file < 4 };

    // Syncs the entries of the folder.
    fn sync_folder(&mut self) -> io::Result<()>;
}

// The files of the working folder, none of them opened before its first use.
#[derive(Drop)]
pub(crate) struct FolderFiles<R> {
    rt: R,
    files: [Option<File>; 4],
}

impl<R> FolderFiles<R> {
    pub(crate) fn new(rt: R) -> FolderFiles<R> {
        FolderFiles {
            rt,
            files: [None, None, None, None],
        }
    }

    fn opened(&self, file: u8) -> io::Result<&File>
        requires { file < 4 }
    {
        match &self.files[file as usize] {
            Some(opened) => Ok(opened),
            None => Err(io::Error::from(ErrorKind::NotFound)),
        }
    }
}

impl<R: Files<File = File>> RawFiles for FolderFiles<R> {
    fn open(&mut self, file: u8) -> Result<(), FailureCause> {
        if self.files[file as usize].is_some() {
            return Ok(());
        }
        let opened = OpenOptions::new()
            .read(true)
            .write(true)
            .create(true)
            .mode(OWNER_ALONE)
            .open(&self.rt, NAMES[file as usize])?;
        match opened.try_lock() {
            Ok(()) => {}
            Err(TryLockError::WouldBlock) => return Err(FailureCause::Held),
            Err(TryLockError::Error(e)) => return Err(FailureCause::from(e)),
        }
        self.files[file as usize] = Some(opened);
        Ok(())
    }

    fn len(&mut self, file: u8) -> io::Result<u64> {
        Ok(self.opened(file)?.metadata()?.len())
    }

    fn read_at(&mut self, file: u8, at: u64, buf: &mut [u8]) -> io::Result<usize> {
        self.opened(file)?.read_at(buf, at)
    }

    fn write_at(&mut self, file: u8, at: u64, bytes: &[u8]) -> io::Result<usize> {
        self.opened(file)?.write_at(bytes, at)
    }

    fn set_len(&mut self, file: u8, len: u64) -> io::Result<()> {
        self.opened(file)?.set_len(len)
    }

    fn sync_data(&mut self, file: u8) -> io::Result<()> {
        self.opened(file)?.sync_data()
    }

    fn sync_folder(&mut self) -> io::Result<()> {
        File::open(&self.rt, ".")?.sync_all()
    }
}
