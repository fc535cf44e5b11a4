// The files of the working folder as a disk.
ghost use Rattle.std.specs.Prelude.{◌≡◌, ◌<◌, ◌≤◌, ℕ, false};
ghost use Rattle.std.specs.Io.{ReadsAtMost};
ghost use Rattle.sdb_disk.specs.Disk.{Settled};
ghost use Rattle.sdb_disk.specs.Past.{counted};
ghost use Rattle.sdb_disk.specs.FileState.{untold};
ghost use Rattle.sdb_disk.specs.FileLaws.{untold-may_stay, untold-counts_now};

use crate::fault::raise;
use crate::patient::PatientFiles;
use crate::raw::{FolderFiles, NAMES};
use crate::{Disk, DiskFault, Failure, FailureCause};
use std::fs::File;
use std::rt::Files;

/// The files `sdb.c0`, `sdb.c1`, `sdb.j0` and `sdb.j1` of the working folder. A file is opened at its first use,
/// made where it is missing, readable and writable by its owner alone, and locked: where another process holds
/// it, each call on it is a fault. Its first sync syncs the folder too. Where a write or a sync failed, the next
/// sync first writes again what was written since the last one that succeeded, as the system may have dropped
/// it. The disk tells nothing of its content: that a real disk keeps what the trait says of one isn't claimed.
#[derive(Drop)]
pub struct FileDisk<R> {
    files: PatientFiles<FolderFiles<R>>,
    failure: Option<Failure>,
    faults: u64,
    syncs: u64,
}

impl<R: Files<File = File>> FileDisk<R> {
    /// The files, none of them opened yet.
    pub fn new(rt: R) -> FileDisk<R>
        ensures untold { (⟦<FileDisk<R> as Disk>⟧.state result).told ≡ false }
        ensures settled { Settled (⟦<FileDisk<R> as Disk>⟧.state result) }
        ensures faults { (⟦<FileDisk<R> as Disk>⟧.state result).faults ≡ 0 }
        ensures syncs { (⟦<FileDisk<R> as Disk>⟧.state result).syncs ≡ 0 }
    {
        FileDisk {
            files: PatientFiles::new(FolderFiles::new(rt)),
            failure: None,
            faults: 0,
            syncs: 0,
        }
    }
}

impl<R> FileDisk<R> {
    /// The last failure, for a person to read. No call depends on it.
    pub fn failure(&self) -> Option<Failure> {
        self.failure
    }

    // Counts a fault and keeps its cause.
    fn fail(&mut self, file: u8, cause: FailureCause) -> DiskFault
        requires { file < 4 }
        ensures one_more { self.new.faults ≡ counted self.old.faults }
        ensures later { self.old.faults ≤ self.new.faults }
        ensures syncs { self.new.syncs ≡ self.old.syncs }
    {
        self.failure = Some(Failure {
            file: NAMES[file as usize],
            cause,
        });
        raise(&mut self.faults)
    }
}

impl<R: Files<File = File>> Disk for FileDisk<R> {
    ghost state = { λ d. untold d.faults d.syncs };

    ghost may_stay = { λ d k told. untold-may_stay d.faults d.syncs k told };

    ghost lengths = { λ d k c left. absurd left };

    ghost counts_now = { λ d t c le image. untold-counts_now d.faults d.syncs t c image };

    ghost only_now = { λ d c left. absurd left };

    fn len(&mut self, file: u8) -> Result<u64, DiskFault> {
        match self.files.len(file) {
            Ok(len) => Ok(len),
            Err(cause) => Err(self.fail(file, cause)),
        }
    }

    fn read(&mut self, file: u8, at: u64, buf: &mut [u8]) -> Result<usize, DiskFault> {
        match self.files.read(file, at, buf) {
            Ok(count) => Ok(count),
            Err(cause) => Err(self.fail(file, cause)),
        }
    }

    fn write(&mut self, file: u8, at: u64, bytes: &[u8]) -> Result<(), DiskFault> {
        match self.files.write(file, at, bytes) {
            Ok(()) => Ok(()),
            Err(cause) => Err(self.fail(file, cause)),
        }
    }

    fn cut(&mut self, file: u8, len: u64) -> Result<(), DiskFault> {
        match self.files.cut(file, len) {
            Ok(()) => Ok(()),
            Err(cause) => Err(self.fail(file, cause)),
        }
    }

    fn sync(&mut self, file: u8) -> Result<(), DiskFault> {
        match self.files.sync(file) {
            Ok(()) => {
                self.syncs = self.syncs.saturating_add(1);
                Ok(())
            }
            Err(cause) => Err(self.fail(file, cause)),
        }
    }
}
