// The errors of a disk, and of what stands on one.
ghost use Rattle.std.specs.Prelude.{◌≡◌, ◌≤◌};
ghost use Rattle.sdb_disk.specs.Past.{counted};

use thiserror::Error;

/// The disk failed. Its count of faults rose in the call.
#[derive(Clone, Copy, Debug, PartialEq, Eq, Error)]
#[error("the disk failed")]
pub struct DiskFault;

/// Why a store wasn't opened.
#[derive(Clone, Copy, Debug, PartialEq, Eq, Error)]
pub enum OpenFault {
    #[error("the disk failed")]
    Disk,
    /// The files stand for no accounts; the first bad file by its number.
    #[error("file {0} is no file of a store")]
    NotAStore(u8),
    #[error("out of memory")]
    OutOfMemory,
}

/// Why a step of background work wasn't done.
#[derive(Clone, Copy, Debug, PartialEq, Eq, Error)]
pub enum WorkFault {
    #[error("the disk failed")]
    Disk,
    #[error("out of memory")]
    OutOfMemory,
}

// One fault more.
pub(crate) fn raise(faults: &mut u64) -> DiskFault
    ensures one_more { faults.new ≡ counted faults.old }
    ensures later { faults.old ≤ faults.new }
{
    *faults = faults.saturating_add(1);
    DiskFault
}
