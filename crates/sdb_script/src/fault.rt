// Why a script isn't read on.
ghost use Rattle.std.specs.Prelude.{◌≡◌};
ghost use Rattle.sdb_script.specs.declared.fault.ScriptFault.TheVariants as variant;

use sdb_base::OutOfMemory;
use std::alloc::{AllocError, AllocFailed};
use thiserror::Error;

/// Why a script isn't read on.
#[derive(Clone, Copy, Debug, PartialEq, Eq, Error)]
pub enum ScriptFault {
    /// The record whose first byte has this number, counted from 0, is wrong, or the script ends in it.
    #[error("bad script at byte {0}")]
    Bad(u64),
    /// The source failed.
    #[error("reading failed")]
    Read,
    /// The script has 2^40 bytes or more.
    #[error("the script is too long")]
    TooLong,
    /// There was not enough memory.
    #[error("out of memory")]
    OutOfMemory,
}

impl From<OutOfMemory> for ScriptFault {
    ghost from_gives = { λ _ fault. fault ≡ variant.OutOfMemory };

    fn from(_error: OutOfMemory) -> ScriptFault {
        ScriptFault::OutOfMemory
    }
}
