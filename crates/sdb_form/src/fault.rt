// Why a form is refused.
ghost use Rattle.std.specs.Prelude.{◌≡◌};
ghost use Rattle.sdb_form.specs.declared.fault.FormFault.TheVariants as variant;

use sdb_base::OutOfMemory;
use std::alloc::AllocFailed;
use thiserror::Error;

/// Why a form gives no parameters. Pieces are counted from 0, and empty ones aren't counted.
#[derive(Clone, Copy, Debug, PartialEq, Eq, Error)]
pub enum FormFault {
    /// The first piece whose decoded name or value isn't UTF-8.
    #[error("piece {0} isn't UTF-8")]
    NotUtf8(u64),
    /// The first piece whose name stands in an earlier piece.
    #[error("piece {0} repeats a name")]
    Repeated(u64),
    /// No memory was left.
    #[error("out of memory")]
    OutOfMemory,
}

impl From<OutOfMemory> for FormFault {
    ghost from_gives = { λ _ fault. fault ≡ variant.OutOfMemory };

    fn from(_error: OutOfMemory) -> FormFault {
        FormFault::OutOfMemory
    }
}

impl<T: Drop> From<AllocFailed<T>> for FormFault {
    ghost from_gives = { λ _ fault. fault ≡ variant.OutOfMemory };

    fn from(_error: AllocFailed<T>) -> FormFault {
        FormFault::OutOfMemory
    }
}
