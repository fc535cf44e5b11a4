//! Why keys files are refused.

ghost use Rattle.std.specs.Prelude.{◌≡◌};
ghost use Rattle.sdb_keys.specs.declared.fault.KeyFault.TheVariants as variant;

use sdb_base::OutOfMemory;
use std::alloc::AllocFailed;
use thiserror::Error;

/// Why a keys file is refused, with the number of its first wrong line, counted from 1.
#[derive(Clone, Copy, Debug, PartialEq, Eq, Error)]
pub enum KeyFault {
    /// The line isn't an account, a key id and a secret.
    #[error("line {0}: not an account number from 1 to 16, a key id and a secret")]
    BadLine(u64),
    /// An earlier line has the key id.
    #[error("line {0}: the key id stands on an earlier line")]
    Doubled(u64),
    /// 64 keys stand before the line.
    #[error("line {0}: more than 64 keys")]
    TooMany(u64),
    /// No memory was left.
    #[error("out of memory")]
    OutOfMemory,
}

impl From<OutOfMemory> for KeyFault {
    ghost from_gives = { λ _ fault. fault ≡ variant.OutOfMemory };

    fn from(_error: OutOfMemory) -> KeyFault {
        KeyFault::OutOfMemory
    }
}

impl<T: Drop> From<AllocFailed<T>> for KeyFault {
    ghost from_gives = { λ _ fault. fault ≡ variant.OutOfMemory };

    fn from(_error: AllocFailed<T>) -> KeyFault {
        KeyFault::OutOfMemory
    }
}
