// Why bytes of changes are refused.
ghost use Rattle.std.specs.Prelude.{◌≡◌};
ghost use Rattle.sdb_format.specs.declared.fault.FormatFault.TheVariants.{Short as ends_early, Bad as is_wrong};
ghost use Rattle.sdb_record.specs.declared.fault.RecordFault.TheVariants.{Short as short, Bad as bad, OutOfMemory as out_of_memory};

use sdb_format::FormatFault;
use thiserror::Error;

/// Why bytes don't begin with changes.
#[derive(Clone, Copy, Debug, PartialEq, Eq, Error)]
pub enum RecordFault {
    /// They end too early: more bytes could make changes of them.
    #[error("the bytes end before the changes do")]
    Short,
    /// No bytes after them could make changes of them.
    #[error("the bytes are no changes")]
    Bad,
    #[error("out of memory")]
    OutOfMemory,
}

impl From<FormatFault> for RecordFault {
    ghost from_gives = { λ f e. ((e ≡ short) → (f ≡ ends_early)) × ((e ≡ bad) → (f ≡ is_wrong)) };

    fn from(fault: FormatFault) -> RecordFault {
        match fault {
            FormatFault::Short => RecordFault::Short,
            FormatFault::Bad => RecordFault::Bad,
        }
    }
}

impl From<sdb_base::OutOfMemory> for RecordFault {
    ghost from_gives = { λ _ e. e ≡ out_of_memory };

    fn from(_error: sdb_base::OutOfMemory) -> RecordFault {
        RecordFault::OutOfMemory
    }
}
