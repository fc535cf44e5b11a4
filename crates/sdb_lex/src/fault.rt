//! Why texts have no tokens.

ghost use Rattle.std.specs.Prelude.{◌≡◌};
ghost use Rattle.sdb_lex.specs.declared.fault.LexFault.TheVariants.{OutOfMemory as out_of_memory};

use thiserror::Error;

/// Why a text has no tokens. A place is counted in bytes from 0.
#[derive(Clone, Copy, Debug, PartialEq, Eq, Error)]
pub enum LexFault {
    #[error("the byte at {0} begins no token")]
    BadByte(u64),
    #[error("the text that begins at {0} isn't closed")]
    Unclosed(u64),
    #[error("out of memory")]
    OutOfMemory,
}

impl From<sdb_base::OutOfMemory> for LexFault {
    ghost from_gives = { λ _ e. e ≡ out_of_memory };

    fn from(_error: sdb_base::OutOfMemory) -> LexFault {
        LexFault::OutOfMemory
    }
}
