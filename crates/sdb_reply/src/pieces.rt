// Pieces of bytes, joined one after the other.
ghost use Rattle.std.specs.Prelude.{◌≡◌, ◌+◌, ◌≤◌, ◌++◌, length, IsOk, OnOk};
ghost use Rattle.sdb_reply.specs.Pieces.{joined};

use sdb_base::{Bytes, OutOfMemory};

// Appends the pieces, one after the other. Where there is room for all it takes no memory.
pub(crate) fn append_all(out: &mut Bytes, pieces: &[&[u8]]) -> Result<(), OutOfMemory>
    ensures ok { OnOk result (out.new.bytes ≡ out.old.bytes ++ joined pieces.now) }
    ensures room { length (joined pieces.now) ≤ out.old.spare → IsOk result }
    ensures spare { OnOk result (out.old.spare ≤ out.new.spare + length (joined pieces.now)) }
{
    for piece in pieces {
        out.append(piece)?;
    }
    Ok(())
}
