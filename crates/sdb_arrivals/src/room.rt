//! The room of a fault's answer.

ghost use Rattle.std.specs.Prelude.{◌≡◌};
ghost use Rattle.sdb_reply.specs.Faults.{fault_text};

use sdb_base::{Bytes, OutOfMemory};
use sdb_reply::{RequestId, fault_into};
use sdb_tables::Refusal;
use std::alloc::Global;
use std::marker::Model;

// The answer of a fault has at most so many bytes.
pub(crate) const FAULT_ROOM: usize = 1_024;

/// Bytes with room for the answer of a fault, so that it can be written where no memory is left.
#[derive(Debug, Drop)]
pub struct Room {
    bytes: Bytes,
}

impl Model for Room {
    ghost use Rattle.std.specs.Prelude.{◌≡◌, ◌≤◌, []};
    ghost use Rattle.sdb_base.specs.Buffer.{Buffer};

    ghost Value = { Buffer };

    ghost view = { λ it. it.bytes };

    ghost invariant = { λ it. (it.bytes.bytes ≡ []) × (1024 ≤ it.bytes.spare) };
}

impl Room {
    pub(crate) fn new(alloc: Global) -> Result<Room, OutOfMemory> {
        Ok(Room {
            bytes: Bytes::with_room(alloc, FAULT_ROOM)?,
        })
    }

    // The response to a refused request. It takes no memory.
    pub(crate) fn into_refusal(self, refusal: &Refusal, id: &RequestId, close: bool) -> Bytes
        ensures { result.bytes ≡ fault_text refusal.now id.now close }
    {
        let mut bytes = self.bytes;
        fault_into(&mut bytes, refusal, id, close);
        bytes
    }
}
