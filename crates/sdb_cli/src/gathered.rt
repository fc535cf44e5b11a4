// Answers that are gathered until they are written.
ghost use Rattle.std.specs.Prelude.{◌≡◌, ◌+◌, ◌≤◌, [], ◌∷◌, ◌++◌, length, OnOk, OnErr};
ghost use Rattle.sdb_cli.specs.Plain.{id_of};
ghost use Rattle.sdb_reply.specs.Faults.{refusal_text};

use sdb_base::{Bytes, OutOfMemory};
use sdb_reply::{RequestId, refusal_into};
use sdb_tables::Refusal;
use std::alloc::Global;
use std::marker::Model;

/// The room for a refusal and the LF after it.
pub(crate) const REFUSAL_ROOM: usize = 1_025;

/// Bytes in order, and room that is known to stand behind them.
#[derive(Debug, Drop)]
pub(crate) struct Gathered {
    alloc: Global,
    text: Bytes,
    room: usize,
}

impl Model for Gathered {
    ghost use Rattle.std.specs.Prelude.{◌≤◌};
    ghost use Rattle.sdb_base.specs.Buffer.{Buffer};

    ghost Value = { Buffer };

    ghost view = { λ it. record { bytes = it.text.bytes; spare = it.room } };

    ghost invariant = { λ it. it.room ≤ it.text.spare };
}

impl Gathered {
    /// No bytes. It takes no memory, and later calls use this allocator.
    pub(crate) fn new(alloc: Global) -> Gathered
        ensures { result.bytes ≡ [] }
    {
        Gathered {
            alloc,
            text: Bytes::new(alloc),
            room: 0,
        }
    }

    pub(crate) fn as_slice(&self) -> &[u8]
        ensures { result.now ≡ self.now.bytes }
    {
        self.text.as_slice()
    }

    /// Makes sure of room for so many bytes. It copies at most as often as the bytes double.
    pub(crate) fn make_room(&mut self, room: usize) -> Result<(), OutOfMemory>
        ensures bytes { self.new.bytes ≡ self.old.bytes }
        ensures ok { OnOk result (room ≤ self.new.spare) }
        ensures err { OnErr result (self.new ≡ self.old) }
    {
        if room <= self.room {
            return Ok(());
        }
        let used = self.text.len();
        let Some(least) = used.checked_add(room) else {
            return Err(OutOfMemory);
        };
        let size = least.max(used.saturating_mul(2));
        let mut wider = Bytes::with_room(self.alloc, size)?;
        wider.append(self.text.as_slice())?;
        self.text = wider;
        self.room = size - used;
        Ok(())
    }

    /// Puts bytes at the end, for which there is room.
    pub(crate) fn push(&mut self, text: &[u8])
        requires { length text.now ≤ self.old.spare }
        ensures bytes { self.new.bytes ≡ self.old.bytes ++ text.now }
        ensures spare { self.new.spare + length text.now ≡ self.old.spare }
    {
        self.text.append(text).unwrap();
        self.room -= text.len();
    }

    /// Puts the refusal of a line at the end, and an LF. It takes no memory.
    pub(crate) fn refuse(&mut self, refusal: &Refusal, number: u64)
        requires { 1025 ≤ self.old.spare }
        ensures { self.new.bytes ≡ self.old.bytes ++ (refusal_text refusal.now (id_of number) ++ 10 ∷ []) }
    {
        refusal_into(&mut self.text, refusal, &line_id(number));
        self.text.append(b"\n").unwrap();
        self.room -= REFUSAL_ROOM;
    }
}

/// The id of a line.
pub(crate) fn line_id(number: u64) -> RequestId
    ensures { result ≡ id_of number }
{
    RequestId { conn: 0, number }
}
