// A frame: 12 bytes for a record's length and number, its body, and one byte for the next gate.
ghost use Rattle.std.specs.Prelude.{◌≡◌, ◌<◌, ◌≤◌, ◌+◌, ◌^◌, [], ◌∷◌, ◌++◌, length};
ghost use Rattle.sdb_record.specs.Journals.{entry};
ghost use Rattle.sdb_journal.specs.Appends.{body_of};

use crate::numbers::record_head;

// Fills in the body's length, the record's number, and a closed gate.
pub(crate) fn fill(frame: &mut [u8], number: u64)
    requires least { 13 ≤ length frame.old }
    requires most { length frame.old < 2 ^ 32 + 13 }
    ensures { frame.new ≡ entry number (body_of frame.old) ++ 0 ∷ [] }
{
    let size = frame.len() - 13;
    let end = frame.len() - 1;
    frame[end] = 0;
    frame[..12].copy_from_slice(&record_head(size as u32, number));
}
