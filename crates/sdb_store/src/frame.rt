// The frame of the pending group: 12 bytes for the record's head, 4 for the number of changes, their bytes, and one byte
// for the next gate.
ghost use Rattle.std.specs.Prelude.{◌≡◌, ◌<◌, ◌≤◌, ◌+◌, ◌-◌, ◌^◌, ◌++◌, length, take, drop, IfOk, IsTrue, OnOk, OnErr, vec_len, vec_capacity};
ghost use Rattle.sdb_format.specs.Numbers.{be32};
ghost use Rattle.sdb_journal.specs.Appends.{body_of};
ghost use Rattle.sdb_store.specs.Frames.{entries_of};

use sdb_base::OutOfMemory;
use std::alloc::Global;

// The bytes of a frame without changes.
const LEAST: usize = 17;

// A frame without changes.
pub(crate) fn empty_frame(alloc: Global) -> Result<Vec<u8>, OutOfMemory>
    ensures { IfOk result (λ frame. length frame.items ≡ 17) }
{
    Ok(Vec::from_slice(alloc, &[0; LEAST])?)
}

// Takes every change out of the frame.
pub(crate) fn clear(frame: &mut Vec<u8>)
    requires { 17 ≤ length frame.old.items }
    ensures { length frame.new.items ≡ 17 }
{
    frame.truncate(LEAST);
}

// Makes room for so many bytes more, and leaves the frame as it is.
pub(crate) fn make_room(frame: &mut Vec<u8>, more: usize) -> Result<(), OutOfMemory>
    ensures same { frame.new.items ≡ frame.old.items }
    ensures room { OnOk result (vec_len frame.old + more ≤ vec_capacity frame.new) }
{
    frame.reserve(more)?;
    Ok(())
}

// The bytes of changes, behind the four of their number.
pub(crate) fn entries_in(bytes: &[u8]) -> &[u8]
    requires { 4 ≤ length bytes.now }
    ensures { result.now ≡ drop 4 bytes.now }
{
    let end = bytes.len();
    &bytes[4..end]
}

// Puts the bytes of more changes behind those that are there. It takes no memory.
pub(crate) fn put_entries(frame: &mut Vec<u8>, entries: &[u8])
    requires least { 17 ≤ length frame.old.items }
    requires room { vec_len frame.old + length entries.now ≤ vec_capacity frame.old }
    ensures entries { entries_of frame.new.items ≡ entries_of frame.old.items ++ entries.now }
    ensures size { length frame.new.items ≡ length frame.old.items + length entries.now }
{
    frame.truncate(frame.len() - 1);
    put(frame, entries);
    put(frame, &[0]);
}

// Puts bytes at the end, for which there is room.
fn put(frame: &mut Vec<u8>, bytes: &[u8])
    requires { vec_len frame.old + length bytes.now ≤ vec_capacity frame.old }
    ensures items { frame.new.items ≡ frame.old.items ++ bytes.now }
    ensures capacity { vec_capacity frame.old ≤ vec_capacity frame.new }
{
    let Ok(()) = frame.extend_from_slice(bytes) else {
        unreachable!();
    };
}

// Fills in the number of changes.
pub(crate) fn write_count(frame: &mut [u8], count: u32)
    requires { 17 ≤ length frame.old }
    ensures { body_of frame.new ≡ be32 count ++ entries_of frame.old }
{
    let bytes = [
        (count / 65536 / 256) as u8,
        (count / 65536 % 256) as u8,
        (count % 65536 / 256) as u8,
        (count % 65536 % 256) as u8,
    ];
    frame[12..16].copy_from_slice(&bytes);
}
