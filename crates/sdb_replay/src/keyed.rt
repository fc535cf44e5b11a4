// The keys that a source gives.
ghost use Rattle.std.specs.Prelude.{◌≡◌, ◌+◌, ◌<◌, ◌≤◌, ℕ, List, length, take, IfOk, IfErr, OnErr, Err};
ghost use Rattle.std.specs.Io.KnownBytes.{Consumes};
ghost use Rattle.sdb_base.specs.Causes.{HasCause, Rose};
ghost use Rattle.sdb_keys.specs.File.{AreRight, file_lines};
ghost use Rattle.sdb_replay.specs.Keyed.{Fills, GivesKeys, GivesNone, IsRefusedAs, most_keys};

use sdb_io::{Failed, Source};
use sdb_keys::{KeyFault, Keys, read_keys};
use sdb_status::Status;
use std::alloc::Global;

// A keys file has at most so many bytes.
const MOST_KEYS: usize = 65_536;

/// The keys of the keys file that the source gives. It has at most 65,536 bytes.
///
/// # Errors
///
/// `ReadFault` where the source failed; `InputTooLong` where it gave more bytes; `BadKeys` with the number of
/// the first wrong line; `OutOfMemory`.
pub fn keys_of<S: Source>(alloc: Global, source: &mut S) -> Result<Keys, Status>
    ensures keys { IfOk result (λ keys. GivesKeys (S.left source.old) (S.left source.new) keys) }
    ensures none { IfErr result (λ found. GivesNone found (S.left source.old) (S.left source.new)) }
    ensures read { result ≡ Err Status.ReadFault → Rose (S.faults source.old) (S.faults source.new) }
    ensures later { S.faults source.old ≤ S.faults source.new }
{
    let Ok(mut buffer) = vec![in alloc; 0; MOST_KEYS + 1] else {
        return Err(Status::OutOfMemory);
    };
    keys_through(alloc, source, &mut buffer)
}

// The same through a buffer of one byte more than keys files have.
fn keys_through<S: Source>(alloc: Global, source: &mut S, buffer: &mut [u8]) -> Result<Keys, Status>
    requires { length buffer.old ≡ most_keys + 1 }
    ensures keys { IfOk result (λ keys. GivesKeys (S.left source.old) (S.left source.new) keys) }
    ensures none { IfErr result (λ found. GivesNone found (S.left source.old) (S.left source.new)) }
    ensures read { result ≡ Err Status.ReadFault → Rose (S.faults source.old) (S.faults source.new) }
    ensures later { S.faults source.old ≤ S.faults source.new }
{
    let Ok(count) = fill(source, buffer) else {
        return Err(Status::ReadFault);
    };
    if count > MOST_KEYS {
        return Err(Status::InputTooLong);
    }
    keys_in(alloc, &buffer[..count])
}

// The keys of a keys file.
fn keys_in(alloc: Global, text: &[u8]) -> Result<Keys, Status>
    ensures keys { IfOk result (λ keys. AreRight (file_lines text.now) keys) }
    ensures none { IfErr result (λ found. IsRefusedAs found (file_lines text.now)) }
{
    match read_keys(alloc, text) {
        Ok(keys) => Ok(keys),
        Err(KeyFault::OutOfMemory) => Err(Status::OutOfMemory),
        Err(KeyFault::BadLine(line)) => Err(Status::BadKeys(line)),
        Err(KeyFault::Doubled(line)) => Err(Status::BadKeys(line)),
        Err(KeyFault::TooMany(line)) => Err(Status::BadKeys(line)),
    }
}

// Reads until the buffer is full or the source is at its end, and gives the number of bytes.
fn fill<S: Source>(source: &mut S, buffer: &mut [u8]) -> Result<usize, Failed>
    ensures filled { IfOk result (λ count. Fills (length buffer.old) (S.left source.old) (S.left source.new) count (take count buffer.new)) }
    ensures failed { OnErr result ((given : List ℕ) × Consumes (S.left source.old) (S.left source.new) given × (length given < length buffer.old)) }
    ensures cause { HasCause (S.faults source.old) (S.faults source.new) result }
{
    let mut filled = 0;
    while filled < buffer.len() {
        let count = source.read(&mut buffer[filled..])?;
        if count == 0 {
            return Ok(filled);
        }
        filled += count;
    }
    Ok(filled)
}
