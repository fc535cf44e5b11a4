// The lines of an input, answered one after the other.
ghost use Rattle.std.specs.Prelude.{◌≡◌, ◌+◌, ◌-◌, ◌^◌, ◌<◌, ◌≤◌, length, IfOk, IfErr, Err};
ghost use Rattle.std.specs.Io.KnownBytes.{IsAtEnd};
ghost use Rattle.sdb_base.specs.Causes.{Rose};
ghost use Rattle.sdb_cli.specs.Lines.{IsOneLine};
ghost use Rattle.sdb_cli.specs.Plain.{beginning};
ghost use Rattle.sdb_cli.specs.Runs.{Ends, Going, Stops, Finishes};
ghost use Rattle.sdb_cli.specs.Standing.{standing};

use crate::gathered::Gathered;
use crate::session::Session;
use sdb_io::{Sink, Source, write_whole};
use sdb_status::Status;
use std::alloc::Global;

// How many bytes are read at most at a time.
const PIECE: usize = 65_536;

/// Answers the lines of the input for an account without domains, until it ends or has given `limit`
/// bytes. Before each further read the answers so far are written.
pub(crate) fn bare<T: Source, K: Sink>(
    alloc: Global,
    limit: u64,
    input: &mut T,
    output: &mut K,
) -> Status
    requires { limit < 2 ^ 63 }
    ensures ends { Ends result limit beginning (T.left input.old) (T.left input.new) (K.written output.old) (K.written output.new) }
    ensures read { result ≡ Status.ReadFault → Rose (T.faults input.old) (T.faults input.new) }
    ensures write { result ≡ Status.WriteFault → Rose (K.faults output.old) (K.faults output.new) }
{
    let Ok(mut buffer) = vec![in alloc; 0; PIECE] else {
        return Status::OutOfMemory;
    };
    let mut session = Session::new(alloc);
    answer_input(alloc, &mut session, &mut buffer, limit, input, output)
}

fn answer_input<T: Source, K: Sink>(
    alloc: Global,
    session: &mut Session,
    buffer: &mut [u8],
    limit: u64,
    input: &mut T,
    output: &mut K,
) -> Status
    requires room { 0 < length buffer.old }
    requires numbered { session.old.number + limit + 1 < 2 ^ 64 }
    requires held { IsOneLine session.old.held }
    ensures ends { Ends result limit (standing session.old) (T.left input.old) (T.left input.new) (K.written output.old) (K.written output.new) }
    ensures read { result ≡ Status.ReadFault → Rose (T.faults input.old) (T.faults input.new) }
    ensures write { result ≡ Status.WriteFault → Rose (K.faults output.old) (K.faults output.new) }
{
    let mut taken: u64 = 0;
    while taken < limit {
        let room = buffer.len().min((limit - taken) as usize);
        match turn(alloc, session, &mut buffer[..room], input, output) {
            Ok(0) => return finish(alloc, session, output),
            Ok(count) => taken += count as u64,
            Err(status) => return status,
        }
    }
    Status::InputTooLong
}

// Reads once, and writes the answers to the lines that end in what came.
fn turn<T: Source, K: Sink>(
    alloc: Global,
    session: &mut Session,
    buffer: &mut [u8],
    input: &mut T,
    output: &mut K,
) -> Result<usize, Status>
    requires room { 0 < length buffer.old }
    requires numbered { session.old.number + length buffer.old < 2 ^ 64 }
    requires held { IsOneLine session.old.held }
    ensures going { IfOk result (λ count. (count ≤ length buffer.old)
        × Going (standing session.old) (standing session.new) (T.left input.old) (T.left input.new) (K.written output.old) (K.written output.new) count
        × (count ≡ 0 → IsAtEnd (T.left input.new))) }
    ensures stops { IfErr result (λ status. Stops status (length buffer.old) (standing session.old) (T.left input.old) (T.left input.new) (K.written output.old) (K.written output.new)) }
    ensures read { result ≡ Err Status.ReadFault → Rose (T.faults input.old) (T.faults input.new) }
    ensures write { result ≡ Err Status.WriteFault → Rose (K.faults output.old) (K.faults output.new) }
    ensures later_read { T.faults input.old ≤ T.faults input.new }
    ensures later_write { K.faults output.old ≤ K.faults output.new }
{
    let Ok(count) = input.read(buffer) else {
        return Err(Status::ReadFault);
    };
    let mut out = Gathered::new(alloc);
    let Ok(()) = session.feed(&buffer[..count], &mut out) else {
        return Err(Status::OutOfMemory);
    };
    let Ok(()) = write_whole(output, out.as_slice()) else {
        return Err(Status::WriteFault);
    };
    Ok(count)
}

// Writes the answer to the last line, where the input ended in it.
fn finish<K: Sink>(alloc: Global, session: &mut Session, output: &mut K) -> Status
    requires numbered { session.old.number < 2 ^ 64 - 1 }
    requires held { IsOneLine session.old.held }
    ensures finishes { Finishes result (standing session.old) (K.written output.old) (K.written output.new) }
    ensures write { result ≡ Status.WriteFault → Rose (K.faults output.old) (K.faults output.new) }
{
    let mut out = Gathered::new(alloc);
    let Ok(()) = session.finish(&mut out) else {
        return Status::OutOfMemory;
    };
    let Ok(()) = write_whole(output, out.as_slice()) else {
        return Status::WriteFault;
    };
    Status::Done
}
