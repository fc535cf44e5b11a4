// Where bytes go.
ghost use Rattle.std.specs.Prelude.{◌<◌, ◌≤◌, ℕ, List, length, take, OnOk, IfOk};
ghost use Rattle.std.specs.declared.option.Option.{Option};
ghost use Rattle.std.specs.Io.{WritesAtMost};
ghost use Rattle.std.specs.Io.KnownBytes.{Appends, WriteAppends};
ghost use Rattle.sdb_base.specs.Causes.{HasCause};

use crate::Failed;

mod memory;
mod stream;

pub use memory::MemorySink;
pub use stream::WriteSink;

/// A stream of bytes that is written at its end.
pub trait Sink {
    /// The bytes written so far, or `None` where that isn't known.
    ghost written: { Self → Option (List ℕ) };

    /// How often the sink has failed. A count that has reached 2^64 - 1 counts as risen.
    ghost faults: { Self → ℕ };

    /// Takes bytes from the front of the piece, at least one, and gives their number. After `Failed`
    /// the bytes written are as before.
    fn write(&mut self, bytes: &[u8]) -> Result<usize, Failed>
        requires { 0 < length bytes.now }
        ensures bound { WritesAtMost result bytes.now }
        ensures some { IfOk result (λ n. 0 < n) }
        ensures bytes { WriteAppends (written self.old) (written self.new) result bytes.now }
        ensures cause { HasCause (faults self.old) (faults self.new) result };
}

/// Writes all the bytes, in as many writes as the sink takes. After `Failed` a front of them is written.
pub fn write_whole<K: Sink>(sink: &mut K, bytes: &[u8]) -> Result<(), Failed>
    ensures whole { OnOk result (Appends (K.written sink.old) (K.written sink.new) bytes.now) }
    ensures front { (n : ℕ) × (n ≤ length bytes.now) × Appends (K.written sink.old) (K.written sink.new) (take n bytes.now) }
    ensures cause { HasCause (K.faults sink.old) (K.faults sink.new) result }
{
    let mut rest = bytes;
    while !rest.is_empty() {
        let count = sink.write(rest)?;
        rest = &rest[count..];
    }
    Ok(())
}
