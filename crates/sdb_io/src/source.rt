// Where bytes come from.
ghost use Rattle.std.specs.Prelude.{◌<◌, ℕ, List, length};
ghost use Rattle.std.specs.declared.option.Option.{Option};
ghost use Rattle.std.specs.Io.{ReadsAtMost};
ghost use Rattle.std.specs.Io.KnownBytes.{ReadConsumes};
ghost use Rattle.sdb_base.specs.Causes.{HasCause};

use crate::Failed;

mod memory;
mod stream;

pub use memory::MemorySource;
pub(crate) use memory::copy_front;
pub use stream::ReadSource;

/// A stream of bytes that is read from its front.
pub trait Source {
    /// The bytes still to come, or `None` where that isn't known.
    ghost left: { Self → Option (List ℕ) };

    /// How often the source has failed. A count that has reached 2^64 - 1 counts as risen.
    ghost faults: { Self → ℕ };

    /// Puts the next bytes at the front of the buffer and gives their number. `Ok(0)` is the end of
    /// the input, and comes nowhere else. After `Failed` the bytes to come are as before.
    fn read(&mut self, buf: &mut [u8]) -> Result<usize, Failed>
        requires { 0 < length buf.old }
        ensures bound { ReadsAtMost result buf.new }
        ensures bytes { ReadConsumes (left self.old) (left self.new) result buf.new }
        ensures cause { HasCause (faults self.old) (faults self.new) result };
}
