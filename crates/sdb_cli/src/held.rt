// The line that hasn't ended.
ghost use Rattle.std.specs.Prelude.{◌≡◌, ◌<◌, ◌≤◌, ◌↔◌, [], ◌++◌, length, IsTrue, OnOk, MatchOption};
ghost use Rattle.sdb_cli.specs.Lines.{Alike, IsOneLine, most_line};

use sdb_base::OutOfMemory;
use std::alloc::Global;
use std::marker::Model;

/// A line of more bytes than this is too long.
pub(crate) const MOST_LINE: usize = 1_048_576;

/// What has come of a line that hasn't ended. The bytes of a line that is too long aren't kept.
#[derive(Debug, Drop)]
pub(crate) struct HeldLine {
    bytes: Vec<u8>,
    is_long: bool,
}

impl Model for HeldLine {
    ghost use Rattle.std.specs.Prelude.{List, ℕ, ◌≤◌, length, if◌then◌else◌};
    ghost use Rattle.sdb_cli.specs.Lines.{long_line, most_line};

    ghost Value = { List ℕ };

    ghost view = { λ it. if it.is_long then long_line else it.bytes.items };

    ghost invariant = { λ it. length it.bytes.items ≤ most_line };
}

impl HeldLine {
    /// Nothing has come. It takes no memory, and later calls use this allocator.
    pub(crate) fn new(alloc: Global) -> HeldLine
        ensures { result ≡ [] }
    {
        HeldLine {
            bytes: Vec::new(alloc),
            is_long: false,
        }
    }

    pub(crate) fn is_empty(&self) -> bool
        ensures { IsTrue result ↔ (self.now ≡ []) }
    {
        !self.is_long && self.bytes.is_empty()
    }

    /// The line, where it isn't too long.
    pub(crate) fn line(&self) -> Option<&[u8]>
        ensures { MatchOption result (most_line < length self.now) (λ line. (line.now ≡ self.now) × (length line.now ≤ most_line)) }
    {
        if self.is_long {
            return None;
        }
        Some(self.bytes.as_slice())
    }

    /// Takes what more came of the line.
    pub(crate) fn extend(&mut self, more: &[u8]) -> Result<(), OutOfMemory>
        ensures alike { OnOk result (Alike self.new (self.old ++ more.now)) }
        ensures one_line { IsOneLine self.old → IsOneLine more.now → OnOk result (IsOneLine self.new) }
    {
        if self.is_long {
            return Ok(());
        }
        if more.len() > MOST_LINE - self.bytes.len() {
            self.bytes.clear();
            self.is_long = true;
            return Ok(());
        }
        self.bytes.extend_from_slice(more)?;
        Ok(())
    }

    /// Begins a new line.
    pub(crate) fn clear(&mut self)
        ensures { self.new ≡ [] }
    {
        self.bytes.clear();
        self.is_long = false;
    }
}
