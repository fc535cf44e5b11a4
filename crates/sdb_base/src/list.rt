// Lists.
ghost use Rattle.std.specs.Prelude.{◌≡◌, ◌<◌, List as Items, [], ◌∷◌, ◌++◌, length, slice_get, Some, OnOk, OnErr, IsTrue, ◌↔◌};

use crate::{OutOfMemory, Text};
use std::alloc::Global;
use std::marker::Model;

/// A growing list, which contracts see as the list of its members.
#[derive(Debug, Drop)]
pub struct List<T> {
    inner: Vec<T>,
}

/// Texts in order.
pub type Texts = List<Text>;

/// The words of a command line.
pub type Words = Texts;

/// Numbers in order.
pub type Numbers = List<u64>;

impl<T> Model for List<T> {
    ghost use Rattle.std.specs.Prelude.{List};
    ghost use Rattle.std.specs.Coded.{coded_list};

    ghost Value = { List T };

    ghost coded = { coded_list T.code };

    ghost view = { λ it. it.inner.items };
}

impl<T> List<T> {
    /// The empty list. It takes no memory, and later calls use this allocator.
    pub fn new(alloc: Global) -> List<T>
        ensures { result ≡ [] }
    {
        List {
            inner: Vec::new(alloc),
        }
    }

    /// The number of members.
    pub fn len(&self) -> usize
        ensures { result ≡ length self.now }
    {
        self.inner.len()
    }

    /// Whether there is no member.
    pub fn is_empty(&self) -> bool
        ensures { IsTrue result ↔ (self.now ≡ []) }
    {
        self.inner.is_empty()
    }

    /// The member at `place`, counted from 0.
    pub fn at(&self, place: usize) -> &T
        requires { place < length self.now }
        ensures { slice_get self.now place ≡ Some result.now }
    {
        &self.inner[place]
    }

    /// The members in their order.
    pub fn as_slice(&self) -> &[T]
        ensures { result.now ≡ self.now }
    {
        self.inner.as_slice()
    }
}

impl<T: Drop> List<T> {
    /// Puts a member at the end.
    pub fn push(&mut self, member: T) -> Result<(), OutOfMemory>
        ensures ok { OnOk result (self.new ≡ self.old ++ member ∷ []) }
        ensures err { OnErr result (self.new ≡ self.old) }
    {
        self.inner.push(member)?;
        Ok(())
    }

    /// Puts the members of `other` at the end, and leaves `other` empty. Without memory for them both
    /// lists stay.
    pub fn append(&mut self, other: &mut List<T>) -> Result<(), OutOfMemory>
        ensures ok { OnOk result (self.new ≡ self.old ++ other.old) }
        ensures empty { OnOk result (other.new ≡ []) }
        ensures err { OnErr result (self.new ≡ self.old) }
        ensures kept { OnErr result (other.new ≡ other.old) }
    {
        self.inner.append(&mut other.inner)?;
        Ok(())
    }
}
