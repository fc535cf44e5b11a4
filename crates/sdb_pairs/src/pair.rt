// A name with a value.
ghost use Rattle.std.specs.Prelude.{◌≡◌, IfOk};

use sdb_base::{OutOfMemory, Text};
use std::alloc::Global;

/// One value of one attribute. Pairs are ordered by name and then by value, each by its bytes.
#[derive(Debug, Drop, PartialEq, Eq, PartialOrd, Ord)]
pub struct Pair {
    pub name: Text,
    pub value: Text,
}

impl Pair {
    /// A second pair of the same texts.
    pub fn copy(&self, alloc: Global) -> Result<Pair, OutOfMemory>
        ensures { IfOk result (λ copied. copied ≡ self.now) }
    {
        let name = self.name.copy(alloc)?;
        let value = self.value.copy(alloc)?;
        Ok(Pair { name, value })
    }
}
