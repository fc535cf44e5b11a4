// Parameters: names with values, no name twice.
ghost use Rattle.std.specs.Prelude.{◌≡◌, ◌<◌, [], ◌∷◌, ◌++◌, length, slice_get, Some, None, OnOk, OnErr};
ghost use Rattle.std.specs.Option.{option_copied};
ghost use Rattle.std.specs.List.{find};
ghost use Rattle.std.specs.Str.{bytes_eq};
ghost use Rattle.sdb_base.specs.Pairs.{HasDistinctNames, value_of};

use crate::{OutOfMemory, Text};
use std::alloc::Global;
use std::marker::Model;

/// The parameters of a request: names, each once, with their values, in the order that they came.
#[derive(Debug, Drop)]
pub struct Params {
    pairs: Vec<(Text, Text)>,
}

impl Model for Params {
    ghost use Rattle.std.specs.Prelude.{List, ℕ};
    ghost use Rattle.sdb_base.specs.Pairs.{HasDistinctNames};

    ghost Value = { List (List ℕ × List ℕ) };

    ghost view = { λ it. it.pairs.items };

    ghost invariant = { λ it. HasDistinctNames it.pairs.items };
}

impl Params {
    /// No parameters. It takes no memory, and later calls use this allocator.
    pub fn new(alloc: Global) -> Params
        ensures { result ≡ [] }
    {
        Params {
            pairs: Vec::new(alloc),
        }
    }

    /// Takes pairs of which no two have one name.
    pub fn of(pairs: Vec<(Text, Text)>) -> Params
        requires { HasDistinctNames pairs.items }
        ensures { result ≡ pairs.items }
    {
        Params { pairs }
    }

    /// The number of parameters.
    pub fn len(&self) -> usize
        ensures count { result ≡ length self.now }
        ensures distinct { HasDistinctNames self.now }
    {
        self.pairs.len()
    }

    /// Names and values, in the order that they came.
    pub fn as_slice(&self) -> &[(Text, Text)]
        ensures { result.now ≡ self.now }
    {
        self.pairs.as_slice()
    }

    /// The value of the parameter of that name.
    pub fn get(&self, name: &str) -> Option<&Text>
        ensures { option_copied result ≡ value_of self.now name.now }
    {
        let pair = self.find(name)?;
        Some(&pair.1)
    }

    fn find(&self, name: &str) -> Option<&(Text, Text)>
        ensures { option_copied result ≡ find (λ pair. bytes_eq name.now pair.0) self.now }
    {
        self.pairs.iter().find(|pair| name == pair.0.as_str())
    }

    /// Name and value of the parameter at `place`, counted from 0.
    pub fn at(&self, place: usize) -> (&Text, &Text)
        requires { place < length self.now }
        ensures { slice_get self.now place ≡ Some (result.0.now, result.1.now) }
    {
        let pair = &self.pairs[place];
        (&pair.0, &pair.1)
    }

    /// Puts a parameter at the end; no parameter has its name yet.
    pub fn add(&mut self, name: Text, value: Text) -> Result<(), OutOfMemory>
        requires { value_of self.old name ≡ None }
        ensures ok { OnOk result (self.new ≡ self.old ++ (name, value) ∷ []) }
        ensures err { OnErr result (self.new ≡ self.old) }
    {
        self.pairs.push((name, value))?;
        Ok(())
    }
}
