//! The law of the keys file.

ghost use Rattle.std.specs.Prelude.{◌≡◌, ℕ, List};
ghost use Rattle.sdb_keys.specs.declared.keys.Key.{Key};
ghost use Rattle.sdb_keys.specs.File.{SpellsKey};

/// A line spells at most one key.
pub fn one_key()
    ensures { (line : List ℕ) (a b : Key) → SpellsKey line a → SpellsKey line b → a ≡ b }
{}
