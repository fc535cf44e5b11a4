// Patterns of `like`.
ghost use Rattle.std.specs.Prelude.{◌≡◌};

use sdb_base::Text;
use std::marker::Model;

/// A pattern of `like`, which contracts see as its text.
#[derive(Debug, Drop)]
pub struct Pattern {
    text: Text,
}

impl Model for Pattern {
    ghost use Rattle.std.specs.Prelude.{List, ℕ};

    ghost Value = { List ℕ };

    ghost view = { λ it. it.text };
}

impl Pattern {
    /// The pattern with that text. It takes no memory.
    pub fn new(text: Text) -> Pattern
        ensures { result ≡ text }
    {
        Pattern { text }
    }

    /// The text of the pattern, escapes and all.
    pub fn text(&self) -> &Text
        ensures { result.now ≡ self.now }
    {
        &self.text
    }
}
