//! The law of tokens.

ghost use Rattle.sdb_lex.specs.Tokens.{OneCutting};

/// A text is cut in one way: into the same tokens, or with the same fault at the same place.
pub fn one_cutting()
    ensures { OneCutting }
{}
