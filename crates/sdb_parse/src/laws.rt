// Laws of the grammar, each the contract of a function.
ghost use Rattle.std.specs.Prelude.{List, ℕ};
ghost use Rattle.sdb_parse.specs.Computed.{parsed};
ghost use Rattle.sdb_parse.specs.Parsed.{OneAnswer, OneTree, Parsed};
ghost use Rattle.sdb_parse.specs.Printed.{PrintedIsRead, PrintedSpells};

/// A text has one answer: one tree, or one refusal.
pub fn one_answer()
    ensures { OneAnswer }
{}

/// A text spells at most one Select expression.
pub fn one_tree()
    ensures { OneTree }
{}

/// The printed form of a tree that some text is answered by spells that tree.
pub fn printed_spells()
    ensures { PrintedSpells }
{}

/// The printed form of a tree that some text is answered by is answered by it, where it has at most 65,536
/// bytes.
pub fn printed_is_read()
    ensures { PrintedIsRead }
{}

/// What is computed of a text is what it is answered: the tree that it spells, or its first refusal.
pub fn computed_is_answered()
    ensures { (text : List ℕ) → Parsed text (parsed text) }
{}
