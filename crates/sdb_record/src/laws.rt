// Laws of the bytes of changes, each the contract of a function.
ghost use Rattle.sdb_record.specs.Laws.{ChangesAreAFormat, NoSpellingBeginsAnother, OneChangeIsAFormat};

/// No bytes of lawful changes are a proper front of others'; so bytes are those of at most one list.
pub fn no_spelling_begins_another()
    ensures { NoSpellingBeginsAnother }
{}

/// One change is read exactly: the lawful change whose bytes begin the list, Short where more bytes could make
/// one, Bad where none could.
pub fn one_change_is_a_format()
    ensures { OneChangeIsAFormat }
{}

/// Changes behind their number are read exactly.
pub fn changes_are_a_format()
    ensures { ChangesAreAFormat }
{}
