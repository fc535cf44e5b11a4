// Laws of formats, each the contract of a function.
ghost use Rattle.sdb_format.specs.Laws.{LettersAreAFormat, NumbersAreFormats, TextsAreAFormat};

/// Numbers of one, two and four bytes are read exactly: the number whose bytes begin the list, Short where more
/// bytes could make one within the limits, Bad where none could.
pub fn numbers_are_formats()
    ensures { NumbersAreFormats }
{}

/// Texts of a known number of bytes are read exactly.
pub fn letters_are_a_format()
    ensures { LettersAreAFormat }
{}

/// Texts behind their length are read exactly.
pub fn texts_are_a_format()
    ensures { TextsAreAFormat }
{}
