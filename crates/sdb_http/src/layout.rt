//! The parts of a lawful head, as places in its bytes.

use httparse::spans::Span;
use sdb_base::Verb;

// What a lawful head asks for, as places in its bytes.
#[derive(Clone, Copy, Debug)]
pub(crate) struct Layout {
    pub verb: Verb,
    pub host: Span,
    // The bytes after `/?`, or none.
    pub query: Span,
    // How many bytes the body has.
    pub length: usize,
    // Whether the connection is closed after the answer.
    pub close: bool,
}

// How often a name stands among the header lines, and its value where it stands once.
#[derive(Clone, Copy, Debug)]
pub(crate) enum Values {
    Absent,
    Once(Span),
    Twice,
}

// The header lines that rules look at, as one walk over all of them finds them.
#[derive(Clone, Copy, Debug)]
pub(crate) struct Wanted {
    pub transfer_encoding: Values,
    pub content_length: Values,
    pub host: Values,
    // Whether a Connection header asks for the connection to be closed.
    pub close: bool,
}
