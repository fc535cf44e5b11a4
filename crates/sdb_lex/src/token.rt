//! Tokens.

use sdb_base::List;

/// What a token is.
#[derive(Clone, Copy, Debug, PartialEq, Eq)]
pub enum Kind {
    /// ASCII letters, digits, `_` and `$`, not beginning with a digit.
    Word,
    /// A name between backticks.
    Ticked,
    /// A text between `'` or between `"`.
    Quoted,
    /// ASCII digits.
    Digits,
    /// `(`, `)`, `,`, `*`, `=`, `!=`, `<`, `<=`, `>` or `>=`.
    Symbol,
}

/// A token of a text: its bytes stand from `from` up to, and without, `upto`.
#[derive(Clone, Copy, Debug, PartialEq, Eq)]
pub struct Token {
    pub kind: Kind,
    pub from: usize,
    pub upto: usize,
}

/// Tokens in the order of the text.
pub type Tokens = List<Token>;
