//! The token, or the fault, at the front of a text.

ghost use Rattle.std.specs.Prelude.{◌≡◌, ◌<◌, ◌≤◌, false, length, IfSome};
ghost use Rattle.sdb_lex.specs.Bytes.{run};
ghost use Rattle.sdb_lex.specs.Fronts.{closing, front_of, digits_front, enclosed_front, symbol_front};

use crate::bytes::{
    begins_equals, begins_word, digit_run, is_blank, is_comparing, is_plain, is_sign, is_word,
    word_run,
};
use crate::token::Kind;

/// What stands at the front of a text, with lengths and places in bytes.
#[derive(Clone, Copy, Debug, PartialEq, Eq)]
pub enum Front {
    Nothing,
    Blank,
    Piece(Kind, usize),
    Bad(usize),
    Unclosed,
}

pub fn read_front(text: &[u8]) -> Front
    ensures { result ≡ front_of text.now }
{
    let Some((first, rest)) = text.split_first() else {
        return Front::Nothing;
    };
    if is_blank(*first) {
        return Front::Blank;
    }
    if first.is_ascii_digit() {
        return read_digits(text);
    }
    if is_word(*first) {
        return Front::Piece(Kind::Word, word_run(text));
    }
    if is_sign(*first) {
        return read_enclosed(*first, rest);
    }
    read_symbol(*first, rest)
}

fn read_digits(text: &[u8]) -> Front
    ensures { result ≡ digits_front text.now }
{
    let count = digit_run(text);
    let (_, rest) = text.split_at(count);
    if begins_word(rest) {
        Front::Bad(count)
    } else {
        Front::Piece(Kind::Digits, count)
    }
}

// What begins with that sign and goes on with `rest`.
fn read_enclosed(sign: u8, rest: &[u8]) -> Front
    ensures { result ≡ enclosed_front sign rest.now }
{
    let Some(count) = find_closing(sign, rest) else {
        return Front::Unclosed;
    };
    if sign != b'`' {
        return Front::Piece(Kind::Quoted, 1 + count);
    }
    if count == 1 {
        return Front::Bad(0);
    }
    Front::Piece(Kind::Ticked, 1 + count)
}

// How many bytes there are up to the closing sign and with it. A doubled sign closes nothing.
fn find_closing(sign: u8, rest: &[u8]) -> Option<usize>
    ensures place { result ≡ closing sign false rest.now }
    ensures within { IfSome result (λ count. count ≤ length rest.now) }
{
    let mut pending = false;
    for (at, byte) in rest.iter().enumerate() {
        if pending && *byte != sign {
            return Some(at);
        }
        pending = *byte == sign && !pending;
    }
    if pending { Some(rest.len()) } else { None }
}

fn read_symbol(first: u8, rest: &[u8]) -> Front
    ensures { result ≡ symbol_front first rest.now }
{
    if is_plain(first) {
        return Front::Piece(Kind::Symbol, 1);
    }
    if !is_comparing(first) {
        return Front::Bad(0);
    }
    if begins_equals(rest) {
        return Front::Piece(Kind::Symbol, 2);
    }
    if first == b'!' {
        Front::Bad(0)
    } else {
        Front::Piece(Kind::Symbol, 1)
    }
}
