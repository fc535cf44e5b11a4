// The terms of a text, made of its tokens.
ghost use Rattle.std.specs.Prelude.{◌≡◌, false, All, IfOk, IsUtf8};
ghost use Rattle.sdb_parse.specs.Terms.{IsEnclosed, IsPiece, inside, plain_term, single, term_of, terms_of};

use crate::cursor::Cursor;
use crate::sign::Sign;
use crate::term::Term;
use sdb_base::{OutOfMemory, Text};
use sdb_lex::{Kind, Token, Tokens};
use std::alloc::Global;

// The terms of the tokens of a text.
pub(crate) fn terms(alloc: Global, text: &str, tokens: &Tokens) -> Result<Cursor, OutOfMemory>
    requires { All (IsPiece text.now) tokens.now }
    ensures { IfOk result (λ cursor. cursor ≡ terms_of text.now tokens.now) }
{
    let mut cursor = Cursor::new(alloc);
    for token in tokens.as_slice() {
        cursor.push(term(alloc, text, *token)?)?;
    }
    Ok(cursor)
}

#[tactic(auto, unfolding(crate::specs::Terms::term_of))]
fn term(alloc: Global, text: &str, token: Token) -> Result<Term, OutOfMemory>
    requires { IsPiece text.now token }
    ensures { IfOk result (λ term. term ≡ term_of text.now token) }
{
    let (_, rest) = text.as_bytes().split_at(token.from);
    let (piece, _) = rest.split_at(token.upto - token.from);
    match token.kind {
        Kind::Word => plain_term(alloc, piece),
        Kind::Symbol => plain_term(alloc, piece),
        Kind::Ticked => Ok(Term {
            sign: Sign::Name,
            text: inside(alloc, piece)?,
        }),
        Kind::Quoted => Ok(Term {
            sign: Sign::Quoted,
            text: inside(alloc, piece)?,
        }),
        Kind::Digits => Ok(Term {
            sign: Sign::Digits,
            text: copied(alloc, piece)?,
        }),
    }
}

// A word or a symbol.
#[tactic(auto, unfolding(crate::specs::Terms::plain_term))]
fn plain_term(alloc: Global, piece: &[u8]) -> Result<Term, OutOfMemory>
    requires { IsUtf8 piece.now }
    ensures { IfOk result (λ term. term ≡ plain_term piece.now) }
{
    let sign = Sign::of(piece);
    if sign.may_name() {
        return Ok(Term {
            sign,
            text: copied(alloc, piece)?,
        });
    }
    Ok(Term {
        sign,
        text: Text::from_str(alloc, "")?,
    })
}

fn copied(alloc: Global, piece: &[u8]) -> Result<Text, OutOfMemory>
    requires { IsUtf8 piece.now }
    ensures { IfOk result (λ text. text ≡ piece.now) }
{
    match str::from_utf8(piece) {
        Ok(s) => Text::from_str(alloc, s),
        Err(_) => unreachable!(),
    }
}

// What stands between the signs, each doubled sign once.
fn inside(alloc: Global, piece: &[u8]) -> Result<Text, OutOfMemory>
    requires { IsEnclosed piece.now }
    ensures { IfOk result (λ text. text ≡ inside piece.now) }
{
    let sign = piece[0];
    let (inner, _) = piece[1..].split_at(piece.len() - 2);
    let bytes = single(alloc, sign, inner)?;
    match String::from_utf8(bytes) {
        Ok(s) => Ok(Text::from_string(s)),
        Err(_) => unreachable!(),
    }
}

// The bytes with each doubled sign taken once.
fn single(alloc: Global, sign: u8, inner: &[u8]) -> Result<Vec<u8>, OutOfMemory>
    ensures { IfOk result (λ bytes. bytes.items ≡ single sign false inner.now) }
{
    let mut bytes = Vec::new(alloc);
    let mut pending = false;
    for byte in inner {
        if pending && *byte == sign {
            pending = false;
        } else {
            bytes.push(*byte)?;
            pending = *byte == sign;
        }
    }
    Ok(bytes)
}
