//! Texts with their tokens, the first faults with their places, and the class of each ASCII byte.

use sdb_base::Text;
use sdb_lex::{Kind, LexFault, Tokens, lex};
use std::alloc::Global;
use std::test::Fail;

fn cut(alloc: Global, s: &str) -> Result<Tokens, LexFault> {
    lex(alloc, &Text::from_str(alloc, s)?)
}

// Whether the text is cut into tokens of these kinds and places.
fn is_cut_into(alloc: Global, s: &str, wanted: &[(Kind, usize, usize)]) -> Result<bool, LexFault> {
    let tokens = cut(alloc, s)?;
    let shown = tokens.as_slice();
    Ok(
        shown.len() == wanted.len()
            && shown
                .iter()
                .zip(wanted)
                .all(|(t, w)| t.kind == w.0 && t.from == w.1 && t.upto == w.2),
    )
}

#[test]
fn tokens_have_kinds_and_places(rt: HostRuntime) -> Result<(), Fail> {
    let alloc = rt.alloc();
    for (text, wanted) in [
        (
            "select from from dom",
            [
                (Kind::Word, 0, 6),
                (Kind::Word, 7, 11),
                (Kind::Word, 12, 16),
                (Kind::Word, 17, 20),
            ]
            .as_slice(),
        ),
        ("`a``b`", [(Kind::Ticked, 0, 6)].as_slice()),
        ("'it''s'", [(Kind::Quoted, 0, 7)].as_slice()),
        ("\"a\"\"b\"", [(Kind::Quoted, 0, 6)].as_slice()),
        ("''", [(Kind::Quoted, 0, 2)].as_slice()),
        ("'é'", [(Kind::Quoted, 0, 4)].as_slice()),
        (
            "a<=b!=c",
            [
                (Kind::Word, 0, 1),
                (Kind::Symbol, 1, 3),
                (Kind::Word, 3, 4),
                (Kind::Symbol, 4, 6),
                (Kind::Word, 6, 7),
            ]
            .as_slice(),
        ),
        (
            "\t12\r\n(*)",
            [
                (Kind::Digits, 1, 3),
                (Kind::Symbol, 5, 6),
                (Kind::Symbol, 6, 7),
                (Kind::Symbol, 7, 8),
            ]
            .as_slice(),
        ),
        ("", [].as_slice()),
    ] {
        assert!(rt; is_cut_into(alloc, text, wanted)?, "the tokens of {text}");
    }
    Ok(())
}

#[test]
fn the_first_fault_has_its_place(rt: HostRuntime) -> Result<(), Fail> {
    let alloc = rt.alloc();
    for (text, wanted) in [
        ("!", LexFault::BadByte(0)),
        ("k='1", LexFault::Unclosed(2)),
        ("12ab", LexFault::BadByte(2)),
        ("a ``", LexFault::BadByte(2)),
        ("```", LexFault::Unclosed(0)),
        ("é", LexFault::BadByte(0)),
        ("'a\"", LexFault::Unclosed(0)),
        ("a ; 'b", LexFault::BadByte(2)),
    ] {
        assert_eq!(rt; cut(alloc, text).err(), Some(wanted), "the fault of {text}");
    }
    Ok(())
}

#[test]
fn each_ascii_byte_has_its_class(rt: HostRuntime) -> Result<(), Fail> {
    let alloc = rt.alloc();
    let mut every = String::new(alloc);
    for byte in 1u8..128 {
        every.push(char::from(byte))?;
        let mut one = String::new(alloc);
        one.push(char::from(byte))?;
        let tokens = cut(alloc, one.as_str());
        let kind = match byte {
            b'a'..=b'z' | b'A'..=b'Z' | b'_' | b'$' => Some(Kind::Word),
            b'0'..=b'9' => Some(Kind::Digits),
            b'(' | b')' | b',' | b'*' | b'=' | b'<' | b'>' => Some(Kind::Symbol),
            _ => None,
        };
        match (byte, kind) {
            (_, Some(kind)) => assert!(rt;
                is_cut_into(alloc, one.as_str(), &[(kind, 0, 1)])?,
                "the byte {byte}"
            ),
            (b' ' | b'\t' | b'\r' | b'\n', None) => assert_eq!(rt;
                tokens?.len(),
                0,
                "the byte {byte}"
            ),
            (b'\'' | b'"' | b'`', None) => assert_eq!(rt;
                tokens.err(),
                Some(LexFault::Unclosed(0)),
                "the byte {byte}"
            ),
            _ => assert_eq!(rt; tokens.err(), Some(LexFault::BadByte(0)), "the byte {byte}"),
        }
    }
    assert_eq!(rt;
        cut(alloc, every.as_str()).err(),
        Some(LexFault::BadByte(0))
    );
    Ok(())
}
