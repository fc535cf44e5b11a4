// Names and values as they stand in a body.
ghost use Rattle.std.specs.Prelude.{◌≡◌, ◌<◌, ◌++◌, length, position, IfSome, OnOk};
ghost use Rattle.sdb_reply.specs.Elements.{element};
ghost use Rattle.sdb_reply.specs.Escape.{content as content_of, escaped, escape_of, is_special, is_unwritable as unwritable, has_unwritable as holds_unwritable};

use crate::words;
use base64::engine::general_purpose::STANDARD;
use sdb_base::{Bytes, OutOfMemory};
use std::alloc::Global;

// Appends an element with a text.
#[tactic(auto, using(std::proofs::Common::append_assoc))]
pub(crate) fn append_element(
    alloc: Global,
    out: &mut Bytes,
    tag: &str,
    text: &str,
) -> Result<(), OutOfMemory>
    ensures { OnOk result (out.new.bytes ≡ out.old.bytes ++ element tag.now text.now) }
{
    out.append(b"<")?;
    out.append(tag.as_bytes())?;
    append_content(alloc, out, text)?;
    out.append(b"</")?;
    out.append(tag.as_bytes())?;
    out.append(b">")?;
    Ok(())
}

// Appends the end of a start tag and the text of its element: with its escapes, or in base64 where XML can't
// hold the text.
#[tactic(auto, using(std::proofs::Common::append_assoc))]
pub(crate) fn append_content(alloc: Global, out: &mut Bytes, text: &str) -> Result<(), OutOfMemory>
    ensures { OnOk result (out.new.bytes ≡ out.old.bytes ++ content_of text.now) }
{
    if has_unwritable(text) {
        let encoded = STANDARD.encode(alloc, text.as_bytes())?;
        out.append(words::encoding())?;
        out.append(encoded.as_bytes())?;
        return Ok(());
    }
    out.append(b">")?;
    append_escaped(out, text.as_bytes())?;
    Ok(())
}

fn has_unwritable(text: &str) -> bool
    ensures { result ≡ holds_unwritable text.now }
{
    text.chars().any(is_unwritable)
}

fn is_unwritable(c: char) -> bool
    ensures { result ≡ unwritable c }
{
    c < '\t'
        || c == '\u{b}'
        || c == '\u{c}'
        || '\r' < c && c < ' '
        || c == '\u{fffe}'
        || c == '\u{ffff}'
}

// Appends the bytes between special ones as they are.
fn append_escaped(out: &mut Bytes, bytes: &[u8]) -> Result<(), OutOfMemory>
    ensures { OnOk result (out.new.bytes ≡ out.old.bytes ++ escaped bytes.now) }
{
    let mut rest = bytes;
    'runs: while let Some(at) = special_place(rest) {
        out.append(&rest[..at])?;
        append_special(out, rest[at])?;
        rest = &rest[at..][1..];
    }
    out.append(rest)
}

// Where the first special byte stands.
fn special_place(bytes: &[u8]) -> Option<usize>
    ensures place { result ≡ position is_special bytes.now }
    ensures within { IfSome result (λ at. at < length bytes.now) }
{
    bytes
        .iter()
        .position(|b| matches!(*b, b'&' | b'<' | b'>' | b'\r'))
}

fn append_special(out: &mut Bytes, byte: u8) -> Result<(), OutOfMemory>
    ensures { OnOk result (out.new.bytes ≡ out.old.bytes ++ escape_of byte) }
{
    match byte {
        b'&' => out.append(words::ampersand()),
        b'<' => out.append(words::less()),
        b'>' => out.append(words::greater()),
        b'\r' => out.append(words::carriage_return()),
        other => out.append(&[other]),
    }
}
