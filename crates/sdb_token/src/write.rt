// Positions into tokens.
ghost use Rattle.std.specs.Prelude.{◌≡◌, ◌<◌, ◌≤◌, ◌^◌, ◌++◌, ◌∷◌, [], length, IfOk, OnOk};
ghost use Rattle.std.specs.Option.{ForSome};
ghost use Rattle.sdb_format.specs.Letters.{text_bytes};
ghost use Rattle.sdb_token.specs.Tokens.{in_base64, key_bytes, token, token_bytes};

use crate::Position;
use base64::engine::general_purpose::STANDARD;
use sdb_base::{Bytes, OutOfMemory, Text};
use std::alloc::Global;

// The bytes beside those of the key and the name: the version, the digest, whether there is a key, two lengths.
const FRAME: usize = 38;

// Appends a text behind its length in two bytes.
fn append_text(out: &mut Bytes, text: &Text) -> Result<(), OutOfMemory>
    requires { length text.now < 2 ^ 16 }
    ensures { OnOk result (out.new.bytes ≡ out.old.bytes ++ text_bytes text.now) }
{
    let bytes = text.as_str().as_bytes();
    let size = bytes.len() as u16;
    out.append(&[(size / 256) as u8, (size % 256) as u8])?;
    out.append(bytes)
}

fn append_key(out: &mut Bytes, key: &Option<Text>) -> Result<(), OutOfMemory>
    requires { ForSome key.now (λ key. length key < 2 ^ 16) }
    ensures { OnOk result (out.new.bytes ≡ out.old.bytes ++ key_bytes key.now) }
{
    match key {
        None => out.append(&[0]),
        Some(key) => {
            out.append(&[1])?;
            append_text(out, key)
        }
    }
}

fn key_size(key: &Option<Text>) -> usize {
    match key {
        None => 0,
        Some(key) => key.as_str().len(),
    }
}

// The bytes of a token.
fn bytes_of(alloc: Global, position: &Position, digest: &[u8; 32]) -> Result<Bytes, OutOfMemory>
    requires key { ForSome position.now.key (λ key. length key < 2 ^ 16) }
    requires name { length position.now.name < 2 ^ 16 }
    ensures { IfOk result (λ made. made.bytes ≡ token_bytes digest.now position.now) }
{
    let texts = key_size(&position.key).saturating_add(position.name.as_str().len());
    let mut out = Bytes::with_room(alloc, texts.saturating_add(FRAME))?;
    out.append(&[1])?;
    out.append(digest)?;
    append_key(&mut out, &position.key)?;
    append_text(&mut out, &position.name)?;
    Ok(out)
}

/// The token of a position, for the request whose [`digest`](crate::digest) is given: padded standard base64
/// (RFC 4648) of at most 2,784 characters.
#[tactic(auto, unfolding(crate::specs::Tokens::in_base64))]
pub fn write_token(
    alloc: Global,
    position: &Position,
    digest: &[u8; 32],
) -> Result<Text, OutOfMemory>
    requires key { ForSome position.now.key (λ key. length key ≤ 1024) }
    requires some { 1 ≤ length position.now.name }
    requires few { length position.now.name ≤ 1024 }
    ensures { IfOk result (λ text. text ≡ token digest.now position.now) }
{
    let bytes = bytes_of(alloc, position, digest)?;
    let text = STANDARD.encode(alloc, bytes.as_slice())?;
    Ok(Text::from_string(text))
}
