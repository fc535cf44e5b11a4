// Positions out of tokens.
ghost use Rattle.std.specs.Prelude.{◌≡◌, ◌≢◌, ◌⊎◌, ◌++◌, ◌∷◌, List, ℕ, length, IsUtf8, ok_or, option_map, IfOk, IfErr, IfSome, IfNone, MatchOption, MatchResult, Ok, Err, None, Some};
ghost use Rattle.std.specs.Option.{option_copied};
ghost use Rattle.sdb_tables.specs.declared.refusal.Refusal.{Refusal};
ghost use Rattle.sdb_tables.specs.declared.refusal.Refusal.TheVariants.{InvalidNextToken};
ghost use Rattle.sdb_tables.specs.Answers.{Answers};
ghost use Rattle.sdb_token.specs.declared.position.Position.{Position};
ghost use Rattle.sdb_token.specs.Reading.{decoded, key_at, position_at, position_in, position_of, token_position};
ghost use Rattle.sdb_token.specs.Tokens.{IsTokenOf};

use crate::Position;
use base64::DecodeAllocError;
use base64::engine::general_purpose::STANDARD;
use sdb_base::{OutOfMemory, Text};
use sdb_format::{FormatFault, read_byte, read_text};
use sdb_tables::Refusal;
use std::alloc::Global;

// What stands behind the version and the digest.
fn behind_digest<'a>(bytes: &'a [u8], digest: &[u8]) -> Option<&'a [u8]>
    ensures found { IfSome result (λ rest. bytes.now ≡ 1 ∷ (digest.now ++ rest.now)) }
    ensures none { IfNone result ((rest : List ℕ) → bytes.now ≢ 1 ∷ (digest.now ++ rest)) }
{
    match read_byte(bytes, 1, 1) {
        Ok((_version, rest)) => rest.strip_prefix(digest),
        Err(_) => None,
    }
}

// A key where one is wanted, and the bytes after it.
fn read_key(bytes: &[u8], keyed: bool) -> Result<(Option<&str>, &[u8]), FormatFault>
    ensures ok { IfOk result (λ x. key_at keyed bytes.now ≡ Ok (option_copied x.0, x.1.now)) }
    ensures err { IfErr result (λ fault. key_at keyed bytes.now ≡ Err fault) }
{
    if !keyed {
        let (_, rest) = read_byte(bytes, 0, 0)?;
        return Ok((None, rest));
    }
    let (_, after) = read_byte(bytes, 1, 1)?;
    let (key, rest) = read_text(after, 0, 1024)?;
    Ok((Some(key), rest))
}

// A key and a name, and the bytes after them.
fn read_position(bytes: &[u8], keyed: bool) -> Result<((Option<&str>, &str), &[u8]), FormatFault>
    ensures ok { IfOk result (λ x. position_at keyed bytes.now ≡ Ok (position_of (option_copied x.0.0, x.0.1.now), x.1.now)) }
    ensures err { IfErr result (λ fault. position_at keyed bytes.now ≡ Err fault) }
{
    let (key, after) = read_key(bytes, keyed)?;
    let (name, rest) = read_text(after, 1, 1024)?;
    Ok(((key, name), rest))
}

// The key and the name in the bytes of a token.
fn find<'a>(bytes: &'a [u8], digest: &[u8], keyed: bool) -> Option<(Option<&'a str>, &'a str)>
    requires { length digest.now ≡ 32 }
    ensures { MatchOption result
        (position_in digest.now keyed bytes.now ≡ None)
        (λ x. position_in digest.now keyed bytes.now ≡ Some (position_of (option_copied x.0, x.1.now))) }
{
    let Some(position) = behind_digest(bytes, digest) else {
        return None;
    };
    match read_position(position, keyed) {
        Ok((found, rest)) => { if rest.is_empty() { Some(found) } else { None } }
        Err(_fault) => None,
    }
}

fn copied(alloc: Global, key: Option<&str>) -> Result<Option<Text>, OutOfMemory>
    ensures { IfOk result (λ copied. copied ≡ option_copied key.entry) }
{
    match key {
        None => Ok(None),
        Some(key) => Ok(Some(Text::from_str(alloc, key)?)),
    }
}

// The bytes that a text encodes, where it is padded standard base64.
#[tactic(auto, unfolding(crate::specs::Reading::decoded))]
fn decode(alloc: Global, text: &str) -> Result<Option<Vec<u8>>, OutOfMemory>
    ensures { IfOk result (λ found. decoded text.now ≡ option_map (λ bytes. bytes.items) found) }
{
    match STANDARD.decode(alloc, text.as_bytes()) {
        Ok(bytes) => Ok(Some(bytes)),
        Err(DecodeAllocError::DecodeError(_)) => Ok(None),
        Err(DecodeAllocError::OutOfMemory) => Err(OutOfMemory),
    }
}

// The position in the bytes of a token.
fn position_of_bytes(
    alloc: Global,
    bytes: &[u8],
    digest: &[u8],
    keyed: bool,
) -> Result<Position, Refusal>
    requires { length digest.now ≡ 32 }
    ensures { Answers (ok_or (position_in digest.now keyed bytes.now) InvalidNextToken) result }
{
    let Some((key, name)) = find(bytes, digest, keyed) else {
        return Err(Refusal::InvalidNextToken);
    };
    let key = copied(alloc, key)?;
    let name = Text::from_str(alloc, name)?;
    Ok(Position { key, name })
}

fn answer(alloc: Global, text: &Text, digest: &[u8], keyed: bool) -> Result<Position, Refusal>
    requires { length digest.now ≡ 32 }
    ensures value { Answers (token_position digest.now keyed text.now) result }
    ensures utf8 { IsUtf8 text.now }
{
    let found = decode(alloc, text.as_str())?;
    match found {
        None => Err(Refusal::InvalidNextToken),
        Some(bytes) => position_of_bytes(alloc, bytes.as_slice(), digest, keyed),
    }
}

// The position for a digest of 32 bytes.
fn position_for(alloc: Global, text: &Text, digest: &[u8], keyed: bool) -> Result<Position, Refusal>
    requires { length digest.now ≡ 32 }
    ensures answer { Answers (token_position digest.now keyed text.now) result }
    ensures found { IfOk result (λ position. IsTokenOf digest.now keyed position text.now) }
    ensures only { (position : Position) → IsTokenOf digest.now keyed position text.now
        → MatchResult result (λ found. found ≡ position) (λ refusal. refusal ≡ Refusal.OutOfMemory) }
    ensures refused { IfErr result (λ refusal. (refusal ≡ Refusal.OutOfMemory)
        ⊎ ((refusal ≡ InvalidNextToken) × ((position : Position) → IsTokenOf digest.now keyed position text.now → ⊥))) }
{
    answer(alloc, text, digest, keyed)
}

/// The position whose token a text is, for the request whose [`digest`](crate::digest) is given; `keyed` says
/// whether a position has a key there.
///
/// # Errors
///
/// `InvalidNextToken` exactly where the text is the token of no such position: another request's, one with a key
/// where none is wanted or without one where one is, or any other text.
pub fn read_token(
    alloc: Global,
    text: &Text,
    digest: &[u8; 32],
    keyed: bool,
) -> Result<Position, Refusal>
    ensures answer { Answers (token_position digest.now keyed text.now) result }
    ensures found { IfOk result (λ position. IsTokenOf digest.now keyed position text.now) }
    ensures only { (position : Position) → IsTokenOf digest.now keyed position text.now
        → MatchResult result (λ found. found ≡ position) (λ refusal. refusal ≡ Refusal.OutOfMemory) }
    ensures refused { IfErr result (λ refusal. (refusal ≡ Refusal.OutOfMemory)
        ⊎ ((refusal ≡ InvalidNextToken) × ((position : Position) → IsTokenOf digest.now keyed position text.now → ⊥))) }
{
    position_for(alloc, text, digest, keyed)
}
