//! Reading one line of a keys file.

ghost use Rattle.std.specs.Prelude.{◌≡◌, ◌&&◌, nat_le, length, position, IfOk, IfSome, IsUtf8, MatchOption};
ghost use Rattle.std.specs.Option.{option_map};
ghost use Rattle.std.specs.Char.{is_ascii_alphanumeric};
ghost use Rattle.std.specs.List.{list_all};
ghost use Rattle.sdb_keys.specs.Reading.{is_space, key_with};
ghost use Rattle.sdb_keys.specs.File.{is_word, is_secret_byte};
ghost use Rattle.sdb_keys.specs.Reading as reading;

use crate::keys::Key;
use crate::prepared::PreparedKey;
use sdb_base::{AccountId, OutOfMemory, Text, read_decimal};
use std::alloc::Global;

const LONGEST_WORD: usize = 128;

fn space_at(line: &[u8]) -> Option<usize>
    ensures { result ≡ position is_space line.now }
{
    line.iter().position(|b| *b == b' ')
}

// What stands before the first space and after it.
fn split_at_space(line: &[u8]) -> Option<(&[u8], &[u8])>
    ensures { option_map (λ parts. (parts.0.now, parts.1.now)) result ≡ reading.split_at_space line.now }
{
    let at = space_at(line)?;
    let (_, rest) = line.split_at(at + 1);
    Some((&line[..at], rest))
}

fn has_word_length(word: &[u8]) -> bool
    ensures { result ≡ (nat_le 1 (length word.now) && nat_le (length word.now) 128) }
{
    1 <= word.len() && word.len() <= LONGEST_WORD
}

fn are_alphanumeric(word: &[u8]) -> bool
    ensures { result ≡ list_all is_ascii_alphanumeric word.now }
{
    word.iter().all(|b| b.is_ascii_alphanumeric())
}

fn are_secret_bytes(word: &[u8]) -> bool
    ensures { result ≡ list_all is_secret_byte word.now }
{
    word.iter().all(|b| 0x21 <= *b && *b <= 0x7e)
}

fn is_id(word: &[u8]) -> bool
    ensures { result ≡ is_word is_ascii_alphanumeric word.now }
{
    has_word_length(word) && are_alphanumeric(word)
}

fn is_secret(word: &[u8]) -> bool
    ensures { result ≡ is_word is_secret_byte word.now }
{
    has_word_length(word) && are_secret_bytes(word)
}

#[tactic(auto, unfolding(crate::specs::Reading::account_of))]
fn account_of(number: &[u8]) -> Option<AccountId>
    ensures { result ≡ reading.account_of number.now }
{
    match read_decimal(number, 16)? {
        0 => None,
        account => Some(AccountId(account as u8)),
    }
}

#[tactic(auto, unfolding(crate::specs::Reading::words_of))]
fn words_of(text: &[u8]) -> Option<(&[u8], &[u8])>
    ensures value { option_map (λ words. (words.0.now, words.1.now)) result ≡ reading.words_of text.now }
    ensures text { IfSome result (λ words. IsUtf8 words.0.now × IsUtf8 words.1.now) }
{
    let (id, secret) = split_at_space(text)?;
    if is_id(id) && is_secret(secret) {
        Some((id, secret))
    } else {
        None
    }
}

// The bytes as a text; those of an id and of a secret are ASCII, so they always are one.
fn text_of(alloc: Global, bytes: &[u8]) -> Result<Option<Text>, OutOfMemory>
    ensures { IfOk result (λ found. MatchOption found (¬ (IsUtf8 bytes.now)) (λ text. text ≡ bytes.now)) }
{
    match str::from_utf8(bytes) {
        Ok(text) => Ok(Some(Text::from_str(alloc, text)?)),
        Err(_) => Ok(None),
    }
}

/// The key that a line spells, or `None` where it spells none.
pub fn key_of(alloc: Global, line: &[u8]) -> Result<Option<Key>, OutOfMemory>
    ensures { IfOk result (λ found. found ≡ reading.key_of line.now) }
{
    let Some((account, id, secret)) = fields_of(line) else {
        return Ok(None);
    };
    let Some(id) = text_of(alloc, id)? else {
        return Ok(None);
    };
    let Some(secret) = text_of(alloc, secret)? else {
        return Ok(None);
    };
    Ok(Some(Key {
        account,
        id,
        secret: PreparedKey::new(secret),
    }))
}

#[tactic(auto, unfolding(crate::specs::Reading::key_of))]
fn fields_of(line: &[u8]) -> Option<(AccountId, &[u8], &[u8])>
    ensures value { option_map (λ found. key_with found.0 found.1.now found.2.now) result ≡ reading.key_of line.now }
    ensures text { IfSome result (λ found. IsUtf8 found.1.now × IsUtf8 found.2.now) }
{
    let (number, rest) = split_at_space(line)?;
    let account = account_of(number)?;
    let (id, secret) = words_of(rest)?;
    Some((account, id, secret))
}
