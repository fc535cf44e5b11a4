// A raw text to the text that it stands for.
ghost use Rattle.std.specs.Prelude.{◌≡◌, IfOk, MatchOption, IsUtf8, if◌then◌else◌, ◌==◌, map};
ghost use Rattle.std.specs.List.{list_all};
ghost use Rattle.form_urlencoded.specs.Form.{decode, plus_to_space};
ghost use Rattle.sdb_form.specs.Plain.{is_plain};

use percent_encoding::percent_decode;
use sdb_base::{OutOfMemory, Text};
use std::alloc::Global;
use std::borrow::CowSlice;
use std::str;

// Each `+` is replaced first, since a `+` that an escape stands for stays one.
fn with_spaces(alloc: Global, raw: &[u8]) -> Result<Vec<u8>, OutOfMemory>
    ensures { IfOk result (λ bytes. bytes.items ≡ map plus_to_space raw.now) }
{
    let spaced = raw.iter().map(|&b| if b == b'+' { b' ' } else { b });
    Ok(spaced.collect(alloc)?)
}

fn decoded(alloc: Global, raw: &[u8]) -> Result<Vec<u8>, OutOfMemory>
    ensures { IfOk result (λ bytes. bytes.items ≡ decode raw.now) }
{
    let spaced = with_spaces(alloc, raw)?;
    match percent_decode(&spaced).into_cow(alloc)? {
        CowSlice::Owned(bytes) => Ok(bytes),
        CowSlice::Borrowed(_) => Ok(spaced),
    }
}

fn is_plain(raw: &[u8]) -> bool
    ensures { result ≡ list_all is_plain raw.now }
{
    raw.iter().all(|&b| b != b'+' && b != b'%')
}

// The bytes as a text, or `None` where they aren't UTF-8.
fn copied_text(alloc: Global, bytes: &[u8]) -> Result<Option<Text>, OutOfMemory>
    ensures { IfOk result (λ found. MatchOption found
        (¬ (IsUtf8 bytes.now))
        (λ text. (text ≡ bytes.now) × IsUtf8 bytes.now)) }
{
    match str::from_utf8(bytes) {
        Ok(text) => Ok(Some(Text::from_str(alloc, text)?)),
        Err(_) => Ok(None),
    }
}

/// The text that a raw name or value stands for, or `None` where its bytes aren't UTF-8.
pub fn text_of(alloc: Global, raw: &[u8]) -> Result<Option<Text>, OutOfMemory>
    ensures { IfOk result (λ found. MatchOption found
        (¬ (IsUtf8 (decode raw.now)))
        (λ text. (text ≡ decode raw.now) × IsUtf8 (decode raw.now))) }
{
    if is_plain(raw) {
        return copied_text(alloc, raw);
    }
    match String::from_utf8(decoded(alloc, raw)?) {
        Ok(text) => Ok(Some(Text::from_string(text))),
        Err(_) => Ok(None),
    }
}
