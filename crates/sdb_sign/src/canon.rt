//! The text to sign, with its canonical query.

ghost use Rattle.std.specs.Prelude.{◌≡◌, [], ◌++◌, ◌∷◌, true, IfOk, OnOk, filter, map, if◌then◌else◌};
ghost use Rattle.std.specs.Char.{to_ascii_lowercase};
ghost use Rattle.std.specs.List.{join_by, list_all};
ghost use Rattle.std.specs.Map.Iter.{deref_pair};
ghost use Rattle.std.specs.Option.{option_map};
ghost use Rattle.sdb_base.specs.Ascii.{ampersand};
ghost use Rattle.sdb_base.specs.Entries.{IsRising};
ghost use Rattle.sdb_base.specs.Pairs.{NamedValues};
ghost use Rattle.sdb_base.specs.Texts.{text_cmp};
ghost use Rattle.sdb_sign.specs.Canon.{after_name, canonical_query, escaped, is_after, is_less, is_lower, is_signed, is_signed_name, left_of, signed_params, text_to_sign, verb_word, written};

use crate::words::signature_name;
use percent_encoding::{AsciiSet, NON_ALPHANUMERIC, ascii_set, percent_encode};
use sdb_base::{Bytes, OutOfMemory, Params, Verb};
use std::alloc::Global;
use std::cmp::Ordering;
use std::collections::BTreeMap;

// The bytes of a text to sign beside host and query: the longest verb, three line feeds and the path.
const HEAD_ROOM: usize = 8;

// All ASCII bytes but the unreserved ones.
const RESERVED: AsciiSet = ascii_set!(
    NON_ALPHANUMERIC
        .remove(b'-')
        .remove(b'.')
        .remove(b'_')
        .remove(b'~')
);

/// The text to sign of a request (signature version 2), in four lines that line feeds part: the
/// verb, the host in ASCII lower case, `/`, and the canonical query.
///
/// `host` is the value of the request's Host header as sent, port included. The canonical query has
/// every parameter but `Signature`, in the order of the names by their bytes, as `name=value`
/// joined by `&`. In it only the unreserved characters `A-Z a-z 0-9 - . _ ~` (RFC 3986, section
/// 2.3) are plain; any other byte is `%` and two upper-case hexadecimal digits.
pub fn string_to_sign(
    alloc: Global,
    verb: Verb,
    host: &[u8],
    params: &Params,
) -> Result<Bytes, OutOfMemory>
    ensures { IfOk result (λ text. text.bytes ≡ text_to_sign verb host.now params.now) }
{
    let mut text = Bytes::with_room(alloc, room_of(host, params))?;
    text.append(verb_word(verb))?;
    text.append(b"\n")?;
    append_host(alloc, &mut text, host)?;
    text.append(b"\n/\n")?;
    append_signed(alloc, &mut text, params)?;
    Ok(text)
}

// How many bytes a text to sign has, or more: a byte that is escaped takes three. Whether one is isn't asked here, so that
// each is looked at once.
fn room_of(host: &[u8], params: &Params) -> usize {
    let mut room = HEAD_ROOM.saturating_add(host.len());
    for place in 0..params.len() {
        let (name, value) = params.at(place);
        let plain = name.as_str().len().saturating_add(value.as_str().len());
        room = room
            .saturating_add(plain.saturating_mul(3))
            .saturating_add(2);
    }
    room
}

// Puts the host at the end, in lower case. Where it is already, it is written as it stands.
fn append_host(alloc: Global, text: &mut Bytes, host: &[u8]) -> Result<(), OutOfMemory>
    ensures { OnOk result (text.new.bytes ≡ text.old.bytes ++ map to_ascii_lowercase host.now) }
{
    if is_lower(host) {
        text.append(host)
    } else {
        text.append(&host.to_ascii_lowercase(alloc)?)
    }
}

// Whether no byte is an ASCII letter in upper case.
fn is_lower(host: &[u8]) -> bool
    ensures { result ≡ list_all is_lower host.now }
{
    host.iter().all(|b| !b.is_ascii_uppercase())
}

// Puts the canonical query at the end. Parameters that rise by name already aren't sorted.
fn append_signed(alloc: Global, text: &mut Bytes, params: &Params) -> Result<(), OutOfMemory>
    ensures { OnOk result (text.new.bytes ≡ text.old.bytes ++ canonical_query params.now) }
{
    if rises(params) {
        append_in_order(text, params)
    } else {
        append_query(text, &signed_params(alloc, params)?)
    }
}

// Whether the names of the signed parameters rise.
fn rises(params: &Params) -> bool
    ensures { result ≡ true → IsRising text_cmp (filter is_signed params.now) }
{
    let mut last: Option<&str> = None;
    for place in 0..params.len() {
        let (name, _) = params.at(place);
        match after_name(last, name.as_str()) {
            Some(next) => last = next,
            None => return false,
        }
    }
    true
}

// The last signed name after a parameter more, or nothing where that one doesn't stand after it.
fn after_name<'p>(last: Option<&'p str>, name: &'p str) -> Option<Option<&'p str>>
    ensures { option_map (λ next. option_map (λ l. l.now) next) result ≡ after_name (option_map (λ l. l.now) last.entry) name.now }
{
    if !is_signed_name(name) {
        return Some(last);
    }
    if is_after(last, name) {
        Some(Some(name))
    } else {
        None
    }
}

// Whether a name stands after the one before it, or is the first.
fn is_after(last: Option<&str>, name: &str) -> bool
    ensures { result ≡ is_after (option_map (λ l. l.now) last.entry) name.now }
{
    match last {
        Some(before) => is_less(before, name),
        None => true,
    }
}

fn is_less(before: &str, name: &str) -> bool
    ensures { result ≡ is_less (text_cmp before.now name.now) }
{
    match before.cmp(name) {
        Ordering::Less => true,
        Ordering::Equal => false,
        Ordering::Greater => false,
    }
}

// Puts the signed parameters at the end as they stand, joined by `&`.
fn append_in_order(text: &mut Bytes, params: &Params) -> Result<(), OutOfMemory>
    ensures { OnOk result (text.new.bytes
        ≡ text.old.bytes ++ join_by written (ampersand ∷ []) (filter is_signed params.now)) }
{
    let mut is_first = true;
    for place in 0..params.len() {
        let (name, value) = params.at(place);
        is_first = append_next(text, is_first, name.as_str(), value.as_str())?;
    }
    Ok(())
}

// Puts a parameter at the end, if it is signed, after `&` where it isn't the first; gives whether the next one is.
fn append_next(
    text: &mut Bytes,
    is_first: bool,
    name: &str,
    value: &str,
) -> Result<bool, OutOfMemory>
    ensures { IfOk result (λ first. (more : NamedValues)
        → text.new.bytes ++ left_of first more ≡ text.old.bytes ++ left_of is_first (filter is_signed ((name.now, value.now) ∷ []) ++ more)) }
{
    if !is_signed_name(name) {
        return Ok(is_first);
    }
    if is_first {
        append_parameter(text, name, value)?;
        return Ok(false);
    }
    text.append(b"&")?;
    append_parameter(text, name, value)?;
    Ok(false)
}

fn verb_word(verb: Verb) -> &'static [u8]
    ensures { result.now ≡ verb_word verb }
{
    match verb {
        Verb::Get => b"GET",
        Verb::Post => b"POST",
    }
}

// The parameters that are signed, by name.
fn signed_params<'p>(
    alloc: Global,
    params: &'p Params,
) -> Result<BTreeMap<&'p str, &'p str>, OutOfMemory>
    ensures { IfOk result (λ rising. map deref_pair rising.entries ≡ signed_params params.now) }
{
    let mut rising = BTreeMap::new(alloc);
    for place in 0..params.len() {
        let (name, value) = params.at(place);
        if is_signed_name(name.as_str()) {
            rising.insert(name.as_str(), value.as_str())?;
        }
    }
    Ok(rising)
}

fn is_signed_name(name: &str) -> bool
    ensures { result ≡ is_signed_name name.now }
{
    name != signature_name()
}

// Puts the parameters at the end, joined by `&`.
fn append_query(text: &mut Bytes, rising: &BTreeMap<&str, &str>) -> Result<(), OutOfMemory>
    ensures { OnOk result (text.new.bytes
        ≡ text.old.bytes ++ join_by written (ampersand ∷ []) (map deref_pair rising.now.entries)) }
{
    let mut is_first = true;
    for (name, value) in rising {
        if !is_first {
            text.append(b"&")?;
        }
        is_first = false;
        append_parameter(text, name, value)?;
    }
    Ok(())
}

fn append_parameter(text: &mut Bytes, name: &str, value: &str) -> Result<(), OutOfMemory>
    ensures { OnOk result (text.new.bytes ≡ text.old.bytes ++ written (name.now, value.now)) }
{
    append_escaped(text, name)?;
    text.append(b"=")?;
    append_escaped(text, value)
}

fn append_escaped(text: &mut Bytes, plain: &str) -> Result<(), OutOfMemory>
    ensures { OnOk result (text.new.bytes ≡ text.old.bytes ++ escaped plain.now) }
{
    for piece in percent_encode(plain.as_bytes(), RESERVED) {
        text.append(piece.as_bytes())?;
    }
    Ok(())
}
