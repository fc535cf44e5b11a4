// Names, values and places out of bytes.
ghost use Rattle.std.specs.Prelude.{◌≡◌, ◌<◌, ◌≤◌, ◌^◌, List, take, IfOk, IfErr, Ok, Err, IsTrue};
ghost use Rattle.std.specs.List.{list_all};
ghost use Rattle.sdb_base.specs.Names.{is_domain_char as domain_char};
ghost use Rattle.sdb_format.specs.Letters.{passing_at};
ghost use Rattle.sdb_record.specs.Entries.{OnFault, domain_at, name_at, pair_at, place_at, value_at};

use crate::RecordFault;
use sdb_base::{AccountId, Text};
use sdb_format::{FormatFault, read_byte, read_text};
use sdb_pairs::Pair;
use std::alloc::Global;

// A name, and the bytes after it.
pub(crate) fn read_name(alloc: Global, bytes: &[u8]) -> Result<(Text, &[u8]), RecordFault>
    ensures ok { IfOk result (λ x. name_at bytes.now ≡ Ok (x.0, x.1.now)) }
    ensures err { OnFault result (name_at bytes.now) }
{
    let (name, rest) = read_text(bytes, 1, 1024)?;
    Ok((Text::from_str(alloc, name)?, rest))
}

// A value, and the bytes after it.
fn read_value(alloc: Global, bytes: &[u8]) -> Result<(Text, &[u8]), RecordFault>
    ensures ok { IfOk result (λ x. value_at bytes.now ≡ Ok (x.0, x.1.now)) }
    ensures err { OnFault result (value_at bytes.now) }
{
    let (value, rest) = read_text(bytes, 0, 1024)?;
    Ok((Text::from_str(alloc, value)?, rest))
}

// A pair, and the bytes after it.
pub(crate) fn read_pair(alloc: Global, bytes: &[u8]) -> Result<(Pair, &[u8]), RecordFault>
    ensures ok { IfOk result (λ x. pair_at bytes.now ≡ Ok (x.0, x.1.now)) }
    ensures err { OnFault result (pair_at bytes.now) }
{
    let (name, after) = read_name(alloc, bytes)?;
    let (value, rest) = read_value(alloc, after)?;
    Ok((Pair { name, value }, rest))
}

fn is_domain_char(byte: u8) -> bool
    ensures { result ≡ domain_char byte }
{
    matches!(byte, b'a'..=b'z' | b'A'..=b'Z' | b'0'..=b'9' | b'_' | b'-' | b'.')
}

fn are_domain_chars(bytes: &[u8]) -> bool
    ensures { result ≡ list_all domain_char bytes.now }
{
    bytes.iter().all(|byte| is_domain_char(*byte))
}

// So many bytes of a domain's name, and the bytes after them.
fn read_domain_chars(bytes: &[u8], count: usize) -> Result<(&str, &[u8]), FormatFault>
    ensures ok { IfOk result (λ x. passing_at domain_char count bytes.now ≡ Ok (x.0.now, x.1.now)) }
    ensures err { IfErr result (λ fault. passing_at domain_char count bytes.now ≡ Err fault) }
{
    if bytes.len() < count {
        return if are_domain_chars(bytes) {
            Err(FormatFault::Short)
        } else {
            Err(FormatFault::Bad)
        };
    }
    let (name, rest) = bytes.split_at(count);
    if !are_domain_chars(name) {
        return Err(FormatFault::Bad);
    }
    let Ok(text) = str::from_utf8(name) else {
        unreachable!();
    };
    Ok((text, rest))
}

// A domain's name, and the bytes after it.
fn read_domain(bytes: &[u8]) -> Result<(&str, &[u8]), FormatFault>
    ensures ok { IfOk result (λ x. domain_at bytes.now ≡ Ok (x.0.now, x.1.now)) }
    ensures err { IfErr result (λ fault. domain_at bytes.now ≡ Err fault) }
{
    let (count, rest) = read_byte(bytes, 3, 255)?;
    let (name, after) = read_domain_chars(rest, usize::from(count))?;
    Ok((name, after))
}

// An account's number and a domain's name, and the bytes after them.
pub(crate) fn read_place(
    alloc: Global,
    bytes: &[u8],
) -> Result<((AccountId, Text), &[u8]), RecordFault>
    ensures ok { IfOk result (λ x. place_at bytes.now ≡ Ok ((x.0.0, x.0.1), x.1.now)) }
    ensures err { OnFault result (place_at bytes.now) }
{
    let (account, after) = read_byte(bytes, 1, 16)?;
    let (domain, rest) = read_domain(after)?;
    Ok(((AccountId(account), Text::from_str(alloc, domain)?), rest))
}
