//! One walk over header lines, for the values that rules look at.

ghost use Rattle.std.specs.Prelude.{◌≡◌, ◌≤◌, ◌||◌, All, length, map, reverse, if◌then◌else◌, false};
ghost use Rattle.httparse.specs.Grammar.{skip_ows, trim_ows};
ghost use Rattle.httparse.specs.Spans.{IsHeaderWithin, header_bytes, span_bytes};
ghost use Rattle.sdb_http.specs.Heads.{close_word, connection, content_length, host_name, lists_close, same_name, transfer_encoding};
ghost use Rattle.sdb_http.specs.Layouts.{AreWanted, and_one, noted};

use crate::layout::{Values, Wanted};
use crate::words::{close_word, connection, content_length, host_name, transfer_encoding};
use httparse::spans::{HeaderSpan, Span};

// What the header lines say of what rules look at.
pub(crate) fn find_wanted(head: &[u8], headers: &[HeaderSpan]) -> Wanted
    requires { All (IsHeaderWithin (length head.now)) headers.now }
    ensures { AreWanted head.now (map (header_bytes head.now) headers.now) result }
{
    let mut wanted = Wanted {
        transfer_encoding: Values::Absent,
        content_length: Values::Absent,
        host: Values::Absent,
        close: false,
    };
    for header in headers {
        wanted = with_header(head, wanted, *header);
    }
    wanted
}

// What was found, after a header line more.
fn with_header(head: &[u8], wanted: Wanted, header: HeaderSpan) -> Wanted
    requires { IsHeaderWithin (length head.now) header }
    ensures transfer_encoding { result.transfer_encoding
        ≡ noted (same_name transfer_encoding (span_bytes head.now header.name)) wanted.transfer_encoding header.value }
    ensures content_length { result.content_length
        ≡ noted (same_name content_length (span_bytes head.now header.name)) wanted.content_length header.value }
    ensures host { result.host ≡ noted (same_name host_name (span_bytes head.now header.name)) wanted.host header.value }
    ensures close { result.close ≡ (wanted.close
        || (if same_name connection (span_bytes head.now header.name) then lists_close (span_bytes head.now header.value) else false)) }
{
    let name = header.name.of(head);
    let value = header.value;
    Wanted {
        transfer_encoding: noted(transfer_encoding(), name, wanted.transfer_encoding, value),
        content_length: noted(content_length(), name, wanted.content_length, value),
        host: noted(host_name(), name, wanted.host, value),
        close: wanted.close || asks_close(name, value.of(head)),
    }
}

// A value more, where the header line has the name.
fn noted(wanted: &[u8], name: &[u8], found: Values, value: Span) -> Values
    ensures { result ≡ noted (same_name wanted.now name.now) found value }
{
    if same_name(wanted, name) {
        and_one(found, value)
    } else {
        found
    }
}

fn and_one(found: Values, value: Span) -> Values
    ensures { result ≡ and_one found value }
{
    match found {
        Values::Absent => Values::Once(value),
        _ => Values::Twice,
    }
}

// Whether two names are equal but for the case of ASCII letters.
pub(crate) fn same_name(a: &[u8], b: &[u8]) -> bool
    ensures { result ≡ same_name a.now b.now }
{
    a.eq_ignore_ascii_case(b)
}

// Whether a header line asks for the connection to be closed.
fn asks_close(name: &[u8], value: &[u8]) -> bool
    ensures { result ≡ (if same_name connection name.now then lists_close value.now else false) }
{
    same_name(connection(), name) && lists_close(value)
}

fn lists_close(value: &[u8]) -> bool
    ensures { result ≡ lists_close value.now }
{
    value.split(|b| *b == b',').any(|part| is_close(part))
}

fn is_close(part: &[u8]) -> bool
    ensures { result ≡ same_name close_word (trim_ows part.now) }
{
    same_name(close_word(), trim_ows(part))
}

// The bytes without spaces and tabs at both ends.
#[tactic(auto, unfolding(httparse::specs::Grammar::trim_ows))]
fn trim_ows(bytes: &[u8]) -> &[u8]
    ensures { result.now ≡ trim_ows bytes.now }
{
    skip_ows_back(skip_ows(bytes))
}

fn skip_ows(bytes: &[u8]) -> &[u8]
    ensures { result.now ≡ skip_ows bytes.now }
{
    let mut left = bytes;
    while let [b' ' | b'\t', rest @ ..] = left {
        left = rest;
    }
    left
}

fn skip_ows_back(bytes: &[u8]) -> &[u8]
    ensures { result.now ≡ reverse (skip_ows (reverse bytes.now)) }
{
    let mut left = bytes;
    while let [rest @ .., b' ' | b'\t'] = left {
        left = rest;
    }
    left
}
