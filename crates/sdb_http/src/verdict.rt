//! The rules on the parts of a head, in their order.

ghost use Rattle.std.specs.Prelude.{◌≡◌, ◌≤◌, All, IfOk, length};
ghost use Rattle.std.specs.Char.{is_ascii_digit};
ghost use Rattle.std.specs.List.{list_all};
ghost use Rattle.httparse.specs.Spans.{IsHeaderWithin, IsWithin, span_bytes};
ghost use Rattle.sdb_base.specs.Decimal.{value_after};
ghost use Rattle.sdb_http.specs.Heads.{is_length, length_in, query_for, query_of, verb_of, verdict};
ghost use Rattle.sdb_http.specs.Layouts.{IsLayoutWithin, IsValuesWithin, bytes_at, length_found, none_found, one_found, parts_at, verdict_at, verdict_found};

use crate::fault::HttpFault;
use crate::fields::find_wanted;
use crate::layout::{Layout, Values, Wanted};
use httparse::spans::{HeaderSpan, RequestSpans, Span};
use sdb_base::Verb;

// The most bytes of a body.
const MOST_BODY: u64 = 1_048_576;

// The verdict on the parts of a head that the grammar accepts.
pub(crate) fn judge_parts(
    head: &[u8],
    spans: &RequestSpans,
    headers: &[HeaderSpan],
) -> Result<Layout, HttpFault>
    requires path { IsWithin (length head.now) spans.now.path }
    requires method { IsWithin (length head.now) spans.now.method }
    requires headers { All (IsHeaderWithin (length head.now)) headers.now }
    ensures value { verdict_at head.now result ≡ verdict (parts_at head.now spans.now headers.now) }
    ensures within { IfOk result (IsLayoutWithin (length head.now)) }
{
    let wanted = find_wanted(head, headers);
    verdict(head, spans, &wanted)
}

// The first fault in the order of the rules, or what the head asks for.
#[tactic(auto, unfolding(crate::specs::Layouts::verdict_found))]
fn verdict(head: &[u8], spans: &RequestSpans, wanted: &Wanted) -> Result<Layout, HttpFault>
    requires path { IsWithin (length head.now) spans.now.path }
    requires method { IsWithin (length head.now) spans.now.method }
    requires content_length { IsValuesWithin (length head.now) wanted.now.content_length }
    requires host { IsValuesWithin (length head.now) wanted.now.host }
    ensures value { verdict_at head.now result ≡ verdict_found head.now spans.now wanted.now }
    ensures within { IfOk result (IsLayoutWithin (length head.now)) }
{
    none_found(wanted.transfer_encoding)?;
    let length = length_found(head, wanted.content_length)?;
    let verb = verb_of(spans.method.of(head))?;
    let query = query_of(head, spans.path)?;
    let query = query_for(head, verb, query)?;
    let host = one_found(head, wanted.host)?;
    let close = spans.version == 0 || wanted.close;
    Ok(Layout {
        verb,
        host,
        query,
        length,
        close,
    })
}

fn none_found(found: Values) -> Result<(), HttpFault>
    ensures { result ≡ none_found found }
{
    match found {
        Values::Absent => Ok(()),
        Values::Once(_) => Err(HttpFault::Invalid),
        Values::Twice => Err(HttpFault::Invalid),
    }
}

fn length_found(head: &[u8], found: Values) -> Result<usize, HttpFault>
    requires { IsValuesWithin (length head.now) found }
    ensures { result ≡ length_found head.now found }
{
    match found {
        Values::Absent => Ok(0),
        Values::Once(value) => length_in(value.of(head)),
        Values::Twice => Err(HttpFault::Invalid),
    }
}

// The one value that was found.
fn one_found(head: &[u8], found: Values) -> Result<Span, HttpFault>
    requires { IsValuesWithin (length head.now) found }
    ensures value { bytes_at head.now result ≡ one_found head.now found }
    ensures within { IfOk result (IsWithin (length head.now)) }
{
    match found {
        Values::Once(value) => Ok(value),
        Values::Absent => Err(HttpFault::Invalid),
        Values::Twice => Err(HttpFault::Invalid),
    }
}

// The length that a Content-Length header gives: 1 to 10 digits, leading zeros among them.
fn length_in(value: &[u8]) -> Result<usize, HttpFault>
    ensures { result ≡ length_in value.now }
{
    if !is_length(value) {
        return Err(HttpFault::Invalid);
    }
    let number = value_of(value);
    if number <= MOST_BODY {
        Ok(number as usize)
    } else {
        Err(HttpFault::BodyTooLong)
    }
}

// The number that digits are; each step takes at most the sum and the digit of a byte.
fn value_of(digits: &[u8]) -> u64
    requires { length digits.now ≤ 10 }
    ensures { result ≡ value_after 0 digits.now }
{
    let mut number: u64 = 0;
    for digit in digits {
        number = number * 10 + digit.saturating_sub(b'0') as u64;
    }
    number
}

fn is_length(value: &[u8]) -> bool
    ensures { result ≡ is_length value.now }
{
    1 <= value.len() && value.len() <= 10 && are_digits(value)
}

fn are_digits(value: &[u8]) -> bool
    ensures { result ≡ list_all is_ascii_digit value.now }
{
    value.iter().all(|c| c.is_ascii_digit())
}

#[tactic(auto, unfolding(crate::specs::Heads::get_word, crate::specs::Heads::post_word))]
fn verb_of(method: &[u8]) -> Result<Verb, HttpFault>
    ensures { result ≡ verb_of method.now }
{
    if method == b"GET".as_slice() {
        return Ok(Verb::Get);
    }
    if method == b"POST".as_slice() {
        return Ok(Verb::Post);
    }
    Err(HttpFault::Invalid)
}

// The query of the target `/`, which is empty, or of `/?` and a query.
fn query_of(head: &[u8], path: Span) -> Result<Span, HttpFault>
    requires { IsWithin (length head.now) path }
    ensures value { bytes_at head.now result ≡ query_of (span_bytes head.now path) }
    ensures within { IfOk result (IsWithin (length head.now)) }
{
    match path.of(head) {
        [b'/'] => Ok(Span {
            start: path.end,
            end: path.end,
        }),
        [b'/', b'?', ..] => Ok(Span {
            start: path.start + 2,
            end: path.end,
        }),
        _ => Err(HttpFault::Invalid),
    }
}

// The form of a POST is its body, so its target has no query.
fn query_for(head: &[u8], verb: Verb, query: Span) -> Result<Span, HttpFault>
    requires { IsWithin (length head.now) query }
    ensures value { bytes_at head.now result ≡ query_for verb (span_bytes head.now query) }
    ensures within { IfOk result (IsWithin (length head.now)) }
{
    match verb {
        Verb::Get => Ok(query),
        Verb::Post if query.of(head).is_empty() => Ok(query),
        Verb::Post => Err(HttpFault::Invalid),
    }
}
