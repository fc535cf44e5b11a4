//! Where a head ends, and the verdict on its bytes.

ghost use Rattle.std.specs.Prelude.{◌≡◌, ℕ, ◌<◌, ◌≤◌, IfOk, MatchOption, length, false};
ghost use Rattle.sdb_http.specs.Heads.{Judged};
ghost use Rattle.sdb_http.specs.Inside.{HasNoEnd};
ghost use Rattle.sdb_http.specs.Layouts.{IsLayoutWithin, verdict_at};
ghost use Rattle.sdb_http.specs.Messages.{EndsAt, closes_head};

use crate::fault::HttpFault;
use crate::layout::Layout;
use crate::verdict::judge_parts;
use httparse::Status;
use httparse::spans::{EMPTY_HEADER_SPAN, parse_request};
use memchr::memchr;

// A head has at most so many bytes.
pub(crate) const HEAD_LIMIT: usize = 16_384;

// Where the last byte of the head stands, that of its first blank line, among the first 16,384 bytes.
// It is known that the head doesn't end before `from`, so a head that comes in pieces is scanned once.
pub(crate) fn find_end(held: &[u8], from: usize) -> Option<usize>
    requires { (k : ℕ) → k < from → closes_head held.now k ≡ false }
    ensures { MatchOption result
        ((k : ℕ) → k < HEAD_LIMIT → k < length held.now → closes_head held.now k ≡ false)
        (λ last. EndsAt held.now last × (last < HEAD_LIMIT)) }
{
    let limit = held.len().min(HEAD_LIMIT);
    let mut at = from.min(limit);
    'lines: loop {
        match line_end(held, at, limit) {
            None => return None,
            Some(end) => {
                if closes_head(held, end) {
                    return Some(end);
                }
                at = end + 1;
            }
        }
    }
}

// The place of the first LF from `at` on and before `limit`.
fn line_end(held: &[u8], at: usize, limit: usize) -> Option<usize>
    requires within { at ≤ limit }
    requires limit { limit ≤ length held.now }
    ensures { MatchOption result (HasNoEnd held.now at limit)
        (λ end. (end < limit) × (at ≤ end) × HasNoEnd held.now at end) }
{
    let searched = &held[at..limit];
    match memchr(b'\n', searched) {
        Some(place) => Some(at + place),
        None => None,
    }
}

// Whether the byte at `at` closes a blank line.
fn closes_head(held: &[u8], at: usize) -> bool
    requires { at < length held.now }
    ensures { result ≡ closes_head held.now at }
{
    held[at] == b'\n'
        && ((1 <= at && held[at - 1] == b'\n')
            || (2 <= at && held[at - 1] == b'\r' && held[at - 2] == b'\n'))
}

// The verdict on the bytes of a whole head.
pub(crate) fn judge(head: &[u8]) -> Result<Layout, HttpFault>
    ensures judged { Judged head.now (verdict_at head.now result) }
    ensures within { IfOk result (IsLayoutWithin (length head.now)) }
{
    let mut headers = [EMPTY_HEADER_SPAN; 64];
    match parse_request(head, &mut headers) {
        Ok(Status::Complete(spans)) => {
            if spans.len != head.len() {
                return Err(HttpFault::Invalid);
            }
            judge_parts(head, &spans, &headers[..spans.headers])
        }
        _ => Err(HttpFault::Invalid),
    }
}
