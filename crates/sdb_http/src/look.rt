//! What stands at the front of the bytes that a feed holds.

ghost use Rattle.std.specs.Prelude.{◌≡◌, ◌+◌, ◌≤◌, IfOk, length, take, drop};
ghost use Rattle.sdb_http.specs.Inside.{HasLayout, IsKnown, Looks, seen};
ghost use Rattle.sdb_http.specs.Layouts.{shape_at};
ghost use Rattle.sdb_http.specs.Messages.{message_of, trim};

use crate::fault::HttpFault;
use crate::head::{HEAD_LIMIT, find_end, judge};
use crate::layout::Layout;
use crate::message::Message;
use sdb_base::{Bytes, OutOfMemory, Verb};
use std::alloc::Global;

// What is known of the head at the front of the held bytes.
#[derive(Clone, Copy, Debug)]
pub(crate) enum Known {
    // It doesn't end among so many bytes.
    Scanned(usize),
    // The place of its last byte, and its lawful parts.
    Judged(usize, Layout),
}

// What stands at the front of the held bytes.
#[derive(Clone, Copy, Debug)]
pub(crate) enum Found {
    // No whole message and no fault; what is known of its head.
    More(Known),
    Fault(HttpFault),
    // A whole message: the place of its head's last byte, and its parts.
    Whole(usize, Layout),
}

// Looks at the front of the held bytes, going on from what is known. It takes no memory.
pub(crate) fn look(held: &[u8], known: Known) -> Found
    requires trimmed { trim held.now ≡ held.now }
    requires known { IsKnown held.now known }
    ensures { Looks held.now result }
{
    match known {
        Known::Scanned(from) => look_for_head(held, from),
        Known::Judged(last, layout) => look_for_body(held, last, layout),
    }
}

fn look_for_head(held: &[u8], from: usize) -> Found
    requires trimmed { trim held.now ≡ held.now }
    requires known { IsKnown held.now (Known.Scanned from) }
    ensures { Looks held.now result }
{
    match find_end(held, from) {
        Some(last) => match judge(&held[..last + 1]) {
            Ok(layout) => look_for_body(held, last, layout),
            Err(fault) => Found::Fault(fault),
        },
        None if held.len() < HEAD_LIMIT => Found::More(Known::Scanned(held.len())),
        None => Found::Fault(HttpFault::HeadTooLong),
    }
}

fn look_for_body(held: &[u8], last: usize, layout: Layout) -> Found
    requires trimmed { trim held.now ≡ held.now }
    requires known { HasLayout held.now last layout }
    ensures { Looks held.now result }
{
    if layout.length <= held.len() - (last + 1) {
        Found::Whole(last, layout)
    } else {
        Found::More(Known::Judged(last, layout))
    }
}

// The message whose parts stand at these places.
pub(crate) fn message_at(
    alloc: Global,
    held: &[u8],
    last: usize,
    layout: &Layout,
) -> Result<Message, OutOfMemory>
    requires known { HasLayout held.now last layout.now }
    requires whole { last + 1 + layout.now.length ≤ length held.now }
    ensures { IfOk result (λ m. seen m ≡ message_of (shape_at (take (last + 1) held.now) layout.now)
        (take layout.now.length (drop (last + 1) held.now))) }
{
    let (head, after) = held.split_at(last + 1);
    let host = Bytes::from_slice(alloc, layout.host.of(head))?;
    let form = match layout.verb {
        Verb::Get => layout.query.of(head),
        Verb::Post => after.split_at(layout.length).0,
    };
    Ok(Message {
        verb: layout.verb,
        host,
        form: Bytes::from_slice(alloc, form)?,
        close: layout.close,
    })
}

// What is held once a whole message is taken off: the bytes after it, without CR and LF at their front.
pub(crate) fn rest_after<'a>(held: &'a [u8], last: usize, layout: &Layout) -> &'a [u8]
    requires { last + 1 + layout.now.length ≤ length held.now }
    ensures { result.now ≡ trim (drop layout.now.length (drop (last + 1) held.now)) }
{
    let (_, after) = held.split_at(last + 1);
    let (_, rest) = after.split_at(layout.length);
    trim(rest)
}

// The bytes without CR and LF at their front.
pub(crate) fn trim(bytes: &[u8]) -> &[u8]
    ensures { result.now ≡ trim bytes.now }
{
    let mut left = bytes;
    while let [b'\r' | b'\n', rest @ ..] = left {
        left = rest;
    }
    left
}
