// The whole response that tells an outcome.
ghost use Rattle.std.specs.Prelude.{◌≡◌, ◌≤◌, ◌++◌, length, IfOk, OnOk};
ghost use Rattle.sdb_http.specs.Responses.{response_text};
ghost use Rattle.sdb_reply.specs.Bodies.{body_text, status_of};
ghost use Rattle.sdb_reply.specs.Faults.{head_text};

use crate::bodies::append_body;
use crate::faults::append_head;
use crate::outcome::{Outcome, RequestId};
use crate::reckoning::foreseen;
use sdb_base::{Bytes, OutOfMemory};
use sdb_http::response;
use std::alloc::Global;

// More bytes than any head of a response has.
const HEAD_ROOM: usize = 192;

/// The whole response that tells an outcome, with the request's id and the units that it used. With `close` it says
/// that the connection is closed. Where no text of the body needs an escape the response is written once, into
/// memory that is taken once: the length of the body is foreseen.
pub fn told<'a>(
    alloc: Global,
    outcome: &Outcome<'a>,
    id: &RequestId,
    units: u64,
    close: bool,
) -> Result<Bytes, OutOfMemory>
    ensures { IfOk result (λ out. out.bytes ≡ response_text (status_of outcome.now) (body_text outcome.now id.now units) close) }
{
    let size = foreseen(outcome);
    let mut out = Bytes::with_room(alloc, size.saturating_add(HEAD_ROOM))?;
    append_head(&mut out, outcome.status(), size, close)?;
    let start = out.len();
    append_body(alloc, &mut out, outcome, id, units)?;
    if out.len() - start == size {
        return Ok(out);
    }
    response(alloc, outcome.status(), &out.as_slice()[start..], close)
}
