// The answers that take no memory.
ghost use Rattle.std.specs.Prelude.{◌≡◌, ◌+◌, ◌≤◌, ◌<◌, [], ◌++◌, length, Bool, IsOk, OnOk};
ghost use Rattle.http.specs.StatusCode.{code_digits};
ghost use Rattle.sdb_http.specs.Responses.{close_lines as close_lines_of, phrase_of as phrase_text};
ghost use Rattle.sdb_reply.specs.Bodies.{refusal_units};
ghost use Rattle.sdb_reply.specs.Faults.{fault_text, head_text, refusal_text};
ghost use Rattle.sdb_reply.specs.declared.outcome.RequestId.{RequestId as Id};
ghost use Rattle.sdb_tables.specs.declared.refusal.Refusal.{Refusal as Cause};
ghost use Rattle.sdb_tables.specs.Faults.{IsAnswerStatus};

use crate::outcome::RequestId;
use crate::parts::append_refused;
use crate::pieces::append_all;
use crate::words;
use http::StatusCode;
use itoa::Buffer;
use sdb_base::{Bytes, OutOfMemory};
use sdb_tables::{FaultRow, Refusal, fault_row};

// The units of a refused request.
const REFUSAL_UNITS: u64 = 1_000;

// The bytes of a refusal's body beside its code and its message.
const REFUSAL_REST: usize = 199;

/// The spare, in bytes, that `fault_into` and `refusal_into` need: no response to a refused request is longer.
pub fn room() -> usize
    ensures value { result ≡ 1024 }
    ensures enough { (refusal : Cause) (id : Id) (close : Bool) → length (fault_text refusal id close) ≤ result }
{
    1_024
}

/// Makes `out` the whole response to a refused request, with the units of a refusal: the response whose body is
/// that of the refusal. With `close` it says that the connection is closed. It takes no memory.
pub fn fault_into(out: &mut Bytes, refusal: &Refusal, id: &RequestId, close: bool)
    requires empty { out.old.bytes ≡ [] }
    requires room { 1024 ≤ out.old.spare }
    ensures { out.new.bytes ≡ fault_text refusal.now id.now close }
{
    let row = fault_row(refusal);
    append_head(out, row.status, refusal_length(&row), close).unwrap();
    append_refused(out, refusal, id, REFUSAL_UNITS).unwrap();
}

/// Appends the body of a refused request, with the units of a refusal. It takes no memory.
pub fn refusal_into(out: &mut Bytes, refusal: &Refusal, id: &RequestId)
    requires { 1024 ≤ out.old.spare }
    ensures body { out.new.bytes ≡ out.old.bytes ++ refusal_text refusal.now id.now }
    ensures spare { out.old.spare ≤ out.new.spare + 1024 }
{
    append_refused(out, refusal, id, REFUSAL_UNITS).unwrap();
}

// The bytes of a refusal's body, by its row.
fn refusal_length(row: &FaultRow) -> usize
    requires { length row.now.code.now + length row.now.message.now < 1000 }
    ensures { result ≡ length row.now.code.now + length row.now.message.now + 199 }
{
    row.code.len() + row.message.len() + REFUSAL_REST
}

// Appends what stands before the body of a response, a body of `size` bytes. Where there is room for it this takes no memory.
pub(crate) fn append_head(
    out: &mut Bytes,
    status: u16,
    size: usize,
    close: bool,
) -> Result<(), OutOfMemory>
    requires { IsAnswerStatus status }
    ensures ok { OnOk result (out.new.bytes ≡ out.old.bytes ++ head_text status size close) }
    ensures room { length (head_text status size close) ≤ out.old.spare → IsOk result }
    ensures spare { OnOk result (out.old.spare ≤ out.new.spare + length (head_text status size close)) }
{
    let code = code_of(status);
    let mut digits = Buffer::new();
    append_all(
        out,
        &[
            words::version_word(),
            code.as_str().as_bytes(),
            words::space_word(),
            phrase_of(code),
            words::type_lines(),
            digits.format(size).as_bytes(),
            close_lines(close),
            words::head_end(),
        ],
    )
}

fn code_of(status: u16) -> StatusCode
    requires { IsAnswerStatus status }
    ensures { result ≡ status }
{
    StatusCode::from_u16(status).unwrap()
}

#[tactic(auto, unfolding(sdb_http::specs::Responses::phrase_of))]
fn phrase_of(code: StatusCode) -> &'static [u8]
    ensures { result.now ≡ phrase_text code }
{
    match code.canonical_reason() {
        Some(phrase) => phrase.as_bytes(),
        None => b"",
    }
}

fn close_lines(close: bool) -> &'static [u8]
    ensures { result.now ≡ close_lines_of close }
{
    if close { words::close_line() } else { b"" }
}
