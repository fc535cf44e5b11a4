//! The bytes of responses.

ghost use Rattle.std.specs.Prelude.{◌≡◌, ◌++◌, IfOk, OnOk, decimal};
ghost use Rattle.http.specs.StatusCode.{code_digits};
ghost use Rattle.sdb_http.specs.Responses.{close_line, close_lines, head_end, phrase_of, response_text, space_word, type_lines, version_word};
ghost use Rattle.sdb_tables.specs.Faults.{IsAnswerStatus};

use http::StatusCode;
use itoa::Buffer;
use sdb_base::{Bytes, OutOfMemory};
use std::alloc::Global;

// More bytes than any head of a response has.
const HEAD_ROOM: usize = 192;

/// The bytes of a response: status line, type and length of the body, and the body. The status is 200 or one
/// of the fault table; with `close` it says that the connection is closed (RFC 9112, sections 4 and 9.6).
pub fn response(alloc: Global, status: u16, body: &[u8], close: bool) -> Result<Bytes, OutOfMemory>
    requires { IsAnswerStatus status }
    ensures { IfOk result (λ out. out.bytes ≡ response_text status body.now close) }
{
    let mut out = Bytes::with_room(alloc, body.len().saturating_add(HEAD_ROOM))?;
    push_status(&mut out, status)?;
    push_length(&mut out, body.len())?;
    push_end(&mut out, close)?;
    out.append(body)?;
    Ok(out)
}

#[tactic(auto, using(std::proofs::Common::append_assoc))]
fn push_status(out: &mut Bytes, status: u16) -> Result<(), OutOfMemory>
    requires { IsAnswerStatus status }
    ensures { OnOk result (out.new.bytes
        ≡ out.old.bytes ++ (version_word ++ code_digits status ++ space_word ++ phrase_of status)) }
{
    let code = status_of(status);
    out.append(version_word())?;
    out.append(code.as_str().as_bytes())?;
    out.append(space_word())?;
    out.append(phrase_of(code))?;
    Ok(())
}

#[tactic(auto, using(std::proofs::Common::append_assoc))]
fn push_length(out: &mut Bytes, length: usize) -> Result<(), OutOfMemory>
    ensures { OnOk result (out.new.bytes ≡ out.old.bytes ++ (type_lines ++ decimal length)) }
{
    let mut digits = Buffer::new();
    out.append(type_lines())?;
    out.append(digits.format(length).as_bytes())?;
    Ok(())
}

#[tactic(auto, using(std::proofs::Common::append_assoc))]
fn push_end(out: &mut Bytes, close: bool) -> Result<(), OutOfMemory>
    ensures { OnOk result (out.new.bytes ≡ out.old.bytes ++ (close_lines close ++ head_end)) }
{
    out.append(close_lines(close))?;
    out.append(head_end())?;
    Ok(())
}

fn status_of(status: u16) -> StatusCode
    requires { IsAnswerStatus status }
    ensures { result ≡ status }
{
    StatusCode::from_u16(status).unwrap()
}

#[tactic(auto, unfolding(crate::specs::Responses::phrase_of))]
fn phrase_of(code: StatusCode) -> &'static [u8]
    ensures { result.now ≡ phrase_of code }
{
    match code.canonical_reason() {
        Some(phrase) => phrase.as_bytes(),
        None => b"",
    }
}

fn close_lines(close: bool) -> &'static [u8]
    ensures { result.now ≡ close_lines close }
{
    if close { close_line() } else { b"" }
}

#[tactic(auto, unfolding(crate::specs::Responses::version_word))]
fn version_word() -> &'static [u8]
    ensures { result.now ≡ version_word }
{
    b"HTTP/1.1 "
}

#[tactic(auto, unfolding(crate::specs::Responses::space_word))]
fn space_word() -> &'static [u8]
    ensures { result.now ≡ space_word }
{
    b" "
}

#[tactic(auto, unfolding(crate::specs::Responses::type_lines))]
fn type_lines() -> &'static [u8]
    ensures { result.now ≡ type_lines }
{
    b"\r\nContent-Type: text/xml\r\nContent-Length: "
}

#[tactic(auto, unfolding(crate::specs::Responses::close_line))]
fn close_line() -> &'static [u8]
    ensures { result.now ≡ close_line }
{
    b"\r\nConnection: close"
}

#[tactic(auto, unfolding(crate::specs::Responses::head_end))]
fn head_end() -> &'static [u8]
    ensures { result.now ≡ head_end }
{
    b"\r\n\r\n"
}
