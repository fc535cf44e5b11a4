// The parts that bodies share.
ghost use Rattle.std.specs.Prelude.{◌≡◌, ◌+◌, ◌≤◌, ◌++◌, length, IsOk, OnOk};
ghost use Rattle.sdb_reply.specs.Bodies.{ending, hours_text, id_text, opening, refused, result_word};
ghost use Rattle.sdb_reply.specs.Digits.{padded};
ghost use Rattle.sdb_reply.specs.Elements.{end_tag, start_tag};
ghost use Rattle.sdb_action.specs.Actions.{action_text};

use crate::digits::write_padded;
use crate::outcome::RequestId;
use crate::pieces::append_all;
use crate::words;
use itoa::Buffer;
use sdb_action::Action;
use sdb_base::{Bytes, OutOfMemory};
use sdb_tables::{Refusal, fault_row};

// A unit is 10^-10 of an hour.
const UNITS_AN_HOUR: u64 = 10_000_000_000;

// The digits of an id.
#[derive(Drop)]
struct IdDigits {
    conn: [u8; 8],
    number: [u8; 12],
}

// Appends what stands before the result.
#[tactic(auto, using(std::proofs::Common::append_assoc))]
pub(crate) fn append_opening(out: &mut Bytes, action: Action) -> Result<(), OutOfMemory>
    ensures { OnOk result (out.new.bytes ≡ out.old.bytes ++ opening action) }
{
    append_all(
        out,
        &[words::head(), action.name().as_bytes(), words::opened()],
    )
}

// Appends what stands before a result, and the result's start tag.
#[tactic(auto, using(std::proofs::Common::append_assoc), unfolding(crate::specs::Bodies::result_word))]
pub(crate) fn append_start(out: &mut Bytes, action: Action) -> Result<(), OutOfMemory>
    ensures { OnOk result (out.new.bytes ≡ out.old.bytes ++ (opening action ++ start_tag (action_text action ++ result_word))) }
{
    append_opening(out, action)?;
    append_all(out, &[b"<", action.name().as_bytes(), b"Result>"])
}

// Appends the result's end tag, and what stands after it.
#[tactic(auto, using(std::proofs::Common::append_assoc), unfolding(crate::specs::Bodies::result_word))]
pub(crate) fn append_end(
    out: &mut Bytes,
    action: Action,
    id: &RequestId,
    units: u64,
) -> Result<(), OutOfMemory>
    ensures { OnOk result (out.new.bytes ≡ out.old.bytes ++ (end_tag (action_text action ++ result_word) ++ ending action id.now units)) }
{
    append_all(out, &[b"</", action.name().as_bytes(), b"Result>"])?;
    append_ending(out, action, id, units)
}

// Appends what stands after it.
#[tactic(auto, using(std::proofs::Common::append_assoc))]
pub(crate) fn append_ending(
    out: &mut Bytes,
    action: Action,
    id: &RequestId,
    units: u64,
) -> Result<(), OutOfMemory>
    ensures { OnOk result (out.new.bytes ≡ out.old.bytes ++ ending action id.now units) }
{
    out.append(words::before_id())?;
    append_id(out, id)?;
    out.append(words::before_usage())?;
    append_hours(out, units)?;
    append_all(
        out,
        &[
            words::after_usage(),
            action.name().as_bytes(),
            words::closed(),
        ],
    )?;
    Ok(())
}

// Appends the body of a refused request. Where there is room for it this takes no memory.
pub(crate) fn append_refused(
    out: &mut Bytes,
    refusal: &Refusal,
    id: &RequestId,
    units: u64,
) -> Result<(), OutOfMemory>
    ensures ok { OnOk result (out.new.bytes ≡ out.old.bytes ++ refused refusal.now id.now units) }
    ensures room { length (refused refusal.now id.now units) ≤ out.old.spare → IsOk result }
    ensures spare { OnOk result (out.old.spare ≤ out.new.spare + length (refused refusal.now id.now units)) }
{
    let row = fault_row(refusal);
    let digits = id_digits(id);
    let parts = hour_parts(units);
    let mut whole = Buffer::new();
    append_all(
        out,
        &[
            words::before_code(),
            row.code.as_bytes(),
            words::before_message(),
            row.message.as_bytes(),
            words::after_message(),
            whole.format(units / UNITS_AN_HOUR).as_bytes(),
            b".",
            &parts,
            words::before_refused_id(),
            &digits.conn,
            words::between(),
            &digits.number,
            words::after_refused_id(),
        ],
    )
}

#[tactic(auto, using(std::proofs::Common::append_assoc))]
fn append_id(out: &mut Bytes, id: &RequestId) -> Result<(), OutOfMemory>
    ensures { OnOk result (out.new.bytes ≡ out.old.bytes ++ id_text id.now) }
{
    let digits = id_digits(id);
    append_all(out, &[&digits.conn, words::between(), &digits.number])
}

fn id_digits(id: &RequestId) -> IdDigits
    ensures conn { result.conn ≡ padded 16 8 id.now.conn }
    ensures number { result.number ≡ padded 16 12 id.now.number }
{
    let mut conn = [0; 8];
    let mut number = [0; 12];
    write_padded(&mut conn, 16, id.conn as u64);
    write_padded(&mut number, 16, id.number);
    IdDigits { conn, number }
}

/// Appends units of 10^-10 of an hour, as hours: a whole number, a point and ten digits.
#[tactic(auto, using(std::proofs::Common::append_assoc))]
pub fn append_hours(out: &mut Bytes, units: u64) -> Result<(), OutOfMemory>
    ensures { OnOk result (out.new.bytes ≡ out.old.bytes ++ hours_text units) }
{
    let mut whole = Buffer::new();
    let parts = hour_parts(units);
    append_all(
        out,
        &[whole.format(units / UNITS_AN_HOUR).as_bytes(), b".", &parts],
    )
}

// The ten digits after the point.
fn hour_parts(units: u64) -> [u8; 10]
    ensures { result ≡ padded 10 10 units }
{
    let mut parts = [0; 10];
    write_padded(&mut parts, 10, units);
    parts
}
