// The text of answers and of events.
ghost use Rattle.std.specs.Prelude.{◌≡◌, ℕ, ◌++◌, ◌∷◌, [], IfOk, OnOk, decimal};
ghost use Rattle.sdb_script.specs.Events as event;
ghost use Rattle.sdb_script.specs.Spelled.{spelled, sent_record, closed_record};

use itoa::Buffer;
use sdb_base::{Bytes, Out, OutOfMemory};
use std::alloc::Global;

// The bytes of a record but for those that it carries.
const MOST_FRAME: usize = 64;

/// The record of an answer that is sent: `S c n` and LF, its n bytes, LF.
#[tactic(auto, using(std::proofs::Common::append_assoc))]
pub fn write_out(alloc: Global, out: &Out) -> Result<Bytes, OutOfMemory>
    ensures { IfOk result (λ text. text.bytes ≡ sent_record out.now.conn out.now.bytes.bytes) }
{
    let bytes = out.bytes.as_slice();
    let mut text = Bytes::with_room(alloc, bytes.len() + MOST_FRAME)?;
    text.append(b"S ")?;
    append_decimal(&mut text, u64::from(out.conn))?;
    text.append(b" ")?;
    append_decimal(&mut text, bytes.len() as u64)?;
    text.append(b"\n")?;
    text.append(bytes)?;
    text.append(b"\n")?;
    Ok(text)
}

/// The record of a connection that the server closes or refuses: `X c` and LF.
#[tactic(auto, using(std::proofs::Common::append_assoc))]
pub fn write_closed(alloc: Global, conn: u32) -> Result<Bytes, OutOfMemory>
    ensures { IfOk result (λ text. text.bytes ≡ closed_record conn) }
{
    let mut text = Bytes::new(alloc);
    text.append(b"X ")?;
    append_decimal(&mut text, u64::from(conn))?;
    text.append(b"\n")?;
    Ok(text)
}

// Appends the record of a connection that is opened.
#[tactic(auto, using(std::proofs::Common::append_assoc), unfolding(crate::specs::Spelled::spelled))]
pub(crate) fn append_opened(text: &mut Bytes, conn: u32) -> Result<(), OutOfMemory>
    ensures { OnOk result (text.new.bytes ≡ text.old.bytes ++ spelled (event.Opened conn)) }
{
    text.append(b"O ")?;
    append_decimal(text, u64::from(conn))?;
    text.append(b"\n")
}

// Appends the record of bytes that come on a connection at a moment.
#[tactic(auto, using(std::proofs::Common::append_assoc), unfolding(crate::specs::Spelled::spelled))]
pub(crate) fn append_piece(
    text: &mut Bytes,
    conn: u32,
    moment: u64,
    bytes: &[u8],
) -> Result<(), OutOfMemory>
    ensures { OnOk result (text.new.bytes ≡ text.old.bytes ++ spelled (event.Piece conn moment bytes.now)) }
{
    text.append(b"D ")?;
    append_decimal(text, u64::from(conn))?;
    text.append(b" ")?;
    append_decimal(text, moment)?;
    text.append(b" ")?;
    append_decimal(text, bytes.len() as u64)?;
    text.append(b"\n")?;
    text.append(bytes)?;
    text.append(b"\n")
}

// Appends the record of a commit.
#[tactic(auto, unfolding(crate::specs::Spelled::spelled))]
pub(crate) fn append_commit(text: &mut Bytes) -> Result<(), OutOfMemory>
    ensures { OnOk result (text.new.bytes ≡ text.old.bytes ++ spelled event.Commit) }
{
    text.append(b"C\n")
}

// Appends the record of a turn of background work.
#[tactic(auto, unfolding(crate::specs::Spelled::spelled))]
pub(crate) fn append_work(text: &mut Bytes) -> Result<(), OutOfMemory>
    ensures { OnOk result (text.new.bytes ≡ text.old.bytes ++ spelled event.Work) }
{
    text.append(b"W\n")
}

fn append_decimal(text: &mut Bytes, number: u64) -> Result<(), OutOfMemory>
    ensures { OnOk result (text.new.bytes ≡ text.old.bytes ++ decimal number) }
{
    let mut digits = Buffer::new();
    text.append(digits.format(number).as_bytes())
}
