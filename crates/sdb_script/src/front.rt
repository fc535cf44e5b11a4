// What stands at the front of a script's bytes.
ghost use Rattle.std.specs.Prelude.{◌≡◌, ◌+◌, ◌<◌, ◌≤◌, ◌==◌, length, take, position, Some, IfOk, IfSome};
ghost use Rattle.sdb_base.specs.Ascii.{line_feed};
ghost use Rattle.sdb_script.specs.Fronts.{most_line, most_unjudged, front, piece_front as piece, record_front as recorded};
ghost use Rattle.sdb_script.specs.Lines.{IsSmall, most_piece};
ghost use Rattle.sdb_script.specs.Shown.{shown_front, IsShort, IsWithin};

use crate::connections::Connections;
use crate::event::ScriptEvent;
use crate::line::{Line, line_of};
use sdb_base::{Bytes, OutOfMemory};
use std::alloc::Global;

// A line ends within so many bytes, its LF among them.
const MOST_LINE: usize = 32;

// What stands at the front of bytes.
#[derive(Debug, Drop)]
pub(crate) enum Front {
    // A record, and the number of its bytes.
    Whole(ScriptEvent, usize),
    // A record that is wrong.
    Wrong,
    // Too few bytes to judge.
    Unjudged,
}

// Judges the record at the front of the bytes that follow some events.
#[tactic(auto, unfolding(crate::specs::Fronts::front))]
pub(crate) fn front_of(
    alloc: Global,
    known: &Connections,
    bytes: &[u8],
) -> Result<Front, OutOfMemory>
    ensures shown { IfOk result (λ found. shown_front found ≡ Some (front known.now bytes.now)) }
    ensures short { IfOk result (IsShort most_unjudged bytes.now) }
    ensures within { IfOk result (IsWithin (length bytes.now)) }
{
    let Some(end) = line_end(bytes) else {
        return Ok(if bytes.len() < MOST_LINE {
            Front::Unjudged
        } else {
            Front::Wrong
        });
    };
    let (_, rest) = bytes.split_at(end + 1);
    let Some(line) = line_of(&bytes[..end]) else {
        return Ok(Front::Wrong);
    };
    if !known.may_follow(line) {
        return Ok(Front::Wrong);
    }
    record_front(alloc, line, end + 1, rest)
}

// Where the first LF stands, where one stands among the first 32 bytes.
fn line_end(bytes: &[u8]) -> Option<usize>
    ensures place { result ≡ position (λ b. b == line_feed) (take most_line bytes.now) }
    ensures within { IfSome result (λ end. (end < length bytes.now) × (end < most_line)) }
{
    first_line_feed(&bytes[..MOST_LINE.min(bytes.len())])
}

fn first_line_feed(bytes: &[u8]) -> Option<usize>
    ensures place { result ≡ position (λ b. b == line_feed) bytes.now }
    ensures within { IfSome result (λ end. end < length bytes.now) }
{
    bytes.iter().position(|b| *b == b'\n')
}

// The record of a line of `at` bytes with its LF.
fn record_front(alloc: Global, line: Line, at: usize, rest: &[u8]) -> Result<Front, OutOfMemory>
    requires place { at ≤ most_line }
    requires small { IsSmall line }
    ensures shown { IfOk result (λ found. shown_front found ≡ Some (recorded line at rest.now)) }
    ensures short { IfOk result (IsShort most_piece rest.now) }
    ensures within { IfOk result (IsWithin (at + length rest.now)) }
{
    match line {
        Line::Opened(conn) => Ok(Front::Whole(ScriptEvent::Opened(conn), at)),
        Line::Piece(conn, moment, size) => {
            piece_front(alloc, conn, moment, size as usize, at, rest)
        }
        Line::Ended(conn) => Ok(Front::Whole(ScriptEvent::Ended(conn), at)),
        Line::Commit => Ok(Front::Whole(ScriptEvent::Commit, at)),
        Line::Work => Ok(Front::Whole(ScriptEvent::Work, at)),
    }
}

// A piece: `size` bytes, and an LF behind them.
fn piece_front(
    alloc: Global,
    conn: u32,
    moment: u64,
    size: usize,
    at: usize,
    rest: &[u8],
) -> Result<Front, OutOfMemory>
    requires place { at ≤ most_line }
    requires small { size ≤ most_piece }
    ensures shown { IfOk result (λ found. shown_front found ≡ Some (piece conn moment size at rest.now)) }
    ensures short { IfOk result (IsShort most_piece rest.now) }
    ensures within { IfOk result (IsWithin (at + length rest.now)) }
{
    if rest.len() <= size {
        return Ok(Front::Unjudged);
    }
    if rest[size] != b'\n' {
        return Ok(Front::Wrong);
    }
    let bytes = Bytes::from_slice(alloc, &rest[..size])?;
    Ok(Front::Whole(ScriptEvent::Piece(conn, moment, bytes), at + size + 1))
}
