// The line of a record.
ghost use Rattle.std.specs.Prelude.{◌≡◌, ◌≤◌, IfSome, option_map};
ghost use Rattle.sdb_keys.specs.Reading.{is_space, split_at_space as at_space};
ghost use Rattle.sdb_script.specs.Lines.{IsSmall, bare_line as bare, counted_of as counted, numbered_line as numbered, piece_of as piece, line_of as said};
ghost use Rattle.std.specs.List.{position};

use sdb_base::read_decimal;

// What a line says. A piece has its connection, its moment and the number of its bytes.
#[derive(Clone, Copy, Debug, PartialEq, Eq)]
pub(crate) enum Line {
    Opened(u32),
    Piece(u32, u64, u32),
    Ended(u32),
    Commit,
    Work,
}

const MOST_MOMENT: u64 = 253_402_300_799;

const MOST_PIECE: u32 = 65_536;

// What a line says, without its LF, where it is the line of a record.
#[tactic(auto, unfolding(crate::specs::Lines::line_of))]
pub(crate) fn line_of(line: &[u8]) -> Option<Line>
    ensures says { result ≡ said line.now }
    ensures small { IfSome result IsSmall }
{
    match line {
        [] => None,
        [letter] => bare_line(*letter),
        [letter, blank, text @ ..] => {
            if *blank != b' ' {
                return None;
            }
            numbered_line(*letter, text)
        }
    }
}

fn bare_line(letter: u8) -> Option<Line>
    ensures says { result ≡ bare letter }
    ensures small { IfSome result IsSmall }
{
    match letter {
        b'C' => Some(Line::Commit),
        b'W' => Some(Line::Work),
        _ => None,
    }
}

fn numbered_line(letter: u8, text: &[u8]) -> Option<Line>
    ensures says { result ≡ numbered letter text.now }
    ensures small { IfSome result IsSmall }
{
    match letter {
        b'O' => Some(Line::Opened(counted_of(text, u32::MAX)?)),
        b'E' => Some(Line::Ended(counted_of(text, u32::MAX)?)),
        b'D' => piece_of(text),
        _ => None,
    }
}

// `c t n`: a connection, a moment and a number of bytes.
#[tactic(auto, unfolding(crate::specs::Lines::piece_of))]
fn piece_of(text: &[u8]) -> Option<Line>
    ensures says { result ≡ piece text.now }
    ensures small { IfSome result IsSmall }
{
    let (conn, rest) = split_at_space(text)?;
    let (moment, size) = split_at_space(rest)?;
    let conn = counted_of(conn, u32::MAX)?;
    let moment = read_decimal(moment, MOST_MOMENT)?;
    let size = counted_of(size, MOST_PIECE)?;
    Some(Line::Piece(conn, moment, size))
}

// A number from 1.
fn counted_of(text: &[u8], most: u32) -> Option<u32>
    ensures value { result ≡ counted text.now most }
    ensures within { IfSome result (λ number. number ≤ most) }
{
    match read_decimal(text, u64::from(most))? {
        0 => None,
        number => Some(number as u32),
    }
}

// What stands before the first space and after it.
fn split_at_space(text: &[u8]) -> Option<(&[u8], &[u8])>
    ensures { option_map (λ parts. (parts.0.now, parts.1.now)) result ≡ at_space text.now }
{
    let at = space_at(text)?;
    let (_, rest) = text.split_at(at + 1);
    Some((&text[..at], rest))
}

fn space_at(text: &[u8]) -> Option<usize>
    ensures { result ≡ position is_space text.now }
{
    text.iter().position(|b| *b == b' ')
}
