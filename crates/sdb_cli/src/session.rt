// Lines that come in pieces.
ghost use Rattle.std.specs.Prelude.{◌≡◌, ℕ, ◌+◌, ◌-◌, ◌^◌, ◌<◌, ◌≤◌, List, [], ◌∷◌, ◌++◌, length, take, drop, OnOk, MatchOption};
ghost use Rattle.sdb_cli.specs.Lines.{IsOneLine, CutsLines, lines_of};
ghost use Rattle.sdb_cli.specs.Plain.{Answered, Tells, beginning};
ghost use Rattle.sdb_cli.specs.Fed.{Fed};
ghost use Rattle.sdb_cli.specs.Standing.{standing};

use crate::answer::{answer, refuse_long_line};
use crate::gathered::Gathered;
use crate::held::HeldLine;
use sdb_base::OutOfMemory;
use sdb_domain::Accounts;
use std::alloc::Global;

/// The accounts, and how far the lines have come.
#[derive(Debug, Drop)]
pub(crate) struct Session {
    alloc: Global,
    accounts: Accounts,
    // The number of the next line, from 1.
    number: u64,
    held: HeldLine,
}

impl Session {
    pub(crate) fn new(alloc: Global) -> Session
        ensures { standing result ≡ beginning }
    {
        Session {
            alloc,
            accounts: Accounts::new(alloc),
            number: 1,
            held: HeldLine::new(alloc),
        }
    }

    /// Appends the answers to the lines that end in the piece, and holds what stands after them.
    pub(crate) fn feed(&mut self, piece: &[u8], out: &mut Gathered) -> Result<(), OutOfMemory>
        requires numbered { self.old.number + length piece.now < 2 ^ 64 }
        requires held { IsOneLine self.old.held }
        ensures { OnOk result (Fed (standing self.old) (standing self.new) out.old.bytes out.new.bytes piece.now []) }
    {
        let mut rest = piece;
        'lines: while let Some(end) = line_end(rest) {
            self.end_line(&rest[..end], out)?;
            rest = &rest[end + 1..];
        }
        self.held.extend(rest)?;
        Ok(())
    }

    /// Appends the answer to the last line, where it has no LF and isn't empty.
    pub(crate) fn finish(&mut self, out: &mut Gathered) -> Result<(), OutOfMemory>
        requires numbered { self.old.number < 2 ^ 64 - 1 }
        requires held { IsOneLine self.old.held }
        ensures { OnOk result ((text : List ℕ) × Tells lines_of (standing self.old) [] text × (out.new.bytes ≡ out.old.bytes ++ text)) }
    {
        if !self.held.is_empty() {
            self.end_line(&[], out)?;
        }
        Ok(())
    }

    // Answers the line that is held and ends with `end`, and begins a new one.
    fn end_line(&mut self, end: &[u8], out: &mut Gathered) -> Result<(), OutOfMemory>
        requires { self.old.number + 1 < 2 ^ 64 }
        ensures answer { OnOk result (Answered self.old.number self.old.accounts (self.old.held ++ end.now) self.new.accounts out.old.bytes out.new.bytes) }
        ensures number { OnOk result (self.new.number ≡ self.old.number + 1) }
        ensures held { OnOk result (self.new.held ≡ []) }
    {
        self.answer_line(end, out)?;
        self.held.clear();
        self.number += 1;
        Ok(())
    }

    // A line that came in one piece is answered as it stands there.
    fn answer_line(&mut self, end: &[u8], out: &mut Gathered) -> Result<(), OutOfMemory>
        ensures answer { OnOk result (Answered self.old.number self.old.accounts (self.old.held ++ end.now) self.new.accounts out.old.bytes out.new.bytes) }
        ensures number { self.new.number ≡ self.old.number }
    {
        if self.held.is_empty() {
            return answer(self.alloc, &mut self.accounts, self.number, end, out);
        }
        self.held.extend(end)?;
        self.answer_held(out)
    }

    // Answers the line that is held.
    fn answer_held(&mut self, out: &mut Gathered) -> Result<(), OutOfMemory>
        ensures answer { OnOk result (Answered self.old.number self.old.accounts self.old.held self.new.accounts out.old.bytes out.new.bytes) }
        ensures number { self.new.number ≡ self.old.number }
    {
        match self.held.line() {
            Some(line) => answer(self.alloc, &mut self.accounts, self.number, line, out),
            None => refuse_long_line(self.number, out),
        }
    }
}

// Where the first LF stands.
fn line_end(bytes: &[u8]) -> Option<usize>
    ensures { MatchOption result (IsOneLine bytes.now) (λ end.
        (end < length bytes.now) × IsOneLine (take end bytes.now) × (drop end bytes.now ≡ 10 ∷ drop (end + 1) bytes.now)) }
{
    bytes.iter().position(|b| *b == b'\n')
}
