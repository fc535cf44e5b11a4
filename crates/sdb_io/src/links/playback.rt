// Steps that are given out one after the other.
ghost use Rattle.std.specs.Prelude.{◌≡◌, ◌<◌, ◌≢◌, ◌↔◌, ℕ, length, map, position, slice_set, vec_len, IsTrue};
ghost use Rattle.sdb_io.specs.Playback.{is_opened, stage_in, step_of};
ghost use Rattle.sdb_io.specs.Links.{IsWithin, IsLater, last_after, Gives, IsUnopened, stages_after, closed_after, unopened, closed};

use super::{LinkEvent, LinkScript, LinkStep};
use crate::source::copy_front;
use sdb_base::Bytes;
use std::alloc::Global;
use std::marker::Model;

/// The steps of a script, and how far they were given. A closing is recorded in the Opened that was given: it
/// becomes an empty Piece of the connection, which takes no memory.
#[derive(Debug, Drop)]
pub(crate) struct Playback {
    alloc: Global,
    steps: Vec<LinkStep>,
    // How many steps were given whole, and how many bytes of the next one.
    at: usize,
    used: usize,
    last: u32,
}

impl Model for Playback {
    ghost use Rattle.sdb_io.specs.Playback.{Played, played_of, IsPlayed};

    ghost Value = { Played };

    ghost view = { λ p. played_of p.steps.items p.at p.used p.last };

    ghost invariant = { λ p. IsPlayed p.steps.items p.at p.used p.last };
}

impl Playback {
    ghost use Rattle.std.specs.Prelude.{true};
    ghost use Rattle.sdb_io.specs.Playback.{is_story};

    pub(crate) fn new(alloc: Global, script: LinkScript) -> Playback
        requires { is_story 0 script ≡ true }
        ensures to_come { result.to_come ≡ script }
        ensures stage { (k : ℕ) → stage_in result.given k ≡ unopened }
        ensures last { result.last ≡ 0 }
    {
        Playback {
            alloc,
            steps: script.steps,
            at: 0,
            used: 0,
            last: 0,
        }
    }

    /// Gives the next event, with the bytes of a Piece at the front of the buffer.
    pub(crate) fn give(&mut self, buf: &mut [u8]) -> LinkEvent
        requires { 0 < length buf.old }
        ensures given { Gives result buf.new self.old.to_come self.new.to_come }
        ensures within { IsWithin (length buf.new) result }
        ensures later { IsLater self.old.last result }
        ensures last { self.new.last ≡ last_after result self.old.last }
        ensures unopened { IsUnopened result (stage_in self.old.given) }
        ensures stage { (k : ℕ) → stage_in self.new.given k ≡ stages_after result (stage_in self.old.given) k }
    {
        if self.at == self.steps.len() {
            return LinkEvent::Closed;
        }
        match &self.steps[self.at] {
            LinkStep::Opened(conn) => {
                let conn = *conn;
                self.last = conn;
                self.at += 1;
                LinkEvent::Opened(conn)
            }
            LinkStep::Piece(conn, bytes) => {
                let conn = *conn;
                let left = &bytes.as_slice()[self.used..];
                let count = copy_front(left, buf);
                if count < left.len() {
                    self.used += count;
                    return LinkEvent::Piece(conn, count);
                }
                self.used = 0;
                self.at += 1;
                LinkEvent::Piece(conn, count)
            }
            LinkStep::Ended(conn) => {
                let conn = *conn;
                self.at += 1;
                LinkEvent::Ended(conn)
            }
            LinkStep::Closed => {
                self.at += 1;
                LinkEvent::Closed
            }
        }
    }

    /// Whether the connection was opened, and closed then.
    pub(crate) fn is_closed(&self, conn: u32) -> bool
        ensures { IsTrue result ↔ (stage_in self.now.given conn ≡ closed) }
    {
        is_closed_in(&self.steps[..self.at], conn)
    }

    /// Records that the connection was closed, where it was opened.
    pub(crate) fn close(&mut self, conn: u32)
        ensures to_come { self.new.to_come ≡ self.old.to_come }
        ensures last { self.new.last ≡ self.old.last }
        ensures stage { stage_in self.new.given conn ≡ closed_after (stage_in self.old.given conn) }
        ensures others { (k : ℕ) → k ≢ conn → stage_in self.new.given k ≡ stage_in self.old.given k }
    {
        if let Some(place) = opened_at(&self.steps[..self.at], conn) {
            put(
                &mut self.steps,
                place,
                LinkStep::Piece(conn, Bytes::new(self.alloc)),
            );
        }
    }
}

fn put(steps: &mut Vec<LinkStep>, place: usize, step: LinkStep)
    requires { place < vec_len steps.old }
    ensures { steps.new.items ≡ slice_set steps.old.items place step }
{
    steps[place] = step;
}

// The place of the connection's first Opened.
fn opened_at(steps: &[LinkStep], conn: u32) -> Option<usize>
    ensures { result ≡ position (is_opened conn) steps.now }
{
    steps.iter().position(|step| is_opened(step, conn))
}

fn is_opened(step: &LinkStep, conn: u32) -> bool
    ensures { result ≡ is_opened conn step.now }
{
    match step {
        LinkStep::Opened(number) => *number == conn,
        LinkStep::Piece(_, _) | LinkStep::Ended(_) | LinkStep::Closed => false,
    }
}

// Whether the first of the steps that opened or closed the connection closed it.
fn is_closed_in(steps: &[LinkStep], conn: u32) -> bool
    ensures { IsTrue result ↔ (stage_in (map step_of steps.now) conn ≡ closed) }
{
    for step in steps {
        match step {
            LinkStep::Opened(number) if *number == conn => return false,
            LinkStep::Piece(number, bytes) if *number == conn && bytes.len() == 0 => return true,
            _ => {}
        }
    }
    false
}
