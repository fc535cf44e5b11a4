//! The line of requests that wait, the answers that are held, and those that are released.

ghost use Rattle.std.specs.Prelude.{◌≡◌, ◌<◌, ◌||◌, not, nat_lt, ◌==◌, [], ◌∷◌, take, length, option_map, slice_get, None, Some, IfOk, MatchOption, OnErr, OnOk};
ghost use Rattle.sdb_arrivals.specs.Queues.{no_queues, sent_of, with_out, with_waiting, without_newest};
ghost use Rattle.sdb_arrivals.specs.Releases.{all_released, held_next, refused_first};

use crate::read::Read;
use crate::release::{refuse_first, release_all};
use crate::room::Room;
use sdb_base::{Bytes, Out, OutOfMemory};
use sdb_tables::Refusal;
use std::alloc::Global;
use std::collections::VecDeque;
use std::marker::Model;

// At most so many answers are held.
pub(crate) const MOST_HELD: usize = 64;

/// An arrival in the line, with what was read of it. Its bytes aren't kept.
#[derive(Debug, Drop)]
pub struct Queued {
    pub conn: u32,
    /// Its number on its connection, from 1.
    pub number: u64,
    /// The moment of the piece that made it whole, in seconds since 1970.
    pub moment: u64,
    /// Whether the connection is closed after its answer.
    pub close: bool,
    pub read: Read,
}

// An arrival that waits to be executed, with the room of a fault's answer.
#[derive(Debug, Drop)]
pub(crate) struct Waiting {
    pub queued: Queued,
    pub room: Room,
}

/// An arrival that was executed. Without an answer there was no memory for it.
#[derive(Debug, Drop)]
pub struct Held {
    pub queued: Queued,
    pub answer: Option<Bytes>,
    pub room: Room,
}

/// The arrivals that wait, the answers that are held, and the answers that are released, each the oldest
/// first. Each arrival has its place among the released ones from the start.
#[derive(Debug, Drop)]
pub struct Line {
    held: VecDeque<Held>,
    waiting: VecDeque<Waiting>,
    out: VecDeque<Out>,
}

impl Model for Line {
    ghost use Rattle.std.specs.Prelude.{map};
    ghost use Rattle.std.specs.VecDeque.{deque_capacity, deque_len};
    ghost use Rattle.sdb_arrivals.specs.Queues.{Queues, answered_of, queued_of, sent_of};
    ghost use Rattle.sdb_arrivals.specs.Inside.{HasPlaces};

    ghost Value = { Queues };

    ghost view = { λ it. record {
      held = map answered_of it.held.items;
      waiting = map queued_of it.waiting.items;
      out = map sent_of it.out.items;
    } };

    ghost invariant = { λ it. HasPlaces (deque_len it.held) (deque_capacity it.held) (deque_len it.waiting) (deque_len it.out) (deque_capacity it.out) };
}

impl Line {
    /// An empty line, with the places of all answers that can be held.
    pub fn new(alloc: Global) -> Result<Line, OutOfMemory>
        ensures { IfOk result (λ line. line ≡ no_queues) }
    {
        Ok(Line {
            held: VecDeque::with_capacity(alloc, MOST_HELD)?,
            waiting: VecDeque::new(alloc),
            out: VecDeque::new(alloc),
        })
    }

    /// Puts an arrival at the end, with the room of a fault's answer and its place among the released ones.
    pub(crate) fn arrive(&mut self, alloc: Global, queued: Queued) -> Result<(), OutOfMemory>
        ensures ok { OnOk result (self.new ≡ with_waiting self.old (queued ∷ [])) }
        ensures err { OnErr result (self.new ≡ self.old) }
    {
        self.out.reserve(self.held.len() + self.waiting.len() + 1)?;
        let room = Room::new(alloc)?;
        self.waiting.push_back(Waiting { queued, room })?;
        Ok(())
    }

    /// Takes off the newest arrivals, until so many wait.
    pub(crate) fn forget(&mut self, had: usize)
        ensures { self.new ≡ without_newest had self.old }
    {
        self.waiting.truncate(had);
    }

    /// The oldest arrival that waits.
    pub fn first_waiting(&self) -> Option<&Queued>
        ensures { MatchOption result (self.now.waiting ≡ []) (λ first. slice_get self.now.waiting 0 ≡ Some first.now) }
    {
        match self.waiting.front() {
            Some(waiting) => Some(&waiting.queued),
            None => None,
        }
    }

    /// How many answers are held.
    pub fn held_len(&self) -> usize
        ensures { result ≡ length self.now.held }
    {
        self.held.len()
    }

    /// How many arrivals wait.
    pub fn waiting_len(&self) -> usize
        ensures { result ≡ length self.now.waiting }
    {
        self.waiting.len()
    }

    /// Whether fewer than 64 answers are held.
    pub fn can_hold(&self) -> bool
        ensures { result ≡ nat_lt (length self.now.held) 64 }
    {
        self.held.len() < MOST_HELD
    }

    /// Takes the oldest arrival that waits to those that are held, with its answer. Without an answer there was no
    /// memory for it. It takes no memory itself.
    pub fn hold(&mut self, answer: Option<Bytes>)
        requires { length self.old.held < 64 }
        ensures { self.new ≡ held_next (option_map (λ b. b.bytes) answer) self.old.waiting self.old }
    {
        if let Some(first) = self.waiting.pop_front() {
            self.held.push_back_reserved(Held {
                queued: first.queued,
                answer,
                room: first.room,
            });
        }
    }

    /// Releases all answers that are held, as they are. It takes no memory.
    pub fn release(&mut self)
        ensures { self.new ≡ all_released None self.old }
    {
        release_all(&mut self.held, None, &mut self.out);
    }

    /// Releases all that are held, refused after all. It takes no memory.
    pub fn refuse_held(&mut self, refusal: Refusal)
        ensures { self.new ≡ all_released (Some refusal) self.old }
    {
        release_all(&mut self.held, Some(refusal), &mut self.out);
    }

    /// Refuses the first 64 that wait, and releases them. It takes no memory.
    pub fn refuse_waiting(&mut self, refusal: Refusal)
        ensures { self.new ≡ refused_first refusal self.old }
    {
        refuse_first(&mut self.waiting, refusal, &mut self.out);
    }

    /// Takes off the oldest released answer. None comes exactly where there is none. It takes no memory.
    pub fn take_out(&mut self) -> Option<Out>
        ensures { MatchOption result ((self.new ≡ self.old) × (self.old.out ≡ []))
            (λ out. self.old ≡ with_out (sent_of out) self.new) }
    {
        self.out.pop_front()
    }

    /// Whether an answer is held or a request waits.
    pub fn is_waiting(&self) -> bool
        ensures { result ≡ (not (length self.now.held == 0) || not (length self.now.waiting == 0)) }
    {
        !self.held.is_empty() || !self.waiting.is_empty()
    }
}
