//! The feed: bytes of a connection in, requests out.

ghost use Rattle.std.specs.Prelude.{◌≡◌, [], ◌∷◌, true, Some, ◌≤◌, ◌<◌, vec_len, vec_capacity, IfNone, IfOk, IsSome, List, OnErr, OnOk, OnSome, drop, length, ◌+◌, if◌then◌else◌};
ghost use Rattle.sdb_http.specs.Feeds.{AreAll, Back, Call, GoesBack, Pushed, StandsFor, Takes, Took, empty_feed, given, joined, left, pushed, work};
ghost use Rattle.sdb_http.specs.Inside.{IsFrontOf, held_from, taken};
ghost use Rattle.sdb_http.specs.Messages.{trim};

use crate::fault::HttpFault;
use crate::layout::Layout;
use crate::look::{Found, Known, look, message_at, rest_after, trim};
use crate::message::Message;
use sdb_base::OutOfMemory;
use std::alloc::Global;
use std::marker::Model;

// Where the held bytes begin, and what is known of the head there.
#[derive(Clone, Copy, Debug)]
pub(crate) struct Front {
    pub start: usize,
    pub known: Known,
}

// What `back` goes back to: how it was before the last push.
#[derive(Clone, Copy, Debug)]
pub(crate) struct Mark {
    pub front: Front,
    pub len: usize,
    pub ended: bool,
}

/// The bytes of a connection, in whatever pieces they come, and the requests that they are.
///
/// Contracts see the bytes that are held, without CR and LF at their front, whether a fault or a closing
/// request was taken, and both as they were before the last push.
#[derive(Debug, Drop)]
pub struct Feed {
    bytes: Vec<u8>,
    front: Front,
    ended: bool,
    mark: Option<Mark>,
}

impl Model for Feed {
    ghost use Rattle.sdb_http.specs.Feeds.{State};
    ghost use Rattle.sdb_http.specs.Inside.{IsFeed, before_by, held_by};

    ghost Value = { State };

    ghost view = { λ it. record {
      held = held_by it.bytes.items it.front it.ended;
      ended = it.ended;
      before = before_by it.bytes.items it.mark;
    } };

    ghost invariant = { λ it. IsFeed it.bytes.items it.front it.mark };
}

impl Feed {
    /// A feed that holds nothing. It takes no memory, and later calls use this allocator.
    pub fn new(alloc: Global) -> Feed
        ensures empty { result ≡ empty_feed }
    {
        Feed {
            bytes: Vec::new(alloc),
            front: Front {
                start: 0,
                known: Known::Scanned(0),
            },
            ended: false,
            mark: None,
        }
    }

    /// Whether a fault or a closing request was taken. From then on nothing is held.
    pub fn ended(&self) -> bool
        ensures { result ≡ self.now.ended }
    {
        self.ended
    }

    /// Takes a piece of the stream in. After an end the piece is dropped.
    pub fn push(&mut self, piece: &[u8]) -> Result<(), OutOfMemory>
        ensures ok { OnOk result (self.new ≡ pushed self.old piece.now) }
        ensures err { OnErr result (self.new ≡ self.old) }

        // The feed stands for every past for which it stood before, and this call.
        ensures past { (past : List Call) → StandsFor self.old past
            → OnOk result (StandsFor self.new (Pushed piece.now ∷ past)) }
    {
        self.append(piece)
    }

    /// Takes off the request, or the fault, at the front of the bytes that are held. None comes exactly
    /// where no whole request and no fault is there, or the feed has ended.
    pub fn take(&mut self) -> Result<Option<Result<Message, HttpFault>>, OutOfMemory>
        ensures answer { IfOk result (λ answer. Takes self.old (taken answer) self.new) }
        ensures err { OnErr result (self.new ≡ self.old) }
        ensures past { (past : List Call) → StandsFor self.old past
            → IfOk result (λ answer. StandsFor self.new (Took (taken answer) ∷ past)) }

        // Where none comes, what was taken is all that the joined pieces have.
        ensures all { (past : List Call) → StandsFor self.old past
            → IfOk result (λ answer. IfNone answer (AreAll (joined (left past)) (given (left past)))) }

        // After a take the feed can still go back to what was before the last push.
        ensures keeps { self.new.before ≡ self.old.before }

        // A loop that takes until none comes ends.
        ensures progress { IfOk result (λ answer. OnSome answer (work self.new < work self.old)) }
    {
        self.next()
    }

    /// Makes the feed what it was before the last push, whatever was taken since. It takes no memory.
    pub fn back(&mut self)
        requires { IsSome self.old.before }
        ensures back { GoesBack self.old self.new }
        ensures past { (past : List Call) → StandsFor self.old past → StandsFor self.new (Back ∷ past) }
    {
        self.go_back();
    }

    fn append(&mut self, piece: &[u8]) -> Result<(), OutOfMemory>
        ensures ok { OnOk result (self.new ≡ pushed self.old piece.now) }
        ensures err { OnErr result (self.new ≡ self.old) }
    {
        if self.ended {
            self.keep_nothing();
            return Ok(());
        }
        let fresh = kept_part(self.front.start == self.bytes.len(), piece);
        self.bytes.reserve(fresh.len())?;
        let front = compact(&mut self.bytes, self.front);
        let len = self.bytes.len();
        self.bytes.extend_from_slice(fresh).unwrap();
        self.front = front;
        self.mark = Some(Mark {
            front,
            len,
            ended: false,
        });
        Ok(())
    }

    // What a push does after an end: the bytes that were kept for `back` go.
    fn keep_nothing(&mut self)
        requires { self.old.ended ≡ true }
        ensures { self.new ≡ record { held = []; ended = true; before = Some ([], true) } }
    {
        let front = Front {
            start: 0,
            known: Known::Scanned(0),
        };
        self.bytes = Vec::new(*self.bytes.allocator());
        self.front = front;
        self.mark = Some(Mark {
            front,
            len: 0,
            ended: true,
        });
    }

    fn next(&mut self) -> Result<Option<Result<Message, HttpFault>>, OutOfMemory>
        ensures answer { IfOk result (λ answer. Takes self.old (taken answer) self.new) }
        ensures err { OnErr result (self.new ≡ self.old) }
    {
        if self.ended {
            return Ok(None);
        }
        let (_, held) = self.bytes.as_slice().split_at(self.front.start);
        match look(held, self.front.known) {
            Found::More(known) => {
                self.front.known = known;
                Ok(None)
            }
            Found::Fault(fault) => {
                self.ended = true;
                Ok(Some(Err(fault)))
            }
            Found::Whole(last, layout) => {
                let message = message_at(*self.bytes.allocator(), held, last, &layout)?;
                let left = rest_len(held, last, &layout);
                self.front = Front {
                    start: self.bytes.len() - left,
                    known: Known::Scanned(0),
                };
                self.ended = message.close;
                Ok(Some(Ok(message)))
            }
        }
    }

    fn go_back(&mut self)
        requires { IsSome self.old.before }
        ensures { GoesBack self.old self.new }
    {
        let mark = self.mark.unwrap();
        self.bytes.truncate(mark.len);
        self.front = mark.front;
        self.ended = mark.ended;
        self.mark = None;
    }
}

// How many bytes are held once a whole message is taken off.
fn rest_len(held: &[u8], last: usize, layout: &Layout) -> usize
    requires { last + 1 + layout.now.length ≤ length held.now }
    ensures { result ≡ length (trim (drop layout.now.length (drop (last + 1) held.now))) }
{
    rest_after(held, last, layout).len()
}

// Drops the bytes before the front once they are more than half of all, so that each byte is moved a
// bounded number of times, and gives the front as it is then.
fn compact(bytes: &mut Vec<u8>, front: Front) -> Front
    requires { IsFrontOf bytes.old.items front }
    ensures at_front { IsFrontOf bytes.new.items result }
    ensures held { held_from bytes.new.items result ≡ held_from bytes.old.items front }
    ensures len { vec_len bytes.new ≤ vec_len bytes.old }
    ensures room { vec_capacity bytes.new ≡ vec_capacity bytes.old }
{
    if front.start <= bytes.len() - front.start {
        return front;
    }
    drop_front(bytes, front.start);
    Front {
        start: 0,
        known: front.known,
    }
}

// The part of a piece that is kept: where nothing is held, it loses the CR and LF at its front.
fn kept_part(is_fresh: bool, piece: &[u8]) -> &[u8]
    ensures { result.now ≡ (if is_fresh then trim piece.now else piece.now) }
{
    if is_fresh { trim(piece) } else { piece }
}

// Drops the first `start` bytes.
fn drop_front(bytes: &mut Vec<u8>, start: usize)
    requires { start ≤ length bytes.old.items }
    ensures items { bytes.new.items ≡ drop start bytes.old.items }
    ensures len { vec_len bytes.new ≤ vec_len bytes.old }
    ensures room { vec_capacity bytes.new ≡ vec_capacity bytes.old }
{
    bytes.rotate_left(start);
    bytes.truncate(bytes.len() - start);
}
