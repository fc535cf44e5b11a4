//! How answers go to those that are released. None of it takes memory.

ghost use Rattle.std.specs.Prelude.{◌≡◌, ◌+◌, ◌≤◌, ◌++◌, take, drop, map};
ghost use Rattle.std.specs.VecDeque.{deque_capacity, deque_len};
ghost use Rattle.sdb_arrivals.specs.Queues.{answered_of, queued_of, sent_of};
ghost use Rattle.sdb_arrivals.specs.Releases.{id_of, refused_as, released_as};

use crate::line::{Held, Queued, Waiting};
use crate::room::Room;
use sdb_base::Out;
use sdb_reply::RequestId;
use sdb_tables::Refusal;
use std::collections::VecDeque;

// At most so many requests that wait are refused at once.
const MOST_REFUSED: usize = 64;

// Releases all answers that are held, in order: as they are, or refused.
pub(crate) fn release_all(
    held: &mut VecDeque<Held>,
    refusal: Option<Refusal>,
    out: &mut VecDeque<Out>,
)
    requires { deque_len out.old + deque_len held.old ≤ deque_capacity out.old }
    ensures out { map sent_of out.new.items ≡ map sent_of out.old.items ++ map (released_as refusal) (map answered_of held.old.items) }
    ensures none { deque_len held.new ≡ 0 }
    ensures len { deque_len out.new ≡ deque_len out.old + deque_len held.old }
    ensures places { deque_capacity out.new ≡ deque_capacity out.old }
    ensures held_places { deque_capacity held.new ≡ deque_capacity held.old }
{
    'answers: while let Some(answer) = held.pop_front() {
        out.push_back_reserved(released(answer, refusal));
    }
}

// Refuses the first 64 that wait, in order.
pub(crate) fn refuse_first(
    waiting: &mut VecDeque<Waiting>,
    refusal: Refusal,
    out: &mut VecDeque<Out>,
)
    requires { deque_len out.old + deque_len waiting.old ≤ deque_capacity out.old }
    ensures out { map sent_of out.new.items ≡ map sent_of out.old.items ++ map (refused_as refusal) (take 64 (map queued_of waiting.old.items)) }
    ensures waiting { map queued_of waiting.new.items ≡ drop 64 (map queued_of waiting.old.items) }
    ensures len { deque_len out.new + deque_len waiting.new ≡ deque_len out.old + deque_len waiting.old }
    ensures places { deque_capacity out.new ≡ deque_capacity out.old }
{
    let mut left = MOST_REFUSED;
    'requests: while left > 0 {
        let Some(request) = waiting.pop_front() else {
            return;
        };
        out.push_back_reserved(refused(request.queued, request.room, refusal));
        left -= 1;
    }
}

// One answer as it is sent.
fn released(held: Held, refusal: Option<Refusal>) -> Out
    ensures { sent_of result ≡ released_as refusal (answered_of held) }
{
    match refusal {
        Some(refusal) => refused(held.queued, held.room, refusal),
        None => answered(held),
    }
}

// One answer as it was made; without memory for it that is told.
fn answered(held: Held) -> Out
    ensures { sent_of result ≡ released_as None (answered_of held) }
{
    let Held {
        queued,
        answer,
        room,
    } = held;
    match answer {
        Some(bytes) => Out {
            conn: queued.conn,
            bytes,
            close: queued.close,
        },
        None => refused(queued, room, Refusal::OutOfMemory),
    }
}

// One request refused, in the room that it brought.
fn refused(queued: Queued, room: Room, refusal: Refusal) -> Out
    ensures { sent_of result ≡ refused_as refusal queued }
{
    let id = RequestId {
        conn: queued.conn,
        number: queued.number,
    };
    Out {
        conn: queued.conn,
        bytes: room.into_refusal(&refusal, &id, queued.close),
        close: queued.close,
    }
}
