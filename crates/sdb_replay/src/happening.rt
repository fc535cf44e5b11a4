// The events of a script as what happens to the core, and how a run goes on after them.
ghost use Rattle.std.specs.Prelude.{◌≡◌, option_map};
ghost use Rattle.sdb_arrivals.specs.Story.{answer_of, event_of as story_event};
ghost use Rattle.sdb_replay.specs.Events.{ending, happening};
ghost use Rattle.sdb_replay.specs.Running.{refused_text};
ghost use Rattle.sdb_replay.specs.Shown.{refusal_text};
ghost use Rattle.sdb_script.specs.Events.{event_of};

use sdb_arrivals::{CoreFault, Event};
use sdb_script::ScriptEvent;
use sdb_status::Status;

/// What happens to the core; nothing at the end of the script.
pub fn core_event(event: &ScriptEvent) -> Option<Event<'_>>
    ensures { option_map story_event result ≡ option_map happening (event_of event.now) }
{
    match event {
        ScriptEvent::Opened(conn) => Some(Event::Opened(*conn)),
        ScriptEvent::Piece(conn, moment, bytes) => {
            Some(Event::Piece(*conn, *moment, bytes.as_slice()))
        }
        ScriptEvent::Ended(conn) => Some(Event::Ended(*conn)),
        ScriptEvent::Commit => Some(Event::Commit),
        ScriptEvent::Work => Some(Event::Work),
        ScriptEvent::End => None,
    }
}

// The connection that there was no place for.
pub(crate) fn refused(happens: Event<'_>, answer: Result<(), CoreFault>) -> Option<u32>
    ensures { refused_text result ≡ refusal_text (story_event happens.entry) (answer_of answer) }
{
    match (happens, answer) {
        (Event::Opened(conn), Err(CoreFault::Full)) => Some(conn),
        _ => None,
    }
}

// The status that ends the run after this answer, where one does.
pub(crate) fn ending(happens: Event<'_>, answer: Result<(), CoreFault>) -> Option<Status>
    ensures { result ≡ ending (story_event happens.entry) (answer_of answer) }
{
    match (happens, answer) {
        (_, Err(CoreFault::NotAStore(file))) => Some(Status::NotAStore(file)),
        (Event::Opened(_) | Event::Piece(_, _, _), Err(CoreFault::OutOfMemory)) => {
            Some(Status::OutOfMemory)
        }
        _ => None,
    }
}
