// A script, read event by event.
ghost use Rattle.std.specs.Prelude.{◌≡◌, ℕ, ◌+◌, ◌^◌, ◌<◌, ◌≤◌, List, length, IfOk, IfErr, IfSome, OnOk, OnErr, Err};
ghost use Rattle.std.specs.Io.KnownBytes.{Consumes, IsAtEnd, Keeps};
ghost use Rattle.sdb_base.specs.Causes.{Rose};
ghost use Rattle.sdb_script.specs.Events.{event_of};
ghost use Rattle.sdb_script.specs.Fronts.{most_unjudged};
ghost use Rattle.sdb_script.specs.Reading.{Gives, IsReadFault, at_end, beginning, past_record, taken, with_more};

use crate::connections::Connections;
use crate::event::ScriptEvent;
use crate::fault::ScriptFault;
use crate::front::{Front, front_of};
use crate::held::{HeldBytes, PIECE};
use sdb_base::OutOfMemory;
use sdb_io::Source;
use std::alloc::Global;
use std::marker::Model;

// A script has fewer bytes than this.
const MOST_BYTES: u64 = 1_099_511_627_776;

/// Reads a script event by event. It remembers the connections that are open and their greatest number,
/// how many bytes the records so far have, and what the source gave after them.
#[derive(Debug, Drop)]
pub struct ScriptReader {
    alloc: Global,
    known: Connections,
    at: u64,
    held: HeldBytes,
}

impl Model for ScriptReader {
    ghost use Rattle.std.specs.Prelude.{◌+◌, ◌^◌, ◌≤◌, length};
    ghost use Rattle.sdb_script.specs.Reading.{Reading};

    ghost Value = { Reading };

    ghost view = { λ it. record { known = it.known; at = it.at; held = it.held.bytes } };

    ghost invariant = { λ it. it.at + length it.held.bytes ≤ 2 ^ 40 };
}

impl ScriptReader {
    /// A reader that has read nothing. It takes no memory, and later calls use this allocator.
    pub fn new(alloc: Global) -> ScriptReader
        ensures { result ≡ beginning }
    {
        ScriptReader {
            alloc,
            known: Connections::new(alloc),
            at: 0,
            held: HeldBytes::new(alloc),
        }
    }

    /// The next event of the script, or `End` where the input ends after a whole record. The source is
    /// read, at most 65,536 bytes at a time, until the record at the front can be judged.
    ///
    /// # Errors
    ///
    /// `Bad` with the number of the first byte of a record that is wrong, or in which the input ends: a
    /// line is judged once its LF is there and is wrong where 32 bytes of it came without one, and the
    /// byte after a piece once it is there. `Read` where the source failed and no record can be judged.
    /// `TooLong` where none can be and the source gave 2^40 bytes.
    pub fn next<T: Source>(&mut self, input: &mut T) -> Result<ScriptEvent, ScriptFault>
        ensures gives { (given : List ℕ) × Consumes (T.left input.old) (T.left input.new) given
            × Gives (2 ^ 40) result (with_more self.old given) self.new (T.left input.new) }
        ensures read { result ≡ Err ScriptFault.Read → Rose (T.faults input.old) (T.faults input.new) }
        ensures later { T.faults input.old ≤ T.faults input.new }
        ensures within { self.new.at ≤ 2 ^ 40 }
    {
        prove!(self.at <= MOST_BYTES);
        let next = self.next_within(MOST_BYTES, input);
        prove!(self.at <= MOST_BYTES);
        next
    }

    // The same of a source that may give fewer bytes than `limit`.
    pub(crate) fn next_within<T: Source>(
        &mut self,
        limit: u64,
        input: &mut T,
    ) -> Result<ScriptEvent, ScriptFault>
        requires most { limit ≤ 2 ^ 40 }
        requires within { taken self.old ≤ limit }
        ensures gives { (given : List ℕ) × Consumes (T.left input.old) (T.left input.new) given
            × Gives limit result (with_more self.old given) self.new (T.left input.new) }
        ensures read { result ≡ Err ScriptFault.Read → Rose (T.faults input.old) (T.faults input.new) }
        ensures later { T.faults input.old ≤ T.faults input.new }
    {
        'reads: loop {
            match front_of(self.alloc, &self.known, self.held.as_slice())? {
                Front::Whole(event, size) => {
                    self.pass(&event, size)?;
                    return Ok(event);
                }
                Front::Wrong => return Err(ScriptFault::Bad(self.at)),
                Front::Unjudged => {}
            }
            if self.read_more(limit, input)? == 0 {
                return self.finish();
            }
        }
    }

    // Reads once, where the source gave fewer bytes than `limit`.
    fn read_more<T: Source>(&mut self, limit: u64, input: &mut T) -> Result<usize, ScriptFault>
        requires most { limit ≤ 2 ^ 40 }
        requires within { taken self.old ≤ limit }
        requires short { length self.old.held ≤ most_unjudged }
        ensures more { IfOk result (λ count. (given : List ℕ) × (length given ≡ count) × Consumes (T.left input.old) (T.left input.new) given
            × (self.new ≡ with_more self.old given) × (taken self.new ≤ limit) × (taken self.old < limit) × (count ≡ 0 → IsAtEnd (T.left input.new))) }
        ensures err { OnErr result (self.new ≡ self.old) }
        ensures kept { OnErr result (Keeps (T.left input.old) (T.left input.new)) }
        ensures fault { IfErr result (IsReadFault limit self.old) }
        ensures read { result ≡ Err ScriptFault.Read → Rose (T.faults input.old) (T.faults input.new) }
        ensures later { T.faults input.old ≤ T.faults input.new }
    {
        let taken = self.at + self.held.len() as u64;
        if taken >= limit {
            return Err(ScriptFault::TooLong);
        }
        let most = PIECE.min((limit - taken) as usize);
        self.held.fill(most, input)
    }

    // Goes past the record of an event.
    fn pass(&mut self, event: &ScriptEvent, size: usize) -> Result<(), OutOfMemory>
        requires { size ≤ length self.old.held }
        ensures ok { OnOk result (IfSome (event_of event.now) (λ told. self.new ≡ past_record self.old told size)) }
        ensures err { OnErr result (self.new ≡ self.old) }
    {
        match event {
            ScriptEvent::Opened(conn) => self.known.note_opened(*conn)?,
            ScriptEvent::Ended(conn) => self.known.note_ended(*conn),
            _ => {}
        }
        self.held.pass(size);
        self.at += size as u64;
        Ok(())
    }

    // The input is at its end.
    fn finish(&self) -> Result<ScriptEvent, ScriptFault>
        ensures { result ≡ at_end self.now }
    {
        if self.held.len() == 0 {
            Ok(ScriptEvent::End)
        } else {
            Err(ScriptFault::Bad(self.at))
        }
    }
}
