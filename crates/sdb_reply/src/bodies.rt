// The body of an outcome.
ghost use Rattle.std.specs.Prelude.{◌≡◌, ◌++◌, IfOk, OnOk};
ghost use Rattle.sdb_reply.specs.Bodies.{body_text};

use crate::outcome::{Outcome, RequestId};
use crate::parts::{append_end, append_ending, append_opening, append_refused, append_start};
use crate::reckoning::foreseen;
use crate::results::{
    append_attributes, append_count, append_domains, append_items, append_metadata,
};
use sdb_action::Action;
use sdb_base::{Bytes, OutOfMemory};
use std::alloc::Global;

/// The body that tells an outcome, with the request's id and the units that it used, in 10^-10 of an hour.
pub fn body<'a>(
    alloc: Global,
    outcome: &Outcome<'a>,
    id: &RequestId,
    units: u64,
) -> Result<Bytes, OutOfMemory>
    ensures { IfOk result (λ made. made.bytes ≡ body_text outcome.now id.now units) }
{
    let mut out = Bytes::with_room(alloc, foreseen(outcome))?;
    append_body(alloc, &mut out, outcome, id, units)?;
    Ok(out)
}

// Appends the body.
#[tactic(auto, using(std::proofs::Common::append_assoc), unfolding(crate::specs::Bodies::body_text))]
pub(crate) fn append_body<'a>(
    alloc: Global,
    out: &mut Bytes,
    outcome: &Outcome<'a>,
    id: &RequestId,
    units: u64,
) -> Result<(), OutOfMemory>
    ensures { OnOk result (out.new.bytes ≡ out.old.bytes ++ body_text outcome.now id.now units) }
{
    match outcome {
        Outcome::Done(action) => {
            append_opening(out, *action)?;
            append_ending(out, *action, id, units)?;
        }
        Outcome::Domains(names, token) => {
            append_start(out, Action::ListDomains)?;
            append_domains(alloc, out, names.as_slice(), token)?;
            append_end(out, Action::ListDomains, id, units)?;
        }
        Outcome::Metadata(numbers, moment) => {
            append_start(out, Action::DomainMetadata)?;
            append_metadata(alloc, out, numbers, *moment)?;
            append_end(out, Action::DomainMetadata, id, units)?;
        }
        Outcome::Pairs(pairs) => {
            append_start(out, Action::GetAttributes)?;
            append_attributes(alloc, out, pairs.as_slice())?;
            append_end(out, Action::GetAttributes, id, units)?;
        }
        Outcome::Items(shown, token) => {
            append_start(out, Action::Select)?;
            append_items(alloc, out, shown.as_slice(), token)?;
            append_end(out, Action::Select, id, units)?;
        }
        Outcome::Count(number, token) => {
            append_start(out, Action::Select)?;
            append_count(alloc, out, *number, token)?;
            append_end(out, Action::Select, id, units)?;
        }
        Outcome::Refused(refusal) => append_refused(out, refusal, id, units)?,
    }
    Ok(())
}
