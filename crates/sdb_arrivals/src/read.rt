//! What is read of a request as it arrives: for whom it is verified, and what it asks.

ghost use Rattle.std.specs.Prelude.{◌≡◌, ◌≢◌, IfOk, Ok};
ghost use Rattle.sdb_arrivals.specs.Reading.{IsReadAfter, IsReadOf, framing_refusal, refused, verified};
ghost use Rattle.sdb_http.specs.Inside.{reply_of, seen};
ghost use Rattle.sdb_sign.specs.Signing.{IsVerdict};
ghost use Rattle.sdb_tables.specs.declared.refusal.Refusal.TheVariants as refusals;

use crate::asked::Asked;
use crate::opening::opening;
use sdb_action::{Action, read_request};
use sdb_base::{AccountId, OutOfMemory, Params};
use sdb_http::{HttpFault, Message};
use sdb_keys::Keys;
use sdb_sign::verify;
use sdb_tables::Refusal;
use std::alloc::Global;

/// What is read of a request: the account for which it is verified, and what it asks, or its refusal.
#[derive(Debug, Drop)]
pub struct Read {
    pub account: Option<AccountId>,
    pub asked: Result<Asked, Refusal>,
}

// Reads a request, or the fault of framing in its place, that came at this moment.
pub(crate) fn reading_of(
    alloc: Global,
    keys: &Keys,
    moment: u64,
    request: &Result<Message, HttpFault>,
) -> Result<Read, OutOfMemory>
    ensures { IfOk result (IsReadOf keys.now moment (reply_of request.now)) }
{
    match request {
        Ok(message) => read_message(alloc, keys, moment, message),
        Err(fault) => Ok(refused(framing_refusal(*fault))),
    }
}

fn read_message(
    alloc: Global,
    keys: &Keys,
    moment: u64,
    message: &Message,
) -> Result<Read, OutOfMemory>
    ensures { IfOk result (IsReadOf keys.now moment (Ok (seen message.now))) }
{
    match opening(alloc, message.form.as_slice()) {
        Ok((params, action)) => read_signed(alloc, keys, moment, message, &params, action),
        Err(refusal) => read_refusal(refusal),
    }
}

// Verifies a request, and reads what it asks.
fn read_signed(
    alloc: Global,
    keys: &Keys,
    moment: u64,
    message: &Message,
    params: &Params,
    action: Action,
) -> Result<Read, OutOfMemory>
    ensures { IfOk result (IsReadAfter keys.now moment (seen message.now) (Ok (params.now, action))) }
{
    match verify(
        alloc,
        message.verb,
        message.host.as_slice(),
        params,
        keys,
        moment,
    ) {
        Ok(account) => read_asked(alloc, account, params, action),
        Err(refusal) => read_refusal(refusal),
    }
}

#[tactic(auto, using(sdb_action::proofs::LawfulLemmas::asked_is_lawful_lem))]
fn read_asked(
    alloc: Global,
    account: AccountId,
    params: &Params,
    action: Action,
) -> Result<Read, OutOfMemory>
    ensures { IfOk result (λ read. read ≡ verified params.now action (Ok account)) }
{
    match read_request(alloc, action, params) {
        Ok(request) => Ok(Read {
            account: Some(account),
            asked: Ok(Asked::new(request)),
        }),
        Err(Refusal::OutOfMemory) => Err(OutOfMemory),
        Err(refusal) => Ok(Read {
            account: Some(account),
            asked: Err(refusal),
        }),
    }
}

// A refusal that comes before a request is verified; want of memory is none.
fn read_refusal(refusal: Refusal) -> Result<Read, OutOfMemory>
    ensures { IfOk result (λ read. (read ≡ refused refusal) × (refusal ≢ refusals.OutOfMemory)) }
{
    match refusal {
        Refusal::OutOfMemory => Err(OutOfMemory),
        _ => Ok(refused(refusal)),
    }
}

fn refused(refusal: Refusal) -> Read
    ensures { result ≡ refused refusal }
{
    Read {
        account: None,
        asked: Err(refusal),
    }
}

fn framing_refusal(fault: HttpFault) -> Refusal
    ensures { result ≡ framing_refusal fault }
{
    match fault {
        HttpFault::HeadTooLong => Refusal::URITooLong,
        HttpFault::Invalid => Refusal::InvalidHttpRequest,
        HttpFault::BodyTooLong => Refusal::RequestTooLong,
    }
}
