// One line answered over the accounts.
ghost use Rattle.std.specs.Prelude.{◌≡◌, ◌≤◌, [], ◌∷◌, ◌++◌, IfOk, OnOk, OnErr};
ghost use Rattle.sdb_action.specs.Lawful.{IsLawfulRequest};
ghost use Rattle.sdb_answer.specs.Outcome.{after, changes_of};
ghost use Rattle.sdb_cli.specs.Plain.{Answered, account, after_line, answer as answer_to, id_of, reply};
ghost use Rattle.sdb_reply.specs.Faults.{refusal_text};

use crate::gathered::{Gathered, REFUSAL_ROOM, line_id};
use crate::line::read_line;
use sdb_action::Request;
use sdb_base::{AccountId, Bytes, OutOfMemory, Steps};
use sdb_cost::units;
use sdb_domain::Accounts;
use sdb_pairs::Changes;
use sdb_reply::body;
use sdb_tables::Refusal;
use std::alloc::Global;

// The account for which lines are answered, and the moment at which they are.
const ACCOUNT: AccountId = AccountId(1);

const MOMENT: u64 = 0;

// Counts the items that are looked at.
struct Looked;

// The body that answers a request, and the changes that are still to be applied.
#[derive(Debug, Drop)]
struct Told {
    body: Bytes,
    changes: Changes,
}

/// Executes the request of a line, whose number is given, and appends its answer and an LF. A line that meets want
/// of memory is answered so and changes nothing; there is an error only where there is no room for any answer.
pub(crate) fn answer(
    alloc: Global,
    accounts: &mut Accounts,
    number: u64,
    line: &[u8],
    out: &mut Gathered,
) -> Result<(), OutOfMemory>
    ensures { OnOk result (Answered number accounts.old line.now accounts.new out.old.bytes out.new.bytes) }
{
    out.make_room(REFUSAL_ROOM)?;
    match answer_line(alloc, accounts, number, line, out) {
        Ok(()) => Ok(()),
        Err(OutOfMemory) => {
            out.refuse(&Refusal::OutOfMemory, number);
            Ok(())
        }
    }
}

/// Appends the answer to a line that is too long, and an LF.
pub(crate) fn refuse_long_line(number: u64, out: &mut Gathered) -> Result<(), OutOfMemory>
    ensures { OnOk result (out.new.bytes ≡ out.old.bytes ++ (refusal_text Refusal.RequestTooLong (id_of number) ++ 10 ∷ [])) }
{
    out.make_room(REFUSAL_ROOM)?;
    out.refuse(&Refusal::RequestTooLong, number);
    Ok(())
}

// Answers a line with what it asks for, or does nothing.
#[tactic(auto, unfolding(crate::specs::Plain::answer, crate::specs::Plain::after_line))]
fn answer_line(
    alloc: Global,
    accounts: &mut Accounts,
    number: u64,
    line: &[u8],
    out: &mut Gathered,
) -> Result<(), OutOfMemory>
    requires { 1025 ≤ out.old.spare }
    ensures accounts { OnOk result (accounts.new ≡ after_line accounts.old line.now) }
    ensures bytes { OnOk result (out.new.bytes ≡ out.old.bytes ++ answer_to number accounts.old line.now) }
    ensures same_accounts { OnErr result (accounts.new ≡ accounts.old) }
    ensures same_bytes { OnErr result (out.new.bytes ≡ out.old.bytes) }
    ensures room { OnErr result (1025 ≤ out.new.spare) }
{
    match read_line(alloc, line) {
        Ok(request) => execute(alloc, accounts, number, &request, out),
        Err(Refusal::OutOfMemory) => Err(OutOfMemory),
        Err(refusal) => {
            out.refuse(&refusal, number);
            Ok(())
        }
    }
}

// Answers a request, or does nothing: its body is made, and has its room, before its changes are applied.
fn execute(
    alloc: Global,
    accounts: &mut Accounts,
    number: u64,
    request: &Request,
    out: &mut Gathered,
) -> Result<(), OutOfMemory>
    requires room { 1025 ≤ out.old.spare }
    requires asked { IsLawfulRequest request.now }
    ensures accounts { OnOk result (accounts.new ≡ after accounts.old account request.now) }
    ensures bytes { OnOk result (out.new.bytes ≡ out.old.bytes ++ (reply number accounts.old request.now ++ 10 ∷ [])) }
    ensures same_accounts { OnErr result (accounts.new ≡ accounts.old) }
    ensures same_bytes { OnErr result (out.new.bytes ≡ out.old.bytes) }
    ensures room { OnErr result (1025 ≤ out.new.spare) }
{
    let told = tell(alloc, accounts, number, request)?;
    let Some(size) = told.body.len().checked_add(1) else {
        return Err(OutOfMemory);
    };
    out.make_room(size.max(REFUSAL_ROOM))?;
    accounts.apply(&told.changes)?;
    out.push(told.body.as_slice());
    out.push(b"\n");
    Ok(())
}

fn tell(
    alloc: Global,
    accounts: &Accounts,
    number: u64,
    request: &Request,
) -> Result<Told, OutOfMemory>
    requires { IsLawfulRequest request.now }
    ensures body { IfOk result (λ told. told.body.bytes ≡ reply number accounts.now request.now) }
    ensures changes { IfOk result (λ told. told.changes ≡ changes_of accounts.now account request.now) }
{
    let mut looked = Steps::<Looked>::new();
    let answer = sdb_answer::answer(alloc, accounts, ACCOUNT, MOMENT, request, &mut looked)?;
    let spent = units(Some(request), &answer.outcome, answer.bound);
    let body = body(alloc, &answer.outcome, &line_id(number), spent)?;
    Ok(Told {
        body,
        changes: answer.changes,
    })
}
