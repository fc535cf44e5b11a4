//! Answers to forms, over accounts in memory.
ghost use Rattle.std.specs.Prelude.{IfOk};
ghost use Rattle.sdb_action.specs.Lawful.{IsLawfulRequest};

use sdb_action::{Request, read_action, read_request};
use sdb_answer::{Answer, answer};
use sdb_base::{AccountId, Steps};
use sdb_domain::Accounts;
use sdb_form::read;
use sdb_pairs::Changes;
use sdb_reply::Outcome;
use sdb_tables::Refusal;
use std::alloc::Global;
use std::test::Fail;

// What is counted.
struct Looked;

const ACCOUNT: AccountId = AccountId(1);

fn request_of(alloc: Global, form: &str) -> Result<Request, Refusal>
    ensures { IfOk result IsLawfulRequest }
{
    let Ok(params) = read(alloc, form.as_bytes()) else {
        return Err(Refusal::OutOfMemory);
    };
    let action = read_action(&params)?;
    read_request(alloc, action, &params)
}

// The refusal of an answer, if any, and its changes.
fn parts(answer: Answer<'_>) -> (Option<Refusal>, Changes) {
    let refused = match answer.outcome {
        Outcome::Refused(refusal) => Some(refusal),
        _ => None,
    };
    (refused, answer.changes)
}

// The refusal that a form is answered with, if any, and the number of its changes, which are applied.
fn told(
    alloc: Global,
    accounts: &mut Accounts,
    form: &str,
) -> Result<(Option<Refusal>, usize), Fail> {
    let request = request_of(alloc, form)?;
    let mut looked = Steps::<Looked>::new();
    let (refused, changes) = parts(answer(alloc, accounts, ACCOUNT, 0, &request, &mut looked)?);
    accounts.apply(&changes)?;
    Ok((refused, changes.len()))
}

#[test]
fn a_creation_is_done_by_one_change(rt: HostRuntime) -> Result<(), Fail> {
    let mut accounts = Accounts::new(rt.alloc());
    let told = told(
        rt.alloc(),
        &mut accounts,
        "Action=CreateDomain&DomainName=books",
    )?;
    assert!(rt; told.0.is_none());
    assert_eq!(rt; told.1, 1);
    Ok(())
}

#[test]
fn a_get_in_an_absent_domain_is_refused(rt: HostRuntime) -> Result<(), Fail> {
    let mut accounts = Accounts::new(rt.alloc());
    let form = "Action=GetAttributes&DomainName=books&ItemName=i";
    let told = told(rt.alloc(), &mut accounts, form)?;
    assert!(rt; matches!(told.0, Some(Refusal::NoSuchDomain)));
    assert_eq!(rt; told.1, 0);
    Ok(())
}

#[test]
fn a_batch_is_done_by_a_change_an_item(rt: HostRuntime) -> Result<(), Fail> {
    let mut accounts = Accounts::new(rt.alloc());
    let items =
        "Item.0.ItemName=i&Item.0.Attribute.0.Name=a&Item.0.Attribute.0.Value=x&Item.1.ItemName=j&Item.1.Attribute.0.Name=a&Item.1.Attribute.0.Value=y";
    let batch = format!(in rt.alloc(); "Action=BatchPutAttributes&DomainName=books&{items}")?;
    let absent = told(rt.alloc(), &mut accounts, batch.as_str())?;
    assert!(rt; matches!(absent.0, Some(Refusal::NoSuchDomain)));
    assert_eq!(rt; absent.1, 0);
    let made = told(
        rt.alloc(),
        &mut accounts,
        "Action=CreateDomain&DomainName=books",
    )?;
    assert!(rt; made.0.is_none());
    let done = told(rt.alloc(), &mut accounts, batch.as_str())?;
    assert!(rt; done.0.is_none());
    assert_eq!(rt; done.1, 2);
    Ok(())
}
