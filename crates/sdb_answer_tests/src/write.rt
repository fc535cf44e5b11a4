//! Lines stand for requests: `make` and `remove` a domain, `put` and `delete` in the item `i`, and the batches
//! `puts` and `deletes`, whose items stand between semicolons, each with its name before its pairs. Pairs are
//! words, `name=value`, with a `!` behind where the old values of the name go. Behind ` if ` stands what is
//! expected: a pair, or a name alone that has no value. Domains are named behind `make`, or else `books`.

ghost use Rattle.std.specs.Prelude.{◌≡◌, IfOk};
ghost use Rattle.sdb_action.specs.Lawful.{IsLawfulRequest};
ghost use Rattle.sdb_write.specs.Writes.{IsWrite};

use sdb_action::{Request, read_action, read_request};
use sdb_base::{AccountId, OutOfMemory, Steps, Text};
use sdb_domain::Accounts;
use sdb_form::read;
use sdb_pairs::{Change, Changes, Op, Ops, Pair};
use sdb_tables::{Refusal, fault_row};
use sdb_write::decide;
use std::alloc::Global;
use std::fmt::Write;
use std::test::Fail;

const ACCOUNT: AccountId = AccountId(1);

struct Looks;

fn push_attributes(form: &mut String, prefix: &str, words: &str) -> Result<(), Fail> {
    for (number, word) in words.split_ascii_whitespace().enumerate() {
        let plain = word.strip_suffix('!').unwrap_or(word);
        if plain.len() != word.len() {
            write!(form, "&{prefix}Attribute.{number}.Replace=true")?;
        }
        let (name, value) = plain.split_once('=').unwrap_or((plain, ""));
        write!(form, "&{prefix}Attribute.{number}.Name={name}")?;
        if name.len() != plain.len() {
            write!(form, "&{prefix}Attribute.{number}.Value={value}")?;
        }
    }
    Ok(())
}

fn push_expected(form: &mut String, word: &str) -> Result<(), Fail> {
    if word.is_empty() {
        return Ok(());
    }
    match word.split_once('=') {
        Some((name, value)) => write!(form, "&Expected.Name={name}&Expected.Value={value}")?,
        None => write!(form, "&Expected.Name={word}&Expected.Exists=false")?,
    }
    Ok(())
}

fn push_items(alloc: Global, form: &mut String, items: &str) -> Result<(), Fail> {
    for (number, item) in items.split(';').enumerate() {
        let (name, words) = item.trim().split_once(' ').unwrap_or((item.trim(), ""));
        let prefix = format!(in alloc; "Item.{number}.")?;
        write!(form, "&{}ItemName={name}", prefix.as_str())?;
        push_attributes(form, prefix.as_str(), words)?;
    }
    Ok(())
}

fn action_of(verb: &str) -> &'static str {
    match verb {
        "make" => "CreateDomain",
        "remove" => "DeleteDomain",
        "put" => "PutAttributes",
        "puts" => "BatchPutAttributes",
        "delete" => "DeleteAttributes",
        _ => "BatchDeleteAttributes",
    }
}

// The form of the line's request.
fn form_of(alloc: Global, line: &str) -> Result<String, Fail> {
    let (asked, expected) = line.split_once(" if ").unwrap_or((line, ""));
    let (verb, words) = asked.split_once(' ').unwrap_or((asked, ""));
    let domain = if verb == "make" && !words.is_empty() {
        words
    } else {
        "books"
    };
    let mut form = format!(in alloc; "Action={}&DomainName={domain}", action_of(verb))?;
    match verb {
        "put" | "delete" => {
            form.push_str("&ItemName=i")?;
            push_attributes(&mut form, "", words)?;
            push_expected(&mut form, expected)?;
        }
        "puts" | "deletes" => push_items(alloc, &mut form, words)?,
        _ => {}
    }
    Ok(form)
}

fn request_of(alloc: Global, form: &str) -> Result<Request, Refusal>
    ensures write { IfOk result IsWrite }
    ensures lawful { IfOk result IsLawfulRequest }
{
    let Ok(params) = read(alloc, form.as_bytes()) else {
        return Err(Refusal::OutOfMemory);
    };
    let action = read_action(&params)?;
    only_writes(read_request(alloc, action, &params)?)
}

fn only_writes(request: Request) -> Result<Request, Refusal>
    ensures write { IfOk result IsWrite }
    ensures same { IfOk result (λ given. given ≡ request) }
{
    match &request {
        Request::CreateDomain(_) | Request::DeleteDomain(_) => {}
        Request::Put(_, _, _) | Request::BatchPut(_, _) => {}
        Request::Delete(_, _, _) | Request::BatchDelete(_, _) => {}
        _ => return Err(Refusal::InvalidAction),
    }
    Ok(request)
}

// Decides the request of a form, and applies its changes.
fn decide_and_apply(alloc: Global, accounts: &mut Accounts, form: &str) -> Result<(), Refusal> {
    let request = request_of(alloc, form)?;
    let changes = decide(alloc, accounts, ACCOUNT, &request)?;
    accounts.apply(&changes)?;
    Ok(())
}

fn execute(
    alloc: Global,
    accounts: &mut Accounts,
    line: &str,
) -> Result<Result<(), Refusal>, Fail> {
    let form = form_of(alloc, line)?;
    Ok(decide_and_apply(alloc, accounts, form.as_str()))
}

fn code_of(answer: Result<(), Refusal>) -> &'static str {
    match answer {
        Ok(()) => "done",
        Err(refusal) => fault_row(&refusal).code,
    }
}

fn tell_pairs(told: &mut String, pairs: &[Pair]) -> Result<(), OutOfMemory> {
    for pair in pairs {
        told.push_str(pair.name.as_str())?;
        told.push('=')?;
        told.push_str(pair.value.as_str())?;
        told.push(' ')?;
    }
    Ok(())
}

fn tell_item(
    alloc: Global,
    told: &mut String,
    accounts: &Accounts,
    item: &str,
) -> Result<(), OutOfMemory> {
    let domain = Text::from_str(alloc, "books")?;
    let item = Text::from_str(alloc, item)?;
    let mut looks = Steps::<Looks>::new();
    if let Some(books) = accounts.domain(ACCOUNT, &domain) {
        if let Some(item) = books.item(&item, &mut looks) {
            tell_pairs(told, item.pairs())?;
        }
    }
    Ok(())
}

// The answers to the lines, over accounts that begin empty, and then the pairs of the item `i`.
fn told(alloc: Global, lines: &[&str]) -> Result<String, Fail> {
    let mut accounts = Accounts::new(alloc);
    let mut told = String::new(alloc);
    for line in lines {
        told.push_str(code_of(execute(alloc, &mut accounts, line)?))?;
        told.push(' ')?;
    }
    tell_item(alloc, &mut told, &accounts, "i")?;
    Ok(told)
}

#[test]
fn expectations_are_judged_by_the_table(rt: HostRuntime) -> Result<(), Fail> {
    for (line, wanted) in [
        ("put a=1 if one=x", "done done done a=1 one=x two=x two=y "),
        ("delete one if one=x", "done done done two=x two=y "),
        (
            "put a=1 if one=z",
            "done done ConditionalCheckFailed one=x two=x two=y ",
        ),
        (
            "delete one if two=x",
            "done done MultiValuedAttribute one=x two=x two=y ",
        ),
        (
            "put a=1 if none=x",
            "done done AttributeDoesNotExist one=x two=x two=y ",
        ),
        ("put a=1 if none", "done done done a=1 one=x two=x two=y "),
        (
            "delete one if one",
            "done done ConditionalCheckFailed one=x two=x two=y ",
        ),
        (
            "put a=1 if two",
            "done done ConditionalCheckFailed one=x two=x two=y ",
        ),
    ] {
        let told = told(rt.alloc(), &["make", "put one=x two=x two=y", line])?;
        assert_eq!(rt; told.as_str(), wanted);
    }
    Ok(())
}

#[test]
fn deletions_drop_parts_or_the_whole_item(rt: HostRuntime) -> Result<(), Fail> {
    for (line, wanted) in [
        ("delete a=2 b c=2", "done done done a=1 c=1 "),
        ("delete c b a=1 a=2", "done done done "),
        ("delete", "done done done "),
        ("deletes j;i a=2 c;k b", "done done done a=1 b=1 b=2 "),
    ] {
        let told = told(rt.alloc(), &["make", "put a=1 a=2 b=1 b=2 c=1", line])?;
        assert_eq!(rt; told.as_str(), wanted);
    }
    Ok(())
}

#[test]
fn a_domain_has_to_be_there_and_puts_replace_and_add(rt: HostRuntime) -> Result<(), Fail> {
    for (lines, wanted) in [
        (
            [
                "put a=1 if a=1",
                "delete if a=1",
                "puts i a=1",
                "deletes i",
                "remove",
            ]
            .as_slice(),
            "NoSuchDomain NoSuchDomain NoSuchDomain NoSuchDomain done ",
        ),
        (&["make", "put a=1", "make"], "done done done a=1 "),
        (
            &["make", "put a=1", "remove", "make"],
            "done done done done ",
        ),
        (&["make", "delete a", "delete"], "done done done "),
        // A batch puts each item as a put does.
        (
            &["make", "put a=1 b=1", "puts h a=9;i a=2! c=1;j b=2"],
            "done done done a=2 b=1 c=1 ",
        ),
        // A replace takes the old values of its name.
        (
            &[
                "make",
                "put title=A title=B year=1990",
                "put title=C! title=A year=1990",
            ],
            "done done done title=A title=C year=1990 ",
        ),
    ] {
        let told = told(rt.alloc(), lines)?;
        assert_eq!(rt; told.as_str(), wanted);
    }
    Ok(())
}

// The edit of an item that adds `count` pairs.
fn filling(alloc: Global, item: &str, count: usize) -> Result<Change, Fail> {
    let mut ops = Ops::new(alloc);
    for number in 0..count {
        let name = format!(in alloc; "p{number}")?;
        ops.push(Op::AddPair(Pair {
            name: Text::from_str(alloc, name.as_str())?,
            value: Text::from_str(alloc, "v")?,
        }))?;
    }
    let domain = Text::from_str(alloc, "books")?;
    Ok(Change::Edit(ACCOUNT, domain, Text::from_str(alloc, item)?, ops))
}

#[test]
fn a_batch_whose_last_item_is_too_large_changes_none(rt: HostRuntime) -> Result<(), Fail> {
    let alloc = rt.alloc();
    let mut accounts = Accounts::new(alloc);
    let mut changes = Changes::new(alloc);
    changes.push(filling(alloc, "i", 256)?)?;
    accounts.apply(&changes)?;
    let mut line = String::new(alloc);
    line.push_str("puts ")?;
    for number in 0..24 {
        write!(&mut line, "j{number} a=1;")?;
    }
    line.push_str("i one=more")?;
    let answer = execute(alloc, &mut accounts, line.as_str())?;
    assert!(rt; matches!(answer, Err(Refusal::NumberItemAttributesExceeded(257))));
    let mut first = String::new(alloc);
    tell_item(alloc, &mut first, &accounts, "j0")?;
    assert_eq!(rt; first.as_str(), "");
    Ok(())
}

#[test]
fn an_account_has_at_most_250_domains(rt: HostRuntime) -> Result<(), Fail> {
    let alloc = rt.alloc();
    let mut accounts = Accounts::new(alloc);
    for number in 0..250 {
        let line = format!(in alloc; "make domain{number}")?;
        let made = execute(alloc, &mut accounts, line.as_str())?;
        assert!(rt; made.is_ok());
    }
    let more = execute(alloc, &mut accounts, "make another")?;
    assert!(rt; matches!(more, Err(Refusal::NumberDomainsExceeded(251))));
    let there = execute(alloc, &mut accounts, "make domain7")?;
    assert!(rt; there.is_ok());
    Ok(())
}
