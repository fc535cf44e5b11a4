//! What forms ask for: the request or the refusal of each, as one line.

use sdb_action::{
    Action, DropItem, DropItems, Expect, PutItem, PutItems, Request, read_action, read_request,
};
use sdb_base::{Text, Texts};
use sdb_form::read;
use sdb_tables::Refusal;
use std::fmt::Write;
use std::test::Fail;

const PUT: &str = "Action=PutAttributes&DomainName=books&ItemName=i&";

const DELETE: &str = "Action=DeleteAttributes&DomainName=books&ItemName=i&";

const GET: &str = "Action=GetAttributes&DomainName=books&ItemName=i&";

const BATCH_PUT: &str = "Action=BatchPutAttributes&DomainName=books&";

const BATCH_DELETE: &str = "Action=BatchDeleteAttributes&DomainName=books&";

// What a form asks for.
fn line_of(rt: &impl AllocGlobal, form: &str) -> Result<String, Fail> {
    let alloc = rt.alloc();
    let params = read(alloc, form.as_bytes())?;
    let mut line = String::new(alloc);
    match read_action(&params) {
        Ok(action) => match read_request(alloc, action, &params) {
            Ok(request) => push_request(&mut line, &request)?,
            Err(refusal) => push_refusal(&mut line, refusal)?,
        },
        Err(refusal) => push_refusal(&mut line, refusal)?,
    }
    Ok(line)
}

fn push_refusal(line: &mut String, refusal: Refusal) -> Result<(), Fail> {
    Ok(write!(line, "{refusal:?}")?)
}

fn push_request(line: &mut String, request: &Request) -> Result<(), Fail> {
    match request {
        Request::CreateDomain(name) => push_word(line, "create", name.as_str()),
        Request::DeleteDomain(name) => push_word(line, "drop", name.as_str()),
        Request::DomainMetadata(name) => push_word(line, "count", name.as_str()),
        Request::ListDomains(most, token) => {
            write!(line, "list {most}")?;
            push_optional(line, token)
        }
        Request::Select(expression, token) => {
            push_word(line, "select", expression.as_str())?;
            push_optional(line, token)
        }
        Request::Get(domain, item, names) => {
            push_word(line, "get", domain.as_str())?;
            push_word(line, "", item.as_str())?;
            push_names(line, names)
        }
        Request::Put(domain, item, expected) => {
            push_word(line, "put", domain.as_str())?;
            push_put(line, item)?;
            push_expected(line, expected)
        }
        Request::Delete(domain, item, expected) => {
            push_word(line, "delete", domain.as_str())?;
            push_drop(line, item)?;
            push_expected(line, expected)
        }
        Request::BatchPut(domain, items) => {
            push_word(line, "put", domain.as_str())?;
            push_puts(line, items)
        }
        Request::BatchDelete(domain, items) => {
            push_word(line, "delete", domain.as_str())?;
            push_drops(line, items)
        }
    }
}

fn push_word(line: &mut String, word: &str, text: &str) -> Result<(), Fail> {
    Ok(write!(line, "{word} {text}")?)
}

fn push_optional(line: &mut String, token: &Option<Text>) -> Result<(), Fail> {
    match token {
        Some(token) => push_word(line, " from", token.as_str()),
        None => Ok(()),
    }
}

fn push_names(line: &mut String, names: &Texts) -> Result<(), Fail> {
    for name in names.as_slice() {
        push_word(line, "", name.as_str())?;
    }
    Ok(())
}

fn push_puts(line: &mut String, items: &PutItems) -> Result<(), Fail> {
    for item in items.as_slice() {
        push_put(line, item)?;
    }
    Ok(())
}

fn push_put(line: &mut String, item: &PutItem) -> Result<(), Fail> {
    push_word(line, " /", item.name.as_str())?;
    for pair in item.pairs.as_slice() {
        let sign = if pair.replace { "!" } else { "" };
        write!(
            line,
            " {}{sign}={}",
            pair.name.as_str(),
            pair.value.as_str()
        )?;
    }
    Ok(())
}

fn push_drops(line: &mut String, items: &DropItems) -> Result<(), Fail> {
    for item in items.as_slice() {
        push_drop(line, item)?;
    }
    Ok(())
}

fn push_drop(line: &mut String, item: &DropItem) -> Result<(), Fail> {
    push_word(line, " /", item.name.as_str())?;
    for part in item.parts.as_slice() {
        push_pair(line, part.name.as_str(), &part.value)?;
    }
    Ok(())
}

// A name with its value, or alone.
fn push_pair(line: &mut String, name: &str, value: &Option<Text>) -> Result<(), Fail> {
    match value {
        Some(value) => Ok(write!(line, " {name}={}", value.as_str())?),
        None => push_word(line, "", name),
    }
}

fn push_expected(line: &mut String, expected: &Option<Expect>) -> Result<(), Fail> {
    match expected {
        Some(expected) => {
            write!(line, " if")?;
            push_pair(line, expected.name.as_str(), &expected.value)
        }
        None => Ok(()),
    }
}

#[test]
fn forms_are_requests(rt: HostRuntime) -> Result<(), Fail> {
    let rows = [
        ("Action=CreateDomain&DomainName=books", "create books"),
        ("Action=DeleteDomain&DomainName=books", "drop books"),
        ("Action=DomainMetadata&DomainName=books", "count books"),
        ("Action=ListDomains&NextToken=", "list 100"),
        (
            "Action=ListDomains&MaxNumberOfDomains=7&NextToken=t",
            "list 7 from t",
        ),
        (
            "Action=Select&SelectExpression=x&ConsistentRead=TRUE&NextToken=t",
            "select x from t",
        ),
        (
            "Action=GetAttributes&DomainName=books&ItemName=i&AttributeName.10=c&AttributeName.9=b&AttributeName=a",
            "get books i a b c",
        ),
        (
            "Action=PutAttributes&DomainName=books&ItemName=i&Attribute.10.Name=b&Attribute.10.Value=2&Attribute.10.Replace=True&Attribute.2.Value=1&Attribute.2.Name=a&Attribute.02.Name=c&Attribute.10000.Name=d&Expected.7.Name=a&Expected.7.Value=",
            "put books / i a=1 b!=2 if a=",
        ),
        (
            "Action=DeleteAttributes&DomainName=books&ItemName=i&Attribute.0.Name=a&Attribute.0.Replace=yes&Attribute.1.Name=b&Attribute.1.Value=1&Expected.Name=c&Expected.Exists=FALSE",
            "delete books / i a b=1 if c",
        ),
        (
            "Action=DeleteAttributes&DomainName=books&ItemName=i",
            "delete books / i",
        ),
        (
            "Action=BatchPutAttributes&DomainName=books&Item.10.ItemName=j&Item.10.Attribute.0.Name=a&Item.10.Attribute.0.Value=1&Item.2.ItemName=i&Item.2.Attribute.1.Name=b&Item.2.Attribute.1.Value=2",
            "put books / i b=2 / j a=1",
        ),
        (
            "Action=BatchDeleteAttributes&DomainName=books&Item.10.ItemName=j&Item.10.Attribute.1.Name=b&Item.2.ItemName=i&Expected.Value=",
            "delete books / i / j b",
        ),
    ];
    for (form, wanted) in rows {
        assert_eq!(rt; line_of(&rt, form)?.as_str(), wanted, "{form}");
    }
    Ok(())
}

#[test]
fn the_first_fault_decides(rt: HostRuntime) -> Result<(), Fail> {
    let rows = [
        ("", "DomainName=books", "MissingParameter"),
        ("", "Action=select", "InvalidAction"),
        ("", "Action=CreateDomain", "MissingParameter"),
        (
            "",
            "Action=CreateDomain&DomainName=ab",
            "InvalidParameterValue",
        ),
        (
            "",
            "Action=ListDomains&MaxNumberOfDomains=101",
            "InvalidParameterValue",
        ),
        ("", "Action=Select", "MissingParameter"),
        (GET, "ConsistentRead=maybe", "InvalidParameterValue"),
        (
            "",
            "Action=PutAttributes&ItemName=&Attribute.0.Value=1",
            "MissingParameter",
        ),
        (
            "",
            "Action=PutAttributes&DomainName=ab&Attribute.0.Value=1",
            "InvalidParameterValue",
        ),
        (PUT, "", "MissingParameter"),
        (PUT, "Attribute.0.Name=a", "MissingParameter"),
        (
            PUT,
            "Attribute.0.Name=a&Attribute.0.Value=1&Attribute.0.Replace=yes",
            "InvalidParameterValue",
        ),
        (
            PUT,
            "Attribute.0.Name=&Attribute.1.Value=1",
            "InvalidParameterValue",
        ),
        (
            PUT,
            "Attribute.1.Name=&Attribute.0.Value=1",
            "MissingParameter",
        ),
        (PUT, "Expected.Value=1", "MissingParameter"),
        (DELETE, "Attribute.0.Replace=true", "MissingParameter"),
        (
            DELETE,
            "Expected.0.Name=a&Expected.Name=b",
            "MultipleExpectedNames",
        ),
        (
            DELETE,
            "Expected.Value=1&Expected.Exists=maybe",
            "IncompleteExpectedExpression",
        ),
        (
            DELETE,
            "Expected.Name=&Expected.Exists=false",
            "InvalidParameterValue",
        ),
        (
            DELETE,
            "Expected.Name=a&Expected.Exists=true",
            "IncompleteExpectedExpression",
        ),
        (
            DELETE,
            "Expected.Name=a&Expected.Value=1&Expected.Exists=False",
            "ExistsAndExpectedValue",
        ),
        (
            BATCH_PUT,
            "Item.0.ItemName=i&Item.1.ItemName=",
            "MissingParameter",
        ),
        (
            BATCH_PUT,
            "Item.0.ItemName=&Item.1.ItemName=j",
            "InvalidParameterValue",
        ),
        (
            BATCH_DELETE,
            "Item.0.ItemName=i&Item.1.ItemName=j&Item.2.ItemName=i",
            "DuplicateItemName",
        ),
    ];
    for (before, behind, wanted) in rows {
        let form = format!(in rt.alloc(); "{before}{behind}")?;
        assert_eq!(rt; line_of(&rt, form.as_str())?.as_str(), wanted, "{form}");
    }
    Ok(())
}

// The form with so many parts, each of which has its number between two texts.
fn numbered(
    rt: &impl AllocGlobal,
    form: &str,
    count: u16,
    before: &str,
    behind: &str,
) -> Result<String, Fail> {
    let mut text = String::from_str(rt.alloc(), form)?;
    for number in 0..count {
        write!(text, "&{before}.{number}{behind}")?;
    }
    Ok(text)
}

#[test]
fn lists_have_at_most_256_attributes_and_25_items(rt: HostRuntime) -> Result<(), Fail> {
    let rows = [
        (
            GET,
            257,
            "AttributeName",
            "=a",
            "NumberSubmittedAttributesExceeded(257)",
        ),
        (
            PUT,
            257,
            "Attribute",
            ".Value=1",
            "NumberSubmittedAttributesExceeded(257)",
        ),
        (
            BATCH_PUT,
            26,
            "Item",
            ".ItemName=i",
            "NumberSubmittedItemsExceeded(26)",
        ),
        (BATCH_DELETE, 1, "Item", ".ItemName=i", "delete books / i"),
    ];
    for (form, count, before, behind, wanted) in rows {
        let form = numbered(&rt, form, count, before, behind)?;
        assert_eq!(rt; line_of(&rt, form.as_str())?.as_str(), wanted, "{form}");
    }
    let most = numbered(&rt, GET, 256, "AttributeName", "=a")?;
    assert_eq!(rt; line_of(&rt, most.as_str())?.len(), 11 + 256 * 2);
    Ok(())
}
