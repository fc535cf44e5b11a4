//! Arrivals answered over accounts without domains, as a connection brings them.

use sdb_arrivals::{Line, Table};
use sdb_base::Steps;
use sdb_domain::Accounts;
use sdb_keys::read_keys;
use sdb_respond::{Response, respond};
use std::process::Abort;
use std::test::Fail;

// What is counted.
struct Looked;

// 2010-01-01T00:00:00Z.
const NEW_YEAR: u64 = 1_262_304_000;

// Signed by Python's hmac and base64, for a POST to localhost:8080.
const CREATION: &str = "POST / HTTP/1.1\r\nHost: localhost:8080\r\nContent-Length: 218\r\n\r\n\
    AWSAccessKeyId=AK1&Action=CreateDomain&DomainName=books&SignatureMethod=HmacSHA256\
    &SignatureVersion=2&Timestamp=2010-01-01T00%3A00%3A00Z&Version=2009-04-15\
    &Signature=ckU%2FmgqHRsBd61kxeTJic8hIVQyEBLkPE8rvE%2F5ld%2FU%3D";

const CREATED: &str = "HTTP/1.1 200 OK\r\nContent-Type: text/xml\r\nContent-Length: 245\r\n\r\n\
    <?xml version=\"1.0\"?>\n<CreateDomainResponse xmlns=\"http://sdb.amazonaws.com/doc/2009-04-15/\">\
    <ResponseMetadata><RequestId>00000001-0000-0000-0000-000000000001</RequestId>\
    <BoxUsage>0.0000050000</BoxUsage></ResponseMetadata></CreateDomainResponse>";

const TOO_LONG: &str =
    "HTTP/1.1 414 URI Too Long\r\nContent-Type: text/xml\r\nContent-Length: 238\r\n\
    Connection: close\r\n\r\n<?xml version=\"1.0\"?>\n<Response><Errors><Error><Code>URITooLong</Code>\
    <Message>The request head is too long.</Message><BoxUsage>0.0000001000</BoxUsage></Error></Errors>\
    <RequestID>00000001-0000-0000-0000-000000000001</RequestID></Response>";

// Answers the first request of connection 1, whose bytes are given.
fn answered(rt: &(impl Abort + AllocGlobal), bytes: &[u8]) -> Result<Response, Fail> {
    let alloc = rt.alloc();
    let keys = read_keys(alloc, b"1 AK1 SECRET1")?;
    let mut line = Line::new(alloc)?;
    let mut table = Table::new(alloc)?;
    assert!(rt; table.last_opened() == 0);
    assert!(rt; table.open(alloc, 1, 0).is_ok());
    assert!(rt; bytes.len() < 1_000_000);
    assert!(rt; table.bytes_taken() < 1_000_000);
    table.piece(alloc, &keys, &mut line, 1, NEW_YEAR, bytes)?;
    let Some(arrival) = line.first_waiting() else {
        panic!(rt; "no request is whole");
    };
    let accounts = Accounts::new(alloc);
    Ok(respond(alloc, &accounts, arrival, &mut Steps::<Looked>::new())?)
}

// Asserts that a request is refused with a status and a code.
fn expect_refusal(
    rt: &(impl Abort + AllocGlobal),
    query: &str,
    status: &str,
    code: &str,
) -> Result<(), Fail> {
    let alloc = rt.alloc();
    let request = format!(in alloc; "GET /?{query} HTTP/1.1\r\nHost: h\r\n\r\n")?;
    let response = answered(rt, request.as_bytes())?;
    let text = String::from_utf8(response.bytes.into_vec())?;
    assert!(rt; text.starts_with(status));
    assert!(rt; text.contains(code));
    assert_eq!(rt; response.changes.len(), 0);
    Ok(())
}

#[test]
fn a_signed_creation_is_done(rt: HostRuntime) -> Result<(), Fail> {
    let response = answered(&rt, CREATION.as_bytes())?;
    assert_eq!(rt; response.bytes.as_slice(), CREATED.as_bytes());
    assert_eq!(rt; response.changes.len(), 1);
    Ok(())
}

#[test]
fn a_fault_of_framing_closes(rt: HostRuntime) -> Result<(), Fail> {
    let head = Vec::from_elem(rt.alloc(), b'a', 16_384)?;
    let response = answered(&rt, &head)?;
    assert_eq!(rt; response.bytes.as_slice(), TOO_LONG.as_bytes());
    assert_eq!(rt; response.changes.len(), 0);
    Ok(())
}

#[test]
fn the_first_refusal_answers(rt: HostRuntime) -> Result<(), Fail> {
    expect_refusal(&rt, "Version=1", "HTTP/1.1 400", ">MissingParameter<")?;
    expect_refusal(&rt, "Action=A&Version=1", "HTTP/1.1 400", ">InvalidAction<")?;
    expect_refusal(
        &rt,
        "Action=CreateDomain&Version=1",
        "HTTP/1.1 400",
        ">NoSuchVersion<",
    )?;
    expect_refusal(
        &rt,
        "Action=CreateDomain&Version=2009-04-15&DomainName=x",
        "HTTP/1.1 403",
        ">AuthMissingFailure<",
    )?;
    Ok(())
}
