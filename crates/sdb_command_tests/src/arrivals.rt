//! Connections and what they bring, as a server sees them.

use sdb_action::Request;
use sdb_arrivals::{CoreFault, Line, Table};
use sdb_keys::{Keys, read_keys};
use sdb_tables::Refusal;
use std::process::Abort;
use std::test::Fail;

// 2010-01-01T00:00:00Z.
const NEW_YEAR: u64 = 1_262_304_000;

// Signed by Python's hmac and base64, for a POST to localhost:8080.
const FORM: &str =
    "AWSAccessKeyId=AK1&Action=CreateDomain&DomainName=books&SignatureMethod=HmacSHA256\
    &SignatureVersion=2&Timestamp=2010-01-01T00%3A00%3A00Z&Version=2009-04-15\
    &Signature=ckU%2FmgqHRsBd61kxeTJic8hIVQyEBLkPE8rvE%2F5ld%2FU%3D";

const HEAD: &str = "POST / HTTP/1.1\r\nHost: localhost:8080\r\nContent-Length: 218\r\n\r\n";

fn keys_of(rt: &impl AllocGlobal) -> Result<Keys, Fail> {
    Ok(read_keys(rt.alloc(), b"1 AK1 SECRET1")?)
}

// Takes a piece of connection 1 in.
fn come(
    rt: &(impl Abort + AllocGlobal),
    keys: &Keys,
    line: &mut Line,
    table: &mut Table,
    bytes: &[u8],
) -> Result<(), Fail> {
    assert!(rt; bytes.len() < 1_000_000);
    assert!(rt; table.bytes_taken() < 1_000_000);
    table.piece(rt.alloc(), keys, line, 1, NEW_YEAR, bytes)?;
    Ok(())
}

// A table with connection 1 open.
fn table_of(rt: &(impl Abort + AllocGlobal)) -> Result<Table, Fail> {
    let mut table = Table::new(rt.alloc())?;
    assert!(rt; table.last_opened() == 0);
    assert_eq!(rt; table.open(rt.alloc(), 1, 0), Ok(()));
    Ok(table)
}

// Asserts that the oldest arrival that waits was refused so, and closes.
fn expect_refusal(rt: &impl Abort, line: &Line, refusal: Refusal) {
    match line.first_waiting() {
        Some(first) => match &first.read.asked {
            Err(found) => {
                assert_eq!(rt; *found, refusal);
                assert!(rt; first.close);
            }
            Ok(_) => panic!(rt; "not refused"),
        },
        None => panic!(rt; "nothing waits"),
    }
}

#[test]
fn a_signed_creation_in_two_pieces(rt: HostRuntime) -> Result<(), Fail> {
    let keys = keys_of(&rt)?;
    let mut line = Line::new(rt.alloc())?;
    let mut table = table_of(&rt)?;
    come(&rt, &keys, &mut line, &mut table, HEAD.as_bytes())?;
    assert!(rt; !line.is_waiting());
    come(&rt, &keys, &mut line, &mut table, FORM.as_bytes())?;
    match line.first_waiting() {
        Some(first) => {
            assert_eq!(rt; first.conn, 1);
            assert_eq!(rt; first.number, 1);
            assert_eq!(rt; first.moment, NEW_YEAR);
            assert!(rt; !first.close);
            assert!(rt; first.read.account.is_some());
            match &first.read.asked {
                Ok(asked) => assert!(rt; matches!(asked.request(), Request::CreateDomain(_))),
                Err(_) => panic!(rt; "refused"),
            }
        }
        None => panic!(rt; "nothing waits"),
    }
    assert!(rt; table.is_open(1));
    Ok(())
}

#[test]
fn faults_of_framing_close(rt: HostRuntime) -> Result<(), Fail> {
    let keys = keys_of(&rt)?;
    let mut line = Line::new(rt.alloc())?;
    let mut table = table_of(&rt)?;
    let head = Vec::from_elem(rt.alloc(), b'a', 16_384)?;
    come(&rt, &keys, &mut line, &mut table, &head)?;
    expect_refusal(&rt, &line, Refusal::URITooLong);
    assert!(rt; !table.is_open(1));

    let mut line = Line::new(rt.alloc())?;
    let mut table = table_of(&rt)?;
    let head = b"POST / HTTP/1.1\r\nHost: h\r\nContent-Length: 1048577\r\n\r\n";
    come(&rt, &keys, &mut line, &mut table, head)?;
    expect_refusal(&rt, &line, Refusal::RequestTooLong);
    assert!(rt; !table.is_open(1));
    Ok(())
}

#[test]
fn the_connection_after_64_is_full(rt: HostRuntime) -> Result<(), Fail> {
    let mut table = Table::new(rt.alloc())?;
    for conn in 1..65u32 {
        assert!(rt; table.last_opened() < conn);
        assert_eq!(rt; table.open(rt.alloc(), conn, 0), Ok(()));
    }
    assert!(rt; table.last_opened() < 65);
    assert_eq!(rt; table.open(rt.alloc(), 65, 0), Err(CoreFault::Full));
    table.end(rt.alloc(), 7);
    assert!(rt; !table.is_open(7));
    assert!(rt; table.last_opened() < 66);
    assert_eq!(rt; table.open(rt.alloc(), 66, 0), Ok(()));
    assert!(rt; table.is_open(66));
    Ok(())
}
