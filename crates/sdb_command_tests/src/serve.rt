// `serve` over keys, connections, disks and clocks in memory.
ghost use Rattle.std.specs.Prelude.{◌≡◌, true, IfOk};
ghost use Rattle.sdb_io.specs.Playback.{is_story};

use crate::bare::{run_plainly, words};
use sdb_base::{Bytes, Numbers};
use sdb_cli::Status;
use sdb_disk::MemoryDisk;
use sdb_io::{LinkScript, LinkStep, MemoryClock, MemoryLinks, MemorySink, MemorySource};
use std::alloc::Global;
use std::test::Fail;

// 2010-01-01T00:00:00Z.
const NEW_YEAR: u64 = 1_262_304_000;

// CreateDomain of `books`, signed by Python's hmac and base64, for a POST to localhost:8080.
const CREATE: &str = "POST / HTTP/1.1\r\nHost: localhost:8080\r\nContent-Length: 218\r\n\r\n\
    AWSAccessKeyId=AK1&Action=CreateDomain&DomainName=books&SignatureMethod=HmacSHA256\
    &SignatureVersion=2&Timestamp=2010-01-01T00%3A00%3A00Z&Version=2009-04-15\
    &Signature=ckU%2FmgqHRsBd61kxeTJic8hIVQyEBLkPE8rvE%2F5ld%2FU%3D";

const CREATED: &str = "HTTP/1.1 200 OK\r\nContent-Type: text/xml\r\nContent-Length: 245\r\n\r\n\
    <?xml version=\"1.0\"?>\n\
    <CreateDomainResponse xmlns=\"http://sdb.amazonaws.com/doc/2009-04-15/\"><ResponseMetadata>\
    <RequestId>00000001-0000-0000-0000-000000000001</RequestId><BoxUsage>0.0000050000</BoxUsage>\
    </ResponseMetadata></CreateDomainResponse>";

// Connection 1 opens, gives a request and ends.
fn script(alloc: Global) -> Result<LinkScript, Fail>
    ensures { IfOk result (λ made. is_story 0 made ≡ true) }
{
    let mut script = LinkScript::new(alloc);
    script.push(LinkStep::Opened(1))?;
    script.push(LinkStep::Piece(1, Bytes::from_slice(alloc, CREATE.as_bytes())?))?;
    script.push(LinkStep::Ended(1))?;
    Ok(script)
}

// The status of `serve 8080 3` where so many calls of the links fail, and the links after it.
fn served(alloc: Global, failing: &[u64]) -> Result<(Status, MemoryLinks), Fail> {
    let mut fails = Numbers::new(alloc);
    for number in failing {
        fails.push(*number)?;
    }
    let mut links = MemoryLinks::new(alloc, script(alloc)?, fails);
    let mut keys = MemorySource::new(
        Bytes::from_slice(alloc, b"1 AK1 SECRET1")?,
        Numbers::new(alloc),
    );
    let mut input = MemorySource::new(Bytes::new(alloc), Numbers::new(alloc));
    let mut output = MemorySink::new(alloc, Numbers::new(alloc));
    let mut disk = MemoryDisk::new(alloc, Numbers::new(alloc), None);
    let mut moments = Numbers::new(alloc);
    moments.push(NEW_YEAR)?;
    let mut clock = MemoryClock::new(moments);
    let words = words(alloc, &["serve", "8080", "3"])?;
    let status = run_plainly(
        alloc,
        &words,
        &mut keys,
        &mut input,
        &mut output,
        &mut links,
        &mut disk,
        &mut clock,
    );
    Ok((status, links))
}

#[test]
fn a_request_is_answered_on_its_connection(rt: HostRuntime) -> Result<(), Fail> {
    let (status, links) = served(rt.alloc(), &[])?;
    assert_eq!(rt; status, Status::Done);
    assert_eq!(rt; links.port(), Some(8080));
    assert_eq!(rt; links.sent(1), CREATED.as_bytes());
    assert!(rt; !links.is_closed(1));
    Ok(())
}

#[test]
fn links_that_fail_end_it_but_a_send_that_fails_does_not(rt: HostRuntime) -> Result<(), Fail> {
    let (status, links) = served(rt.alloc(), &[0])?;
    assert_eq!(rt; status, Status::LinkFault, "the port wasn't bound");
    assert_eq!(rt; links.port(), None);
    let (status, _) = served(rt.alloc(), &[2])?;
    assert_eq!(rt; status, Status::LinkFault, "the next event failed");
    let (status, links) = served(rt.alloc(), &[3])?;
    assert_eq!(rt; status, Status::Done, "the send failed");
    assert_eq!(rt; links.sent(1), b"".as_slice());
    assert!(rt; links.is_closed(1));
    Ok(())
}
