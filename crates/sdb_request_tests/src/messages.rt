//! Streams and responses as clients send and read them.

ghost use Rattle.std.specs.Prelude.{◌≡◌, OnOk};

use sdb_base::Verb;
use sdb_http::{Feed, HttpFault, response};
use std::alloc::Global;
use std::process::Abort;
use std::test::Fail;

// The fault that is taken first from these bytes.
fn fault_of(alloc: Global, bytes: &[u8]) -> Result<Option<HttpFault>, Fail> {
    let mut feed = Feed::new(alloc);
    feed.push(bytes)?;
    match feed.take()? {
        Some(Err(fault)) => Ok(Some(fault)),
        _ => Ok(None),
    }
}

// Takes a request and asserts its form, or that none is there.
fn expect_form(rt: &impl Abort, feed: &mut Feed, form: Option<&[u8]>) -> Result<(), Fail>
    ensures { OnOk result (feed.new.before ≡ feed.old.before) }
{
    match feed.take()? {
        Some(Ok(message)) => assert_eq!(rt; Some(message.form.as_slice()), form),
        Some(Err(fault)) => panic!(rt; "{fault}"),
        None => assert!(rt; form.is_none()),
    }
    Ok(())
}

#[test]
fn heads_that_are_refused(rt: HostRuntime) -> Result<(), Fail> {
    let alloc = rt.alloc();
    let invalid = [
        "GET / HTTP/1.1\r\nHost: h\r\nTransfer-Encoding: chunked\r\n\r\n",
        "GET / HTTP/1.1\r\nHost: h\r\nContent-Length: +5\r\n\r\n",
        "GET / HTTP/1.1\r\nHost: h\r\nContent-Length: 5\r\nContent-Length: 5\r\n\r\n",
        "PUT / HTTP/1.1\r\nHost: h\r\n\r\n",
        "GET /x HTTP/1.1\r\nHost: h\r\n\r\n",
        "POST /?a=1 HTTP/1.1\r\nHost: h\r\n\r\n",
        "GET / HTTP/1.1\r\n\r\n",
        "GET / HTTP/1.1\r\nHost: h\r\nHost: h\r\n\r\n",
        "GET / HTTP/2.0\r\nHost: h\r\n\r\n",
    ];
    for head in &invalid {
        assert_eq!(rt;
            fault_of(alloc, head.as_bytes())?,
            Some(HttpFault::Invalid),
            "{head}"
        );
    }
    let long = b"POST / HTTP/1.1\r\nHost: h\r\nContent-Length: 1048577\r\n\r\n";
    assert_eq!(rt; fault_of(alloc, long)?, Some(HttpFault::BodyTooLong));
    Ok(())
}

#[test]
fn a_head_without_an_end(rt: HostRuntime) -> Result<(), Fail> {
    let mut feed = Feed::new(rt.alloc());
    for _ in 0..16383 {
        feed.push(b"a")?;
    }
    assert!(rt; feed.take()?.is_none());
    feed.push(b"a")?;
    match feed.take()? {
        Some(Err(fault)) => assert_eq!(rt; fault, HttpFault::HeadTooLong),
        _ => panic!(rt; "no fault"),
    }
    assert!(rt; feed.ended());
    feed.push(b"GET / HTTP/1.1\r\nHost: h\r\n\r\n")?;
    assert!(rt; feed.take()?.is_none());
    Ok(())
}

#[test]
fn a_client_posts_its_form(rt: HostRuntime) -> Result<(), Fail> {
    let mut feed = Feed::new(rt.alloc());
    feed.push(b"POST / HTTP/1.1\r\nHost: localhost:8080\r\nAccept-Encoding: identity\r\n")?;
    feed.push(b"Content-Type: application/x-www-form-urlencoded; charset=utf-8\r\n")?;
    feed.push(b"Content-Length: 39\r\n\r\nAction=CreateDomain&DomainName=books&x=")?;
    match feed.take()? {
        Some(Ok(message)) => {
            assert_eq!(rt; message.verb, Verb::Post);
            assert_eq!(rt; message.host.as_slice(), b"localhost:8080".as_slice());
            assert_eq!(rt;
                message.form.as_slice(),
                b"Action=CreateDomain&DomainName=books&x=".as_slice()
            );
            assert!(rt; !message.close);
        }
        _ => panic!(rt; "no message"),
    }
    Ok(())
}

#[test]
fn one_request_byte_by_byte(rt: HostRuntime) -> Result<(), Fail> {
    let mut feed = Feed::new(rt.alloc());
    let request = b"\r\n\nGET /?a=1 HTTP/1.0\nhost:\t h \nContent-Length: 003\n\nxyz";
    let last = request.len() - 1;
    for byte in &request[..last] {
        feed.push(&[*byte])?;
        assert!(rt; feed.take()?.is_none());
    }
    feed.push(&request[last..])?;
    match feed.take()? {
        Some(Ok(message)) => {
            assert_eq!(rt; message.verb, Verb::Get);
            assert_eq!(rt; message.host.as_slice(), b"h".as_slice());
            assert_eq!(rt; message.form.as_slice(), b"a=1".as_slice());
            assert!(rt; message.close);
        }
        _ => panic!(rt; "no message"),
    }
    assert!(rt; feed.ended());
    Ok(())
}

#[test]
fn two_requests_in_one_piece(rt: HostRuntime) -> Result<(), Fail> {
    let mut feed = Feed::new(rt.alloc());
    feed.push(
        b"GET /?a HTTP/1.1\r\nHost: h\r\n\r\nPOST / HTTP/1.1\r\nHost: h\r\nContent-Length: 1\r\nConnection: keep-alive, Close\r\n\r\nbGET",
    )?;
    expect_form(&rt, &mut feed, Some(b"a"))?;
    assert!(rt; !feed.ended());
    expect_form(&rt, &mut feed, Some(b"b"))?;
    assert!(rt; feed.ended());
    expect_form(&rt, &mut feed, None)?;
    Ok(())
}

#[test]
fn back_strikes_out_a_push_and_its_takes(rt: HostRuntime) -> Result<(), Fail> {
    let mut feed = Feed::new(rt.alloc());
    feed.push(b"GET /?a HTTP/1.1\r\nHo")?;
    let rest = b"st: h\r\n\r\nGET /?b HTTP/1.1\r\nHost: h\r\n\r\nGET /?c";
    feed.push(rest)?;
    expect_form(&rt, &mut feed, Some(b"a"))?;
    expect_form(&rt, &mut feed, Some(b"b"))?;
    feed.back();
    expect_form(&rt, &mut feed, None)?;
    feed.push(rest)?;
    expect_form(&rt, &mut feed, Some(b"a"))?;
    expect_form(&rt, &mut feed, Some(b"b"))?;
    expect_form(&rt, &mut feed, None)?;
    Ok(())
}

#[test]
fn the_response_of_a_creation(rt: HostRuntime) -> Result<(), Fail> {
    let body =
        b"<?xml version=\"1.0\"?>\n<CreateDomainResponse xmlns=\"http://sdb.amazonaws.com/doc/2009-04-15/\"><ResponseMetadata><RequestId>00000001-0000-0000-0000-000000000001</RequestId><BoxUsage>0.0000050000</BoxUsage></ResponseMetadata></CreateDomainResponse>";
    let out = response(rt.alloc(), 200, body, false)?;
    let head = b"HTTP/1.1 200 OK\r\nContent-Type: text/xml\r\nContent-Length: 245\r\n\r\n";
    assert!(rt; out.as_slice().starts_with(head));
    assert!(rt; out.as_slice().ends_with(body));
    assert_eq!(rt; out.len(), head.len() + body.len());

    let out = response(rt.alloc(), 413, b"x", true)?;
    let text =
        b"HTTP/1.1 413 Payload Too Large\r\nContent-Type: text/xml\r\nContent-Length: 1\r\nConnection: close\r\n\r\nx";
    assert_eq!(rt; out.as_slice(), text.as_slice());
    Ok(())
}
