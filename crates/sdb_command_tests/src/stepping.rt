//! A core over a disk in memory, as a server sees it.

ghost use Rattle.std.specs.Prelude.{◌≡◌, IsTrue, IfOk};
ghost use Rattle.sdb_arrivals.specs.Story.{event_of};
ghost use Rattle.sdb_store.specs.Kept.{Ready};
ghost use Rattle.sdb_core.specs.Causes.{CanCome};

use sdb_base::{Numbers, Steps};
use sdb_core::{Core, CoreFault, Event};
use sdb_disk::{Disk, MemoryDisk, OpenFault};
use sdb_keys::{Keys, read_keys};
use std::process::Abort;
use std::test::Fail;

// 2010-01-01T00:00:00Z.
const NEW_YEAR: u64 = 1_262_304_000;

// Requests signed by Python's hmac and base64, for a POST to localhost:8080.
const CREATE: &[u8] = b"POST / HTTP/1.1\r\nHost: localhost:8080\r\nContent-Length: 218\r\n\r\n\
    AWSAccessKeyId=AK1&Action=CreateDomain&DomainName=books&SignatureMethod=HmacSHA256\
    &SignatureVersion=2&Timestamp=2010-01-01T00%3A00%3A00Z&Version=2009-04-15\
    &Signature=ckU%2FmgqHRsBd61kxeTJic8hIVQyEBLkPE8rvE%2F5ld%2FU%3D";

const PUT: &[u8] = b"POST / HTTP/1.1\r\nHost: localhost:8080\r\nContent-Length: 271\r\n\r\n\
    AWSAccessKeyId=AK1&Action=PutAttributes&Attribute.1.Name=k&Attribute.1.Value=1&DomainName=books&ItemName=x\
    &SignatureMethod=HmacSHA256&SignatureVersion=2&Timestamp=2010-01-01T00%3A00%3A00Z&Version=2009-04-15\
    &Signature=1R8h4dUEO%2B2b%2FovzCq8ZEYCXx%2FDfz5BDaiD9ZqO%2BxIg%3D";

const GET: &[u8] = b"POST / HTTP/1.1\r\nHost: localhost:8080\r\nContent-Length: 232\r\n\r\n\
    AWSAccessKeyId=AK1&Action=GetAttributes&DomainName=books&ItemName=x&SignatureMethod=HmacSHA256\
    &SignatureVersion=2&Timestamp=2010-01-01T00%3A00%3A00Z&Version=2009-04-15\
    &Signature=VP5eys%2FcMVol3yk%2FXi3e5jm2kCMp6yr9X%2Bi%2FpC9867I%3D";

const K_IS_1: &[u8] = b"<Name>k</Name><Value>1</Value>";

const UNAVAILABLE: &[u8] = b"<Code>ServiceUnavailable</Code>";

// Only names what is counted.
#[derive(Drop)]
struct Items;

fn keys_of(rt: &impl AllocGlobal) -> Result<Keys, Fail> {
    Ok(read_keys(rt.alloc(), b"1 AK1 SECRET1")?)
}

// Whether a core can take an event.
fn can_come(core: &Core, event: Event<'_>) -> bool
    ensures { IsTrue result → CanCome (event_of event.entry) core.now.table }
{
    match event {
        Event::Opened(conn) => core.last_opened() < conn,
        Event::Piece(_, _, bytes) => core.bytes_taken() < 1_000_000 && bytes.len() < 1_000_000,
        Event::Ended(_) | Event::Commit | Event::Work => true,
    }
}

// Steps a core.
fn tell<D: Disk>(
    rt: &impl Abort,
    core: &mut Core,
    disk: &mut D,
    event: Event<'_>,
) -> Result<(), CoreFault>
    requires { Ready core.old.store (D.state disk.old) }
    ensures { Ready core.new.store (D.state disk.new) }
{
    let can_come = can_come(core, event);
    assert!(rt; can_come);
    core.step(event, disk, &mut Steps::<Items>::new())
}

// Takes off all that is released: each answer behind the digit of its connection.
fn take_all(rt: &impl AllocGlobal, core: &mut Core) -> Result<Vec<u8>, Fail>
    ensures { core.new.store ≡ core.old.store }
{
    let mut sent = Vec::new(rt.alloc());
    'answers: while let Some(out) = core.take_out() {
        let digit = if out.conn < 10 { out.conn as u8 } else { 0 };
        sent.push(b'0' + digit)?;
        sent.extend_from_slice(out.bytes.as_slice())?;
    }
    Ok(sent)
}

// How often a part stands in a text.
fn count_of(text: &[u8], part: &[u8]) -> usize {
    let mut count: usize = 0;
    for i in 0..text.len() {
        if text[i..].starts_with(part) {
            count = count.saturating_add(1);
        }
    }
    count
}

// Requests on connections 1 and 2, byte by byte in turn; the shorter one of 2 begins later, and is whole last.
fn in_turn<D: Disk>(rt: &impl Abort, core: &mut Core, disk: &mut D, first: &[u8], second: &[u8])
    requires { Ready core.old.store (D.state disk.old) }
    ensures { Ready core.new.store (D.state disk.new) }
{
    let late = first.len().saturating_sub(second.len());
    'bytes: for (i, byte) in first.iter().enumerate() {
        let _ = tell(rt, core, disk, Event::Piece(1, NEW_YEAR, &[*byte]));
        if i >= late && i - late < second.len() {
            let byte = second[i - late];
            let _ = tell(rt, core, disk, Event::Piece(2, NEW_YEAR, &[byte]));
        }
    }
}

// What was sent: after the creation, before the commit of the put and of the get in turn with it, after that commit,
// and after a later get.
#[derive(Drop)]
struct Answers {
    created: Vec<u8>,
    early: Vec<u8>,
    together: Vec<u8>,
    later: Vec<u8>,
}

// The story, on a disk of which one call fails.
fn story(
    rt: &(impl Abort + AllocGlobal),
    failing: u64,
) -> Result<Result<Answers, OpenFault>, Fail> {
    let mut fails = Numbers::new(rt.alloc());
    fails.push(failing)?;
    let mut disk = MemoryDisk::new(rt.alloc(), fails, None);
    let keys = keys_of(rt)?;
    match Core::start(rt.alloc(), keys, &mut disk) {
        Ok(mut core) => Ok(Ok(told(rt, &mut core, &mut disk)?)),
        Err(fault) => Ok(Err(fault)),
    }
}

fn told<D: Disk>(
    rt: &(impl Abort + AllocGlobal),
    core: &mut Core,
    disk: &mut D,
) -> Result<Answers, Fail>
    requires { Ready core.old.store (D.state disk.old) }
{
    let _ = tell(rt, core, disk, Event::Opened(1));
    let _ = tell(rt, core, disk, Event::Opened(2));
    let _ = tell(rt, core, disk, Event::Piece(1, NEW_YEAR, CREATE));
    let _ = tell(rt, core, disk, Event::Commit);
    let created = take_all(rt, core)?;
    in_turn(rt, core, disk, PUT, GET);
    let early = take_all(rt, core)?;
    let _ = tell(rt, core, disk, Event::Commit);
    let together = take_all(rt, core)?;
    let _ = tell(rt, core, disk, Event::Piece(2, NEW_YEAR, GET));
    let _ = tell(rt, core, disk, Event::Commit);
    let later = take_all(rt, core)?;
    Ok(Answers {
        created,
        early,
        together,
        later,
    })
}

#[test]
fn a_get_sees_what_is_held_and_waits_for_it(rt: HostRuntime) -> Result<(), Fail> {
    match story(&rt, 1_000)? {
        Ok(sent) => {
            assert!(rt; sent.created.starts_with(b"1HTTP/1.1 200 OK\r\n"));
            assert_eq!(rt; count_of(&sent.created, b"\r\nContent-Length: 245\r\n"), 1);
            assert!(rt; sent.early.is_empty());
            assert!(rt; sent.together.starts_with(b"1HTTP/1.1 200 OK\r\n"));
            assert_eq!(rt; count_of(&sent.together, b"2HTTP/1.1 200 OK\r\n"), 1);
            assert_eq!(rt; count_of(&sent.together, K_IS_1), 1);
            assert_eq!(rt; count_of(&sent.later, K_IS_1), 1);
        }
        Err(_) => panic!(rt; "not opened"),
    }
    Ok(())
}

// One call of the disk after the other fails. Where the commit of put and get fails, both are unavailable, and the put
// counts or doesn't; else neither is, and it counts.
#[test]
fn a_failed_commit_refuses_all_that_are_held(rt: HostRuntime) -> Result<(), Fail> {
    let mut kept = 0usize;
    let mut lost = 0usize;
    for failing in 0..60 {
        if let Ok(sent) = story(&rt, failing)? {
            assert!(rt; sent.early.is_empty());
            let there = count_of(&sent.later, K_IS_1) == 1;
            match count_of(&sent.together, UNAVAILABLE) {
                2 => {
                    assert_eq!(rt; count_of(&sent.together, K_IS_1), 0);
                    kept = if there { kept.saturating_add(1) } else { kept };
                    lost = if there { lost } else { lost.saturating_add(1) };
                }
                0 => assert!(rt; there || count_of(&sent.created, UNAVAILABLE) == 1),
                _ => panic!(rt; "one of the two"),
            }
        }
    }
    assert!(rt; kept >= 1);
    assert!(rt; lost >= 1);
    Ok(())
}

// What is sent after a piece on connection 1 and a commit.
fn sent_for(rt: &(impl Abort + AllocGlobal), bytes: &[u8]) -> Result<(Vec<u8>, bool), Fail> {
    let mut disk = MemoryDisk::new(rt.alloc(), Numbers::new(rt.alloc()), None);
    let mut core = Core::start(rt.alloc(), keys_of(rt)?, &mut disk)?;
    let _ = tell(rt, &mut core, &mut disk, Event::Opened(1));
    let _ = tell(rt, &mut core, &mut disk, Event::Piece(1, NEW_YEAR, bytes));
    let _ = tell(rt, &mut core, &mut disk, Event::Commit);
    let open = core.is_open(1);
    Ok((take_all(rt, &mut core)?, open))
}

#[test]
fn faults_of_framing_are_answered_and_close(rt: HostRuntime) -> Result<(), Fail> {
    let head = Vec::from_elem(rt.alloc(), b'a', 16_384)?;
    let (sent, open) = sent_for(&rt, &head)?;
    assert!(rt; sent.starts_with(b"1HTTP/1.1 414 URI Too Long\r\n"));
    assert_eq!(rt; count_of(&sent, b"\r\nConnection: close\r\n"), 1);
    assert!(rt; !open);
    let head = b"POST / HTTP/1.1\r\nHost: h\r\nContent-Length: 1048577\r\n\r\n";
    let (sent, open) = sent_for(&rt, head)?;
    assert!(rt; sent.starts_with(b"1HTTP/1.1 413 Payload Too Large\r\n"));
    assert!(rt; !open);
    Ok(())
}

#[test]
fn the_connection_after_64_is_full(rt: HostRuntime) -> Result<(), Fail> {
    let mut disk = MemoryDisk::new(rt.alloc(), Numbers::new(rt.alloc()), None);
    let mut core = Core::start(rt.alloc(), keys_of(&rt)?, &mut disk)?;
    'connections: for conn in 1..65u32 {
        assert_eq!(rt;
            tell(&rt, &mut core, &mut disk, Event::Opened(conn)),
            Ok(())
        );
    }
    assert_eq!(rt;
        tell(&rt, &mut core, &mut disk, Event::Opened(65)),
        Err(CoreFault::Full)
    );
    assert_eq!(rt; tell(&rt, &mut core, &mut disk, Event::Ended(7)), Ok(()));
    assert_eq!(rt; tell(&rt, &mut core, &mut disk, Event::Opened(66)), Ok(()));
    Ok(())
}
