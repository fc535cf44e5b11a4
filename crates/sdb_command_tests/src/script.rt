// Scripts read and written, and the workload beside what an independent program computed.
use sdb_base::{Bytes, Numbers, Out};
use sdb_io::{MemorySource, ReadSource, Source};
use sdb_script::{ScriptEvent, ScriptFault, ScriptReader, generate, write_closed, write_out};
use std::io::{self, ErrorKind, Read};
use std::process::Abort;
use std::test::Fail;

// Gives one byte at each call, but for one that fails.
#[derive(Drop)]
struct Trickle {
    bytes: Vec<u8>,
    at: usize,
    calls: u32,
    failing: u32,
}

impl Read for Trickle {
    fn read(&mut self, buf: &mut [u8]) -> io::Result<usize> {
        let call = self.calls;
        self.calls = call.saturating_add(1);
        if call == self.failing {
            return Err(io::Error::from(ErrorKind::Other));
        }
        if buf.is_empty() || self.at >= self.bytes.len() {
            return Ok(0);
        }
        buf[0] = self.bytes[self.at];
        self.at += 1;
        Ok(1)
    }
}

// The next event, of which callers learn nothing else.
fn next<T: Source>(reader: &mut ScriptReader, input: &mut T) -> Result<ScriptEvent, ScriptFault> {
    reader.next(input)
}

// What a script tells until it ends or goes wrong, in words.
fn told<T: Source>(rt: &impl AllocGlobal, input: &mut T) -> Result<String, Fail> {
    let mut words = String::new(rt.alloc());
    let mut reader = ScriptReader::new(rt.alloc());
    for _ in 0..100 {
        match next(&mut reader, input) {
            Ok(ScriptEvent::Opened(conn)) => write!(words, "open {conn}, ")?,
            Ok(ScriptEvent::Piece(conn, moment, bytes)) => {
                let size = bytes.len();
                write!(words, "{size} bytes on {conn} at {moment}, ")?;
            }
            Ok(ScriptEvent::Ended(conn)) => write!(words, "end {conn}, ")?,
            Ok(ScriptEvent::Commit) => words.push_str("commit, ")?,
            Ok(ScriptEvent::Work) => words.push_str("work, ")?,
            Ok(ScriptEvent::End) => {
                words.push_str("done")?;
                return Ok(words);
            }
            Err(ScriptFault::Bad(at)) => {
                write!(words, "bad at {at}")?;
                return Ok(words);
            }
            Err(ScriptFault::Read) => words.push_str("failed, ")?,
            Err(ScriptFault::TooLong) => words.push_str("too long, ")?,
            Err(ScriptFault::OutOfMemory) => words.push_str("no memory, ")?,
        }
    }
    Ok(words)
}

// In one piece, and byte by byte.
fn tells(rt: &(impl Abort + AllocGlobal), script: &str, wanted: &str) -> Result<(), Fail> {
    let bytes = Bytes::from_slice(rt.alloc(), script.as_bytes())?;
    let mut whole = MemorySource::new(bytes, Numbers::new(rt.alloc()));
    assert_eq!(rt; told(rt, &mut whole)?.as_str(), wanted, "{script}");
    let mut slow = one_by_one(rt, script, u32::MAX)?;
    assert_eq!(rt; told(rt, &mut slow)?.as_str(), wanted, "{script}");
    Ok(())
}

fn one_by_one(
    rt: &impl AllocGlobal,
    script: &str,
    failing: u32,
) -> Result<ReadSource<Trickle>, Fail> {
    Ok(ReadSource::new(Trickle {
        bytes: Vec::from_slice(rt.alloc(), script.as_bytes())?,
        at: 0,
        calls: 0,
        failing,
    }))
}

#[test]
fn scripts_are_told_in_one_piece_and_byte_by_byte(rt: HostRuntime) -> Result<(), Fail> {
    for (script, wanted) in [
        ("", "done"),
        ("O 1\nD 1 1262304000 5\nGET", "open 1, bad at 4"),
        ("O 2\nO 1\n", "open 2, bad at 4"),
        ("O 1\nD 1 0 0\n\n", "open 1, bad at 4"),
        ("E 1\n", "bad at 0"),
        (
            "O 1\nD 1 1262304000 5\nGET\n \nC\nW\nE 1\n",
            "open 1, 5 bytes on 1 at 1262304000, commit, work, end 1, done",
        ),
        (
            "O 7\nO 4294967295\nD 7 253402300799 1\n\n\nE 7\nD 4294967295 0 1\nx\n",
            "open 7, open 4294967295, 1 bytes on 7 at 253402300799, end 7, 1 bytes on 4294967295 at 0, done",
        ),
        ("O 1\nE 1\nD 1 0 1\nx\n", "open 1, end 1, bad at 8"),
        ("O 1\nE 1\nO 1\n", "open 1, end 1, bad at 8"),
        ("O 1\nD 2 0 1\nx\n", "open 1, bad at 4"),
        ("O 1\nD 1 0 1\nxx\n", "open 1, bad at 4"),
        ("O 1\nD 1 0 1\nx", "open 1, bad at 4"),
        ("O 1\nD 1 0 65537\n", "open 1, bad at 4"),
        ("O 1\nD 1 253402300800 1\nx\n", "open 1, bad at 4"),
        ("O 1\nD 1 00 1\nx\n", "open 1, bad at 4"),
        ("O 01\n", "bad at 0"),
        ("O 0\n", "bad at 0"),
        ("O 4294967296\n", "bad at 0"),
        ("O  1\n", "bad at 0"),
        ("O 1 \n", "bad at 0"),
        ("O 1\r\n", "bad at 0"),
        ("C\nC\n\n", "commit, commit, bad at 4"),
        ("C", "bad at 0"),
        (
            "C\nW\nDDDDDDDDDDDDDDDDDDDDDDDDDDDDDDDD",
            "commit, work, bad at 4",
        ),
    ] {
        tells(&rt, script, wanted)?;
    }
    Ok(())
}

#[test]
fn a_failed_read_loses_nothing(rt: HostRuntime) -> Result<(), Fail> {
    for failing in [0, 3] {
        let mut input = one_by_one(&rt, "O 1\nC\n", failing)?;
        let words = told(&rt, &mut input)?;
        assert_eq!(rt; words.as_str(), "failed, open 1, commit, done");
    }
    Ok(())
}

#[test]
fn a_piece_of_65536_bytes_is_whole(rt: HostRuntime) -> Result<(), Fail> {
    let mut script = String::from_str(rt.alloc(), "O 1\n")?;
    for _ in 0..5 {
        script.push_str("D 1 0 65536\n")?;
        for _ in 0..8192 {
            script.push_str("O 2\nO 3\n")?;
        }
        script.push_str("\n")?;
    }
    let bytes = Bytes::from_slice(rt.alloc(), script.as_bytes())?;
    let mut input = MemorySource::new(bytes, Numbers::new(rt.alloc()));
    let one = "65536 bytes on 1 at 0, ";
    let wanted = format!(in rt.alloc(); "open 1, {one}{one}{one}{one}{one}done")?;
    assert_eq!(rt; told(&rt, &mut input)?.as_str(), wanted.as_str());
    Ok(())
}

#[test]
fn answers_are_written_as_records(rt: HostRuntime) -> Result<(), Fail> {
    let out = Out {
        conn: 7,
        bytes: Bytes::from_slice(rt.alloc(), b"abc")?,
        close: true,
    };
    assert_eq!(rt;
        write_out(rt.alloc(), &out)?.as_slice(),
        b"S 7 3\nabc\n".as_slice()
    );
    let closed = write_closed(rt.alloc(), 4_294_967_295)?;
    assert_eq!(rt; closed.as_slice(), b"X 4294967295\n".as_slice());
    Ok(())
}

// FNV-1a in 64 bits.
fn checksum(bytes: &[u8]) -> u64 {
    let mut sum: u64 = 0xcbf2_9ce4_8422_2325;
    for b in bytes {
        sum = (sum ^ u64::from(*b)).wrapping_mul(0x100_0000_01b3);
    }
    sum
}

// `tools/compare/workload.py 1` printed these requests, and bytes of this number and checksum.
#[test]
fn the_workload_is_that_of_an_independent_program(rt: HostRuntime) -> Result<(), Fail> {
    let script = generate(rt.alloc(), 1)?;
    assert_eq!(rt; script.len(), 34183);
    assert_eq!(rt; checksum(script.as_slice()), 0xe3eb_12cc_ea55_2b41);
    let mut input = MemorySource::new(script, Numbers::new(rt.alloc()));
    let mut reader = ScriptReader::new(rt.alloc());
    for _ in 0..4 {
        let _opened = next(&mut reader, &mut input)?;
    }
    for wanted in [
        "GET /?AWSAccessKeyId=BENCHKEY&Action=CreateDomain&DomainName=bench0&SignatureMethod=HmacSHA256&SignatureVersion=2&Timestamp=2010-01-01T00%3A00%3A00Z&Version=2009-04-15&Signature=dOqGFRYblqQRWZVwNqk1lo%2BnfupXY5TDypkAmp%2BjdHk%3D HTTP/1.1\r\nHost: bench\r\n\r\n",
        "GET /?AWSAccessKeyId=BENCHKEY&Action=CreateDomain&DomainName=bench1&SignatureMethod=HmacSHA256&SignatureVersion=2&Timestamp=2010-01-01T00%3A00%3A00Z&Version=2009-04-15&Signature=HE9am8nq%2Bl5C5nw4j%2BJKF%2BMiNRD89WEvkkvJNLoNiLQ%3D HTTP/1.1\r\nHost: bench\r\n\r\n",
        "GET /?AWSAccessKeyId=BENCHKEY&Action=CreateDomain&DomainName=bench2&SignatureMethod=HmacSHA256&SignatureVersion=2&Timestamp=2010-01-01T00%3A00%3A00Z&Version=2009-04-15&Signature=mI01iBGKCrzee351CCTfrq9wZ9PvIMbQYwYSvKWANZE%3D HTTP/1.1\r\nHost: bench\r\n\r\n",
    ] {
        match next(&mut reader, &mut input)? {
            ScriptEvent::Piece(1, 1_262_304_000, bytes) => {
                assert_eq!(rt; bytes.as_slice(), wanted.as_bytes());
            }
            _ => assert!(rt; false, "not a request on connection 1"),
        }
    }
    Ok(())
}
