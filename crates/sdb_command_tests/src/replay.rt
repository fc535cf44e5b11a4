// `replay` over keys, scripts, outputs and disks in memory.
ghost use Rattle.std.specs.Prelude.{◌≤◌, length, IfOk};

use crate::bare::{run_plainly, words};
use sdb_base::{Bytes, Numbers};
use sdb_cli::Status;
use sdb_disk::MemoryDisk;
use sdb_io::{LinkScript, MemoryClock, MemoryLinks, MemorySink, MemorySource};
use std::alloc::Global;
use std::test::Fail;

const KEYS: &[u8] = b"1 AK1 SECRET1";

// The object of which a call fails, and the call's number.
#[derive(Clone, Copy)]
enum Failing {
    Nothing,
    Keys,
    Input,
    Output,
    Disk(u64),
}

// One call's number, or none.
fn call(alloc: Global, number: Option<u64>) -> Result<Numbers, Fail> {
    let mut numbers = Numbers::new(alloc);
    if let Some(number) = number {
        numbers.push(number)?;
    }
    Ok(numbers)
}

// The status of a replay over a disk, and what it wrote.
fn replayed(
    alloc: Global,
    keys: &[u8],
    script: &[u8],
    failing: Failing,
    disk: &mut MemoryDisk,
) -> Result<(Status, MemorySink), Fail> {
    let [keys_fail, input_fails, output_fails] = match failing {
        Failing::Keys => [Some(0), None, None],
        Failing::Input => [None, Some(0), None],
        Failing::Output => [None, None, Some(0)],
        Failing::Nothing | Failing::Disk(_) => [None, None, None],
    };
    let mut keys = MemorySource::new(Bytes::from_slice(alloc, keys)?, call(alloc, keys_fail)?);
    let mut input = MemorySource::new(Bytes::from_slice(alloc, script)?, call(alloc, input_fails)?);
    let mut output = MemorySink::new(alloc, call(alloc, output_fails)?);
    let mut links = MemoryLinks::new(alloc, LinkScript::new(alloc), Numbers::new(alloc));
    let mut clock = MemoryClock::new(Numbers::new(alloc));
    let words = words(alloc, &["replay"])?;
    let status = run_plainly(
        alloc,
        &words,
        &mut keys,
        &mut input,
        &mut output,
        &mut links,
        disk,
        &mut clock,
    );
    Ok((status, output))
}

fn new_disk(alloc: Global, failing: Failing) -> Result<MemoryDisk, Fail> {
    let number = match failing {
        Failing::Disk(number) => Some(number),
        _ => None,
    };
    Ok(MemoryDisk::new(alloc, call(alloc, number)?, None))
}

// The script that opens so many connections.
fn openings(alloc: Global, many: u32) -> Result<String, Fail> {
    let mut script = String::new(alloc);
    for number in 0..many {
        let conn = number.saturating_add(1);
        write!(script, "O {conn}\n")?;
    }
    Ok(script)
}

#[test]
fn runs_end_by_their_causes(rt: HostRuntime) -> Result<(), Fail> {
    let alloc = rt.alloc();
    let openings = openings(alloc, 65)?;
    let many: &[u8] = openings.as_bytes();
    let bad: &[u8] = b"1 AK1 SECRET1\n17 AK2 S";
    for (keys, script, failing, wanted, written) in [
        (
            KEYS,
            b"".as_slice(),
            Failing::Nothing,
            Status::Done,
            b"".as_slice(),
        ),
        (
            KEYS,
            b"O 1\nD 1 1262304000 5\nGET",
            Failing::Nothing,
            Status::BadScript(4),
            b"",
        ),
        (
            KEYS,
            b"O 1\nO 1\n",
            Failing::Nothing,
            Status::BadScript(4),
            b"",
        ),
        (KEYS, many, Failing::Nothing, Status::Done, b"X 65\n"),
        (KEYS, many, Failing::Output, Status::WriteFault, b""),
        (KEYS, many, Failing::Input, Status::ReadFault, b""),
        (KEYS, many, Failing::Keys, Status::ReadFault, b""),
        (KEYS, many, Failing::Disk(0), Status::DiskFault, b""),
        // Bad keys are told before the store is opened, and before the script is read.
        (bad, many, Failing::Disk(0), Status::BadKeys(2), b""),
        (bad, many, Failing::Input, Status::BadKeys(2), b""),
    ] {
        let mut disk = new_disk(alloc, failing)?;
        let (status, output) = replayed(alloc, keys, script, failing, &mut disk)?;
        assert_eq!(rt; status, wanted);
        assert_eq!(rt; output.written(), written);
    }
    Ok(())
}

// A file of these few bytes.
fn file(alloc: Global, bytes: &[u8]) -> Result<Bytes, Fail>
    ensures { IfOk result (λ file. length file.bytes ≤ 1024) }
{
    if bytes.len() > 1024 {
        Err("the file is too large")?
    }
    Ok(Bytes::from_slice(alloc, bytes)?)
}

// The status of a replay over files: two checkpoints and two journals.
fn over_files(alloc: Global, files: [&[u8]; 4]) -> Result<Status, Fail> {
    let [
        first_checkpoint,
        second_checkpoint,
        first_journal,
        second_journal,
    ] = files;
    let files = [
        file(alloc, first_checkpoint)?,
        file(alloc, second_checkpoint)?,
        file(alloc, first_journal)?,
        file(alloc, second_journal)?,
    ];
    let mut disk = MemoryDisk::with_files(alloc, files);
    let (status, _) = replayed(alloc, KEYS, b"O 1\n", Failing::Nothing, &mut disk)?;
    Ok(status)
}

// A journal of generation 0 without records.
const EMPTY: &[u8] = b"\x01SDBJRNL1\0\0\0\0\0\0\0\0\0\0\0\0\0\0\0\0\0";

// One byte short of a header.
const SHORT: &[u8] = b"\x01SDBJRNL1\0\0\0\0\0\0\0\0\0\0\0\0\0\0\0\0";

// Another magic.
const ANOTHER: &[u8] = b"\x01SDBJRNL9\0\0\0\0\0\0\0\0\0\0\0\0\0\0\0\0\0";

// A journal of the records 1 and 3, CreateDomain `books` and CreateDomain `maps` of account 1.
const SKIPPING: &[u8] =
    b"\x01SDBJRNL1\0\0\0\0\0\0\0\0\0\0\0\0\0\0\0\0\x01\0\0\0\x0c\0\0\0\0\0\0\0\x01\0\0\0\x01\0\x01\x05books\x01\0\0\0\x0b\0\0\0\0\0\0\0\x03\0\0\0\x01\0\x01\x04maps\0";

// The same with the records 1 and 2.
const FOLLOWING: &[u8] =
    b"\x01SDBJRNL1\0\0\0\0\0\0\0\0\0\0\0\0\0\0\0\0\x01\0\0\0\x0c\0\0\0\0\0\0\0\x01\0\0\0\x01\0\x01\x05books\x01\0\0\0\x0b\0\0\0\0\0\0\0\x02\0\0\0\x01\0\x01\x04maps\0";

// A record that says it has 32 bytes, and ends after 12.
const PAST_THE_END: &[u8] =
    b"\x01SDBJRNL1\0\0\0\0\0\0\0\0\0\0\0\0\0\0\0\0\x01\0\0\0\x20\0\0\0\0\0\0\0\x01\0\0\0\x01\0\x01\x05books\0";

// A checkpoint of generation 1 and sequence 1, CreateDomain `books` of account 1.
const CHECKPOINT: &[u8] =
    b"\x01SDBSNAP1\0\0\0\0\0\0\0\x01\0\0\0\0\0\0\0\x01\0\0\0\0\0\0\0\x08\0\x01\x05books";

const FOREIGN: &[u8] = b"\x01xxxxxxxxxxxxxxxxxxxxxxxxxxxxxxxx";

// The first bad file is told, in the order of their numbers. No checkpoint and no second journal is ever written, so where one
// of them is open it is bad.
#[test]
fn files_are_opened_or_the_first_bad_one_is_told(rt: HostRuntime) -> Result<(), Fail> {
    let alloc = rt.alloc();
    let none: &[u8] = b"";
    for (files, wanted) in [
        ([none, none, EMPTY, none], Status::Done),
        ([none, none, SHORT, none], Status::Done),
        ([none, none, FOLLOWING, none], Status::Done),
        ([none, none, ANOTHER, none], Status::NotAStore(2)),
        ([none, none, SKIPPING, none], Status::NotAStore(2)),
        ([none, none, PAST_THE_END, none], Status::NotAStore(2)),
        ([FOREIGN, none, none, none], Status::NotAStore(0)),
        ([CHECKPOINT, none, none, none], Status::NotAStore(0)),
        ([none, CHECKPOINT, none, none], Status::NotAStore(1)),
        ([none, CHECKPOINT, ANOTHER, EMPTY], Status::NotAStore(1)),
        ([none, none, ANOTHER, EMPTY], Status::NotAStore(2)),
        ([none, none, EMPTY, EMPTY], Status::NotAStore(3)),
    ] {
        assert_eq!(rt; over_files(alloc, files)?, wanted);
    }
    Ok(())
}

// Requests signed by Python's hmac and base64, for a POST to localhost:8080.
const CREATE: &str = "POST / HTTP/1.1\r\nHost: localhost:8080\r\nContent-Length: 218\r\n\r\n\
    AWSAccessKeyId=AK1&Action=CreateDomain&DomainName=books&SignatureMethod=HmacSHA256\
    &SignatureVersion=2&Timestamp=2010-01-01T00%3A00%3A00Z&Version=2009-04-15\
    &Signature=ckU%2FmgqHRsBd61kxeTJic8hIVQyEBLkPE8rvE%2F5ld%2FU%3D";

const PUT: &str = "POST / HTTP/1.1\r\nHost: localhost:8080\r\nContent-Length: 271\r\n\r\n\
    AWSAccessKeyId=AK1&Action=PutAttributes&Attribute.1.Name=k&Attribute.1.Value=1&DomainName=books&ItemName=x\
    &SignatureMethod=HmacSHA256&SignatureVersion=2&Timestamp=2010-01-01T00%3A00%3A00Z&Version=2009-04-15\
    &Signature=1R8h4dUEO%2B2b%2FovzCq8ZEYCXx%2FDfz5BDaiD9ZqO%2BxIg%3D";

const GET: &str = "POST / HTTP/1.1\r\nHost: localhost:8080\r\nContent-Length: 232\r\n\r\n\
    AWSAccessKeyId=AK1&Action=GetAttributes&DomainName=books&ItemName=x&SignatureMethod=HmacSHA256\
    &SignatureVersion=2&Timestamp=2010-01-01T00%3A00%3A00Z&Version=2009-04-15\
    &Signature=VP5eys%2FcMVol3yk%2FXi3e5jm2kCMp6yr9X%2Bi%2FpC9867I%3D";

const K_IS_1: &str = "<Name>k</Name><Value>1</Value>";

// The script in which a request comes on a connection.
fn comes(script: &mut String, conn: u32, request: &str) -> Result<(), Fail> {
    let size = request.len();
    write!(script, "D {conn} 1262304000 {size}\n{request}\n")?;
    Ok(())
}

// A domain is made; an item is put and read on two connections, and read again after a commit.
fn session(alloc: Global) -> Result<String, Fail> {
    let mut script = String::new(alloc);
    script.push_str("O 1\n")?;
    comes(&mut script, 1, CREATE)?;
    script.push_str("C\nO 2\n")?;
    comes(&mut script, 1, PUT)?;
    comes(&mut script, 2, GET)?;
    script.push_str("C\n")?;
    comes(&mut script, 2, GET)?;
    script.push_str("C\n")?;
    Ok(script)
}

// What a session answers: how many records, answers that show the pair, and answers ServiceUnavailable.
fn counts(text: &str) -> [usize; 3] {
    [
        text.matches("\nHTTP/1.1 ").count(),
        text.matches(K_IS_1).count(),
        text.matches("<Code>ServiceUnavailable</Code>").count(),
    ]
}

// Without a fault both gets show the pair. Where a call of the disk fails, the put and the get beside it are told so, or the
// store isn't opened and nothing is answered; and the script goes on.
#[test]
fn a_fault_of_the_disk_is_told_and_passes(rt: HostRuntime) -> Result<(), Fail> {
    let alloc = rt.alloc();
    let script = session(alloc)?;
    for number in 0..40 {
        let mut disk = new_disk(alloc, Failing::Disk(number))?;
        let (status, output) = replayed(
            alloc,
            KEYS,
            script.as_bytes(),
            Failing::Nothing,
            &mut disk,
        )?;
        let told = counts(std::str::from_utf8(output.written())?);
        let right = match status {
            Status::DiskFault => told == [0, 0, 0],
            // The creation's commit failed, or the put's, or none.
            Status::Done => told[0] == 4 && (told == [4, 2, 0] || told[2] > 0),
            _ => false,
        };
        assert!(rt; right, "call {number}: {status} {told:?}");
    }
    Ok(())
}
