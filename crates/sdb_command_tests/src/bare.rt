// `bare`, and what all commands have, over inputs and outputs in memory.
use sdb_base::{Bytes, Numbers, Text, Words};
use sdb_cli::{Status, run};
use sdb_disk::{Disk, MemoryDisk};
use sdb_io::{
    Clock, Failed, LinkScript, Links, MemoryClock, MemoryLinks, MemorySink, MemorySource, Sink,
    Source,
};
use std::alloc::Global;
use std::process::Abort;
use std::test::Fail;

const BOOKS: &[u8] = b"Action=CreateDomain&DomainName=books\n";

const BOOKS_ANSWER: &[u8] =
    b"<?xml version=\"1.0\"?>\n<CreateDomainResponse xmlns=\"http://sdb.amazonaws.com/doc/2009-04-15/\"><ResponseMetadata><RequestId>00000000-0000-0000-0000-000000000001</RequestId><BoxUsage>0.0000050000</BoxUsage></ResponseMetadata></CreateDomainResponse>\n";

// A source that gives one byte at a time.
#[derive(Drop)]
struct Dripping {
    source: MemorySource,
}

impl Source for Dripping {
    ghost use Rattle.std.specs.Prelude.{Some};

    ghost left = { λ s. Some s.source.left };

    ghost faults = { λ s. s.source.faults };

    fn read(&mut self, buf: &mut [u8]) -> Result<usize, Failed> {
        self.source.read(&mut buf[..1])
    }
}

pub(crate) fn words(alloc: Global, texts: &[&str]) -> Result<Words, Fail> {
    let mut words = Words::new(alloc);
    for text in texts {
        words.push(Text::from_str(alloc, text)?)?;
    }
    Ok(words)
}

// A source of these bytes and a sink; each fails at its first call where it is told to.
fn streams(
    alloc: Global,
    bytes: &[u8],
    fails: [bool; 2],
) -> Result<(MemorySource, MemorySink), Fail> {
    let mut reads = Numbers::new(alloc);
    if fails[0] {
        reads.push(0)?;
    }
    let mut writes = Numbers::new(alloc);
    if fails[1] {
        writes.push(0)?;
    }
    let source = MemorySource::new(Bytes::from_slice(alloc, bytes)?, reads);
    Ok((source, MemorySink::new(alloc, writes)))
}

// `run` with nothing said of it, so that no test's proof has to look at its contract.
pub(crate) fn run_plainly<S: Source, T: Source, K: Sink, L: Links, D: Disk, C: Clock>(
    alloc: Global,
    words: &Words,
    keys: &mut S,
    input: &mut T,
    output: &mut K,
    links: &mut L,
    disk: &mut D,
    clock: &mut C,
) -> Status {
    run(alloc, words, keys, input, output, links, disk, clock)
}

// The status of a run over an input, and what it wrote.
fn ran_over<T: Source>(
    alloc: Global,
    texts: &[&str],
    input: &mut T,
    output: &mut MemorySink,
) -> Result<Status, Fail> {
    let mut keys = MemorySource::new(Bytes::new(alloc), Numbers::new(alloc));
    let mut links = MemoryLinks::new(alloc, LinkScript::new(alloc), Numbers::new(alloc));
    let mut disk = MemoryDisk::new(alloc, Numbers::new(alloc), None);
    let mut clock = MemoryClock::new(Numbers::new(alloc));
    let words = words(alloc, texts)?;
    Ok(run_plainly(
        alloc, &words, &mut keys, input, output, &mut links, &mut disk, &mut clock,
    ))
}

// The status of a run, and what it wrote.
fn ran(
    alloc: Global,
    texts: &[&str],
    bytes: &[u8],
    fails: [bool; 2],
) -> Result<(Status, MemorySink), Fail> {
    let (mut input, mut output) = streams(alloc, bytes, fails)?;
    let status = ran_over(alloc, texts, &mut input, &mut output)?;
    Ok((status, output))
}

fn answered(alloc: Global, bytes: &[u8]) -> Result<MemorySink, Fail> {
    let (status, output) = ran(alloc, &["bare"], bytes, [false, false])?;
    if status == Status::Done {
        Ok(output)
    } else {
        Err("the run wasn't done")?
    }
}

const SESSION: &[u8] =
    b"Action=CreateDomain&DomainName=books\nAction=PutAttributes&DomainName=books&ItemName=i1&Attribute.1.Name=title&Attribute.1.Value=Emma\nAction=GetAttributes&DomainName=books&ItemName=i1\n";

const SESSION_ANSWERS: &[u8] =
    b"<?xml version=\"1.0\"?>\n<CreateDomainResponse xmlns=\"http://sdb.amazonaws.com/doc/2009-04-15/\"><ResponseMetadata><RequestId>00000000-0000-0000-0000-000000000001</RequestId><BoxUsage>0.0000050000</BoxUsage></ResponseMetadata></CreateDomainResponse>\n<?xml version=\"1.0\"?>\n<PutAttributesResponse xmlns=\"http://sdb.amazonaws.com/doc/2009-04-15/\"><ResponseMetadata><RequestId>00000000-0000-0000-0000-000000000002</RequestId><BoxUsage>0.0000002200</BoxUsage></ResponseMetadata></PutAttributesResponse>\n<?xml version=\"1.0\"?>\n<GetAttributesResponse xmlns=\"http://sdb.amazonaws.com/doc/2009-04-15/\"><GetAttributesResult><Attribute><Name>title</Name><Value>Emma</Value></Attribute></GetAttributesResult><ResponseMetadata><RequestId>00000000-0000-0000-0000-000000000003</RequestId><BoxUsage>0.0000001050</BoxUsage></ResponseMetadata></GetAttributesResponse>\n";

const DOMAINS: &[u8] =
    b"Action=CreateDomain&DomainName=bbb\nAction=CreateDomain&DomainName=aaa\nAction=PutAttributes&DomainName=aaa&ItemName=i&Attribute.1.Name=title&Attribute.1.Value=A&Attribute.2.Name=title&Attribute.2.Value=C&Attribute.3.Name=year&Attribute.3.Value=1990\nAction=ListDomains&MaxNumberOfDomains=1\nAction=ListDomains&MaxNumberOfDomains=1&NextToken=AW2UfvzxpKkMBp8moDM91KTQbvtFbqEkduscrybjbnLEAAADYWFh\nAction=ListDomains&NextToken=AQ%3D%3D\nAction=DomainMetadata&DomainName=aaa\n";

const DOMAINS_ANSWERS: &[u8] =
    b"<?xml version=\"1.0\"?>\n<CreateDomainResponse xmlns=\"http://sdb.amazonaws.com/doc/2009-04-15/\"><ResponseMetadata><RequestId>00000000-0000-0000-0000-000000000001</RequestId><BoxUsage>0.0000050000</BoxUsage></ResponseMetadata></CreateDomainResponse>\n<?xml version=\"1.0\"?>\n<CreateDomainResponse xmlns=\"http://sdb.amazonaws.com/doc/2009-04-15/\"><ResponseMetadata><RequestId>00000000-0000-0000-0000-000000000002</RequestId><BoxUsage>0.0000050000</BoxUsage></ResponseMetadata></CreateDomainResponse>\n<?xml version=\"1.0\"?>\n<PutAttributesResponse xmlns=\"http://sdb.amazonaws.com/doc/2009-04-15/\"><ResponseMetadata><RequestId>00000000-0000-0000-0000-000000000003</RequestId><BoxUsage>0.0000002600</BoxUsage></ResponseMetadata></PutAttributesResponse>\n<?xml version=\"1.0\"?>\n<ListDomainsResponse xmlns=\"http://sdb.amazonaws.com/doc/2009-04-15/\"><ListDomainsResult><DomainName>aaa</DomainName><NextToken>AW2UfvzxpKkMBp8moDM91KTQbvtFbqEkduscrybjbnLEAAADYWFh</NextToken></ListDomainsResult><ResponseMetadata><RequestId>00000000-0000-0000-0000-000000000004</RequestId><BoxUsage>0.0000001100</BoxUsage></ResponseMetadata></ListDomainsResponse>\n<?xml version=\"1.0\"?>\n<ListDomainsResponse xmlns=\"http://sdb.amazonaws.com/doc/2009-04-15/\"><ListDomainsResult><DomainName>bbb</DomainName></ListDomainsResult><ResponseMetadata><RequestId>00000000-0000-0000-0000-000000000005</RequestId><BoxUsage>0.0000001100</BoxUsage></ResponseMetadata></ListDomainsResponse>\n<?xml version=\"1.0\"?>\n<Response><Errors><Error><Code>InvalidNextToken</Code><Message>The token is not valid.</Message><BoxUsage>0.0000001000</BoxUsage></Error></Errors><RequestID>00000000-0000-0000-0000-000000000006</RequestID></Response>\n<?xml version=\"1.0\"?>\n<DomainMetadataResponse xmlns=\"http://sdb.amazonaws.com/doc/2009-04-15/\"><DomainMetadataResult><ItemCount>1</ItemCount><ItemNamesSizeBytes>1</ItemNamesSizeBytes><AttributeNameCount>2</AttributeNameCount><AttributeNamesSizeBytes>9</AttributeNamesSizeBytes><AttributeValueCount>3</AttributeValueCount><AttributeValuesSizeBytes>6</AttributeValuesSizeBytes><Timestamp>0</Timestamp></DomainMetadataResult><ResponseMetadata><RequestId>00000000-0000-0000-0000-000000000007</RequestId><BoxUsage>0.0000005000</BoxUsage></ResponseMetadata></DomainMetadataResponse>\n";

// What a get of the only item answers after a put of this value.
fn value_answered(alloc: Global, value: &str) -> Result<String, Fail> {
    let lines = format!(in alloc;
        "Action=CreateDomain&DomainName=books\nAction=PutAttributes&DomainName=books&ItemName=i&Attribute.1.Name=n&Attribute.1.Value={value}\nAction=GetAttributes&DomainName=books&ItemName=i"
    )?;
    let output = answered(alloc, lines.as_bytes())?;
    let text = std::str::from_utf8(output.written())?;
    let (_, from_value) = text.split_once("</Name>").ok_or("no pair")?;
    let (element, _) = from_value.split_once("</Attribute>").ok_or("no end")?;
    Ok(String::from_str(alloc, element)?)
}

#[test]
fn sessions_are_answered(rt: HostRuntime) -> Result<(), Fail> {
    let cases = [
        (SESSION, SESSION_ANSWERS),
        (DOMAINS, DOMAINS_ANSWERS),
        (BOOKS, BOOKS_ANSWER),
        (b"".as_slice(), b"".as_slice()),
        (
            b"Action=Fly",
            b"<?xml version=\"1.0\"?>\n<Response><Errors><Error><Code>InvalidAction</Code><Message>The action is not valid.</Message><BoxUsage>0.0000001000</BoxUsage></Error></Errors><RequestID>00000000-0000-0000-0000-000000000001</RequestID></Response>\n",
        ),
        (
            b"Action=GetAttributes&DomainName=none&ItemName=i\n",
            b"<?xml version=\"1.0\"?>\n<Response><Errors><Error><Code>NoSuchDomain</Code><Message>The specified domain does not exist.</Message><BoxUsage>0.0000001000</BoxUsage></Error></Errors><RequestID>00000000-0000-0000-0000-000000000001</RequestID></Response>\n",
        ),
    ];
    for (input, answers) in cases {
        let output = answered(rt.alloc(), input)?;
        assert_eq!(rt; output.written(), answers);
    }
    Ok(())
}

#[test]
fn values_are_escaped(rt: HostRuntime) -> Result<(), Fail> {
    let cases = [
        ("\u{1}", "<Value encoding=\"base64\">AQ==</Value>"),
        ("x\r", "<Value>x&#13;</Value>"),
        ("", "<Value></Value>"),
        ("\u{1f600}\t", "<Value>\u{1f600}\t</Value>"),
        ("1<2>\"'", "<Value>1&lt;2&gt;\"'</Value>"),
    ];
    for (value, element) in cases {
        assert_eq!(rt; value_answered(rt.alloc(), value)?.as_str(), element);
    }
    Ok(())
}

#[test]
fn pieces_of_one_byte_give_the_same_answers(rt: HostRuntime) -> Result<(), Fail> {
    let (source, mut output) = streams(rt.alloc(), BOOKS, [false, false])?;
    let mut input = Dripping { source };
    let status = ran_over(rt.alloc(), &["bare"], &mut input, &mut output)?;
    assert_eq!(rt; status, Status::Done);
    assert_eq!(rt; output.written(), BOOKS_ANSWER);
    Ok(())
}

// The code of an answer's refusal, or `done`.
pub(crate) fn code_of(answer: &str) -> &str {
    match answer.split_once("<Code>") {
        Some((_, rest)) => match rest.split_once("</Code>") {
            Some((code, _)) => code,
            None => rest,
        },
        None => "done",
    }
}

// The last of the answers to these lines.
pub(crate) fn last_answer(alloc: Global, lines: &str) -> Result<String, Fail> {
    let output = answered(alloc, lines.as_bytes())?;
    let text = std::str::from_utf8(output.written())?;
    let (_, answer) = text.rsplit_once("<?xml").ok_or("no answer")?;
    Ok(String::from_str(alloc, answer)?)
}

// The last answer to the lines has each of these parts.
pub(crate) fn shows(
    rt: &(impl Abort + AllocGlobal),
    lines: &str,
    parts: &[&str],
) -> Result<(), Fail> {
    let answer = last_answer(rt.alloc(), lines)?;
    for part in parts {
        assert!(rt; answer.as_str().contains(*part), "{part}");
    }
    Ok(())
}

// The last answer to the lines is a refusal of that code, or `done`.
pub(crate) fn is_refused(
    rt: &(impl Abort + AllocGlobal),
    lines: &str,
    code: &str,
) -> Result<(), Fail> {
    let answer = last_answer(rt.alloc(), lines)?;
    assert_eq!(rt; code_of(answer.as_str()), code);
    Ok(())
}

#[test]
fn refused_lines_have_their_codes(rt: HostRuntime) -> Result<(), Fail> {
    let cases = [
        ("\n", "MissingParameter"),
        ("Action=Fly", "InvalidAction"),
        ("Action=CreateDomain", "MissingParameter"),
        ("Action=CreateDomain&DomainName=ab", "InvalidParameterValue"),
        (
            "Action=CreateDomain&DomainName=a%20b",
            "InvalidParameterValue",
        ),
        (
            "Action=CreateDomain&DomainName=abc&DomainName=abc",
            "InvalidParameterCombination",
        ),
        ("Action=CreateDomain&DomainName=ab%63", "done"),
        (
            "Action=GetAttributes&DomainName=books&ItemName=i&ConsistentRead=maybe",
            "InvalidParameterValue",
        ),
        (
            "Action=GetAttributes&DomainName=books&ItemName=i",
            "NoSuchDomain",
        ),
        ("Action=Select&SelectExpression=x", "InvalidQueryExpression"),
        ("Action=Select", "MissingParameter"),
        ("Action=BatchPutAttributes", "MissingParameter"),
        (
            "Action=ListDomains&MaxNumberOfDomains=0",
            "InvalidParameterValue",
        ),
        ("a=%FF&Action=Fly", "InvalidParameterValue"),
    ];
    for (line, code) in cases {
        is_refused(&rt, line, code)?;
    }
    Ok(())
}

const BOOK: &str =
    "Action=CreateDomain&DomainName=books\nAction=PutAttributes&DomainName=books&ItemName=i&Attribute.1.Name=title&Attribute.1.Value=A&Attribute.2.Name=title&Attribute.2.Value=B&Attribute.3.Name=year&Attribute.3.Value=1990\n";

const REPLACE: &str =
    "Action=PutAttributes&DomainName=books&ItemName=i&Attribute.1.Name=title&Attribute.1.Value=C&Attribute.1.Replace=true&Attribute.2.Name=title&Attribute.2.Value=A&Attribute.3.Name=year&Attribute.3.Value=1990";

const DELETE: &str =
    "Action=DeleteAttributes&DomainName=books&ItemName=i&Attribute.0.Name=title&Attribute.1.Name=year&Attribute.1.Value=1990";

const GET: &str = "\nAction=GetAttributes&DomainName=books&ItemName=i";

#[test]
fn a_book_is_read_and_what_is_replaced_or_deleted_is_gone(rt: HostRuntime) -> Result<(), Fail> {
    for (line, get, part) in [
        (REPLACE, "", "<BoxUsage>0.0000002600</BoxUsage>"),
        (
            REPLACE,
            GET,
            "<GetAttributesResult><Attribute><Name>title</Name><Value>A</Value></Attribute><Attribute><Name>title</Name><Value>C</Value></Attribute><Attribute><Name>year</Name><Value>1990</Value></Attribute></GetAttributesResult><ResponseMetadata><RequestId>00000000-0000-0000-0000-000000000004</RequestId><BoxUsage>0.0000001150</BoxUsage>",
        ),
        (
            "Action=GetAttributes&DomainName=books&ItemName=i&AttributeName.3=year&AttributeName=none",
            "",
            "<GetAttributesResult><Attribute><Name>year</Name><Value>1990</Value></Attribute></GetAttributesResult><ResponseMetadata><RequestId>00000000-0000-0000-0000-000000000003</RequestId><BoxUsage>0.0000001050</BoxUsage>",
        ),
        (
            "Action=GetAttributes&DomainName=books&ItemName=none",
            "",
            "<GetAttributesResult></GetAttributesResult><ResponseMetadata><RequestId>00000000-0000-0000-0000-000000000003</RequestId><BoxUsage>0.0000001000</BoxUsage></ResponseMetadata></GetAttributesResponse>\n",
        ),
        (
            "Action=DeleteAttributes&DomainName=books&ItemName=none",
            "",
            "<DeleteAttributesResponse xmlns=\"http://sdb.amazonaws.com/doc/2009-04-15/\"><ResponseMetadata><RequestId>00000000-0000-0000-0000-000000000003</RequestId><BoxUsage>0.0000002000</BoxUsage>",
        ),
        (DELETE, GET, "<GetAttributesResult></GetAttributesResult>"),
        (
            "Action=DeleteAttributes&DomainName=none&ItemName=i",
            "",
            "<Code>NoSuchDomain</Code>",
        ),
        (
            "Action=DeleteDomain&DomainName=none",
            "",
            "<DeleteDomainResponse",
        ),
        (
            "Action=DeleteDomain&DomainName=books",
            GET,
            "<Code>NoSuchDomain</Code>",
        ),
    ] {
        let lines = format!(in rt.alloc(); "{BOOK}{line}{get}")?;
        shows(&rt, lines.as_str(), &[part])?;
    }
    Ok(())
}

const EXPECTED: &str =
    "Action=CreateDomain&DomainName=books\nAction=PutAttributes&DomainName=books&ItemName=i&Attribute.1.Name=one&Attribute.1.Value=x&Attribute.2.Name=two&Attribute.2.Value=x&Attribute.3.Name=two&Attribute.3.Value=y\n";

#[test]
fn expectations_have_their_answers(rt: HostRuntime) -> Result<(), Fail> {
    let cases = [
        ("Name=one&Expected.1.Value=x", "done"),
        ("Name=one&Expected.1.Value=z", "ConditionalCheckFailed"),
        ("Name=two&Expected.1.Value=x", "MultiValuedAttribute"),
        ("Name=none&Expected.1.Value=x", "AttributeDoesNotExist"),
        ("Name=none&Expected.1.Exists=false", "done"),
        ("Name=one&Expected.1.Exists=false", "ConditionalCheckFailed"),
        ("Name=two&Expected.1.Exists=false", "ConditionalCheckFailed"),
        (
            "Name=one&Expected.1.Exists=false&Expected.1.Value=x",
            "ExistsAndExpectedValue",
        ),
        (
            "Name=one&Expected.1.Exists=true",
            "IncompleteExpectedExpression",
        ),
    ];
    for (expected, code) in cases {
        let put = format!(in rt.alloc();
            "{EXPECTED}Action=PutAttributes&DomainName=books&ItemName=i&Attribute.1.Name=new&Attribute.1.Value=v&Expected.1.{expected}"
        )?;
        is_refused(&rt, &put, code)?;
        let part = if code == "done" {
            "<Value>v</Value>"
        } else {
            "<GetAttributesResult></GetAttributesResult>"
        };
        let get = format!(in rt.alloc(); "{put}{GET}&AttributeName=new")?;
        shows(&rt, &get, &[part])?;
    }
    Ok(())
}

#[test]
fn a_line_past_the_limit_is_too_long(rt: HostRuntime) -> Result<(), Fail> {
    for (length, code) in [
        (1_048_576, "MissingParameter"),
        (1_048_577, "RequestTooLong"),
    ] {
        let mut lines = vec![in rt.alloc(); b'a'; length]?;
        lines.extend_from_slice(b"\nAction=CreateDomain&DomainName=books")?;
        let output = answered(rt.alloc(), &lines)?;
        let text = std::str::from_utf8(output.written())?;
        assert_eq!(rt; code_of(text), code);
        let (_, next) = text.rsplit_once("<?xml").ok_or("no answer")?;
        assert_eq!(rt; code_of(next), "done");
    }
    Ok(())
}

#[test]
fn faults_have_their_statuses(rt: HostRuntime) -> Result<(), Fail> {
    for (fails, wanted) in [
        ([true, false], "2 sdb: reading failed"),
        ([false, true], "4 sdb: writing failed"),
    ] {
        let (status, output) = ran(rt.alloc(), &["bare"], BOOKS, fails)?;
        let told = format!(in rt.alloc(); "{} {status}", status.number())?;
        assert_eq!(rt; told.as_str(), wanted);
        assert_eq!(rt; output.written(), b"".as_slice());
    }
    Ok(())
}

#[test]
fn other_words_are_usage(rt: HostRuntime) -> Result<(), Fail> {
    for texts in [
        [].as_slice(),
        &["--help"],
        &["help"],
        &["bare", "x"],
        &["check", "x"],
        &["serve"],
        &["serve", "0", "5"],
        &["serve", "080", "5"],
        &["serve", "65536", "1"],
        &["serve", "1", "4294967296"],
        &["bench"],
        &["bench", "0"],
        &["bench", "01"],
        &["bench", "101"],
        &["bench", "1", "1"],
    ] {
        let (status, output) = ran(rt.alloc(), texts, BOOKS, [false, false])?;
        assert_eq!(rt; status.number(), 1);
        assert_eq!(rt; output.written(), b"".as_slice());
    }
    Ok(())
}

// Computed by `tools/compare/bench.py`.
const BENCH_LINES: &[u8] =
    b"requests 104\nanswers 104\nitems 61\npairs 63\nsent 5511396813904453fe81d6ada8737e3976aadaa4148d33017f9cc1959df643ab\n";

#[test]
fn a_bench_comes_to_the_same_each_time(rt: HostRuntime) -> Result<(), Fail> {
    for _ in 0..2 {
        let (status, output) = ran(rt.alloc(), &["bench", "1"], BOOKS, [true, false])?;
        assert_eq!(rt; status, Status::Done);
        assert_eq!(rt; output.written(), BENCH_LINES);
    }
    let (status, output) = ran(rt.alloc(), &["bench", "1"], BOOKS, [false, true])?;
    assert_eq!(rt; status, Status::WriteFault);
    assert_eq!(rt; output.written(), b"".as_slice());
    Ok(())
}
