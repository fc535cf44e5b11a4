//! Bodies, written out by the rules of docs/FORMATS.md.

use sdb_action::Action;
use sdb_base::{Bytes, Text, Texts};
use sdb_domain::Metadata;
use sdb_http::response;
use sdb_pairs::{ItemOut, ItemsOut, Pair, Pairs};
use sdb_reply::{Outcome, RequestId, body, fault_into, refusal_into, room, told};
use sdb_tables::Refusal;
use std::alloc::Global;
use std::process::Abort;
use std::test::Fail;

const DONE: &str =
    "<?xml version=\"1.0\"?>\n<CreateDomainResponse xmlns=\"http://sdb.amazonaws.com/doc/2009-04-15/\"><ResponseMetadata><RequestId>00000001-0000-0000-0000-000000000001</RequestId><BoxUsage>0.0000050000</BoxUsage></ResponseMetadata></CreateDomainResponse>";

const DOMAINS: &str =
    "<?xml version=\"1.0\"?>\n<ListDomainsResponse xmlns=\"http://sdb.amazonaws.com/doc/2009-04-15/\"><ListDomainsResult><DomainName>books</DomainName><DomainName>films</DomainName><NextToken>AQ==</NextToken></ListDomainsResult><ResponseMetadata><RequestId>abcdef01-0000-0000-0000-ffffffffffff</RequestId><BoxUsage>0.0000001200</BoxUsage></ResponseMetadata></ListDomainsResponse>";

const METADATA: &str =
    "<?xml version=\"1.0\"?>\n<DomainMetadataResponse xmlns=\"http://sdb.amazonaws.com/doc/2009-04-15/\"><DomainMetadataResult><ItemCount>1</ItemCount><ItemNamesSizeBytes>2</ItemNamesSizeBytes><AttributeNameCount>3</AttributeNameCount><AttributeNamesSizeBytes>4</AttributeNamesSizeBytes><AttributeValueCount>5</AttributeValueCount><AttributeValuesSizeBytes>6</AttributeValuesSizeBytes><Timestamp>1000000000</Timestamp></DomainMetadataResult><ResponseMetadata><RequestId>00000001-0000-0000-0000-000000000002</RequestId><BoxUsage>0.0000005000</BoxUsage></ResponseMetadata></DomainMetadataResponse>";

const PAIRS: &str =
    "<?xml version=\"1.0\"?>\n<GetAttributesResponse xmlns=\"http://sdb.amazonaws.com/doc/2009-04-15/\"><GetAttributesResult><Attribute><Name>k</Name><Value></Value></Attribute><Attribute><Name>k</Name><Value encoding=\"base64\">AQ==</Value></Attribute><Attribute><Name>k</Name><Value>a&amp;b</Value></Attribute><Attribute><Name>k</Name><Value>x&#13;</Value></Attribute></GetAttributesResult><ResponseMetadata><RequestId>00000001-0000-0000-0000-000000000003</RequestId><BoxUsage>0.0000001200</BoxUsage></ResponseMetadata></GetAttributesResponse>";

const NO_PAIRS: &str =
    "<?xml version=\"1.0\"?>\n<GetAttributesResponse xmlns=\"http://sdb.amazonaws.com/doc/2009-04-15/\"><GetAttributesResult></GetAttributesResult><ResponseMetadata><RequestId>00000001-0000-0000-0000-000000000004</RequestId><BoxUsage>0.0000001000</BoxUsage></ResponseMetadata></GetAttributesResponse>";

const ITEMS: &str =
    "<?xml version=\"1.0\"?>\n<SelectResponse xmlns=\"http://sdb.amazonaws.com/doc/2009-04-15/\"><SelectResult><Item><Name>i</Name><Attribute><Name>k</Name><Value>a\tb</Value></Attribute><Attribute><Name>&lt;</Name><Value>&gt;</Value></Attribute></Item><Item><Name>j</Name></Item><NextToken>AQ==</NextToken></SelectResult><ResponseMetadata><RequestId>00000001-0000-0000-0000-000000000005</RequestId><BoxUsage>1.2345678901</BoxUsage></ResponseMetadata></SelectResponse>";

const ONE_ITEM: &str =
    "<?xml version=\"1.0\"?>\n<SelectResponse xmlns=\"http://sdb.amazonaws.com/doc/2009-04-15/\"><SelectResult><Item><Name>i</Name><Attribute><Name>k</Name><Value>v</Value></Attribute></Item></SelectResult><ResponseMetadata><RequestId>00000001-0000-0000-0000-000000000001</RequestId><BoxUsage>0.0000001000</BoxUsage></ResponseMetadata></SelectResponse>";

const COUNT: &str =
    "<?xml version=\"1.0\"?>\n<SelectResponse xmlns=\"http://sdb.amazonaws.com/doc/2009-04-15/\"><SelectResult><Item><Name>Domain</Name><Attribute><Name>Count</Name><Value>4</Value></Attribute></Item></SelectResult><ResponseMetadata><RequestId>00000001-0000-0000-0000-000000000006</RequestId><BoxUsage>1844674407.3709551615</BoxUsage></ResponseMetadata></SelectResponse>";

const REFUSED: &str =
    "<?xml version=\"1.0\"?>\n<Response><Errors><Error><Code>NoSuchDomain</Code><Message>The specified domain does not exist.</Message><BoxUsage>0.0000001000</BoxUsage></Error></Errors><RequestID>00000001-0000-0000-0000-000000000007</RequestID></Response>";

const DONE_SENT: &str =
    "HTTP/1.1 200 OK\r\nContent-Type: text/xml\r\nContent-Length: 245\r\n\r\n<?xml version=\"1.0\"?>\n<CreateDomainResponse xmlns=\"http://sdb.amazonaws.com/doc/2009-04-15/\"><ResponseMetadata><RequestId>00000001-0000-0000-0000-000000000001</RequestId><BoxUsage>0.0000050000</BoxUsage></ResponseMetadata></CreateDomainResponse>";

const REFUSED_CLOSED: &str =
    "HTTP/1.1 400 Bad Request\r\nContent-Type: text/xml\r\nContent-Length: 247\r\nConnection: close\r\n\r\n<?xml version=\"1.0\"?>\n<Response><Errors><Error><Code>NoSuchDomain</Code><Message>The specified domain does not exist.</Message><BoxUsage>0.0000001000</BoxUsage></Error></Errors><RequestID>00000001-0000-0000-0000-000000000007</RequestID></Response>";

// The outcome's body is this text, for the connection, the number and the units.
fn expect<'a>(
    rt: &impl Abort,
    alloc: Global,
    outcome: &Outcome<'a>,
    numbers: (u32, u64, u64),
    text: &str,
) -> Result<(), Fail> {
    let id = RequestId {
        conn: numbers.0,
        number: numbers.1,
    };
    let told = body(alloc, outcome, &id, numbers.2)?;
    assert_eq!(rt; told.as_slice(), text.as_bytes());
    Ok(())
}

fn pair(alloc: Global, name: &str, value: &str) -> Result<Pair, Fail> {
    Ok(Pair {
        name: Text::from_str(alloc, name)?,
        value: Text::from_str(alloc, value)?,
    })
}

fn token(alloc: Global) -> Result<Option<Text>, Fail> {
    Ok(Some(Text::from_str(alloc, "AQ==")?))
}

#[test]
fn a_write_that_is_done_has_no_result(rt: HostRuntime) -> Result<(), Fail> {
    let id = RequestId { conn: 1, number: 1 };
    let outcome = Outcome::Done(Action::CreateDomain);
    let made = body(rt.alloc(), &outcome, &id, 50_000)?;
    assert_eq!(rt; made.as_slice(), DONE.as_bytes());
    let sent = response(rt.alloc(), outcome.status(), made.as_slice(), false)?;
    assert_eq!(rt; sent.as_slice(), DONE_SENT.as_bytes());
    let whole = told(rt.alloc(), &outcome, &id, 50_000, false)?;
    assert_eq!(rt; whole.as_slice(), DONE_SENT.as_bytes());
    Ok(())
}

#[test]
fn domains_stand_before_their_token(rt: HostRuntime) -> Result<(), Fail> {
    let alloc = rt.alloc();
    let mut names = Texts::new(alloc);
    names.push(Text::from_str(alloc, "books")?)?;
    names.push(Text::from_str(alloc, "films")?)?;
    let outcome = Outcome::Domains(names, token(alloc)?);
    expect(
        &rt,
        alloc,
        &outcome,
        (0xabcd_ef01, (1 << 48) - 1, 1_200),
        DOMAINS,
    )
}

#[test]
fn metadata_has_six_numbers_and_the_moment(rt: HostRuntime) -> Result<(), Fail> {
    let numbers = Metadata {
        items: 1,
        item_bytes: 2,
        names: 3,
        name_bytes: 4,
        pairs: 5,
        value_bytes: 6,
    };
    let outcome = Outcome::Metadata(numbers, 1_000_000_000);
    expect(&rt, rt.alloc(), &outcome, (1, 2, 5_000), METADATA)
}

#[test]
fn values_are_escaped_or_encoded(rt: HostRuntime) -> Result<(), Fail> {
    let alloc = rt.alloc();
    let held = [
        pair(alloc, "k", "")?,
        pair(alloc, "k", "\u{1}")?,
        pair(alloc, "k", "a&b")?,
        pair(alloc, "k", "x\r")?,
    ];
    let mut pairs = Pairs::new(alloc);
    for one in &held {
        pairs.push(one)?;
    }
    expect(&rt, alloc, &Outcome::Pairs(pairs), (1, 3, 1_200), PAIRS)?;
    let none = Outcome::Pairs(Pairs::new(alloc));
    expect(&rt, alloc, &none, (1, 4, 1_000), NO_PAIRS)
}

#[test]
fn items_have_their_pairs_or_none(rt: HostRuntime) -> Result<(), Fail> {
    let alloc = rt.alloc();
    let (tab, sign) = (pair(alloc, "k", "a\tb")?, pair(alloc, "<", ">")?);
    let (full, bare) = (Text::from_str(alloc, "i")?, Text::from_str(alloc, "j")?);
    let mut pairs = Pairs::new(alloc);
    pairs.push(&tab)?;
    pairs.push(&sign)?;
    let mut items = ItemsOut::new(alloc);
    items.push(ItemOut::new(&full, pairs))?;
    items.push(ItemOut::new(&bare, Pairs::new(alloc)))?;
    let outcome = Outcome::Items(items, token(alloc)?);
    expect(&rt, alloc, &outcome, (1, 5, 12_345_678_901), ITEMS)
}

#[test]
fn a_count_is_the_item_domain(rt: HostRuntime) -> Result<(), Fail> {
    expect(
        &rt,
        rt.alloc(),
        &Outcome::Count(4, None),
        (1, 6, u64::MAX),
        COUNT,
    )
}

#[test]
fn a_refusal_has_its_row(rt: HostRuntime) -> Result<(), Fail> {
    let alloc = rt.alloc();
    let outcome = Outcome::Refused(Refusal::NoSuchDomain);
    expect(&rt, alloc, &outcome, (1, 7, 1_000), REFUSED)?;
    assert_eq!(rt; outcome.status(), 400);
    Ok(())
}

#[test]
fn a_fault_closes_the_connection(rt: HostRuntime) -> Result<(), Fail> {
    let id = RequestId { conn: 1, number: 7 };
    let mut out = Bytes::with_room(rt.alloc(), room())?;
    fault_into(&mut out, &Refusal::NoSuchDomain, &id, true);
    assert_eq!(rt; out.as_slice(), REFUSED_CLOSED.as_bytes());
    let mut out = Bytes::with_room(rt.alloc(), room())?;
    refusal_into(&mut out, &Refusal::NoSuchDomain, &id);
    assert_eq!(rt; out.as_slice(), REFUSED.as_bytes());
    Ok(())
}

// Asserts that the length of a body was foreseen, and that the response that is written at once has it.
fn expect_foreseen<'a>(
    rt: &impl Abort,
    alloc: Global,
    outcome: &Outcome<'a>,
    text: &str,
) -> Result<(), Fail> {
    let id = RequestId { conn: 1, number: 1 };
    let whole = told(alloc, outcome, &id, 1_000, true)?;
    let made = body(alloc, outcome, &id, 1_000)?;
    assert_eq!(rt; made.len(), text.len());
    let sent = response(alloc, outcome.status(), made.as_slice(), true)?;
    assert_eq!(rt; whole.as_slice(), sent.as_slice());
    Ok(())
}

#[test]
fn lengths_are_foreseen(rt: HostRuntime) -> Result<(), Fail> {
    let alloc = rt.alloc();
    expect_foreseen(&rt, alloc, &Outcome::Done(Action::CreateDomain), DONE)?;
    let mut names = Texts::new(alloc);
    names.push(Text::from_str(alloc, "books")?)?;
    names.push(Text::from_str(alloc, "films")?)?;
    expect_foreseen(&rt, alloc, &Outcome::Domains(names, token(alloc)?), DOMAINS)?;
    let none = Outcome::Pairs(Pairs::new(alloc));
    expect_foreseen(&rt, alloc, &none, NO_PAIRS)?;
    let one = pair(alloc, "k", "v")?;
    let name = Text::from_str(alloc, "i")?;
    let mut pairs = Pairs::new(alloc);
    pairs.push(&one)?;
    let mut items = ItemsOut::new(alloc);
    items.push(ItemOut::new(&name, pairs))?;
    expect_foreseen(&rt, alloc, &Outcome::Items(items, None), ONE_ITEM)
}
