// Tests of tokens, made elsewhere and refused.
ghost use Rattle.std.specs.Prelude.{◌≤◌, length};
ghost use Rattle.std.specs.Option.{ForSome};

use sdb_base::Text;
use sdb_tables::Refusal;
use sdb_token::{Position, digest, read_token, write_token};
use std::alloc::Global;
use std::process::Abort;
use std::test::Fail;

// The tokens of these digests and positions, by Python's base64 and hashlib.
const LISTED: &str = "AW2UfvzxpKkMBp8moDM91KTQbvtFbqEkduscrybjbnLEAAADYmJi";

const ORDERED: &str = "select itemName() from dom where k is not null order by k desc limit 1";

const AFTER_5: &str = "AdMGX/PJBi19u6fGAIuj/tCd9vizJtaFrW+d7mnpM1WDAQABNQABYQ==";

const AFTER_EMPTY: &str = "AdMGX/PJBi19u6fGAIuj/tCd9vizJtaFrW+d7mnpM1WDAQAAAAFh";

// Whether the position has the token, and is read from it.
fn goes_round(
    rt: &(impl Abort + AllocGlobal),
    position: &Position,
    request: &str,
    token: &str,
) -> Result<(), Fail>
    requires key { ForSome position.now.key (λ key. length key ≤ 1024) }
    requires some { 1 ≤ length position.now.name }
    requires few { length position.now.name ≤ 1024 }
{
    let digest = digest(&Text::from_str(rt.alloc(), request)?);
    let written = write_token(rt.alloc(), position, &digest)?;
    assert_eq!(rt; written.as_str(), token);
    let read = read_token(rt.alloc(), &written, &digest, position.key.is_some())?;
    assert!(rt; read == *position);
    Ok(())
}

#[test]
fn a_token_without_a_key_goes_round(rt: HostRuntime) -> Result<(), Fail> {
    let position = Position {
        key: None,
        name: Text::from_str(rt.alloc(), "bbb")?,
    };
    goes_round(&rt, &position, "ListDomains", LISTED)
}

#[test]
fn a_token_with_a_key_goes_round(rt: HostRuntime) -> Result<(), Fail> {
    let position = Position {
        key: Some(Text::from_str(rt.alloc(), "5")?),
        name: Text::from_str(rt.alloc(), "a")?,
    };
    goes_round(&rt, &position, ORDERED, AFTER_5)
}

#[test]
fn a_token_with_an_empty_key_goes_round(rt: HostRuntime) -> Result<(), Fail> {
    let position = Position {
        key: Some(Text::from_str(rt.alloc(), "")?),
        name: Text::from_str(rt.alloc(), "a")?,
    };
    goes_round(&rt, &position, ORDERED, AFTER_EMPTY)
}

// Why the text is refused as a token of the request.
fn refusal_of(
    alloc: Global,
    token: &str,
    request: &str,
    keyed: bool,
) -> Result<Option<Refusal>, Fail> {
    let digest = digest(&Text::from_str(alloc, request)?);
    let token = Text::from_str(alloc, token)?;
    Ok(read_token(alloc, &token, &digest, keyed).err())
}

#[test]
fn other_texts_are_refused(rt: HostRuntime) -> Result<(), Fail> {
    let table: [(&str, &str, bool); 12] = [
        // The token without its last character, with one changed, with a space behind it.
        (
            "AW2UfvzxpKkMBp8moDM91KTQbvtFbqEkduscrybjbnLEAAADYmJ",
            "ListDomains",
            false,
        ),
        (
            "AW2UfvzxpKkMBp8moDM91KTQbvtFbqEkduscrybjbnLEAAAEYmJi",
            "ListDomains",
            false,
        ),
        (
            "AW2UfvzxpKkMBp8moDM91KTQbvtFbqEkduscrybjbnLEAAADYmJi ",
            "ListDomains",
            false,
        ),
        // Another request's token, with a key where none is wanted, and without one where one is.
        (LISTED, "listDomains", false),
        (LISTED, "ListDomains", true),
        (AFTER_5, ORDERED, false),
        // Unpadded.
        (
            "AdMGX/PJBi19u6fGAIuj/tCd9vizJtaFrW+d7mnpM1WDAQABNQABYQ",
            ORDERED,
            true,
        ),
        // Version 2, a byte behind the name, a name of no bytes, lengths with their lowest byte first.
        (
            "Am2UfvzxpKkMBp8moDM91KTQbvtFbqEkduscrybjbnLEAAADYmJi",
            "ListDomains",
            false,
        ),
        (
            "AW2UfvzxpKkMBp8moDM91KTQbvtFbqEkduscrybjbnLEAAADYmJiAA==",
            "ListDomains",
            false,
        ),
        (
            "AW2UfvzxpKkMBp8moDM91KTQbvtFbqEkduscrybjbnLEAAAA",
            "ListDomains",
            false,
        ),
        (
            "AW2UfvzxpKkMBp8moDM91KTQbvtFbqEkduscrybjbnLEAAMAYmJi",
            "ListDomains",
            false,
        ),
        ("", "ListDomains", false),
    ];
    for (token, request, keyed) in table.iter() {
        let refusal = refusal_of(rt.alloc(), token, request, *keyed)?;
        assert_eq!(rt; refusal, Some(Refusal::InvalidNextToken), "{token}");
    }
    Ok(())
}
