// Tests of texts, numbers and calls with ample memory.
use sdb_base::{Boxed, Bytes, Numbers, Params, Text, read_decimal};
use std::cmp::Ordering;
use std::test::Fail;

#[test]
fn texts_are_ordered_by_bytes(rt: HostRuntime) -> Result<(), Fail> {
    let alloc = rt.alloc();
    let cases = [
        ("", "a", Ordering::Less),
        ("a", "aa", Ordering::Less),
        ("Z", "a", Ordering::Less),
        ("z", "\u{e9}", Ordering::Less),
        ("b", "ab", Ordering::Greater),
        ("ab", "ab", Ordering::Equal),
    ];
    for (a, b, want) in cases {
        let a = Text::from_str(alloc, a)?.copy(alloc)?;
        assert_eq!(rt; a.cmp(&Text::from_str(alloc, b)?), want);
    }
    Ok(())
}

#[test]
fn texts_keep_their_bytes_wherever_they_stand(rt: HostRuntime) -> Result<(), Fail> {
    let alloc = rt.alloc();
    for s in [
        "",
        "abcdefghijklmnopqrstuvwx",
        "abcdefghijklmnopqrstuvwxy",
        "\u{e9}\u{e9}\u{e9}\u{e9}\u{e9}\u{e9}\u{e9}\u{e9}\u{e9}\u{e9}\u{e9}\u{e9}\u{e9}",
    ] {
        let text = Text::from_str(alloc, s)?;
        assert_eq!(rt; text.as_str(), s);
        assert_eq!(rt; text.copy(alloc)?.as_str(), s);
        let string = String::from_str(alloc, s)?;
        assert_eq!(rt; Text::from_string(string).as_str(), s);
    }
    Ok(())
}

#[test]
fn decimals_are_read(rt: HostRuntime) {
    let cases = [
        (b"0".as_slice(), 9, Some(0)),
        (b"9", 9, Some(9)),
        (b"10", 9, None),
        (b"007", 9, None),
        (b"", 9, None),
        (b"+1", 9, None),
        (b"1a", u64::MAX, None),
        (b"18446744073709551615", u64::MAX, Some(u64::MAX)),
        (b"18446744073709551616", u64::MAX, None),
        (b"99999999999999999999999", u64::MAX, None),
    ];
    for (s, most, want) in cases {
        assert_eq!(rt; read_decimal(s, most), want);
    }
}

#[test]
fn calls_succeed_with_ample_memory(rt: HostRuntime) -> Result<(), Fail> {
    let alloc = rt.alloc();
    let mut bytes = Bytes::with_room(alloc, 2)?;
    bytes.append(b"ab")?;
    bytes.append(b"c")?;
    assert_eq!(rt;
        bytes.as_slice(),
        Bytes::from_slice(alloc, b"abc")?.as_slice()
    );
    let mut params = Params::new(alloc);
    params.add(Text::from_str(alloc, "k")?, Text::from_str(alloc, "v")?)?;
    assert!(rt; params.get("k").is_some_and(|value| value.as_str() == "v"));
    assert!(rt; params.get("K").is_none());
    assert_eq!(rt; params.as_slice().len(), 1);
    let mut numbers = Numbers::new(alloc);
    numbers.push(7)?;
    let mut more = Numbers::new(alloc);
    more.push(8)?;
    numbers.append(&mut more)?;
    assert_eq!(rt; numbers.as_slice(), [7, 8].as_slice());
    assert!(rt; more.is_empty());
    assert_eq!(rt; Boxed::new(alloc, 5)?.into_inner(), 5);
    Ok(())
}
