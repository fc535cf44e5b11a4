// Keys files, and what is found in them.
use sdb_base::Text;
use sdb_keys::{KeyFault, Keys, read_keys};
use std::process::Abort;
use std::test::Fail;

fn finds(
    rt: &(impl Abort + AllocGlobal),
    keys: &Keys,
    id: &str,
    wanted: Option<(u8, &str)>,
) -> Result<(), Fail> {
    let found = keys.find(&Text::from_str(rt.alloc(), id)?);
    match (found, wanted) {
        (Some((account, secret)), Some(wanted)) => {
            assert_eq!(rt; account.0, wanted.0, "{id}");
            assert_eq!(rt; secret, wanted.1.as_bytes(), "{id}");
        }
        (found, wanted) => assert_eq!(rt; found.is_none(), wanted.is_none(), "{id}"),
    }
    Ok(())
}

fn refuses(rt: &(impl Abort + AllocGlobal), text: &[u8], wanted: KeyFault) {
    match read_keys(rt.alloc(), text) {
        Ok(_) => assert!(rt; false, "{wanted:?}"),
        Err(found) => assert_eq!(rt; found, wanted),
    }
}

// So many lines with keys K000 on, each of account 1.
fn key_lines(rt: &impl AllocGlobal, many: u8) -> Result<String, Fail> {
    let mut text = String::new(rt.alloc());
    for number in 0..many {
        write!(text, "1 K{number:03} S\n")?;
    }
    Ok(text)
}

#[test]
fn keys_are_found(rt: HostRuntime) -> Result<(), Fail> {
    let keys = read_keys(rt.alloc(), b"1 AK1 SECRET1")?;
    finds(&rt, &keys, "AK1", Some((1, "SECRET1")))?;
    finds(&rt, &keys, "AK", None)?;
    let keys = read_keys(rt.alloc(), b"# keys\r\n\r\n16 a Z~!#\r\n\n2 b 1\n#\xff")?;
    finds(&rt, &keys, "a", Some((16, "Z~!#")))?;
    finds(&rt, &keys, "b", Some((2, "1")))?;
    let text = key_lines(&rt, 64)?;
    let keys = read_keys(rt.alloc(), text.as_bytes())?;
    finds(&rt, &keys, "K063", Some((1, "S")))
}

#[test]
fn wrong_lines_are_named(rt: HostRuntime) -> Result<(), Fail> {
    refuses(&rt, b"1 AK1 SECRET1\n17 AK2 S", KeyFault::BadLine(2));
    refuses(&rt, b"\n#\n0 AK2 S\n", KeyFault::BadLine(3));
    for text in [
        b"1 A S\r".as_slice(),
        b"1\tA S",
        b"1 A  S",
        b"1 A",
        b"1 A-B S",
        b" 1 A S",
        b"01 A S",
        b"1  S",
        b"1 A ",
        b"1 A S\x7f",
        b"1 A S S",
    ] {
        refuses(&rt, text, KeyFault::BadLine(1));
    }
    refuses(&rt, b"1 A S\n\n2 A T\n", KeyFault::Doubled(3));
    let mut text = key_lines(&rt, 65)?;
    refuses(&rt, text.as_bytes(), KeyFault::TooMany(65));
    text = key_lines(&rt, 64)?;
    text.push_str("1 K000 S\n")?;
    refuses(&rt, text.as_bytes(), KeyFault::Doubled(65));
    text = key_lines(&rt, 64)?;
    text.push_str("1 K")?;
    refuses(&rt, text.as_bytes(), KeyFault::BadLine(65));
    Ok(())
}
