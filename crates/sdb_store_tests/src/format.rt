// Tests of numbers and texts.
use sdb_format::{FormatFault, read_byte, read_text, read_u16, read_u32};
use std::test::Fail;

// Why these bytes aren't a text of 1 to 1,024 bytes behind its length, where they aren't.
fn fault_of(bytes: &[u8]) -> Option<FormatFault> {
    match read_text(bytes, 1, 1024) {
        Ok(_) => None,
        Err(fault) => Some(fault),
    }
}

#[test]
fn a_text_is_read_with_what_follows(rt: HostRuntime) -> Result<(), Fail> {
    let (text, rest) = read_text(b"\x00\x04Emma!", 1, 1024)?;
    assert_eq!(rt; text, "Emma");
    assert_eq!(rt; rest, b"!".as_slice());
    Ok(())
}

#[test]
fn faults_are_told_as_early_as_they_can(rt: HostRuntime) {
    let table: [(&[u8], Option<FormatFault>); 12] = [
        (b"", Some(FormatFault::Short)),
        (b"\x00", Some(FormatFault::Short)),
        (b"\x04", Some(FormatFault::Short)),
        (b"\x05", Some(FormatFault::Bad)),
        (b"\x00\x00", Some(FormatFault::Bad)),
        (b"\x04\x01", Some(FormatFault::Bad)),
        (b"\x00\x02\xc3", Some(FormatFault::Short)),
        (b"\x00\x01\xc3", Some(FormatFault::Bad)),
        (b"\x00\x03\xed\xa0", Some(FormatFault::Bad)),
        (b"\x00\x03\xe2\x82", Some(FormatFault::Short)),
        (b"\x00\x03\xe2\x82\xac", None),
        (b"\x00\x02\xe2\x82", Some(FormatFault::Bad)),
    ];
    for (bytes, fault) in table.iter() {
        assert_eq!(rt; fault_of(bytes), *fault);
    }
}

#[test]
fn numbers_stand_with_their_highest_byte_first(rt: HostRuntime) -> Result<(), Fail> {
    assert_eq!(rt; read_byte(b"\x10\x01", 1, 16)?.0, 16);
    assert_eq!(rt; read_u16(b"\x01\x02\x03", 0, 65535)?.0, 258);
    assert_eq!(rt; read_u32(b"\x01\x02\x03\x04")?.0, 16909060);
    Ok(())
}
