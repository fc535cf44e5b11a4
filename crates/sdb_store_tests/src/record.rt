// Tests of bytes written out, of their fronts, and of changed bytes.
use sdb_base::{AccountId, Text};
use sdb_pairs::{Change, Changes, Op, Ops};
use sdb_record::{RecordFault, read_change, read_changes, write_change, write_changes};
use std::alloc::Global;
use std::test::Fail;

// CreateDomain `books` of account 1.
const MADE: [u8; 12] = [0, 0, 0, 1, 0, 1, 5, 98, 111, 111, 107, 115];

// A put of title = Emma to the item i1 of that domain.
const EDITED: [u8; 32] = [
    0, 0, 0, 1, 2, 1, 5, 98, 111, 111, 107, 115, 0, 2, 105, 49, 0, 1, 0, 0, 5, 116, 105, 116, 108,
    101, 0, 4, 69, 109, 109, 97,
];

fn answer(alloc: Global, bytes: &[u8]) -> u8 {
    match read_changes(alloc, bytes) {
        Ok(_) => b'o',
        Err(RecordFault::Short) => b's',
        Err(RecordFault::Bad) => b'b',
        Err(RecordFault::OutOfMemory) => b'm',
    }
}

#[test]
fn a_made_domain_has_twelve_bytes(rt: HostRuntime) -> Result<(), Fail> {
    let alloc = rt.alloc();
    let mut changes = Changes::new(alloc);
    changes.push(Change::MakeDomain(AccountId(1), Text::from_str(alloc, "books")?))?;
    assert_eq!(rt; write_changes(alloc, &changes)?.as_slice(), MADE.as_slice());
    Ok(())
}

#[test]
fn one_change_has_no_count(rt: HostRuntime) -> Result<(), Fail> {
    let alloc = rt.alloc();
    let change = Change::DropDomain(AccountId(16), Text::from_str(alloc, "abc")?);
    assert_eq!(rt;
        write_change(alloc, &change)?.as_slice(),
        b"\x01\x10\x03abc".as_slice()
    );
    assert_eq!(rt; read_change(alloc, b"\x01\x10\x03abc!")?.1, b"!".as_slice());
    Ok(())
}

// The operations of an edit of the item i1, where the changes are one.
fn ops_of(changes: &Changes) -> Option<&Ops> {
    match changes.as_slice() {
        [Change::Edit(_, _, item, ops)] if item.as_str() == "i1" => Some(ops),
        _ => None,
    }
}

// Whether the one operation adds the pair title = Emma.
fn is_emma(ops: &Ops) -> bool {
    match ops.as_slice() {
        [Op::AddPair(pair)] => pair.name.as_str() == "title" && pair.value.as_str() == "Emma",
        _ => false,
    }
}

#[test]
fn an_edit_has_thirty_two_bytes(rt: HostRuntime) -> Result<(), Fail> {
    let alloc = rt.alloc();
    let (changes, size) = read_changes(alloc, &EDITED)?;
    assert_eq!(rt; size, 32);
    assert!(rt; matches!(ops_of(&changes), Some(ops) if is_emma(ops)));
    assert_eq!(rt;
        write_changes(alloc, &changes)?.as_slice(),
        EDITED.as_slice()
    );
    Ok(())
}

#[test]
fn each_proper_front_is_short(rt: HostRuntime) {
    for size in 0..12 {
        assert_eq!(rt; answer(rt.alloc(), &MADE[..size]), b's');
    }
    for size in 0..32 {
        assert_eq!(rt; answer(rt.alloc(), &EDITED[..size]), b's');
    }
}

// What each place is changed to: its lowest bit turned, 0 and 255.
fn changed(old: u8, way: usize) -> u8 {
    match way {
        0 => old ^ 1,
        1 => 0,
        _ => 255,
    }
}

// The answers are those of a reading in Python: o is Ok, s Short, b Bad.
#[test]
fn a_changed_byte_is_answered_as_another_reading_says(rt: HostRuntime) {
    let answers =
        b"sossossosoosbobbbbbbbobbobbobbobbobbsobbbsooboobsosbbsoobsobbbsoobooboobooboobsobsosooboobooboob";
    for place in 0..32 {
        for way in 0..3 {
            let mut bytes = EDITED;
            bytes[place] = changed(bytes[place], way);
            assert_eq!(rt; answer(rt.alloc(), &bytes), answers[3 * place + way]);
        }
    }
}
