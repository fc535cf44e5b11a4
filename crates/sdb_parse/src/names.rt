// Names, texts and lists of them, read from the front of a cursor.
ghost use Rattle.std.specs.Prelude.{◌≡◌, ◌<◌, length, OnOk};
ghost use Rattle.sdb_parse.specs.declared.sign.Sign.TheVariants as sign;
ghost use Rattle.sdb_base.specs.Names.{is_name};
ghost use Rattle.sdb_parse.specs.Reading.{Reads, attr_at, expect, item_name_at, listed, name_at, text_at};

use crate::cursor::Cursor;
use crate::fault::Fault;
use crate::sign::Sign;
use sdb_base::{Text, Texts};
use std::alloc::Global;

// Passes over a term with that sign.
#[tactic(auto, unfolding(crate::specs::Reading::expect))]
pub(crate) fn expect(cursor: &mut Cursor, sign: Sign) -> Result<(), Fault>
    ensures value { Reads (expect sign cursor.old) result cursor.new }
    ensures shorter { OnOk result (length cursor.new < length cursor.old) }
{
    if !cursor.sees(sign) {
        return Err(Fault::Syntax);
    }
    cursor.skip();
    Ok(())
}

// The text of a term with that sign.
#[tactic(auto, unfolding(crate::specs::Reading::text_at))]
pub(crate) fn read_text(cursor: &mut Cursor, sign: Sign) -> Result<Text, Fault>
    ensures value { Reads (text_at sign cursor.old) result cursor.new }
    ensures shorter { OnOk result (length cursor.new < length cursor.old) }
{
    let Some(term) = cursor.take() else {
        return Err(Fault::Syntax);
    };
    if term.sign != sign {
        return Err(Fault::Syntax);
    }
    Ok(term.text)
}

// A name of any length.
#[tactic(auto, unfolding(crate::specs::Reading::name_at))]
pub(crate) fn read_name(cursor: &mut Cursor) -> Result<Text, Fault>
    ensures value { Reads (name_at cursor.old) result cursor.new }
    ensures shorter { OnOk result (length cursor.new < length cursor.old) }
{
    let Some(term) = cursor.take() else {
        return Err(Fault::Syntax);
    };
    let is_call = term.sign != Sign::Name && cursor.sees(Sign::Open);
    if term.sign.may_name() && !is_call {
        Ok(term.text)
    } else {
        Err(Fault::Syntax)
    }
}

// The name of an attribute.
#[tactic(auto, unfolding(crate::specs::Reading::attr_at))]
pub(crate) fn read_attr(cursor: &mut Cursor) -> Result<Text, Fault>
    ensures value { Reads (attr_at cursor.old) result cursor.new }
    ensures shorter { OnOk result (length cursor.new < length cursor.old) }
{
    let name = read_name(cursor)?;
    if is_attr(name.as_str()) {
        Ok(name)
    } else {
        Err(Fault::Syntax)
    }
}

fn is_attr(name: &str) -> bool
    ensures { result ≡ is_name name.now }
{
    1 <= name.len() && name.len() <= 1024
}

// `itemName()`.
#[tactic(auto, unfolding(crate::specs::Reading::item_name_at))]
pub(crate) fn read_item_name(cursor: &mut Cursor) -> Result<(), Fault>
    ensures value { Reads (item_name_at cursor.old) result cursor.new }
    ensures shorter { OnOk result (length cursor.new < length cursor.old) }
{
    expect(cursor, Sign::ItemName)?;
    expect(cursor, Sign::Open)?;
    expect(cursor, Sign::Close)
}

// Names of attributes with `,` between them.
pub(crate) fn read_attrs(alloc: Global, cursor: &mut Cursor) -> Result<Texts, Fault>
    ensures value { Reads (listed sign.Comma attr_at cursor.old) result cursor.new }
    ensures shorter { OnOk result (length cursor.new < length cursor.old) }
{
    let mut attrs = Texts::new(alloc);
    attrs.push(read_attr(cursor)?)?;
    'more: while cursor.sees(Sign::Comma) {
        cursor.skip();
        attrs.push(read_attr(cursor)?)?;
    }
    Ok(attrs)
}

// Quoted texts with `,` between them.
pub(crate) fn read_texts(alloc: Global, cursor: &mut Cursor) -> Result<Texts, Fault>
    ensures value { Reads (listed sign.Comma (text_at sign.Quoted) cursor.old) result cursor.new }
    ensures shorter { OnOk result (length cursor.new < length cursor.old) }
{
    let mut texts = Texts::new(alloc);
    texts.push(read_text(cursor, Sign::Quoted)?)?;
    'more: while cursor.sees(Sign::Comma) {
        cursor.skip();
        texts.push(read_text(cursor, Sign::Quoted)?)?;
    }
    Ok(texts)
}
