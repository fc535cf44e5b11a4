// Predicates, read from the front of a cursor.
ghost use Rattle.std.specs.Prelude.{◌≡◌, ◌<◌, length, OnOk};
ghost use Rattle.sdb_parse.specs.Reading.{Reads};
ghost use Rattle.sdb_parse.specs.Conditions.{between_at, compared, comparison_at, every_at, is_every, is_null_test, like_at, null_test_at, one_of_at, operand_at, predicate_at, test_at};

use crate::cursor::Cursor;
use crate::expr::{Expr, Operand};
use crate::fault::Fault;
use crate::names::{expect, read_attr, read_item_name, read_text, read_texts};
use crate::pattern::Pattern;
use crate::sign::Sign;
use crate::test::Test;
use sdb_base::Text;
use std::alloc::Global;

#[tactic(auto, unfolding(crate::specs::Conditions::predicate_at))]
pub(crate) fn read_predicate(alloc: Global, cursor: &mut Cursor) -> Result<Expr, Fault>
    ensures value { Reads (predicate_at cursor.old) result cursor.new }
    ensures shorter { OnOk result (length cursor.new < length cursor.old) }
{
    let operand = read_operand(cursor)?;
    let test = read_test(alloc, cursor)?;
    if is_every(&operand) && is_null_test(&test) {
        return Err(Fault::Syntax);
    }
    Ok(Expr::Pred(operand, test))
}

fn is_every(operand: &Operand) -> bool
    ensures { result ≡ is_every operand.now }
{
    match operand {
        Operand::Every(_) => true,
        Operand::Attr(_) | Operand::ItemName => false,
    }
}

fn is_null_test(test: &Test) -> bool
    ensures { result ≡ is_null_test test.now }
{
    matches!(test, Test::IsNull | Test::IsNotNull)
}

#[tactic(auto, unfolding(crate::specs::Conditions::operand_at))]
fn read_operand(cursor: &mut Cursor) -> Result<Operand, Fault>
    ensures value { Reads (operand_at cursor.old) result cursor.new }
    ensures shorter { OnOk result (length cursor.new < length cursor.old) }
{
    if cursor.sees_call(Sign::ItemName) {
        read_item_name(cursor)?;
        return Ok(Operand::ItemName);
    }
    if cursor.sees(Sign::Every) {
        return read_every(cursor);
    }
    Ok(Operand::Attr(read_attr(cursor)?))
}

// `every(k)`.
#[tactic(auto, unfolding(crate::specs::Conditions::every_at))]
fn read_every(cursor: &mut Cursor) -> Result<Operand, Fault>
    ensures value { Reads (every_at cursor.old) result cursor.new }
    ensures shorter { OnOk result (length cursor.new < length cursor.old) }
{
    expect(cursor, Sign::Every)?;
    expect(cursor, Sign::Open)?;
    let attr = read_attr(cursor)?;
    expect(cursor, Sign::Close)?;
    Ok(Operand::Every(attr))
}

#[tactic(auto, unfolding(crate::specs::Conditions::test_at))]
fn read_test(alloc: Global, cursor: &mut Cursor) -> Result<Test, Fault>
    ensures value { Reads (test_at cursor.old) result cursor.new }
    ensures shorter { OnOk result (length cursor.new < length cursor.old) }
{
    if cursor.sees(Sign::Like) {
        return Ok(Test::Like(Pattern::new(read_like(cursor)?)));
    }
    if cursor.sees(Sign::Not) {
        expect(cursor, Sign::Not)?;
        return Ok(Test::NotLike(Pattern::new(read_like(cursor)?)));
    }
    if cursor.sees(Sign::Between) {
        return read_between(cursor);
    }
    if cursor.sees(Sign::In) {
        return read_one_of(alloc, cursor);
    }
    if cursor.sees(Sign::Is) {
        return read_null_test(cursor);
    }
    read_comparison(cursor)
}

// `like '..'`.
#[tactic(auto, unfolding(crate::specs::Conditions::like_at))]
fn read_like(cursor: &mut Cursor) -> Result<Text, Fault>
    ensures value { Reads (like_at cursor.old) result cursor.new }
    ensures shorter { OnOk result (length cursor.new < length cursor.old) }
{
    expect(cursor, Sign::Like)?;
    read_text(cursor, Sign::Quoted)
}

// `between '..' and '..'`.
#[tactic(auto, unfolding(crate::specs::Conditions::between_at))]
fn read_between(cursor: &mut Cursor) -> Result<Test, Fault>
    ensures value { Reads (between_at cursor.old) result cursor.new }
    ensures shorter { OnOk result (length cursor.new < length cursor.old) }
{
    expect(cursor, Sign::Between)?;
    let low = read_text(cursor, Sign::Quoted)?;
    expect(cursor, Sign::And)?;
    let high = read_text(cursor, Sign::Quoted)?;
    Ok(Test::Between(low, high))
}

// `in ('..', '..')`.
#[tactic(auto, unfolding(crate::specs::Conditions::one_of_at))]
fn read_one_of(alloc: Global, cursor: &mut Cursor) -> Result<Test, Fault>
    ensures value { Reads (one_of_at cursor.old) result cursor.new }
    ensures shorter { OnOk result (length cursor.new < length cursor.old) }
{
    expect(cursor, Sign::In)?;
    expect(cursor, Sign::Open)?;
    let texts = read_texts(alloc, cursor)?;
    expect(cursor, Sign::Close)?;
    Ok(Test::OneOf(texts))
}

// `is null` or `is not null`.
#[tactic(auto, unfolding(crate::specs::Conditions::null_test_at))]
fn read_null_test(cursor: &mut Cursor) -> Result<Test, Fault>
    ensures value { Reads (null_test_at cursor.old) result cursor.new }
    ensures shorter { OnOk result (length cursor.new < length cursor.old) }
{
    expect(cursor, Sign::Is)?;
    if cursor.sees(Sign::Not) {
        expect(cursor, Sign::Not)?;
        expect(cursor, Sign::Null)?;
        return Ok(Test::IsNotNull);
    }
    expect(cursor, Sign::Null)?;
    Ok(Test::IsNull)
}

// A comparison with a text, as `= '..'`.
#[tactic(auto, unfolding(crate::specs::Conditions::comparison_at))]
fn read_comparison(cursor: &mut Cursor) -> Result<Test, Fault>
    ensures value { Reads (comparison_at cursor.old) result cursor.new }
    ensures shorter { OnOk result (length cursor.new < length cursor.old) }
{
    let Some(term) = cursor.take() else {
        return Err(Fault::Syntax);
    };
    let text = read_text(cursor, Sign::Quoted)?;
    match compared(term.sign, text) {
        Some(test) => Ok(test),
        None => Err(Fault::Syntax),
    }
}

#[tactic(auto, unfolding(crate::specs::Conditions::compared))]
fn compared(sign: Sign, text: Text) -> Option<Test>
    ensures { result ≡ compared sign text }
{
    if sign == Sign::Equal {
        return Some(Test::Eq(text));
    }
    if sign == Sign::Unequal {
        return Some(Test::Ne(text));
    }
    if sign == Sign::Less {
        return Some(Test::Lt(text));
    }
    if sign == Sign::LessEqual {
        return Some(Test::Le(text));
    }
    if sign == Sign::Greater {
        return Some(Test::Gt(text));
    }
    if sign == Sign::GreaterEqual {
        return Some(Test::Ge(text));
    }
    None
}
