// Conditions, read from the front of a cursor. `allowed` is how many more parentheses and `not` may
// stand round a predicate.
ghost use Rattle.std.specs.Prelude.{◌≡◌, ◌<◌, length, OnOk};
ghost use Rattle.sdb_parse.specs.declared.joint.Joint.TheVariants as joint;
ghost use Rattle.sdb_parse.specs.Reading.{Reads};
ghost use Rattle.sdb_parse.specs.Conditions.{grouped_at, joined_at, joined_by, member_at, negated_at, unary_at};

use crate::cursor::Cursor;
use crate::expr::{Expr, Exprs};
use crate::fault::Fault;
use crate::joint::Joint;
use crate::names::expect;
use crate::predicate::read_predicate;
use crate::sign::Sign;
use sdb_base::Boxed;
use std::alloc::Global;

// Members with a joint between them; one member is itself.
#[cycle(condition)]
pub(crate) fn read_joined(
    alloc: Global,
    cursor: &mut Cursor,
    joint: Joint,
    allowed: u8,
) -> Result<Expr, Fault>
    ensures value { Reads (joined_at joint allowed cursor.old) result cursor.new }
    ensures shorter { OnOk result (length cursor.new < length cursor.old) }
{
    let first = read_member(alloc, cursor, joint, allowed)?;
    let separator = joint.separator();
    if !cursor.sees(separator) {
        return Ok(first);
    }
    let mut members = Exprs::new(alloc);
    members.push(first)?;
    'more: while cursor.sees(separator) {
        cursor.skip();
        members.push(read_member(alloc, cursor, joint, allowed)?)?;
    }
    Ok(joined_by(joint, members))
}

fn joined_by(joint: Joint, members: Exprs) -> Expr
    ensures { result ≡ joined_by joint members }
{
    match joint {
        Joint::Or => Expr::Or(members),
        Joint::And => Expr::And(members),
        Joint::Inter => Expr::Inter(members),
    }
}

#[cycle(condition)]
#[tactic(auto, unfolding(crate::specs::Conditions::member_at))]
fn read_member(alloc: Global, cursor: &mut Cursor, joint: Joint, allowed: u8) -> Result<Expr, Fault>
    ensures value { Reads (member_at joint allowed cursor.old) result cursor.new }
    ensures shorter { OnOk result (length cursor.new < length cursor.old) }
{
    match joint {
        Joint::Or => read_joined(alloc, cursor, Joint::And, allowed),
        Joint::And => read_joined(alloc, cursor, Joint::Inter, allowed),
        Joint::Inter => read_unary(alloc, cursor, allowed),
    }
}

#[cycle(condition)]
fn read_unary(alloc: Global, cursor: &mut Cursor, allowed: u8) -> Result<Expr, Fault>
    ensures value { Reads (unary_at allowed cursor.old) result cursor.new }
    ensures shorter { OnOk result (length cursor.new < length cursor.old) }
{
    if cursor.sees(Sign::Not) {
        return read_negated(alloc, cursor, allowed);
    }
    if cursor.sees(Sign::Open) {
        return read_grouped(alloc, cursor, allowed);
    }
    read_predicate(alloc, cursor)
}

// `not` and what it negates.
#[cycle(condition)]
fn read_negated(alloc: Global, cursor: &mut Cursor, allowed: u8) -> Result<Expr, Fault>
    ensures value { Reads (negated_at allowed cursor.old) result cursor.new }
    ensures shorter { OnOk result (length cursor.new < length cursor.old) }
{
    if allowed == 0 {
        return Err(Fault::Syntax);
    }
    expect(cursor, Sign::Not)?;
    let negated = read_unary(alloc, cursor, allowed - 1)?;
    Ok(Expr::Not(Boxed::new(alloc, negated)?))
}

// A condition in parentheses, which leave no trace.
#[cycle(condition)]
fn read_grouped(alloc: Global, cursor: &mut Cursor, allowed: u8) -> Result<Expr, Fault>
    ensures value { Reads (grouped_at allowed cursor.old) result cursor.new }
    ensures shorter { OnOk result (length cursor.new < length cursor.old) }
{
    if allowed == 0 {
        return Err(Fault::Syntax);
    }
    expect(cursor, Sign::Open)?;
    let inner = read_joined(alloc, cursor, Joint::Or, allowed - 1)?;
    expect(cursor, Sign::Close)?;
    Ok(inner)
}
