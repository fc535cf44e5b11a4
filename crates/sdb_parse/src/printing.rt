// The printed form of a tree.
ghost use Rattle.std.specs.Prelude.{◌≡◌, ◌++◌, ◌≤◌, List, ℕ, Ok, OnOk, IfOk, length, map};
ghost use Rattle.std.specs.List.{join_by};
ghost use Rattle.sdb_parse.specs.Parsed.{Parsed};
ghost use Rattle.sdb_parse.specs.Printed.{IsWritten, cond_text, key_text, limit_text, member_text, operand_text, output_text, printed, quoted_text, shown, sort_text, test_text};

use crate::expr::{Expr, Operand};
use crate::printer::Printer;
use crate::select::{Output, Select, Sort, SortKey};
use crate::test::Test;
use sdb_base::{OutOfMemory, Text};
use std::alloc::Global;

/// The printed form of a Select expression: keywords in lower case, names in backticks, texts in `'`, one
/// space between tokens but none inside `itemName()`, `count(*)` and `every(..)`, parentheses where a member
/// binds no tighter than what it stands in.
///
/// # Errors
///
/// `OutOfMemory` alone.
pub fn print(alloc: Global, select: &Select) -> Result<Text, OutOfMemory>
    ensures value { IfOk result (λ text. text ≡ printed select.now) }
    // The text spells the tree, if some text is answered by it,
    ensures spells { IfOk result (λ text. (source : List ℕ) → Parsed source (Ok select.now) → IsWritten text select.now) }
    // and `parse` answers the text by it.
    ensures again { IfOk result (λ text. (source : List ℕ) → Parsed source (Ok select.now) → length text ≤ 65536 → Parsed text (Ok select.now)) }
{
    let mut line = Printer::new(alloc, "select")?;
    print_output(&mut line, &select.output)?;
    line.plain(" from")?;
    line.name(&select.domain)?;
    print_condition(&mut line, &select.cond)?;
    print_sort(&mut line, &select.sort)?;
    print_limit(&mut line, select.limit)?;
    Ok(line.finish())
}

fn print_output(line: &mut Printer, output: &Output) -> Result<(), OutOfMemory>
    ensures { OnOk result (line.new ≡ line.old ++ output_text output.now) }
{
    match output {
        Output::All => line.plain(" *"),
        Output::Names => line.plain(" itemName()"),
        Output::Count => line.plain(" count(*)"),
        Output::Listed(attrs) => line.listed('`', attrs.as_slice()),
    }
}

fn print_condition(line: &mut Printer, cond: &Option<Expr>) -> Result<(), OutOfMemory>
    ensures { OnOk result (line.new ≡ line.old ++ cond_text cond.now) }
{
    let Some(cond) = cond else {
        return Ok(());
    };
    line.plain(" where")?;
    print_member(line, cond, 4)
}

fn print_sort(line: &mut Printer, sort: &Option<Sort>) -> Result<(), OutOfMemory>
    ensures { OnOk result (line.new ≡ line.old ++ sort_text sort.now) }
{
    let Some(sort) = sort else {
        return Ok(());
    };
    line.plain(" order by")?;
    print_key(line, &sort.by)?;
    if sort.down {
        line.plain(" desc")?;
    }
    Ok(())
}

fn print_key(line: &mut Printer, key: &SortKey) -> Result<(), OutOfMemory>
    ensures { OnOk result (line.new ≡ line.old ++ key_text key.now) }
{
    match key {
        SortKey::Attr(attr) => line.name(attr),
        SortKey::ItemName => line.plain(" itemName()"),
    }
}

fn print_limit(line: &mut Printer, limit: Option<u16>) -> Result<(), OutOfMemory>
    ensures { OnOk result (line.new ≡ line.old ++ limit_text limit) }
{
    let Some(limit) = limit else {
        return Ok(());
    };
    line.plain(" limit ")?;
    line.number(limit)
}

// A condition, in parentheses where it binds no tighter than `bound`.
#[cycle(print)]
fn print_member(line: &mut Printer, expr: &Expr, bound: u8) -> Result<(), OutOfMemory>
    ensures { OnOk result (line.new ≡ line.old ++ member_text bound (shown expr.now)) }
{
    if bound <= looseness(expr) {
        line.plain(" (")?;
        print_expr(line, expr)?;
        line.plain(" )")
    } else {
        print_expr(line, expr)
    }
}

// A condition without parentheses round it.
#[cycle(print)]
#[tactic(auto, using(crate::proofs::PrintedLemmas::shown_laws))]
fn print_expr(line: &mut Printer, expr: &Expr) -> Result<(), OutOfMemory>
    ensures { OnOk result (line.new ≡ line.old ++ (shown expr.now).text) }
{
    match expr {
        Expr::Pred(operand, test) => print_predicate(line, operand, test),
        Expr::Not(negated) => {
            line.plain(" not")?;
            print_member(line, negated.get(), 1)
        }
        Expr::Inter(members) => print_joined(line, members.as_slice(), " intersection", 1),
        Expr::And(members) => print_joined(line, members.as_slice(), " and", 2),
        Expr::Or(members) => print_joined(line, members.as_slice(), " or", 3),
    }
}

// How loosely a condition binds.
#[tactic(auto, using(crate::proofs::PrintedLemmas::shown_laws))]
fn looseness(expr: &Expr) -> u8
    ensures { result ≡ (shown expr.now).looseness }
{
    match expr {
        Expr::Pred(_, _) => 0,
        Expr::Not(_) => 0,
        Expr::Inter(_) => 1,
        Expr::And(_) => 2,
        Expr::Or(_) => 3,
    }
}

// Members with a word between them.
#[cycle(print)]
fn print_joined(
    line: &mut Printer,
    members: &[Expr],
    word: &str,
    bound: u8,
) -> Result<(), OutOfMemory>
    ensures { OnOk result (line.new ≡ line.old ++ join_by (member_text bound) word.now (map shown members.now)) }
{
    let mut before = "";
    for member in members {
        line.plain(before)?;
        print_member(line, member, bound)?;
        before = word;
    }
    Ok(())
}

fn print_predicate(line: &mut Printer, operand: &Operand, test: &Test) -> Result<(), OutOfMemory>
    ensures { OnOk result (line.new ≡ line.old ++ (operand_text operand.now ++ test_text test.now)) }
{
    print_operand(line, operand)?;
    print_test(line, test)
}

fn print_operand(line: &mut Printer, operand: &Operand) -> Result<(), OutOfMemory>
    ensures { OnOk result (line.new ≡ line.old ++ operand_text operand.now) }
{
    match operand {
        Operand::Attr(attr) => line.name(attr),
        Operand::Every(attr) => {
            line.plain(" every(")?;
            line.ticked(attr)?;
            line.plain(")")
        }
        Operand::ItemName => line.plain(" itemName()"),
    }
}

fn print_test(line: &mut Printer, test: &Test) -> Result<(), OutOfMemory>
    ensures { OnOk result (line.new ≡ line.old ++ test_text test.now) }
{
    match test {
        Test::Eq(text) => print_asked(line, " =", text),
        Test::Ne(text) => print_asked(line, " !=", text),
        Test::Lt(text) => print_asked(line, " <", text),
        Test::Le(text) => print_asked(line, " <=", text),
        Test::Gt(text) => print_asked(line, " >", text),
        Test::Ge(text) => print_asked(line, " >=", text),
        Test::Like(pattern) => print_asked(line, " like", pattern.text()),
        Test::NotLike(pattern) => print_asked(line, " not like", pattern.text()),
        Test::Between(low, high) => {
            print_asked(line, " between", low)?;
            print_asked(line, " and", high)
        }
        Test::OneOf(texts) => {
            line.plain(" in (")?;
            line.listed('\'', texts.as_slice())?;
            line.plain(" )")
        }
        Test::IsNull => line.plain(" is null"),
        Test::IsNotNull => line.plain(" is not null"),
    }
}

// A word or a symbol and a text.
fn print_asked(line: &mut Printer, word: &str, text: &Text) -> Result<(), OutOfMemory>
    ensures { OnOk result (line.new ≡ line.old ++ (word.now ++ quoted_text text.now)) }
{
    line.plain(word)?;
    line.quoted(text)
}
