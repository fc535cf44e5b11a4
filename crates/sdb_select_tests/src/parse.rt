// Tests of whole expressions.
use sdb_base::Text;
use sdb_parse::{Expr, Select, Test, like, parse};
use sdb_tables::Refusal;
use std::alloc::Global;
use std::test::Fail;

fn refusal(alloc: Global, s: &str) -> Result<Option<Refusal>, Fail> {
    Ok(parse(alloc, &Text::from_str(alloc, s)?).err())
}

// `before`, then so many copies of `part`, then `after`.
fn repeated(
    alloc: Global,
    before: &str,
    part: &str,
    count: usize,
    after: &str,
) -> Result<String, Fail> {
    let mut text = String::from_str(alloc, before)?;
    for _ in 0..count {
        text.push_str(part)?;
    }
    text.push_str(after)?;
    Ok(text)
}

#[test]
fn texts_are_accepted_or_refused(rt: HostRuntime) -> Result<(), Fail> {
    let alloc = rt.alloc();
    for (text, wanted) in [
        (
            "select from from dom",
            Some(Refusal::InvalidQueryExpression),
        ),
        ("select `from` from dom", None),
        ("SELECT * FROM dom WHERE (k='1') ORDER BY k ASC", None),
        (
            "select itemname ( ) from itemName where count is not null",
            None,
        ),
        ("Select COUNT(*) From `a``b`", None),
        ("select a, count from d limit 1", None),
        ("select * from d limit 2500", None),
        (
            "select * from d limit 0",
            Some(Refusal::InvalidQueryExpression),
        ),
        (
            "select * from d limit 2501",
            Some(Refusal::InvalidQueryExpression),
        ),
        (
            "select * from d limit 01",
            Some(Refusal::InvalidQueryExpression),
        ),
        (
            "select * from d where every(k) is null",
            Some(Refusal::InvalidQueryExpression),
        ),
        (
            "select * from d where every(k) = 'a' intersection not k like 'a%' or itemName() in ('x', 'y')",
            None,
        ),
        (
            "select * from d where k between 'a' and 'b' and k != \"c\"\"d\" order by itemName() desc",
            None,
        ),
        (
            "select * from d order by z",
            Some(Refusal::InvalidSortExpression),
        ),
        (
            "select * from d where z is null order by z",
            Some(Refusal::InvalidSortExpression),
        ),
        ("select * from d where not every(z) > 'a' order by z", None),
        (
            "select * from d where k = '1",
            Some(Refusal::InvalidQueryExpression),
        ),
        (
            "select * from d where k ; 'a'",
            Some(Refusal::InvalidQueryExpression),
        ),
        ("select * from d x", Some(Refusal::InvalidQueryExpression)),
    ] {
        assert_eq!(rt; refusal(alloc, text)?, wanted, "{text}");
    }
    Ok(())
}

#[test]
fn numbers_have_bounds(rt: HostRuntime) -> Result<(), Fail> {
    let alloc = rt.alloc();
    for (before, part, count, after, wanted) in [
        ("select * from d where k = 'a'", " or k = 'a'", 19, "", None),
        (
            "select * from d where k = 'a'",
            " or k = 'a'",
            20,
            "",
            Some(Refusal::InvalidNumberPredicates),
        ),
        ("select * from d where k in ('a'", ", 'a'", 19, ")", None),
        (
            "select * from d where k in ('a'",
            ", 'a'",
            20,
            ")",
            Some(Refusal::InvalidNumberValueTests),
        ),
        ("select a", ", a", 255, " from d", None),
        (
            "select a",
            ", a",
            256,
            " from d",
            Some(Refusal::TooManyRequestedAttributes),
        ),
        (
            "select a",
            ", a",
            256,
            " from d where",
            Some(Refusal::InvalidQueryExpression),
        ),
        ("select * from d where ", "not ", 32, "k = 'a'", None),
        (
            "select * from d where ",
            "not ",
            33,
            "k = 'a'",
            Some(Refusal::InvalidQueryExpression),
        ),
        (
            "select * from d where ",
            "(",
            65_000,
            "",
            Some(Refusal::InvalidQueryExpression),
        ),
        ("select * from ", "d", 65_522, "", None),
        (
            "select * from ",
            "d",
            65_523,
            "",
            Some(Refusal::InvalidQueryExpression),
        ),
        ("select ", "d", 1024, " from d", None),
        (
            "select ",
            "d",
            1025,
            " from d",
            Some(Refusal::InvalidQueryExpression),
        ),
    ] {
        let text = repeated(alloc, before, part, count, after)?;
        assert_eq!(rt; refusal(alloc, text.as_str())?, wanted, "{count} of {part}");
    }
    Ok(())
}

#[test]
fn parentheses_nest_32_deep(rt: HostRuntime) -> Result<(), Fail> {
    let alloc = rt.alloc();
    for (count, wanted) in [(32, None), (33, Some(Refusal::InvalidQueryExpression))] {
        let open = repeated(alloc, "select * from d where ", "(", count, "k = 'a'")?;
        let text = repeated(alloc, open.as_str(), ")", count, "")?;
        assert_eq!(rt; refusal(alloc, text.as_str())?, wanted, "{count}");
    }
    Ok(())
}

// The joints of a condition, and the bytes of the texts that it compares.
fn show(expr: &Expr, into: &mut String) -> Result<(), Fail> {
    let (word, members) = match expr {
        Expr::Pred(_, Test::Eq(text)) => return Ok(into.push_str(text.as_str())?),
        Expr::Pred(_, _) => return Ok(into.push_str("?")?),
        Expr::Not(negated) => {
            into.push_str("!")?;
            return show(negated.get(), into);
        }
        Expr::And(members) => ("and(", members),
        Expr::Or(members) => ("or(", members),
        Expr::Inter(members) => ("inter(", members),
    };
    into.push_str(word)?;
    for member in members.as_slice() {
        show(member, into)?;
    }
    into.push_str(")")?;
    Ok(())
}

#[test]
fn joints_bind_in_their_order(rt: HostRuntime) -> Result<(), Fail> {
    let alloc = rt.alloc();
    let text =
        "select * from d where k='1' or k='2' and not k='3' and not not k='4' intersection (k='5' or k='6')";
    let select = parse(alloc, &Text::from_str(alloc, text)?)?;
    let mut shown = String::new(alloc);
    if let Some(cond) = &select.cond {
        show(cond, &mut shown)?;
    }
    assert_eq!(rt; shown.as_str(), "or(1and(2!3inter(!!4or(56))))");
    Ok(())
}
