// Tests of Selects as lines.
use crate::bare::{code_of, last_answer};
use std::alloc::Global;
use std::process::Abort;
use std::test::Fail;

// The items a with k = 1 and 5, b with k = 5, c with k = 3, and d without k.
const FOUR: &str =
    "Action=CreateDomain&DomainName=dom\nAction=PutAttributes&DomainName=dom&ItemName=a&Attribute.1.Name=k&Attribute.1.Value=1&Attribute.2.Name=k&Attribute.2.Value=5\nAction=PutAttributes&DomainName=dom&ItemName=b&Attribute.1.Name=k&Attribute.1.Value=5\nAction=PutAttributes&DomainName=dom&ItemName=c&Attribute.1.Name=k&Attribute.1.Value=3\nAction=PutAttributes&DomainName=dom&ItemName=d&Attribute.1.Name=l&Attribute.1.Value=1\n";

const FALLING: &str = "select itemName() from dom where k is not null order by k desc limit 1";

// A text as a value of a form.
fn append_value(line: &mut String, text: &str) -> Result<(), Fail> {
    for c in text.chars() {
        match c {
            ' ' => line.push('+')?,
            '+' => line.push_str("%2B")?,
            '%' => line.push_str("%25")?,
            '=' => line.push_str("%3D")?,
            '&' => line.push_str("%26")?,
            _ => line.push(c)?,
        }
    }
    Ok(())
}

// The answer to the Select behind these lines, with its token where it is there.
fn selected(alloc: Global, lines: &str, expression: &str, token: &str) -> Result<String, Fail> {
    let mut input = String::from_str(alloc, lines)?;
    input.push_str("Action=Select&SelectExpression=")?;
    append_value(&mut input, expression)?;
    if !token.is_empty() {
        input.push_str("&NextToken=")?;
        append_value(&mut input, token)?;
    }
    last_answer(alloc, input.as_str())
}

// What stands between the two in the text, or nothing.
fn between<'a>(text: &'a str, before: &str, after: &str) -> &'a str {
    match text.split_once(before) {
        Some((_, rest)) => match rest.split_once(after) {
            Some((inner, _)) => inner,
            None => "",
        },
        None => "",
    }
}

fn token_of(answer: &str) -> &str {
    between(answer, "<NextToken>", "</NextToken>")
}

fn usage_of(answer: &str) -> &str {
    between(answer, "<BoxUsage>", "</BoxUsage>")
}

// The result without its token.
fn items_of(answer: &str) -> &str {
    let result = between(answer, "<SelectResult>", "</SelectResult>");
    match result.split_once("<NextToken>") {
        Some((items, _)) => items,
        None => result,
    }
}

// Compares the pages one after the other, the first after a token: what each shows, and what it costs. Gives the last
// one's token.
fn pages(
    rt: &(impl Abort + AllocGlobal),
    lines: &str,
    expression: &str,
    token: &str,
    shown: &[&str],
    usage: &str,
) -> Result<String, Fail> {
    let mut token = String::from_str(rt.alloc(), token)?;
    for items in shown {
        let answer = selected(rt.alloc(), lines, expression, token.as_str())?;
        assert_eq!(rt; items_of(answer.as_str()), *items, "{expression}");
        assert_eq!(rt; usage_of(answer.as_str()), usage, "{expression}");
        token = String::from_str(rt.alloc(), token_of(answer.as_str()))?;
    }
    Ok(token)
}

const A: &str = "<Item><Name>a</Name></Item>";

const B: &str = "<Item><Name>b</Name></Item>";

const C: &str = "<Item><Name>c</Name></Item>";

#[test]
fn an_order_falls_page_by_page(rt: HostRuntime) -> Result<(), Fail> {
    let token = pages(&rt, FOUR, FALLING, "", &[A, B, C], "0.0000001660")?;
    assert!(rt; token.is_empty());
    Ok(())
}

#[test]
fn the_item_of_a_token_may_be_deleted(rt: HostRuntime) -> Result<(), Fail> {
    let token = pages(&rt, FOUR, FALLING, "", &[A], "0.0000001660")?;
    assert!(rt; !token.is_empty());
    let lines = format!(in rt.alloc();
        "{FOUR}Action=DeleteAttributes&DomainName=dom&ItemName=a\nAction=PutAttributes&DomainName=dom&ItemName=0&Attribute.1.Name=k&Attribute.1.Value=5\nAction=PutAttributes&DomainName=dom&ItemName=aa&Attribute.1.Name=k&Attribute.1.Value=5\n"
    )?;
    let shown = ["<Item><Name>aa</Name></Item>", B, C];
    let last = pages(
        &rt,
        lines.as_str(),
        FALLING,
        token.as_str(),
        &shown,
        "0.0000001680",
    )?;
    assert!(rt; last.is_empty());
    Ok(())
}

#[test]
fn items_and_counts_have_their_prices(rt: HostRuntime) -> Result<(), Fail> {
    for (expression, shown, usage) in [
        (
            "select * from dom where k = '5'",
            "<Item><Name>a</Name><Attribute><Name>k</Name><Value>1</Value></Attribute><Attribute><Name>k</Name><Value>5</Value></Attribute></Item><Item><Name>b</Name><Attribute><Name>k</Name><Value>5</Value></Attribute></Item>",
            "0.0000001890",
        ),
        (
            "select count(*) from dom",
            "<Item><Name>Domain</Name><Attribute><Name>Count</Name><Value>4</Value></Attribute></Item>",
            "0.0000001580",
        ),
        ("select * from none", "", "0.0000001000"),
    ] {
        pages(&rt, FOUR, expression, "", &[shown], usage)?;
    }
    Ok(())
}

#[test]
fn selects_are_refused_in_order(rt: HostRuntime) -> Result<(), Fail> {
    let alloc = rt.alloc();
    let first = selected(alloc, FOUR, FALLING, "")?;
    let token = token_of(first.as_str());
    let cases = [
        (
            "select itemName() from dom where k is not null order by k desc limit 2",
            token,
            "InvalidNextToken",
        ),
        (
            "select itemName() from dom  where k is not null order by k desc limit 1",
            token,
            "InvalidNextToken",
        ),
        ("select * from none", token, "InvalidNextToken"),
        ("select * from none", "", "NoSuchDomain"),
        (
            "select * from dom where k = '1' order by z",
            "x",
            "InvalidSortExpression",
        ),
        ("select * from dom where", "x", "InvalidQueryExpression"),
        ("select * from dom", "x", "InvalidNextToken"),
        ("select * from dom limit 0", "", "InvalidQueryExpression"),
        (FALLING, token, "done"),
    ];
    for (expression, token, code) in cases {
        let answer = selected(alloc, FOUR, expression, token)?;
        assert_eq!(rt; code_of(answer.as_str()), code, "{expression}");
    }
    Ok(())
}

// A batch of 25 items: b00 to b24 with genre = novel.
fn novels(alloc: Global) -> Result<String, Fail> {
    let mut lines = String::from_str(
        alloc,
        "Action=CreateDomain&DomainName=books\nAction=BatchPutAttributes&DomainName=books",
    )?;
    for number in 0..25 {
        let item = format!(in alloc;
            "&Item.{number}.ItemName=b{number:02}&Item.{number}.Attribute.0.Name=genre&Item.{number}.Attribute.0.Value=novel"
        )?;
        lines.push_str(item.as_str())?;
    }
    lines.push('\n')?;
    Ok(lines)
}

#[test]
fn a_batch_is_selected(rt: HostRuntime) -> Result<(), Fail> {
    let lines = novels(rt.alloc())?;
    let expression = "select itemName() from books where genre = 'novel' limit 2";
    let shown = "<Item><Name>b00</Name></Item><Item><Name>b01</Name></Item>";
    let token = pages(
        &rt,
        lines.as_str(),
        expression,
        "",
        &[shown],
        "0.0000002200",
    )?;
    assert!(rt; !token.is_empty());
    Ok(())
}

// The items x000 to x999, in batches of 25, each with its number as k, and g = a.
fn thousand(alloc: Global) -> Result<String, Fail> {
    let mut lines = String::from_str(alloc, "Action=CreateDomain&DomainName=nums")?;
    for number in 0..1000 {
        if number % 25 == 0 {
            lines.push_str("\nAction=BatchPutAttributes&DomainName=nums")?;
        }
        let place = number % 25;
        let item = format!(in alloc;
            "&Item.{place}.ItemName=x{number:03}&Item.{place}.Attribute.0.Name=k&Item.{place}.Attribute.0.Value={number:03}&Item.{place}.Attribute.1.Name=g&Item.{place}.Attribute.1.Value=a"
        )?;
        lines.push_str(item.as_str())?;
    }
    lines.push('\n')?;
    Ok(lines)
}

#[test]
fn a_count_goes_on_by_tokens(rt: HostRuntime) -> Result<(), Fail> {
    let lines = thousand(rt.alloc())?;
    let expression = "select count(*) from nums where g = 'a' limit 400";
    let counted =
        "<Item><Name>Domain</Name><Attribute><Name>Count</Name><Value>400</Value></Attribute></Item>";
    let rest =
        "<Item><Name>Domain</Name><Attribute><Name>Count</Name><Value>200</Value></Attribute></Item>";
    let shown = [counted, counted, rest];
    let token = pages(&rt, lines.as_str(), expression, "", &shown, "0.0000021500")?;
    assert!(rt; token.is_empty());
    Ok(())
}

#[test]
fn all_pages_give_each_item_once(rt: HostRuntime) -> Result<(), Fail> {
    let alloc = rt.alloc();
    let lines = thousand(alloc)?;
    let expression = "select itemName() from nums where k > '' order by k desc limit 150";
    let mut token = String::new(alloc);
    let mut number: u32 = 1000;
    for _page in 0..7 {
        let answer = selected(alloc, lines.as_str(), expression, token.as_str())?;
        for part in items_of(answer.as_str()).split("</Name>") {
            if let Some((_, name)) = part.split_once("<Name>x") {
                number = number.saturating_sub(1);
                assert_eq!(rt; name, format!(in alloc; "{number:03}")?.as_str());
            }
        }
        token = String::from_str(alloc, token_of(answer.as_str()))?;
    }
    assert_eq!(rt; number, 0);
    assert!(rt; token.is_empty());
    Ok(())
}
