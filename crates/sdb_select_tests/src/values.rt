// Tests of patterns and of tests of one text.
use sdb_base::{Text, Texts};
use sdb_parse::{Pattern, Test, fits, like};
use std::alloc::Global;
use std::test::Fail;

fn is_like(alloc: Global, pattern: &str, text: &str) -> Result<bool, Fail> {
    let pattern = Pattern::new(Text::from_str(alloc, pattern)?);
    Ok(like(&pattern, &Text::from_str(alloc, text)?))
}

#[test]
fn patterns_are_matched(rt: HostRuntime) -> Result<(), Fail> {
    let alloc = rt.alloc();
    for (pattern, text, wanted) in [
        ("%3\\%%", "3%", true),
        ("%3\\%%", "13%5", true),
        ("%3\\%%", "30", false),
        ("%3\\%%", "", false),
        ("", "3%", false),
        ("", "", true),
        ("%", "13%5", true),
        ("%", "", true),
        ("a%b%c", "abxbyc", true),
        ("a%bc", "abcbc", true),
        ("a%bc", "abcb", false),
        ("%aab", "aaab", true),
        ("%ab%ab", "xab", false),
        ("%aba%aba", "ababa", false),
        ("ab%ba", "aba", false),
        ("\\", "\\", true),
        ("\\x", "x", false),
        ("\\x%", "\\xyz", true),
        ("\\\\%", "\\yz", true),
    ] {
        assert_eq!(rt;
            is_like(alloc, pattern, text)?,
            wanted,
            "{text} like {pattern}"
        );
    }
    Ok(())
}

#[test]
fn texts_are_compared_by_their_bytes(rt: HostRuntime) -> Result<(), Fail> {
    let alloc = rt.alloc();
    let text = Text::from_str(alloc, "m")?;
    let mut some = Texts::new(alloc);
    some.push(Text::from_str(alloc, "a")?)?;
    some.push(Text::from_str(alloc, "m")?)?;
    assert!(rt; fits(&Test::OneOf(some), &text));
    for (low, high, wanted) in [
        ("a", "m", true),
        ("m", "z", true),
        ("a", "l~", false),
        ("m\u{0}", "z", false),
    ] {
        let test = Test::Between(Text::from_str(alloc, low)?, Text::from_str(alloc, high)?);
        assert_eq!(rt; fits(&test, &text), wanted, "{low} {high}");
    }
    assert!(rt;
        !fits(
            &Test::Lt(Text::from_str(alloc, "é")?),
            &Text::from_str(alloc, "ü")?
        )
    );
    assert!(rt;
        fits(
            &Test::NotLike(Pattern::new(Text::from_str(alloc, "m_")?)),
            &text
        )
    );
    Ok(())
}
