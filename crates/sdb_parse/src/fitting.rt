// What a test asks of one text.
ghost use Rattle.std.specs.Prelude.{◌≡◌, false};
ghost use Rattle.std.specs.List.{list_any};
ghost use Rattle.std.specs.Str.{bytes_eq};
ghost use Rattle.sdb_parse.specs.Conditions.{is_null_test};
ghost use Rattle.sdb_parse.specs.Fits.{fits, is_at_most, is_below};

use crate::matching::like;
use crate::test::Test;
use sdb_base::Text;
use std::cmp::Ordering;

/// Whether a text meets a test that is no null test. Texts are compared by their bytes, `between` takes both
/// ends, and `in` asks for one of its texts (SimpleDB Developer Guide, "Comparison Operators"). It takes no
/// memory.
pub fn fits(test: &Test, text: &Text) -> bool
    requires { is_null_test test.now ≡ false }
    ensures { result ≡ fits test.now text.now }
{
    match test {
        Test::Eq(wanted) => text == wanted,
        Test::Ne(wanted) => text != wanted,
        Test::Lt(bound) => is_below(text, bound),
        Test::Le(bound) => is_at_most(text, bound),
        Test::Gt(bound) => is_below(bound, text),
        Test::Ge(bound) => is_at_most(bound, text),
        Test::Like(pattern) => like(pattern, text),
        Test::NotLike(pattern) => !like(pattern, text),
        Test::Between(low, high) => is_at_most(low, text) && is_at_most(text, high),
        Test::OneOf(texts) => is_one_of(text, texts.as_slice()),
        Test::IsNull | Test::IsNotNull => unreachable!(),
    }
}

fn is_below(text: &Text, other: &Text) -> bool
    ensures { result ≡ is_below text.now other.now }
{
    matches!(text.cmp(other), Ordering::Less)
}

fn is_at_most(text: &Text, other: &Text) -> bool
    ensures { result ≡ is_at_most text.now other.now }
{
    !is_below(other, text)
}

fn is_one_of(text: &Text, texts: &[Text]) -> bool
    ensures { result ≡ list_any (bytes_eq text.now) texts.now }
{
    for other in texts {
        if text == other {
            return true;
        }
    }
    false
}
