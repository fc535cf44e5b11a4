//! The kinds of fields, and which texts are of each.

ghost use Rattle.std.specs.Prelude.{◌≡◌, map};
ghost use Rattle.std.specs.Char.{to_ascii_lowercase};
ghost use Rattle.std.specs.List.{list_all};
ghost use Rattle.std.specs.Str.{bytes_eq};
ghost use Rattle.sdb_base.specs.Names.{is_domain_char, is_domain_name, is_name};
ghost use Rattle.sdb_tables.specs.Kinds.{fits, is_flag, is_number, is_plain};

use sdb_base::read_decimal;

/// What the value of a field has to be.
#[derive(Clone, Copy, Debug, PartialEq, Eq)]
pub enum FieldKind {
    /// The name of a domain: 3 to 255 characters of `a-z A-Z 0-9 _ - .`.
    Domain,
    /// The name of an item or an attribute: 1 to 1,024 bytes.
    Name,
    /// `true` or `false`, in any ASCII case.
    Flag,
    /// A decimal number without leading zeros, from the first to the second.
    Number(u64, u64),
    /// A text of at most so many bytes. As every text, it is UTF-8.
    Plain(u64),
}

// Whether a text is of that kind.
pub(crate) fn fits(kind: FieldKind, text: &str) -> bool
    ensures { result ≡ fits kind text.now }
{
    match kind {
        FieldKind::Domain => is_domain_name(text),
        FieldKind::Name => is_name(text),
        FieldKind::Flag => is_flag(text),
        FieldKind::Number(least, most) => is_number(text, least, most),
        FieldKind::Plain(most) => is_plain(text, most),
    }
}

fn is_name(text: &str) -> bool
    ensures { result ≡ is_name text.now }
{
    1 <= text.len() && text.len() <= 1024
}

fn is_domain_name(text: &str) -> bool
    ensures { result ≡ is_domain_name text.now }
{
    3 <= text.len() && text.len() <= 255 && has_domain_chars(text)
}

fn has_domain_chars(text: &str) -> bool
    ensures { result ≡ list_all is_domain_char text.now }
{
    text.as_bytes().iter().all(|c| is_domain_char(*c))
}

fn is_domain_char(c: u8) -> bool
    ensures { result ≡ is_domain_char c }
{
    c.is_ascii_alphanumeric() || c == b'_' || c == b'-' || c == b'.'
}

#[tactic(auto, unfolding(crate::specs::Kinds::is_flag))]
fn is_flag(text: &str) -> bool
    ensures { result ≡ is_flag text.now }
{
    is_word(text, "true") || is_word(text, "false")
}

fn is_word(text: &str, word: &str) -> bool
    ensures { result ≡ bytes_eq (map to_ascii_lowercase text.now) (map to_ascii_lowercase word.now) }
{
    text.eq_ignore_ascii_case(word)
}

fn is_number(text: &str, least: u64, most: u64) -> bool
    ensures { result ≡ is_number least most text.now }
{
    match read_decimal(text.as_bytes(), most) {
        Some(number) => least <= number,
        None => false,
    }
}

fn is_plain(text: &str, most: u64) -> bool
    ensures { result ≡ is_plain most text.now }
{
    text.len() as u64 <= most
}
