//! The kinds of bytes, and runs of them.

ghost use Rattle.std.specs.Prelude.{◌≡◌, ◌==◌, ◌≤◌, length};
ghost use Rattle.std.specs.Char.{is_ascii_digit};
ghost use Rattle.sdb_lex.specs.Bytes.{blank, word, sign, plain, comparing, begins, run};

pub fn is_blank(byte: u8) -> bool
    ensures { result ≡ blank byte }
{
    byte == b' ' || byte == b'\t' || byte == b'\r' || byte == b'\n'
}

pub fn is_word(byte: u8) -> bool
    ensures { result ≡ word byte }
{
    byte.is_ascii_alphanumeric() || byte == b'_' || byte == b'$'
}

// The signs that a text or a name stands between.
pub fn is_sign(byte: u8) -> bool
    ensures { result ≡ sign byte }
{
    byte == b'\'' || byte == b'"' || byte == b'`'
}

// The symbols that no `=` follows as a part.
pub fn is_plain(byte: u8) -> bool
    ensures { result ≡ plain byte }
{
    byte == b'(' || byte == b')' || byte == b',' || byte == b'*' || byte == b'='
}

// The bytes that are a symbol with a `=` after them.
pub fn is_comparing(byte: u8) -> bool
    ensures { result ≡ comparing byte }
{
    byte == b'!' || byte == b'<' || byte == b'>'
}

pub fn begins_word(text: &[u8]) -> bool
    ensures { result ≡ begins word text.now }
{
    match text.first() {
        Some(byte) => is_word(*byte),
        None => false,
    }
}

pub fn begins_equals(text: &[u8]) -> bool
    ensures { result ≡ begins (λ b. b == 61) text.now }
{
    match text.first() {
        Some(byte) => *byte == b'=',
        None => false,
    }
}

// How many bytes of words stand at the front.
pub fn word_run(text: &[u8]) -> usize
    ensures { result ≡ run word text.now }
{
    for (at, byte) in text.iter().enumerate() {
        if !is_word(*byte) {
            return at;
        }
    }
    text.len()
}

// How many digits stand at the front.
pub fn digit_run(text: &[u8]) -> usize
    ensures count { result ≡ run is_ascii_digit text.now }
    ensures within { result ≤ length text.now }
{
    for (at, byte) in text.iter().enumerate() {
        if !byte.is_ascii_digit() {
            return at;
        }
    }
    text.len()
}
