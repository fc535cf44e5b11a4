// The letters of a pattern.
ghost use Rattle.std.specs.Prelude.{◌≡◌, ◌<◌, ◌≤◌, ◌∷◌, IsTrue, length};
ghost use Rattle.sdb_parse.specs.Patterns.{is_escaped, is_special, letters, unescaped};

/// What stands at one place of a pattern.
#[derive(Clone, Copy, Debug)]
pub enum Letter {
    // `%`, for any run of bytes.
    Run,
    // A byte, for itself.
    Byte(u8),
}

// A letter and the rest of the pattern.
#[derive(Clone, Copy, Debug)]
pub struct Split<'a> {
    pub letter: Letter,
    pub rest: &'a [u8],
}

// The first letter of a pattern that begins with that byte.
#[tactic(auto, using(crate::proofs::LetterLemmas::letter_laws))]
pub(crate) fn split_letter(first: u8, rest: &[u8]) -> Split<'_>
    ensures letter { letters (first ∷ rest.now) ≡ result.letter ∷ letters result.rest.now }
    ensures shorter { length result.rest.now ≤ length rest.now }
{
    if is_escaped(first, rest) {
        let (_, after) = rest.split_at(1);
        return Split {
            letter: Letter::Byte(rest[0]),
            rest: after,
        };
    }
    Split {
        letter: unescaped(first),
        rest,
    }
}

// Whether the byte is a `\` that makes the one after it stand for itself.
fn is_escaped(first: u8, rest: &[u8]) -> bool
    ensures value { result ≡ is_escaped first rest.now }
    ensures some { IsTrue result → 0 < length rest.now }
{
    match rest.split_first() {
        Some((second, _)) => first == b'\\' && is_special(*second),
        None => false,
    }
}

// A byte that no `\` stands before.
fn unescaped(byte: u8) -> Letter
    ensures { result ≡ unescaped byte }
{
    if byte == b'%' {
        Letter::Run
    } else {
        Letter::Byte(byte)
    }
}

// Whether `\` before that byte makes it stand for itself.
fn is_special(byte: u8) -> bool
    ensures { result ≡ is_special byte }
{
    byte == b'%' || byte == b'\\'
}
