// Whether a text fits a pattern: a scan forward, which looks for each part at its first place.
ghost use Rattle.std.specs.Prelude.{◌≡◌, ◌≤◌, ◌<◌, IsTrue, ◌↔◌, length};
ghost use Rattle.sdb_parse.specs.Patterns.{IsLike, after_some_run, begins_with, has_letters, is_like, is_nothing, letters};
ghost use Rattle.sdb_parse.specs.Walks.{IsShorter, differs, first_place, plain_len, seen, walk};

use crate::letters::{Letter, split_letter};
use crate::pattern::Pattern;
use sdb_base::Text;

// How a pattern goes on after its first plain part, which the text begins with or doesn't.
#[derive(Clone, Copy, Debug)]
enum Walk<'a, 'b> {
    // The text doesn't begin so.
    Differs,
    // The pattern ends, and this is left of the text.
    Ends(&'b [u8]),
    // A `%` follows: what is left of the pattern after it, and of the text.
    Run(&'a [u8], &'b [u8]),
}

/// Whether the text fits the pattern, where `%` stands for any run of bytes, `\%` for `%` and `\\` for
/// `\` (SimpleDB Developer Guide, "Comparison Operators"). It takes no memory.
pub fn like(pattern: &Pattern, text: &Text) -> bool
    ensures value { result ≡ is_like pattern.now text.now }
    ensures parts { IsTrue result ↔ IsLike pattern.now text.now }
{
    is_like(pattern.text().as_str().as_bytes(), text.as_str().as_bytes())
}

fn is_like(pattern: &[u8], text: &[u8]) -> bool
    ensures { result ≡ is_like pattern.now text.now }
{
    match walk_from(pattern, text) {
        Walk::Differs => false,
        Walk::Ends(rest) => is_nothing(rest),
        Walk::Run(pattern, text) => after_some_run(pattern, text),
    }
}

// Whether what follows some run of bytes fits the pattern.
fn after_some_run(pattern: &[u8], text: &[u8]) -> bool
    ensures { result ≡ after_some_run (has_letters (letters pattern.now)) text.now }
{
    let mut letters = pattern;
    let mut rest = text;
    'part: loop {
        if let Some(count) = plain_len(letters) {
            return ends_with(letters, count, rest);
        }
        match first_place(letters, rest) {
            Walk::Differs => return false,
            Walk::Ends(_) => unreachable!(),
            Walk::Run(after, left) => {
                letters = after;
                rest = left;
            }
        }
    }
}

// Whether the text ends with a pattern of so many bytes and no `%`.
fn ends_with(pattern: &[u8], count: usize, text: &[u8]) -> bool
    requires { plain_len (letters pattern.now) ≡ Some count }
    ensures { result ≡ after_some_run (has_letters (letters pattern.now)) text.now }
{
    if text.len() < count {
        return false;
    }
    let (_, end) = text.split_at(text.len() - count);
    match walk_from(pattern, end) {
        Walk::Differs => false,
        Walk::Ends(rest) => is_nothing(rest),
        Walk::Run(_, _) => unreachable!(),
    }
}

// How many bytes a pattern stands for that has no `%`.
fn plain_len(pattern: &[u8]) -> Option<usize>
    ensures { result ≡ plain_len (letters pattern.now) }
{
    let mut left = pattern;
    let mut count = 0;
    'more: while let Some((first, rest)) = left.split_first() {
        let split = split_letter(*first, rest);
        match split.letter {
            Letter::Run => return None,
            Letter::Byte(_) => count += 1,
        }
        left = split.rest;
    }
    Some(count)
}

// The walk from the first place of the text where its first part stands.
fn first_place<'a, 'b>(pattern: &'a [u8], text: &'b [u8]) -> Walk<'a, 'b>
    ensures value { seen result ≡ first_place (letters pattern.now) text.now }
    ensures shorter { IsShorter result pattern.now }
{
    let mut left = text;
    'more: while let Some((_, rest)) = left.split_first() {
        let walk = walk_from(pattern, left);
        if !differs(walk) {
            return walk;
        }
        left = rest;
    }
    walk_from(pattern, left)
}

fn differs(walk: Walk<'_, '_>) -> bool
    ensures { result ≡ differs walk.entry }
{
    matches!(walk, Walk::Differs)
}

// Compares the text with the first part of the pattern.
fn walk_from<'a, 'b>(pattern: &'a [u8], text: &'b [u8]) -> Walk<'a, 'b>
    ensures value { seen result ≡ walk (letters pattern.now) text.now }
    ensures shorter { IsShorter result pattern.now }
{
    let mut letters = pattern;
    let mut left = text;
    'more: while let Some((first, rest)) = letters.split_first() {
        let split = split_letter(*first, rest);
        letters = split.rest;
        match split.letter {
            Letter::Run => return Walk::Run(letters, left),
            Letter::Byte(byte) => {
                if !begins_with(left, byte) {
                    return Walk::Differs;
                }
                let (_, others) = left.split_at(1);
                left = others;
            }
        }
    }
    Walk::Ends(left)
}

fn begins_with(text: &[u8], byte: u8) -> bool
    ensures value { result ≡ begins_with byte text.now }
    ensures some { IsTrue result → 0 < length text.now }
{
    match text.split_first() {
        Some((first, _)) => *first == byte,
        None => false,
    }
}

fn is_nothing(text: &[u8]) -> bool
    ensures { result ≡ is_nothing text.now }
{
    match text.split_first() {
        Some(_) => false,
        None => true,
    }
}
