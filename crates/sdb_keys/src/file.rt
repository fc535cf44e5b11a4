//! Reading a keys file, line after line.

ghost use Rattle.std.specs.Prelude.{◌≡◌, ◌≢◌, ◌↔◌, ℕ, List, [], Ok, Err, MatchResult};
ghost use Rattle.sdb_keys.specs.declared.keys.Key.{Key};
ghost use Rattle.sdb_keys.specs.File.{file_lines, is_skipped, AreRight, IsBadLine, IsDoubled, IsOneTooMany};
ghost use Rattle.sdb_keys.specs.Reading.{with_line, with_lines, IsFaultOf};

use crate::fault::KeyFault;
use crate::keys::Keys;
use crate::line::key_of;
use bstr::ByteSlice;
use std::alloc::Global;

const MOST_KEYS: usize = 64;

fn is_skipped_line(line: &[u8]) -> bool
    ensures { result ≡ is_skipped line.now }
{
    match line {
        [] => true,
        [first, ..] => *first == b'#',
    }
}

// Puts the key of a line to the others.
#[tactic(auto, unfolding(crate::specs::Reading::with_line))]
fn read_line(alloc: Global, keys: &mut Keys, number: u64, line: &[u8]) -> Result<(), KeyFault>
    ensures { MatchResult result
        (λ _. with_line number keys.old line.now ≡ Ok keys.new)
        (IsFaultOf (with_line number keys.old line.now)) }
{
    if is_skipped_line(line) {
        return Ok(());
    }
    let Some(key) = key_of(alloc, line)? else {
        return Err(KeyFault::BadLine(number));
    };
    if keys.has(&key.id) {
        return Err(KeyFault::Doubled(number));
    }
    if keys.len() >= MOST_KEYS {
        return Err(KeyFault::TooMany(number));
    }
    keys.push(key)?;
    Ok(())
}

fn read_lines(alloc: Global, text: &[u8]) -> Result<Keys, KeyFault>
    ensures { MatchResult result
        (λ keys. with_lines 1 [] (file_lines text.now) ≡ Ok keys)
        (IsFaultOf (with_lines 1 [] (file_lines text.now))) }
{
    let mut keys = Keys::new(alloc);
    let mut number = 0;
    for line in text.lines() {
        number += 1;
        read_line(alloc, &mut keys, number, line)?;
    }
    Ok(keys)
}

/// The keys of a keys file.
///
/// A line ends with a line feed; one carriage return before it belongs to the end too. The last
/// line needs no end. Empty lines and lines that begin with `#` are skipped. Any other line is an
/// account number from 1 to 16, a space, a key id of 1 to 128 ASCII letters and digits, a space,
/// and a secret of 1 to 128 bytes from 0x21 to 0x7E.
///
/// # Errors
///
/// The first wrong line decides, by its number from 1 over all lines: `BadLine` where it leaves
/// this grammar, else `Doubled` where its key id stands on an earlier line, else `TooMany` where 64
/// keys stand before it.
pub fn read_keys(alloc: Global, text: &[u8]) -> Result<Keys, KeyFault>
    // Want of memory may come in place of any of these answers.
    ensures keys { (keys : List Key) → result ≢ Err KeyFault.OutOfMemory
        → (result ≡ Ok keys) ↔ AreRight (file_lines text.now) keys }
    ensures bad_line { (number : ℕ) → result ≢ Err KeyFault.OutOfMemory
        → (result ≡ Err (KeyFault.BadLine number)) ↔ IsBadLine (file_lines text.now) number }
    ensures doubled { (number : ℕ) → result ≢ Err KeyFault.OutOfMemory
        → (result ≡ Err (KeyFault.Doubled number)) ↔ IsDoubled (file_lines text.now) number }
    ensures too_many { (number : ℕ) → result ≢ Err KeyFault.OutOfMemory
        → (result ≡ Err (KeyFault.TooMany number)) ↔ IsOneTooMany (file_lines text.now) number }
{
    read_lines(alloc, text)
}
