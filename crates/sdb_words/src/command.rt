// A command with its numbers, and the words that name one.
ghost use Rattle.std.specs.Prelude.{◌≡◌, IfOk, None, Ok};
ghost use Rattle.sdb_words.specs.Lists.{command_of, alone, with_size, with_port};

use crate::asked::once_taken;
use crate::numbers::{port_in, size_in, turns_in};
use sdb_base::{OutOfMemory, Words};
use std::alloc::Global;

/// What the program is asked to do.
#[derive(Clone, Copy, Debug, PartialEq, Eq)]
pub enum Command {
    /// Requests as lines, over domains that begin empty.
    Bare,
    /// The events of a script, over the store of the working folder.
    Replay,
    /// A port from 1 to 65535, and after how many events of connections to end, from 1 to 4294967295.
    Serve(u16, u32),
    /// What the store of the working folder holds.
    Check,
    /// A workload of a size from 1 to 100, over a store in memory.
    Bench(u64),
}

/// The command that the words after the program's name are, where they are one of five lists: `bare`,
/// `replay`, `serve PORT TURNS`, `check` and `bench N`, with numbers in decimal without leading zeros. Other words
/// take no memory.
pub fn read_command(alloc: Global, words: &Words) -> Result<Option<Command>, OutOfMemory>
    ensures command { IfOk result (λ command. command ≡ command_of words.now) }
    ensures none { command_of words.now ≡ None → result ≡ Ok None }
{
    match words.as_slice() {
        [word] => read_alone(alloc, word.as_str()),
        [word, size] => read_with_size(alloc, word.as_str(), size.as_str()),
        [word, port, turns] => read_with_port(alloc, word.as_str(), port.as_str(), turns.as_str()),
        _ => Ok(None),
    }
}

fn read_alone(alloc: Global, word: &str) -> Result<Option<Command>, OutOfMemory>
    ensures command { IfOk result (λ command. command ≡ alone word.now) }
    ensures none { alone word.now ≡ None → result ≡ Ok None }
{
    once_taken(alloc, named_alone(word), &["sdb", word])
}

fn read_with_size(alloc: Global, word: &str, size: &str) -> Result<Option<Command>, OutOfMemory>
    ensures command { IfOk result (λ command. command ≡ with_size word.now size.now) }
    ensures none { with_size word.now size.now ≡ None → result ≡ Ok None }
{
    once_taken(alloc, named_with_size(word, size), &["sdb", word, size])
}

fn read_with_port(
    alloc: Global,
    word: &str,
    port: &str,
    turns: &str,
) -> Result<Option<Command>, OutOfMemory>
    ensures command { IfOk result (λ command. command ≡ with_port word.now port.now turns.now) }
    ensures none { with_port word.now port.now turns.now ≡ None → result ≡ Ok None }
{
    once_taken(
        alloc,
        named_with_port(word, port, turns),
        &["sdb", word, port, turns],
    )
}

fn named_alone(word: &str) -> Option<Command>
    ensures { result ≡ alone word.now }
{
    match word {
        "bare" => Some(Command::Bare),
        "replay" => Some(Command::Replay),
        "check" => Some(Command::Check),
        _ => None,
    }
}

fn named_with_size(word: &str, size: &str) -> Option<Command>
    ensures { result ≡ with_size word.now size.now }
{
    if word != "bench" {
        return None;
    }
    Some(Command::Bench(size_in(size)?))
}

fn named_with_port(word: &str, port: &str, turns: &str) -> Option<Command>
    ensures { result ≡ with_port word.now port.now turns.now }
{
    if word != "serve" {
        return None;
    }
    Some(Command::Serve(port_in(port)?, turns_in(turns)?))
}
