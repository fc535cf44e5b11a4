// The five lines.
ghost use Rattle.std.specs.Prelude.{◌≡◌, ◌++◌, ◌∷◌, [], IfOk, OnOk, decimal};
ghost use Rattle.hex.specs.Hex.{encode_lower};
ghost use Rattle.sdb_bench.specs.Measures.{five_lines, number_line};

use itoa::Buffer;
use sdb_base::{Bytes, OutOfMemory};
use std::alloc::Global;

// What a workload came to.
#[derive(Clone, Copy)]
pub(crate) struct Figures {
    pub requests: u64,
    pub answers: u64,
    pub items: u64,
    pub pairs: u64,
    pub sent: [u8; 32],
}

// The lines of these figures.
#[tactic(auto, using(std::proofs::Common::append_assoc))]
pub(crate) fn report(alloc: Global, figures: &Figures) -> Result<Bytes, OutOfMemory>
    ensures { IfOk result (λ text. text.bytes ≡ five_lines figures.now.requests figures.now.answers figures.now.items figures.now.pairs figures.now.sent) }
{
    let digest = hex::encode(alloc, &figures.sent)?;
    let mut text = Bytes::new(alloc);
    append_line(&mut text, b"requests ", figures.requests)?;
    append_line(&mut text, b"answers ", figures.answers)?;
    append_line(&mut text, b"items ", figures.items)?;
    append_line(&mut text, b"pairs ", figures.pairs)?;
    text.append(b"sent ")?;
    text.append(digest.as_bytes())?;
    text.append(b"\n")?;
    Ok(text)
}

// A line of a word, with the space behind it, and a number.
#[tactic(auto, using(std::proofs::Common::append_assoc))]
fn append_line(text: &mut Bytes, word: &[u8], number: u64) -> Result<(), OutOfMemory>
    ensures { OnOk result (text.new.bytes ≡ text.old.bytes ++ number_line word.now number) }
{
    let mut digits = Buffer::new();
    text.append(word)?;
    text.append(digits.format(number).as_bytes())?;
    text.append(b"\n")
}
