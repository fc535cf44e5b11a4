// What the answers came to.
ghost use Rattle.std.specs.Prelude.{◌≡◌, ◌<◌, ◌+◌, ◌^◌, ℕ, false, List, [], ◌++◌, length, OnOk};
ghost use Rattle.sha2.specs.Hashers.{Holds256};
ghost use Rattle.sha2.specs.Sha256.{sha256};
ghost use Rattle.sdb_arrivals.specs.Queues.{sent_of};
ghost use Rattle.sdb_bench.specs.Steps.{Takes, is_unserved};
ghost use Rattle.sdb_replay.specs.Running.{emptied};
ghost use Rattle.sdb_replay.specs.Shown.{sent_text};

use sdb_base::{Bytes, Out, OutOfMemory};
use sdb_core::Core;
use sdb_replay::append_sent;
use sha2::{Digest, Sha256};
use std::alloc::Global;

// How many answers came, and the digest of their records so far.
#[derive(Drop)]
pub(crate) struct Tally {
    pub answers: u64,
    pub hasher: Sha256,
}

impl Tally {
    // No answers.
    pub(crate) fn new() -> Tally
        ensures none { result.answers ≡ 0 }
        ensures empty { Holds256 result.hasher [] }
    {
        Tally {
            answers: 0,
            hasher: Sha256::new(),
        }
    }

    // Takes off the answers that the core has released. There is an error where one of them wasn't served.
    pub(crate) fn take_all(&mut self, alloc: Global, core: &mut Core) -> Result<(), OutOfMemory>
        requires { self.old.answers + length core.old.line.out < 2 ^ 64 }
        ensures taken { OnOk result (Takes core.old.line.out self.old self.new) }
        ensures quiet { OnOk result (core.new.line.out ≡ []) }
        ensures core { emptied core.new ≡ emptied core.old }
    {
        while let Some(out) = core.take_out() {
            self.take(alloc, &out)?;
        }
        Ok(())
    }

    // Counts an answer and hashes its record. There is an error where it wasn't served.
    fn take(&mut self, alloc: Global, out: &Out) -> Result<(), OutOfMemory>
        requires { self.old.answers + 1 < 2 ^ 64 }
        ensures served { OnOk result (is_unserved (sent_of out.now).bytes ≡ false) }
        ensures answers { OnOk result (self.new.answers ≡ self.old.answers + 1) }
        ensures holds { OnOk result ((text : List ℕ) → Holds256 self.old.hasher text → Holds256 self.new.hasher (text ++ sent_text (sent_of out.now))) }
    {
        if is_unserved(out.bytes.as_slice()) {
            return Err(OutOfMemory);
        }
        let mut text = Bytes::new(alloc);
        append_sent(alloc, out, &mut text)?;
        self.hasher.update(text.as_slice());
        self.answers += 1;
        Ok(())
    }

    // The digest of the records.
    pub(crate) fn digest(self) -> [u8; 32]
        ensures { (text : List ℕ) → Holds256 self.hasher text → result ≡ sha256 text }
    {
        self.hasher.finalize()
    }
}

// A response that says that memory was lacking, or that the disk failed.
fn is_unserved(response: &[u8]) -> bool
    ensures { result ≡ is_unserved response.now }
{
    response.starts_with(b"HTTP/1.1 500") || response.starts_with(b"HTTP/1.1 503")
}
