// The head of a journal's file: its gate, the magic, the generation, and the number before its first record.
ghost use Rattle.std.specs.Prelude.{◌≡◌, ◌≢◌, ◌<◌, ◌≤◌, ◌+◌, ◌^◌, [], ◌∷◌, ◌++◌, length, slice_index, ℕ, IsTrue, IfOk, IfSome, IfNone};
ghost use Rattle.sdb_record.specs.Journals.{header, IsClosed};
ghost use Rattle.sdb_record.specs.Stands.{journal_of};
ghost use Rattle.sdb_journal.specs.Heads.{NoFront, HasHead, IsBadHead};
ghost use Rattle.sdb_journal.specs.Looks.{Looks, OnRefusal, OnNoMemory, HasOpenCause};

use crate::numbers::number_at;
use sdb_disk::{Disk, OpenFault};

// The first 26 bytes of an open journal.
fn front_of(generation: u64, first: u64, gate: u8) -> [u8; 26]
    ensures { result ≡ header generation first ++ gate ∷ [] }
{
    let (above, below) = (generation / 4294967296, generation % 4294967296);
    let (high, low) = (first / 4294967296, first % 4294967296);
    [
        1,
        83,
        68,
        66,
        74,
        82,
        78,
        76,
        49,
        (above / 65536 / 256) as u8,
        (above / 65536 % 256) as u8,
        (above % 65536 / 256) as u8,
        (above % 65536 % 256) as u8,
        (below / 65536 / 256) as u8,
        (below / 65536 % 256) as u8,
        (below % 65536 / 256) as u8,
        (below % 65536 % 256) as u8,
        (high / 65536 / 256) as u8,
        (high / 65536 % 256) as u8,
        (high % 65536 / 256) as u8,
        (high % 65536 % 256) as u8,
        (low / 65536 / 256) as u8,
        (low / 65536 % 256) as u8,
        (low % 65536 / 256) as u8,
        (low % 65536 % 256) as u8,
        gate,
    ]
}

// The generation and the first number of the journal whose head that is, where it belongs into the file. The bytes are
// those of the numbers read exactly where the magic is right.
fn head_in(file: u8, front: &[u8; 26]) -> Option<(u64, u64)>
    ensures some { IfSome result (λ head. front.now ≡ header head.0 head.1 ++ slice_index front.now 25 ∷ []) }
    ensures own { IfSome result (λ head. journal_of head.0 ≡ file) }
    ensures fits { IfSome result (λ head. (head.0 < 2 ^ 64) × (head.1 < 2 ^ 64)) }
    ensures none { IfNone result (NoFront file front.now) }
{
    let generation = number_at(front, 9);
    let first = number_at(front, 17);
    if front_of(generation, first, front[25]) != *front {
        return None;
    }
    if 2 + generation % 2 != u64::from(file) {
        return None;
    }
    Some((generation, first))
}

/// The generation of an open journal, and the number before its first record; None where the file is closed. It is
/// NotAStore where an open file has no header of a journal that belongs into it. It takes no memory.
pub fn read_head<D: Disk>(file: u8, disk: &mut D) -> Result<Option<(u64, u64)>, OpenFault>
    requires { file < 4 }

    ensures none { IfOk result (λ found. IfNone found (IsTrue (D.state disk.old).told → IsClosed 26 ((D.state disk.old).seen file))) }
    ensures some { IfOk result (λ found. IfSome found (λ head. IsTrue (D.state disk.old).told → HasHead head.0 head.1 ((D.state disk.old).seen file))) }
    ensures own { IfOk result (λ found. IfSome found (λ head. journal_of head.0 ≡ file)) }
    ensures fits { IfOk result (λ found. IfSome found (λ head. (head.0 < 2 ^ 64) × (head.1 < 2 ^ 64))) }

    ensures refused { OnRefusal result (λ k. (k ≡ file) × (IsTrue (D.state disk.old).told → IsBadHead file ((D.state disk.old).seen file))) }
    ensures memory { OnNoMemory result ⊥ }
    ensures cause { HasOpenCause (D.state disk.old).faults (D.state disk.new).faults result }
    ensures looks { Looks (D.state disk.old) (D.state disk.new) }
{
    let mut front = [0; 26];
    let Ok(size) = disk.read(file, 0, &mut front) else {
        return Err(OpenFault::Disk);
    };
    if size < 26 || front[0] != 1 {
        return Ok(None);
    }
    match head_in(file, &front) {
        Some(head) => Ok(Some(head)),
        None => Err(OpenFault::NotAStore(file)),
    }
}
