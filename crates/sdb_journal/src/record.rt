// The head of a record, and the changes in its body.
ghost use Rattle.std.specs.Prelude.{◌≡◌, ◌≢◌, ◌<◌, ◌^◌, ◌++◌, ℕ, length, IfOk, IfSome, IfNone};
ghost use Rattle.sdb_format.specs.Numbers.{be32};
ghost use Rattle.sdb_record.specs.Journals.{Group, IsGroup, be64};

use crate::numbers::{record_head, word_at};
use sdb_base::OutOfMemory;
use sdb_pairs::Changes;
use sdb_record::{RecordFault, read_changes};
use std::alloc::Global;

// The size of the body behind that head, where it is the head of a record with that number. The bytes are those of the
// size read exactly where the number is right.
pub(crate) fn size_in(head: &[u8], number: u64) -> Option<u32>
    requires { length head.now ≡ 12 }
    ensures some { IfSome result (λ size. head.now ≡ be32 size ++ be64 number) }
    ensures fits { IfSome result (λ size. size < 2 ^ 32) }
    ensures none { IfNone result ((size : ℕ) → size < 2 ^ 32 → head.now ≢ be32 size ++ be64 number) }
{
    let size = word_at(head, 0);
    if record_head(size, number).as_slice() == head {
        Some(size)
    } else {
        None
    }
}

// The changes whose bytes these are.
pub(crate) fn changes_in(alloc: Global, body: &[u8]) -> Result<Option<Changes>, OutOfMemory>
    requires { length body.now < 2 ^ 32 }
    ensures some { IfOk result (λ found. IfSome found (λ changes. IsGroup changes body.now)) }
    ensures none { IfOk result (λ found. IfNone found ((group : Group) → IsGroup group body.now → ⊥)) }
{
    match read_changes(alloc, body) {
        Ok((changes, size)) => {
            if size == body.len() {
                Ok(Some(changes))
            } else {
                Ok(None)
            }
        }
        Err(fault) => match fault {
            RecordFault::Short | RecordFault::Bad => Ok(None),
            RecordFault::OutOfMemory => Err(OutOfMemory),
        },
    }
}
