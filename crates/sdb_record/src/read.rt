// Changes out of bytes.
ghost use Rattle.std.specs.Prelude.{◌≡◌, ◌<◌, ◌≤◌, ◌^◌, ◌++◌, ℕ, List, length, IfOk, IfErr, MatchResult, Ok, Err};
ghost use Rattle.sdb_pairs.specs.declared.change.Change.{Change};
ghost use Rattle.sdb_pairs.specs.Lawful.{AreLawfulChanges};
ghost use Rattle.sdb_record.specs.declared.fault.RecordFault.TheVariants.{Short, Bad, OutOfMemory};
ghost use Rattle.sdb_record.specs.Entries.{OnFault, changes_at};
ghost use Rattle.sdb_record.specs.Records.{Begin, IsFront, IsNone};
ghost use Rattle.sdb_record.specs.Spelling.{spelling};

use crate::RecordFault;
use crate::entries::read_change;
use sdb_format::read_u32;
use sdb_pairs::Changes;
use std::alloc::Global;

// Changes behind their number, and the bytes after them.
fn read_list(alloc: Global, bytes: &[u8]) -> Result<(Changes, &[u8]), RecordFault>
    ensures ok { IfOk result (λ x. changes_at bytes.now ≡ Ok (x.0, x.1.now)) }
    ensures err { OnFault result (changes_at bytes.now) }
{
    let (count, after) = read_u32(bytes)?;
    let mut changes = Changes::new(alloc);
    let mut rest = after;
    for done in 0..count {
        let (change, next) = read_change(alloc, rest)?;
        changes.push(change)?;
        rest = next;
    }
    Ok((changes, rest))
}

/// The changes whose bytes begin `bytes`, and how many bytes they take. Short comes exactly where more bytes could
/// make changes of these, Bad exactly where none could; OutOfMemory says nothing of them.
pub fn read_changes(alloc: Global, bytes: &[u8]) -> Result<(Changes, usize), RecordFault>
    ensures found { IfOk result (λ x. Begin x.0 x.1 bytes.now) }
    ensures only { (changes : List Change) (rest : List ℕ) → AreLawfulChanges changes → bytes.now ≡ spelling changes ++ rest
        → MatchResult result (λ x. x.0 ≡ changes) (λ fault. fault ≡ OutOfMemory) }
    ensures short { IfErr result (λ fault. fault ≡ Short → IsFront bytes.now) }
    ensures bad { IfErr result (λ fault. fault ≡ Bad → IsNone bytes.now) }
{
    match read_list(alloc, bytes) {
        Ok((changes, rest)) => {
            let size = bytes.len() - rest.len();
            Ok((changes, size))
        }
        Err(fault) => Err(fault),
    }
}
