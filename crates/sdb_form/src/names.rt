// The first name that stands earlier.
ghost use Rattle.std.specs.Prelude.{◌≡◌, IfOk, MatchOption};
ghost use Rattle.std.specs.Map.{keys_of};
ghost use Rattle.sdb_base.specs.Pairs.{HasDistinctNames};
ghost use Rattle.sdb_form.specs.Form.{IsFirst, IsRepeat};

use sdb_base::{OutOfMemory, Text};
use std::alloc::Global;
use std::collections::BTreeSet;

/// The place of the first pair whose name stands earlier.
pub fn first_repeated(alloc: Global, pairs: &[(Text, Text)]) -> Result<Option<usize>, OutOfMemory>
    ensures { IfOk result (λ found. MatchOption found
        (HasDistinctNames pairs.now)
        (IsFirst (IsRepeat (keys_of pairs.now)))) }
{
    let mut seen = BTreeSet::new(alloc);
    for (place, pair) in pairs.iter().enumerate() {
        if !seen.insert(pair.0.as_str())? {
            return Ok(Some(place));
        }
    }
    Ok(None)
}
