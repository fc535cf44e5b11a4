// The pairs of a form, decoded.
ghost use Rattle.std.specs.Prelude.{◌≡◌, All, IfOk, IfErr, MatchOption};
ghost use Rattle.form_urlencoded.specs.Form.{decode, parse};
ghost use Rattle.sdb_form.specs.Answer.{IsFault};
ghost use Rattle.sdb_form.specs.Form.{IsTextPair};

use crate::fault::FormFault;
use crate::text::text_of;
use form_urlencoded::raw_pairs;
use sdb_base::{OutOfMemory, Text};
use std::alloc::Global;

// A piece's name and value, or `None` where one of them isn't UTF-8.
fn pair_of(alloc: Global, name: &[u8], value: &[u8]) -> Result<Option<(Text, Text)>, OutOfMemory>
    ensures { IfOk result (λ found. MatchOption found
        (¬ (IsTextPair (decode name.now, decode value.now)))
        (λ pair. (pair ≡ (decode name.now, decode value.now))
        × IsTextPair (decode name.now, decode value.now))) }
{
    let Some(name) = text_of(alloc, name)? else {
        return Ok(None);
    };
    let Some(value) = text_of(alloc, value)? else {
        return Ok(None);
    };
    Ok(Some((name, value)))
}

/// The names and values of the form's pieces, in order.
///
/// # Errors
///
/// `NotUtf8` with the number of the first piece that isn't UTF-8.
pub fn pairs_of(alloc: Global, form: &[u8]) -> Result<Vec<(Text, Text)>, FormFault>
    ensures pairs { IfOk result (λ pairs. pairs.items ≡ parse form.now) }
    ensures texts { IfOk result (λ pairs. All IsTextPair pairs.items) }
    ensures fault { IfErr result (IsFault form.now) }
{
    let mut pairs = Vec::new(alloc);
    for (name, value) in raw_pairs(form) {
        match pair_of(alloc, name, value)? {
            Some(pair) => pairs.push(pair)?,
            None => return Err(FormFault::NotUtf8(pairs.len() as u64)),
        }
    }
    Ok(pairs)
}
