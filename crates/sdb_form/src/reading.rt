// A form to its parameters.
ghost use Rattle.std.specs.Prelude.{◌≡◌, ◌≢◌, ◌↔◌, ℕ, List, IfOk, Ok, Err};
ghost use Rattle.sdb_form.specs.Form.{IsParams, IsFirstNotUtf8, IsFirstRepeated};
ghost use Rattle.sdb_form.specs.Answer.{IsAnswer, params_of};

use crate::fault::FormFault;
use crate::names::first_repeated;
use crate::pairs::pairs_of;
use sdb_base::Params;
use std::alloc::Global;

fn answer(alloc: Global, form: &[u8]) -> Result<Params, FormFault>
    ensures { IsAnswer form.now result }
{
    let pairs = pairs_of(alloc, form)?;
    match first_repeated(alloc, &pairs)? {
        Some(place) => Err(FormFault::Repeated(place as u64)),
        None => Ok(Params::of(pairs)),
    }
}

/// The parameters of a form (`application/x-www-form-urlencoded`), in the order of its pieces.
///
/// A form is cut at each `&` into pieces. Empty pieces are skipped; any other is cut at its first
/// `=` into a name and a value, which is empty where there is no `=`. In both a `+` is a space, `%`
/// with two hexadecimal digits is that byte, and any other byte is itself (URL Standard, section
/// 5.1, but that nothing is replaced where the bytes aren't UTF-8).
///
/// # Errors
///
/// `NotUtf8` where a name or value isn't UTF-8, else `Repeated` where a name stands twice.
pub fn read(alloc: Global, form: &[u8]) -> Result<Params, FormFault>
    // Want of memory may come in place of any of these answers.
    ensures params { (params : List (List ℕ × List ℕ)) → result ≢ Err FormFault.OutOfMemory
        → (result ≡ Ok params) ↔ IsParams form.now params }
    ensures not_utf8 { (place : ℕ) → result ≢ Err FormFault.OutOfMemory
        → (result ≡ Err (FormFault.NotUtf8 place)) ↔ IsFirstNotUtf8 form.now place }
    ensures repeated { (place : ℕ) → result ≢ Err FormFault.OutOfMemory
        → (result ≡ Err (FormFault.Repeated place)) ↔ IsFirstRepeated form.now place }
    ensures answer { result ≢ Err FormFault.OutOfMemory → result ≡ params_of form.now }
{
    answer(alloc, form)
}
