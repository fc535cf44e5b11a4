// Units as a text.
ghost use Rattle.std.specs.Prelude.{◌≡◌, IfOk};
ghost use Rattle.sdb_reply.specs.Bodies.{hours_text};

use sdb_base::{Bytes, OutOfMemory, Text};
use sdb_reply::append_hours;
use std::alloc::Global;

/// Units of 10^-10 of an hour, as hours: a whole number, a point and ten digits.
pub fn print_units(alloc: Global, units: u64) -> Result<Text, OutOfMemory>
    ensures { IfOk result (λ text. text ≡ hours_text units) }
{
    let mut out = Bytes::new(alloc);
    append_hours(&mut out, units)?;
    match String::from_utf8(out.into_vec()) {
        Ok(text) => Ok(Text::from_string(text)),
        Err(_) => unreachable!(),
    }
}
