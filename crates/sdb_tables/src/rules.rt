//! Rows of fields, and what parameters give by them.

ghost use Rattle.std.specs.Prelude.{◌≡◌, ◌<◌, length, map, slice_get, IfErr, IfOk};
ghost use Rattle.std.specs.Option.{option_copied};
ghost use Rattle.sdb_tables.specs.Answers.{Answers};
ghost use Rattle.sdb_tables.specs.Rules.{fields_by, judged, seen};

use crate::kind::{FieldKind, fits};
use crate::refusal::Refusal;
use sdb_base::{List, Params, Text};
use std::alloc::Global;
use std::marker::Model;

/// The rule of one field.
#[derive(Clone, Copy, Debug, PartialEq, Eq)]
pub struct ParamRow {
    /// The name of its parameter.
    pub name: &'static str,
    /// What its value has to be, where it is there.
    pub kind: FieldKind,
    /// Whether it has to be there.
    pub needed: bool,
}

/// The rules of the fields of one action, in the order in which they are checked.
pub struct Rules<const N: usize> {
    pub rows: [ParamRow; N],
}

/// The values of a request's fields, one for each row of its rules, lent by the parameters. Contracts see a
/// list of optional texts.
#[derive(Debug, Drop)]
pub struct Fields<'p> {
    values: List<Option<&'p Text>>,
}

impl<'p> Model for Fields<'p> {
    ghost use Rattle.std.specs.Prelude.{List as Items, ℕ, Option, map};
    ghost use Rattle.std.specs.Option.{option_copied};

    ghost Value = { Items (Option (Items ℕ)) };

    ghost view = { λ fields. map option_copied fields.values };
}

impl<'p> Fields<'p> {
    /// The value of the field at `place`, counted from 0, where the request has it.
    pub fn at(&self, place: usize) -> Option<&'p Text>
        requires { place < length self.now }
        ensures { slice_get self.now place ≡ Some (option_copied result) }
    {
        *self.values.at(place)
    }
}

/// Reads the `N` fields that the rows name. The rows are checked in order, and the first that fails
/// decides: `MissingParameter` where a needed one is absent, `InvalidParameterValue` where a value isn't
/// of its kind.
#[tactic(auto, unfolding(crate::specs::Rules::fields_by))]
pub fn read_rules<'p, const N: usize>(
    alloc: Global,
    rows: &[ParamRow],
    params: &'p Params,
) -> Result<Fields<'p>, Refusal>
    requires { length rows.now ≡ N }
    ensures answer { Answers (fields_by params.now (map seen rows.now)) result }
    ensures count { IfOk result (λ fields. length fields ≡ N) }
{
    let mut values = List::new(alloc);
    for row in rows {
        values.push(read_field(row, params.get(row.name))?)?;
    }
    Ok(Fields { values })
}

/// The field that a row makes of its parameter's value, which is `None` where there is no such parameter. It takes
/// no memory.
///
/// # Errors
///
/// `MissingParameter` where the row needs a value and there is none, `InvalidParameterValue` where the value isn't
/// of the row's kind.
pub fn read_field<'p>(row: &ParamRow, value: Option<&'p Text>) -> Result<Option<&'p Text>, Refusal>
    ensures ok { IfOk result (λ field. judged (seen row.now) (option_copied value.entry) ≡ Ok (option_copied field)) }
    ensures err { IfErr result (λ refusal. judged (seen row.now) (option_copied value.entry) ≡ Err refusal) }
{
    match value {
        None if row.needed => Err(Refusal::MissingParameter),
        None => Ok(None),
        Some(text) if fits(row.kind, text.as_str()) => Ok(Some(text)),
        Some(_) => Err(Refusal::InvalidParameterValue),
    }
}
