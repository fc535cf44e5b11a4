// An expression to its tree, or its first refusal.
ghost use Rattle.std.specs.Prelude.{◌≡◌, ◌≢◌, Err, IfOk};
ghost use Rattle.sdb_parse.specs.declared.select.Select.{Select as tree};
ghost use Rattle.sdb_parse.specs.Lawful.{IsLawful};
ghost use Rattle.sdb_parse.specs.Parsed.{IsRead, Parsed};

use crate::fault::Fault;
use crate::judging::judge;
use crate::line::read_select;
use crate::select::Select;
use crate::terms::terms;
use sdb_base::Text;
use sdb_lex::{LexFault, lex};
use sdb_tables::Refusal;
use std::alloc::Global;

const MOST_BYTES: usize = 65_536;

/// The tree of a Select expression (SimpleDB Developer Guide, "Using Select to Create Amazon SimpleDB
/// Queries").
///
/// # Errors
///
/// The first that applies: `InvalidQueryExpression` for more than 65,536 bytes and for a text that the
/// grammar doesn't have, `TooManyRequestedAttributes` for more than 256 names in the output,
/// `InvalidNumberPredicates` for more than 20 predicates, `InvalidNumberValueTests` for more than 20
/// constants in one `in`, `InvalidSortExpression` for an order by an attribute that no predicate but
/// `is null` names.
pub fn parse(alloc: Global, text: &Text) -> Result<Select, Refusal>
    ensures answer { result ≢ Err Refusal.OutOfMemory → Parsed text.now result }
    ensures lawful { IfOk result IsLawful }
{
    if text.as_str().len() > MOST_BYTES {
        return Err(Refusal::InvalidQueryExpression);
    }
    let select = match read(alloc, text) {
        Ok(select) => select,
        Err(Fault::Syntax) => return Err(Refusal::InvalidQueryExpression),
        Err(Fault::OutOfMemory) => return Err(Refusal::OutOfMemory),
    };
    match judge(&select) {
        Some(refusal) => Err(refusal),
        None => Ok(select),
    }
}

// The tree that the text spells, whatever its length.
fn read(alloc: Global, text: &Text) -> Result<Select, Fault>
    ensures ok { IfOk result (IsRead text.now) }
    ensures none { result ≡ Err Fault.Syntax → (s : tree) → ¬ (IsRead text.now s) }
{
    let tokens = match lex(alloc, text) {
        Ok(tokens) => tokens,
        Err(LexFault::OutOfMemory) => return Err(Fault::OutOfMemory),
        Err(LexFault::BadByte(_)) => return Err(Fault::Syntax),
        Err(LexFault::Unclosed(_)) => return Err(Fault::Syntax),
    };
    let mut cursor = terms(alloc, text.as_str(), &tokens)?;
    read_select(alloc, &mut cursor)
}
