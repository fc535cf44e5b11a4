// The request of a line.
ghost use Rattle.std.specs.Prelude.{◌≡◌, IfOk};
ghost use Rattle.sdb_action.specs.Lawful.{IsLawfulRequest};
ghost use Rattle.sdb_cli.specs.Line.{asked, line_params};
ghost use Rattle.sdb_tables.specs.Answers.{Answers};

use crate::held::MOST_LINE;
use sdb_action::{Request, read_action, read_request};
use sdb_base::Params;
use sdb_form::FormFault;
use sdb_tables::Refusal;
use std::alloc::Global;

/// The request of a line, or its first refusal: its length, its form, its action, and then the action's
/// fields and lists.
pub(crate) fn read_line(alloc: Global, line: &[u8]) -> Result<Request, Refusal>
    ensures answer { Answers (asked line.now) result }
    ensures lawful { IfOk result IsLawfulRequest }
{
    if line.len() > MOST_LINE {
        return Err(Refusal::RequestTooLong);
    }
    let params = read_params(alloc, line)?;
    let action = read_action(&params)?;
    read_request(alloc, action, &params)
}

fn read_params(alloc: Global, form: &[u8]) -> Result<Params, Refusal>
    ensures { Answers (line_params form.now) result }
{
    match sdb_form::read(alloc, form) {
        Ok(params) => Ok(params),
        Err(FormFault::NotUtf8(_)) => Err(Refusal::InvalidParameterValue),
        Err(FormFault::Repeated(_)) => Err(Refusal::InvalidParameterCombination),
        Err(FormFault::OutOfMemory) => Err(Refusal::OutOfMemory),
    }
}
