//! The first steps of reading a request: its form, its action and its version.

ghost use Rattle.std.specs.Prelude.{◌≡◌};
ghost use Rattle.sdb_arrivals.specs.Reading.{form_refusal, opening, version_in, version_name, version_word};
ghost use Rattle.sdb_arrivals.specs.Reading as reading;
ghost use Rattle.sdb_tables.specs.Answers.{Answers};

use sdb_action::{Action, read_action};
use sdb_base::Params;
use sdb_form::FormFault;
use sdb_tables::Refusal;
use std::alloc::Global;

// The parameters and the action of a form, where its version is the one that there is.
pub(crate) fn opening(alloc: Global, form: &[u8]) -> Result<(Params, Action), Refusal>
    ensures { Answers (opening form.now) result }
{
    let params = params_of(alloc, form)?;
    let action = read_action(&params)?;
    check_version(&params)?;
    Ok((params, action))
}

fn params_of(alloc: Global, form: &[u8]) -> Result<Params, Refusal>
    ensures { Answers (reading.form_params form.now) result }
{
    match sdb_form::read(alloc, form) {
        Ok(params) => Ok(params),
        Err(fault) => Err(form_refusal(fault)),
    }
}

fn form_refusal(fault: FormFault) -> Refusal
    ensures { result ≡ form_refusal fault }
{
    match fault {
        FormFault::NotUtf8(_) => Refusal::InvalidParameterValue,
        FormFault::Repeated(_) => Refusal::InvalidParameterCombination,
        FormFault::OutOfMemory => Refusal::OutOfMemory,
    }
}

fn check_version(params: &Params) -> Result<(), Refusal>
    ensures { result ≡ version_in params.now }
{
    let Some(version) = params.get(version_name()) else {
        return Err(Refusal::MissingParameter);
    };
    if version.as_str() == version_word() {
        Ok(())
    } else {
        Err(Refusal::NoSuchVersion)
    }
}

#[tactic(auto, unfolding(crate::specs::Reading::version_name))]
fn version_name() -> &'static str
    ensures { result.now ≡ version_name }
{
    "Version"
}

#[tactic(auto, unfolding(crate::specs::Reading::version_word))]
fn version_word() -> &'static str
    ensures { result.now ≡ version_word }
{
    "2009-04-15"
}
