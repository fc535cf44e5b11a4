//! Whether the moment of a request is fresh.

ghost use Rattle.std.specs.Prelude.{◌≡◌, ℕ, Option, IfNone, IfSome};
ghost use Rattle.sdb_time.specs.Moments.{IsMomentText};
ghost use Rattle.sdb_sign.specs.Fresh.{ReadsAs, in_time, is_fresh};

use crate::claim::MomentKind;
use sdb_base::Text;
use sdb_tables::Refusal;
use sdb_time::read_moment;

// The seconds that a Timestamp may lie before or after the moment at which the request came: just so many are
// accepted, on both sides.
const MOST_SKEW: u64 = 900;

// Refuses a moment that can't be read or isn't fresh at `now`.
pub(crate) fn check_moment(kind: MomentKind, text: &Text, now: u64) -> Result<(), Refusal>
    ensures { (read : Option ℕ) × ReadsAs text.now read × (result ≡ in_time kind now read) }
{
    let Some(moment) = moment_of(text) else {
        return Err(Refusal::InvalidParameterValue);
    };
    if !is_fresh(kind, now, moment) {
        return Err(Refusal::RequestExpired(now, moment));
    }
    Ok(())
}

fn moment_of(text: &Text) -> Option<u64>
    ensures { ReadsAs text.now result }
{
    match read_moment(text) {
        Ok(moment) => Some(moment),
        Err(_) => None,
    }
}

fn is_fresh(kind: MomentKind, now: u64, moment: u64) -> bool
    ensures { result ≡ is_fresh kind now moment }
{
    match kind {
        MomentKind::Timestamp => now.abs_diff(moment) <= MOST_SKEW,
        MomentKind::Expires => now <= moment,
    }
}
