//! Reading a moment: its form, and then its Unix seconds.

ghost use Rattle.std.specs.Prelude.{◌≡◌, ◌↔◌, ℕ, pos, ◌+ℤ◌, ◌-ℤ◌, ◌*ℤ◌, ◌<ℤ◌, Ok, Err, IfSome, IfNone};
ghost use Rattle.jiff_core.specs.Calendar.{IsEpochDay, IsWithin};
ghost use Rattle.sdb_time.specs.Parts.{Parts};
ghost use Rattle.sdb_time.specs.Moments.{Spells, IsMoment, IsMomentText, NamesNoMoment};

use crate::fault::TimeFault;
use crate::stamp::Stamp;
use sdb_base::Text;

impl Stamp {
    ghost use Rattle.sdb_time.specs.Stamps.{parts_of};

    // The moment's Unix seconds, or `None` where there is no such moment since 1970.
    fn seconds(&self) -> Option<u64>
        ensures some { IfSome result (IsMoment (parts_of self.now)) }
        ensures none { IfNone result ((seconds : ℕ) → ¬ (IsMoment (parts_of self.now) seconds)) }
    {
        if !self.has_clock() {
            return None;
        }
        since_1970(self.day()?, self.clock(), self.zone.seconds())
    }
}

// `None` stands for a moment before 1970.
fn since_1970(day: i64, clock: i64, zone: i64) -> Option<u64>
    requires day { IsEpochDay day }
    requires clock { IsWithin 1_000_000 clock }
    requires zone { IsWithin 1_000_000 zone }
    ensures some { IfSome result (λ seconds. pos seconds ≡ (pos 86400 *ℤ day) +ℤ clock -ℤ zone) }
    ensures none { IfNone result (((pos 86400 *ℤ day) +ℤ clock -ℤ zone) <ℤ pos 0) }
{
    let moment = day * 86_400 + clock - zone;
    if moment < 0 {
        return None;
    }
    Some(moment as u64)
}

/// The Unix seconds of the moment that a text names.
///
/// The form is `YYYY-MM-DDThh:mm:ss`, then `.` and 1 to 9 digits or nothing, then `Z`, `+hh:mm`,
/// `-hh:mm` or nothing, which means `Z` (ISO 8601). The fraction is dropped. The calendar is the
/// Gregorian one, months and days count from 1, hours go from 0 to 23, minutes and seconds from 0
/// to 59, and no minute has a second 60. It takes no memory.
///
/// # Errors
///
/// `BadForm` where the text hasn't this form of digits and signs, and else `NoSuchMoment` where a
/// part is out of range, the calendar lacks the date, or the moment lies before
/// 1970-01-01T00:00:00Z.
pub fn read_moment(text: &Text) -> Result<u64, TimeFault>
    ensures moment { (seconds : ℕ) → (result ≡ Ok seconds) ↔ IsMomentText text.now seconds }
    ensures bad_form { (result ≡ Err TimeFault.BadForm) ↔ ((parts : Parts) → ¬ (Spells text.now parts)) }
    ensures no_such_moment { (result ≡ Err TimeFault.NoSuchMoment) ↔ NamesNoMoment text.now }
{
    let Some(stamp) = Stamp::from_text(text.as_str().as_bytes()) else {
        return Err(TimeFault::BadForm);
    };
    stamp.seconds().ok_or(TimeFault::NoSuchMoment)
}
