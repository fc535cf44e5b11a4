//! The numbers of a moment's text, and the day and the seconds that they make.

ghost use Rattle.std.specs.Prelude.{◌≡◌, ◌≤◌, ◌↔◌, pos, length, IsTrue, IfSome, IfNone};
ghost use Rattle.std.specs.Option.{option_map};
ghost use Rattle.jiff_core.specs.Calendar.{IsCivilDate, IsEpochDay, IsWithin, days_from_civil};
ghost use Rattle.sdb_time.specs.Moments.{HasClock, clock_seconds};
ghost use Rattle.sdb_time.specs.Reading as reading;

use crate::digits::{after_byte, field, four_digits, two_digits};
use crate::zone::Zone;
use jiff::civil::Date;

/// The numbers of a moment's text, whose form is right.
#[derive(Drop)]
pub struct Stamp {
    pub year: u16,
    pub month: u8,
    pub day: u8,
    pub hour: u8,
    pub minute: u8,
    pub second: u8,
    pub zone: Zone,
    pub ghost year_fits: { year ≤ 9999 },
    pub ghost month_fits: { month ≤ 99 },
    pub ghost day_fits: { day ≤ 99 },
}

fn digits_len(text: &[u8]) -> usize
    ensures value { result ≡ reading.digits_len text.now }
    ensures within { result ≤ length text.now }
{
    text.iter().take_while(|b| b.is_ascii_digit()).count()
}

// What follows a fraction of a second, or the text where none stands at its front.
#[tactic(auto, unfolding(crate::specs::Reading::after_fraction))]
fn after_fraction(text: &[u8]) -> Option<&[u8]>
    ensures { option_map (λ rest. rest.now) result ≡ reading.after_fraction text.now }
{
    let [b'.', rest @ ..] = text else {
        return Some(text);
    };
    let many = digits_len(rest);
    if many == 0 || many > 9 {
        return None;
    }
    Some(&rest[many..])
}

impl Stamp {
    ghost use Rattle.sdb_time.specs.Stamps.{parts_of};

    /// The numbers of a text that has the form of a moment.
    #[tactic(auto, unfolding(crate::specs::Reading::parts))]
    pub fn from_text(text: &[u8]) -> Option<Stamp>
        ensures { option_map parts_of result ≡ reading.parts text.now }
    {
        let (year, rest) = four_digits(text)?;
        let (month, rest) = field(b'-', after_byte(b'-', rest)?)?;
        let (day, rest) = field(b'T', rest)?;
        let (hour, rest) = field(b':', rest)?;
        let (minute, rest) = field(b':', rest)?;
        let (second, rest) = two_digits(rest)?;
        let zone = Zone::from_text(after_fraction(rest)?)?;
        Some(Stamp {
            year,
            month,
            day,
            hour,
            minute,
            second,
            zone,
        })
    }

    /// Whether hours, minutes and seconds are in range.
    pub fn has_clock(&self) -> bool
        ensures { IsTrue result ↔ HasClock (parts_of self.now) }
    {
        self.hour <= 23
            && self.minute <= 59
            && self.second <= 59
            && self.zone.hours <= 23
            && self.zone.minutes <= 59
    }

    /// The seconds since midnight.
    pub fn clock(&self) -> i64
        ensures value { result ≡ pos (clock_seconds (parts_of self.now)) }
        ensures bound { IsWithin 1_000_000 result }
    {
        i64::from(self.hour) * 3600 + i64::from(self.minute) * 60 + i64::from(self.second)
    }

    /// The number of the day since 1970-01-01, or `None` where the calendar lacks the date.
    pub fn day(&self) -> Option<i64>
        ensures some { IfSome result (λ day. IsCivilDate (pos self.now.year) self.now.month self.now.day
            × (day ≡ days_from_civil (pos self.now.year) self.now.month self.now.day)
            × IsEpochDay day) }
        ensures none { IfNone result (¬ (IsCivilDate (pos self.now.year) self.now.month self.now.day)) }
    {
        match Date::new(self.year as i16, self.month as i8, self.day as i8) {
            Ok(date) => Some(i64::from(date.to_plain().to_unix_epoch_day())),
            Err(_) => None,
        }
    }
}
