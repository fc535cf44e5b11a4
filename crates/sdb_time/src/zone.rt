//! Zones, and how far they are from UTC.

ghost use Rattle.std.specs.Prelude.{◌≡◌};
ghost use Rattle.std.specs.Option.{option_map};
ghost use Rattle.jiff_core.specs.Calendar.{IsWithin};
ghost use Rattle.sdb_time.specs.Moments.{zone_seconds};
ghost use Rattle.sdb_time.specs.Reading as reading;

use crate::digits::{field, two_digits};

/// A zone's distance from UTC.
#[derive(Clone, Copy)]
pub struct Zone {
    pub is_behind: bool,
    pub hours: u8,
    pub minutes: u8,
}

impl Zone {
    ghost use Rattle.sdb_time.specs.Stamps.{zone_of};

    const UTC: Zone = Zone {
        is_behind: false,
        hours: 0,
        minutes: 0,
    };

    #[tactic(auto, unfolding(crate::specs::Reading::offset))]
    fn from_offset(is_behind: bool, text: &[u8]) -> Option<Zone>
        ensures { option_map zone_of result ≡ reading.offset is_behind text.now }
    {
        let (hours, rest) = field(b':', text)?;
        let (minutes, rest) = two_digits(rest)?;
        if !rest.is_empty() {
            return None;
        }
        Some(Zone {
            is_behind,
            hours,
            minutes,
        })
    }

    /// The zone that a whole text spells; no text means UTC.
    #[tactic(auto, unfolding(crate::specs::Reading::zone))]
    pub fn from_text(text: &[u8]) -> Option<Zone>
        ensures { option_map zone_of result ≡ reading.zone text.now }
    {
        match text {
            [] | [b'Z'] => Some(Zone::UTC),
            [b'+', rest @ ..] => Zone::from_offset(false, rest),
            [b'-', rest @ ..] => Zone::from_offset(true, rest),
            _ => None,
        }
    }

    /// The seconds by which the zone's clocks are ahead of UTC.
    pub fn seconds(&self) -> i64
        ensures value { result ≡ zone_seconds (zone_of self.now) }
        ensures bound { IsWithin 1_000_000 result }
    {
        let distance = i64::from(self.hours) * 3600 + i64::from(self.minutes) * 60;
        if self.is_behind { -distance } else { distance }
    }
}
