//! Numbers of a fixed count of digits at the front of a text.

ghost use Rattle.std.specs.Prelude.{◌≡◌, ◌≤◌, IfSome};
ghost use Rattle.std.specs.Option.{option_map};
ghost use Rattle.sdb_time.specs.Reading as reading;

/// A number of two digits at the front, and what follows it.
#[tactic(auto, unfolding(crate::specs::Reading::two_digits))]
pub fn two_digits(text: &[u8]) -> Option<(u8, &[u8])>
    ensures value { option_map (λ found. (found.0, found.1.now)) result ≡ reading.two_digits text.now }
    ensures small { IfSome result (λ found. found.0 ≤ 99) }
{
    let [tens @ b'0'..=b'9', ones @ b'0'..=b'9', rest @ ..] = text else {
        return None;
    };
    Some(((tens - b'0') * 10 + (ones - b'0'), rest))
}

/// What follows a byte that stands at the front.
#[tactic(auto, unfolding(crate::specs::Reading::after_byte))]
pub fn after_byte(wanted: u8, text: &[u8]) -> Option<&[u8]>
    ensures { option_map (λ rest. rest.now) result ≡ reading.after_byte wanted text.now }
{
    match text {
        [first, rest @ ..] if *first == wanted => Some(rest),
        _ => None,
    }
}

/// A number of two digits, and what follows it and the byte after it.
#[tactic(auto, unfolding(crate::specs::Reading::field))]
pub fn field(end: u8, text: &[u8]) -> Option<(u8, &[u8])>
    ensures value { option_map (λ found. (found.0, found.1.now)) result ≡ reading.field end text.now }
    ensures small { IfSome result (λ found. found.0 ≤ 99) }
{
    let (number, rest) = two_digits(text)?;
    Some((number, after_byte(end, rest)?))
}

/// A number of four digits at the front, and what follows it.
#[tactic(auto, unfolding(crate::specs::Reading::four_digits))]
pub fn four_digits(text: &[u8]) -> Option<(u16, &[u8])>
    ensures value { option_map (λ found. (found.0, found.1.now)) result ≡ reading.four_digits text.now }
    ensures small { IfSome result (λ found. found.0 ≤ 9999) }
{
    let (high, rest) = two_digits(text)?;
    let (low, rest) = two_digits(rest)?;
    Some((u16::from(high) * 100 + u16::from(low), rest))
}
