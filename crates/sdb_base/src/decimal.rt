// Decimal numbers.
ghost use Rattle.std.specs.Prelude.{◌≡◌, nat_le, Some, None, if◌then◌else◌};
ghost use Rattle.std.specs.Char.{is_ascii_digit};
ghost use Rattle.std.specs.List.{list_all};
ghost use Rattle.sdb_base.specs.Decimal.{decimal_of, is_decimal as spells_decimal, value_after};

/// The number that `s` spells in decimal, where it spells one that is at most `most`: `0`, or digits
/// that don't begin with `0`.
pub fn read_decimal(s: &[u8], most: u64) -> Option<u64>
    ensures { result ≡ decimal_of s.now most }
{
    if is_decimal(s) {
        read_digits(s, most)
    } else {
        None
    }
}

fn is_decimal(s: &[u8]) -> bool
    ensures { result ≡ spells_decimal s.now }
{
    if s.is_empty() || s.len() != 1 && s[0] == b'0' {
        return false;
    }
    are_digits(s)
}

fn are_digits(s: &[u8]) -> bool
    ensures { result ≡ list_all is_ascii_digit s.now }
{
    s.iter().all(|c| c.is_ascii_digit())
}

// The value of the digits, where it is at most `most`.
fn read_digits(digits: &[u8], most: u64) -> Option<u64>
    ensures { result ≡ (if nat_le (value_after 0 digits.now) most then Some (value_after 0 digits.now) else None) }
{
    let mut value: u64 = 0;
    for c in digits {
        let digit = u64::from(c.saturating_sub(b'0'));
        value = value.checked_mul(10)?.checked_add(digit)?;
    }
    if value <= most { Some(value) } else { None }
}
