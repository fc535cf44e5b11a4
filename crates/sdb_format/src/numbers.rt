// Numbers of one, two and four bytes.
ghost use Rattle.std.specs.Prelude.{◌≡◌, ◌<◌, ◌≤◌, ◌^◌, IfOk, IfErr, Ok, Err};
ghost use Rattle.sdb_format.specs.Numbers.{byte_in, u16_in, u32_at};

use crate::FormatFault;

/// A byte from `least` to `most`, and the bytes after it.
pub fn read_byte(bytes: &[u8], least: u8, most: u8) -> Result<(u8, &[u8]), FormatFault>
    ensures ok { IfOk result (λ x. byte_in least most bytes.now ≡ Ok (x.0, x.1.now)) }
    ensures err { IfErr result (λ fault. byte_in least most bytes.now ≡ Err fault) }
{
    match bytes {
        [] => Err(FormatFault::Short),
        [byte, rest @ ..] => {
            if least <= *byte && *byte <= most {
                Ok((*byte, rest))
            } else {
                Err(FormatFault::Bad)
            }
        }
    }
}

/// A number from `least` to `most` in two bytes, and the bytes after it. Its first byte alone is Bad where no
/// second could make it such a number.
pub fn read_u16(bytes: &[u8], least: u16, most: u16) -> Result<(u16, &[u8]), FormatFault>
    ensures ok { IfOk result (λ x. u16_in least most bytes.now ≡ Ok (x.0, x.1.now)) }
    ensures err { IfErr result (λ fault. u16_in least most bytes.now ≡ Err fault) }
{
    match bytes {
        [] => Err(FormatFault::Short),
        [first] => {
            let first = u16::from(*first);
            if least / 256 <= first && first <= most / 256 {
                Err(FormatFault::Short)
            } else {
                Err(FormatFault::Bad)
            }
        }
        [first, second, rest @ ..] => {
            let number = u16::from(*first) * 256 + u16::from(*second);
            if least <= number && number <= most {
                Ok((number, rest))
            } else {
                Err(FormatFault::Bad)
            }
        }
    }
}

/// A number in four bytes, and the bytes after it.
pub fn read_u32(bytes: &[u8]) -> Result<(u32, &[u8]), FormatFault>
    ensures ok { IfOk result (λ x. u32_at bytes.now ≡ Ok (x.0, x.1.now)) }
    ensures err { IfErr result (λ fault. u32_at bytes.now ≡ Err fault) }
{
    let (high, after) = read_u16(bytes, 0, u16::MAX)?;
    let (low, rest) = read_u16(after, 0, u16::MAX)?;
    Ok((u32::from(high) * 65536 + u32::from(low), rest))
}
