// Characters of UTF-8 where not all bytes are there.
ghost use Rattle.std.specs.Prelude.{◌≡◌, ◌<◌, ◌≤◌, ◌+◌, ◌^◌, length, IfOk, IfErr, Ok, Err, IsTrue, Bool};
ghost use Rattle.sdb_format.specs.Letters.{letters_at};

use crate::FormatFault;
use crate::place::{Place, after_byte};

/// A text of `count` bytes in UTF-8, and the bytes after it. Where fewer bytes are there, they are Short where
/// others could follow so that all are such a text.
pub fn read_letters(bytes: &[u8], count: usize) -> Result<(&str, &[u8]), FormatFault>
    ensures ok { IfOk result (λ x. letters_at count bytes.now ≡ Ok (x.0.now, x.1.now)) }
    ensures err { IfErr result (λ fault. letters_at count bytes.now ≡ Err fault) }
{
    if bytes.len() < count {
        return Err(fault_of(bytes, count));
    }
    let (front, rest) = bytes.split_at(count);
    match str::from_utf8(front) {
        Ok(text) => Ok((text, rest)),
        Err(_) => Err(FormatFault::Bad),
    }
}

// Why fewer than `count` bytes aren't a text of so many.
fn fault_of(bytes: &[u8], count: usize) -> FormatFault
    requires { length bytes.now < count }
    ensures { letters_at count bytes.now ≡ Err result }
{
    let mut place = Place {
        least: 0x80,
        most: 0xBF,
        left: 0,
    };
    let mut left = count;
    for byte in bytes {
        left -= 1;
        match after_byte(place, *byte) {
            None => return FormatFault::Bad,
            Some(next) => {
                if left < next.left as usize {
                    return FormatFault::Bad;
                }
                place = next;
            }
        }
    }
    FormatFault::Short
}
