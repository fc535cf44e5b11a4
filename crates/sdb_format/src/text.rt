// Texts behind their length.
ghost use Rattle.std.specs.Prelude.{◌≡◌, ◌<◌, ◌≤◌, ◌^◌, IfOk, IfErr, Ok, Err};
ghost use Rattle.sdb_format.specs.Letters.{text_in};

use crate::FormatFault;
use crate::letters::read_letters;
use crate::numbers::read_u16;

/// A text in UTF-8 behind its length of two bytes, which is from `least` to `most`, and the bytes after it.
pub fn read_text(bytes: &[u8], least: u16, most: u16) -> Result<(&str, &[u8]), FormatFault>
    ensures ok { IfOk result (λ x. text_in least most bytes.now ≡ Ok (x.0.now, x.1.now)) }
    ensures err { IfErr result (λ fault. text_in least most bytes.now ≡ Err fault) }
{
    let (count, rest) = read_u16(bytes, least, most)?;
    read_letters(rest, usize::from(count))
}
