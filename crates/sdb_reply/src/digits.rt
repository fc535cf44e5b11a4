// Digits of numbers, padded to a width.
ghost use Rattle.std.specs.Prelude.{◌≡◌, ◌<◌, ◌≤◌, length};
ghost use Rattle.sdb_reply.specs.Digits.{digit as glyph, padded};

// Fills `digits` with the last digits of `n` in a base from 2 to 16, the highest first.
pub(crate) fn write_padded(digits: &mut [u8], base: u64, mut n: u64)
    requires low { 2 ≤ base }
    requires high { base ≤ 16 }
    ensures { digits.new ≡ padded base (length digits.old) n }
{
    let mut place = digits.len();
    while place > 0 {
        place -= 1;
        digits[place] = digit(n % base);
        n /= base;
    }
}

fn digit(n: u64) -> u8
    requires { n < 16 }
    ensures { result ≡ glyph n }
{
    if n < 10 {
        b'0' + n as u8
    } else {
        b'a' + (n - 10) as u8
    }
}
