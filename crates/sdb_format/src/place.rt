// Where in a character of UTF-8 the next byte stands.
ghost use Rattle.std.specs.Prelude.{◌≡◌, option_copied};
ghost use Rattle.std.specs.Str.Lossy.{second_byte_min, second_byte_max};
ghost use Rattle.sdb_format.specs.Letters.{after_first, after_byte};

// `left` bytes of the character are to come, none between characters, and the next is from `least` to `most`.
#[derive(Clone, Copy)]
pub(crate) struct Place {
    pub(crate) least: u8,
    pub(crate) most: u8,
    pub(crate) left: u8,
}

fn least_second(first: u8) -> u8
    ensures { result ≡ second_byte_min first }
{
    match first {
        0xE0 => 0xA0,
        0xF0 => 0x90,
        _ => 0x80,
    }
}

fn most_second(first: u8) -> u8
    ensures { result ≡ second_byte_max first }
{
    match first {
        0xED => 0x9F,
        0xF4 => 0x8F,
        _ => 0xBF,
    }
}

// The place after a character's first byte, where it can be one.
fn after_first(first: u8) -> Option<Place>
    ensures { result ≡ after_first first }
{
    let left = match first {
        0..=0x7F => {
            return Some(Place {
                least: 0x80,
                most: 0xBF,
                left: 0,
            });
        }
        0x80..=0xC1 => return None,
        0xC2..=0xDF => 1,
        0xE0..=0xEF => 2,
        0xF0..=0xF4 => 3,
        0xF5..=0xFF => return None,
    };
    Some(Place {
        least: least_second(first),
        most: most_second(first),
        left,
    })
}

// The place after the byte, where it may stand here.
pub(crate) fn after_byte(place: Place, byte: u8) -> Option<Place>
    ensures { result ≡ after_byte place byte }
{
    if place.left == 0 {
        after_first(byte)
    } else if place.least <= byte && byte <= place.most {
        Some(Place {
            least: 0x80,
            most: 0xBF,
            left: place.left - 1,
        })
    } else {
        None
    }
}
