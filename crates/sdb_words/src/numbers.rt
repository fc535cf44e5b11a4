// The numbers among the words.
ghost use Rattle.std.specs.Prelude.{◌≡◌, ◌≤◌, ℕ, Some};
ghost use Rattle.sdb_words.specs.Lists.{above_zero, number_within};

use sdb_base::read_decimal;

const MOST_SIZE: u64 = 100;

const MOST_PORT: u64 = 65_535;

const MOST_TURNS: u64 = 4_294_967_295;

// A workload's size.
pub(crate) fn size_in(word: &str) -> Option<u64>
    ensures { result ≡ number_within 100 word.now }
{
    number(word, MOST_SIZE)
}

// A port.
pub(crate) fn port_in(word: &str) -> Option<u16>
    ensures { result ≡ number_within 65535 word.now }
{
    Some(number(word, MOST_PORT)? as u16)
}

// A number of events.
pub(crate) fn turns_in(word: &str) -> Option<u32>
    ensures { result ≡ number_within 4294967295 word.now }
{
    Some(number(word, MOST_TURNS)? as u32)
}

// A decimal number from 1 to `most`.
fn number(word: &str, most: u64) -> Option<u64>
    ensures value { result ≡ number_within most word.now }
    ensures within { (n : ℕ) → result ≡ Some n → n ≤ most }
{
    not_zero(read_decimal(word.as_bytes(), most)?)
}

fn not_zero(number: u64) -> Option<u64>
    ensures { result ≡ above_zero number }
{
    if number == 0 { None } else { Some(number) }
}
