// Numbers in bytes, the most significant byte first.
ghost use Rattle.std.specs.Prelude.{◌≡◌, ◌≤◌, ◌+◌, ◌++◌, length};
ghost use Rattle.sdb_format.specs.Numbers.{be32};
ghost use Rattle.sdb_record.specs.Journals.{be64};
ghost use Rattle.sdb_journal.specs.Numbers.{word_in, number_in};

// The number in four bytes at a place.
pub(crate) fn word_at(bytes: &[u8], at: usize) -> u32
    requires { at + 4 ≤ length bytes.now }
    ensures { result ≡ word_in bytes.now at }
{
    u32::from(bytes[at]) * 16777216
        + u32::from(bytes[at + 1]) * 65536
        + u32::from(bytes[at + 2]) * 256
        + u32::from(bytes[at + 3])
}

// The number in eight bytes at a place.
pub(crate) fn number_at(bytes: &[u8], at: usize) -> u64
    requires { at + 8 ≤ length bytes.now }
    ensures { result ≡ number_in bytes.now at }
{
    u64::from(word_at(bytes, at)) * 4294967296 + u64::from(word_at(bytes, at + 4))
}

// The head of a record: its body's size, and its number.
pub(crate) fn record_head(size: u32, number: u64) -> [u8; 12]
    ensures { result ≡ be32 size ++ be64 number }
{
    let high = number / 4294967296;
    let low = number % 4294967296;
    [
        (size / 65536 / 256) as u8,
        (size / 65536 % 256) as u8,
        (size % 65536 / 256) as u8,
        (size % 65536 % 256) as u8,
        (high / 65536 / 256) as u8,
        (high / 65536 % 256) as u8,
        (high % 65536 / 256) as u8,
        (high % 65536 % 256) as u8,
        (low / 65536 / 256) as u8,
        (low / 65536 % 256) as u8,
        (low % 65536 / 256) as u8,
        (low % 65536 % 256) as u8,
    ]
}
