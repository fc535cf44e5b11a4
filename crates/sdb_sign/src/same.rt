//! Comparing two signatures by all their bytes.

ghost use Rattle.std.specs.Prelude.{◌≡◌, slice_index};
ghost use Rattle.std.specs.Str.{bytes_eq};

// Whether two texts are the same bytes. It looks at every byte of both, whatever they hold, so that the
// place of a difference doesn't show in its time; no contract claims that time.
pub(crate) fn is_same(a: &[u8], b: &[u8]) -> bool
    ensures { result ≡ bytes_eq a.now b.now }
{
    let mut differences = u8::from(a.len() != b.len());
    for place in 0..a.len().max(b.len()) {
        differences |= byte_at(a, place) ^ byte_at(b, place);
    }
    differences == 0
}

// The byte at `place`, or 0 past the end.
fn byte_at(text: &[u8], place: usize) -> u8
    ensures { result ≡ slice_index text.now place }
{
    text.get(place).copied().unwrap_or(0)
}
