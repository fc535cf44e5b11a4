//! That every stream of bytes has a reading.

ghost use Rattle.std.specs.Prelude.{◌≡◌, List, length};
ghost use Rattle.sdb_http.specs.Feeds.{AreAll};
ghost use Rattle.sdb_http.specs.Messages.{Reply};

use crate::look::{Found, Known, look, rest_after, trim};

/// How many requests and faults the whole stream has. Every stream has a reading: it takes no memory and
/// gives no other answer.
pub fn count_replies(stream: &[u8]) -> usize
    ensures { (replies : List Reply) × AreAll stream.now replies × (result ≡ length replies) }
{
    let mut left = trim(stream);
    let mut count = 0;
    'replies: loop {
        match look(left, Known::Scanned(0)) {
            Found::More(_) => return count,
            Found::Fault(_) => return count + 1,
            Found::Whole(last, layout) => {
                count += 1;
                if layout.close {
                    return count;
                }
                left = rest_after(left, last, &layout);
            }
        }
    }
}
