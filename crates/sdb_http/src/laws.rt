//! The laws of messages in a stream of bytes.

ghost use Rattle.std.specs.Prelude.{◌≡◌, ℕ, ◌+◌, ◌≤◌, List, [], ◌++◌, Bool, Ok, length};
ghost use Rattle.sdb_http.specs.Feeds.{AreAll, HasNone, Reads};
ghost use Rattle.sdb_http.specs.Messages.{IsFront, Reply, Seen, trim};

/// A stream of bytes has one list of messages: two readings of it are one.
pub fn one_reading()
    ensures { (bytes : List ℕ) (xs ys : List Reply) → AreAll bytes xs → AreAll bytes ys → xs ≡ ys }
{}

/// No message's bytes are a proper prefix of another's.
pub fn no_proper_prefix()
    ensures { (bytes more : List ℕ) (m k : Seen)
        → IsFront bytes (Ok m) [] → IsFront (bytes ++ more) (Ok k) [] → more ≡ [] }
{}

/// The CR and LF at the front of a stream aren't seen: it has the messages that it has without them.
pub fn skipped_bytes_are_not_seen()
    ensures skipped { (bytes : List ℕ) (xs : List Reply) → AreAll bytes xs → AreAll (trim bytes) xs }
    ensures kept { (bytes : List ℕ) (xs : List Reply) → AreAll (trim bytes) xs → AreAll bytes xs }
{}

/// Each request and each fault takes a byte at least: with the bytes that are held beside them they are at
/// most as many as the bytes of the stream.
pub fn replies_take_bytes()
    ensures held { (bytes : List ℕ) (replies : List Reply) (held : List ℕ) (ended : Bool)
        → Reads bytes replies held ended → length replies + length held ≤ length bytes }
    ensures all { (bytes : List ℕ) (replies : List Reply) → AreAll bytes replies → length replies ≤ length bytes }
{}

/// Nothing stands at the front of no bytes, and so none of CR and LF alone.
pub fn no_bytes_no_reply()
    ensures { (bytes : List ℕ) → trim bytes ≡ [] → HasNone bytes }
{}
