//! A response and its changes.

use sdb_base::Bytes;
use sdb_pairs::Changes;

/// What an arrival is answered. Nothing is changed yet.
#[derive(Debug, Drop)]
pub struct Response {
    /// The whole HTTP response. It says that the connection is closed where the arrival closes it.
    pub bytes: Bytes,
    /// The changes of a write that is done; none for a read and for a refusal.
    pub changes: Changes,
}
