//! Requests as they came over a connection.

use sdb_base::{Bytes, Verb};

/// A request as it came over a connection.
#[derive(Debug, Drop)]
pub struct Message {
    pub verb: Verb,
    /// The value of the Host header, as sent.
    pub host: Bytes,
    /// The form: the query of a GET, the body of a POST.
    pub form: Bytes,
    /// Whether the connection is closed after the answer.
    pub close: bool,
}
