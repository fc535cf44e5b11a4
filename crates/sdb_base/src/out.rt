// An answer on its way to a connection.
use crate::Bytes;

/// An answer that is ready to be sent.
#[derive(Debug, Drop)]
pub struct Out {
    /// The connection that it goes to.
    pub conn: u32,
    /// The whole response.
    pub bytes: Bytes,
    /// Whether the server closes the connection after it.
    pub close: bool,
}
