//! Why bytes are no requests.

use thiserror::Error;

/// Why the bytes of a connection are no request. The answer closes the connection.
#[derive(Clone, Copy, Debug, PartialEq, Eq, Error)]
pub enum HttpFault {
    /// The head breaks the grammar of HTTP or a rule of this service.
    #[error("the head of the request is invalid")]
    Invalid,
    /// The head doesn't end within 16,384 bytes.
    #[error("the head of the request is too long")]
    HeadTooLong,
    /// The body has more than 1,048,576 bytes.
    #[error("the body of the request is too long")]
    BodyTooLong,
}
