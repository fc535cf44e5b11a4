//! Why texts are no moments.

use thiserror::Error;

/// Why a text is no moment.
#[derive(Clone, Copy, Debug, PartialEq, Eq, Error)]
pub enum TimeFault {
    /// The text hasn't the form of a moment.
    #[error("not of the form YYYY-MM-DDThh:mm:ss, with a fraction of 1 to 9 digits or none, and Z, +hh:mm, -hh:mm or nothing")]
    BadForm,
    /// A part is out of range, the calendar lacks the date, or the moment lies before 1970.
    #[error("no such moment since 1970-01-01T00:00:00Z")]
    NoSuchMoment,
}
