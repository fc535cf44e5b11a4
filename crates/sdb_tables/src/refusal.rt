//! Why requests are refused.

ghost use Rattle.std.specs.Prelude.{◌≡◌, Some};
ghost use Rattle.sdb_tables.specs.Faults.{fault_of};

use crate::faults::fault_row;
use sdb_base::OutOfMemory;
use std::error::Error;
use std::fmt;

/// Why a request is refused. What a variant carries is for logs and tests: its answer is its row of the
/// fault table. It is shown by the message of that row.
#[derive(Clone, Copy, Debug, PartialEq, Eq)]
pub enum Refusal {
    InvalidHttpRequest,
    URITooLong,
    RequestTooLong,
    InvalidParameterValue,
    InvalidParameterCombination,
    MissingParameter,
    InvalidAction,
    NoSuchVersion,
    AuthMissingFailure,
    AuthFailure,
    /// The moment at which the request came, and the moment that it names, in seconds.
    RequestExpired(u64, u64),
    SignatureDoesNotMatch,
    AccessFailure,
    NoSuchDomain,
    /// How many domains there would be.
    NumberDomainsExceeded(u64),
    NumberDomainAttributesExceeded(u64),
    NumberDomainBytesExceeded(u64),
    NumberItemAttributesExceeded(u64),
    NumberSubmittedAttributesExceeded(u64),
    NumberSubmittedItemsExceeded(u64),
    DuplicateItemName,
    ConditionalCheckFailed,
    AttributeDoesNotExist,
    MultiValuedAttribute,
    IncompleteExpectedExpression,
    ExistsAndExpectedValue,
    MultipleExpectedNames,
    InvalidQueryExpression,
    InvalidNumberPredicates,
    InvalidNumberValueTests,
    InvalidSortExpression,
    TooManyRequestedAttributes,
    InvalidNextToken,
    ServiceUnavailable,
    OutOfMemory,
}

impl fmt::Display for Refusal {
    ghost output = { λ refusal. Some (fault_of refusal).message };

    fn fmt<W: fmt::Write>(&self, f: &mut fmt::Formatter<W>) -> fmt::Result {
        f.write_str(fault_row(self).message)
    }
}

impl Error for Refusal {}

impl From<OutOfMemory> for Refusal {
    ghost use Rattle.sdb_tables.specs.declared.refusal.Refusal.TheVariants.{OutOfMemory};

    ghost from_gives = { λ _ refusal. refusal ≡ OutOfMemory };

    fn from(_error: OutOfMemory) -> Refusal {
        Refusal::OutOfMemory
    }
}
