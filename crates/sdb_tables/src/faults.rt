//! The fault table, and the row of each refusal.

ghost use Rattle.std.specs.Prelude.{◌≡◌, ◌<◌, length, map, slice_index_or};
ghost use Rattle.std.specs.List.{IsDistinct};
ghost use Rattle.std.specs.Str.{bytes_eq};
ghost use Rattle.sdb_tables.specs.declared.refusal.Refusal.{Refusal};
ghost use Rattle.sdb_tables.specs.Faults.{IsAnswerStatus, fault_of, fault_codes, faults, name_of, no_fault, place_of, seen};

use crate::refusal::Refusal;

/// A row of the fault table.
#[derive(Clone, Copy, Debug, PartialEq, Eq)]
pub struct FaultRow {
    /// The code that the body of a refusal names.
    pub code: &'static str,
    /// The HTTP status of the response.
    pub status: u16,
    /// What the body says to people.
    pub message: &'static str,
}

/// The fault table. Its rows don't stand in the order in which refusals are looked for. Where several hold of a
/// request, the first of these steps decides, each in the order of its own section of docs/PROFILE.md:
///
/// 1. the message: `URITooLong`, `InvalidHttpRequest`, `RequestTooLong`
/// 2. its form: `InvalidParameterValue`, then `InvalidParameterCombination`
/// 3. the action: `MissingParameter`, `InvalidAction`
/// 4. the version: `MissingParameter`, `NoSuchVersion`
/// 5. the signature: `AuthMissingFailure` to `SignatureDoesNotMatch`
/// 6. the access: `AccessFailure`
/// 7. the fields row by row, `MissingParameter` or `InvalidParameterValue` of each; then lists, expectation,
///    Select expression and token
/// 8. the domain: `NoSuchDomain`
/// 9. the expectation against the item: `AttributeDoesNotExist`, `MultiValuedAttribute`, `ConditionalCheckFailed`
/// 10. the limits on what an item, a domain and an account hold
pub const FAULTS: [FaultRow; 35] = [
    FaultRow {
        code: "InvalidHttpRequest",
        status: 400,
        message: "The HTTP request is invalid.",
    },
    FaultRow {
        code: "URITooLong",
        status: 414,
        message: "The request head is too long.",
    },
    FaultRow {
        code: "RequestTooLong",
        status: 413,
        message: "The request body is too long.",
    },
    FaultRow {
        code: "InvalidParameterValue",
        status: 400,
        message: "The value of a parameter is invalid.",
    },
    FaultRow {
        code: "InvalidParameterCombination",
        status: 400,
        message: "The parameters do not go together.",
    },
    FaultRow {
        code: "MissingParameter",
        status: 400,
        message: "A required parameter is missing.",
    },
    FaultRow {
        code: "InvalidAction",
        status: 400,
        message: "The action is not valid.",
    },
    FaultRow {
        code: "NoSuchVersion",
        status: 400,
        message: "The specified version does not exist.",
    },
    FaultRow {
        code: "AuthMissingFailure",
        status: 403,
        message: "Authentication parameters are missing.",
    },
    FaultRow {
        code: "AuthFailure",
        status: 403,
        message: "The access key is not known.",
    },
    FaultRow {
        code: "RequestExpired",
        status: 400,
        message: "The request has expired.",
    },
    FaultRow {
        code: "SignatureDoesNotMatch",
        status: 403,
        message: "The signature does not match.",
    },
    FaultRow {
        code: "AccessFailure",
        status: 403,
        message: "Access to the resource is denied.",
    },
    FaultRow {
        code: "NoSuchDomain",
        status: 400,
        message: "The specified domain does not exist.",
    },
    FaultRow {
        code: "NumberDomainsExceeded",
        status: 409,
        message: "The account has too many domains.",
    },
    FaultRow {
        code: "NumberDomainAttributesExceeded",
        status: 409,
        message: "The domain has too many attributes.",
    },
    FaultRow {
        code: "NumberDomainBytesExceeded",
        status: 409,
        message: "The domain or account has too many bytes.",
    },
    FaultRow {
        code: "NumberItemAttributesExceeded",
        status: 409,
        message: "The item has too many attributes.",
    },
    FaultRow {
        code: "NumberSubmittedAttributesExceeded",
        status: 409,
        message: "The request has too many attributes.",
    },
    FaultRow {
        code: "NumberSubmittedItemsExceeded",
        status: 409,
        message: "The request has too many items.",
    },
    FaultRow {
        code: "DuplicateItemName",
        status: 400,
        message: "An item is named twice.",
    },
    FaultRow {
        code: "ConditionalCheckFailed",
        status: 409,
        message: "The conditional check failed.",
    },
    FaultRow {
        code: "AttributeDoesNotExist",
        status: 404,
        message: "The expected attribute does not exist.",
    },
    FaultRow {
        code: "MultiValuedAttribute",
        status: 409,
        message: "The expected attribute has several values.",
    },
    FaultRow {
        code: "IncompleteExpectedExpression",
        status: 400,
        message: "The expectation is incomplete.",
    },
    FaultRow {
        code: "ExistsAndExpectedValue",
        status: 400,
        message: "Exists=false has no value.",
    },
    FaultRow {
        code: "MultipleExpectedNames",
        status: 400,
        message: "Only one expectation is allowed.",
    },
    FaultRow {
        code: "InvalidQueryExpression",
        status: 400,
        message: "The query expression is not valid.",
    },
    FaultRow {
        code: "InvalidNumberPredicates",
        status: 400,
        message: "There are too many predicates.",
    },
    FaultRow {
        code: "InvalidNumberValueTests",
        status: 400,
        message: "There are too many value tests.",
    },
    FaultRow {
        code: "InvalidSortExpression",
        status: 400,
        message: "The sort attribute is not in a predicate.",
    },
    FaultRow {
        code: "TooManyRequestedAttributes",
        status: 400,
        message: "Too many attributes are requested.",
    },
    FaultRow {
        code: "InvalidNextToken",
        status: 400,
        message: "The token is not valid.",
    },
    FaultRow {
        code: "ServiceUnavailable",
        status: 503,
        message: "The store could not be written.",
    },
    FaultRow {
        code: "OutOfMemory",
        status: 500,
        message: "There is not enough memory.",
    },
];

/// The fault table. Its rows are those of the specification, each code is the name of its refusal, and
/// no code stands twice.
pub fn fault_table() -> &'static [FaultRow; 35]
    ensures rows { map seen result.now ≡ faults }
    ensures named { (refusal : Refusal) → (fault_of refusal).code ≡ name_of refusal }
    ensures once { IsDistinct bytes_eq fault_codes }
{
    &FAULTS
}

/// The row of a refusal. It takes no memory.
pub fn fault_row(refusal: &Refusal) -> FaultRow
    ensures row { seen result ≡ fault_of refusal.now }
    ensures status { IsAnswerStatus result.status }
{
    row_in(&FAULTS, place_of(refusal))
}

fn row_in(rows: &[FaultRow], place: usize) -> FaultRow
    requires { place < length rows.now }
    ensures { seen result ≡ slice_index_or (map seen rows.now) place no_fault }
{
    rows[place]
}

macro_rules! places {
    ($refusal:expr; $($variant:pat => $place:literal,)*) => {
        match $refusal {
            $($variant => $place,)*
        }
    };
}

fn place_of(refusal: &Refusal) -> usize
    ensures value { result ≡ place_of refusal.now }
    ensures within { result < 35 }
{
    places! {
        refusal;
        Refusal::InvalidHttpRequest => 0,
        Refusal::URITooLong => 1,
        Refusal::RequestTooLong => 2,
        Refusal::InvalidParameterValue => 3,
        Refusal::InvalidParameterCombination => 4,
        Refusal::MissingParameter => 5,
        Refusal::InvalidAction => 6,
        Refusal::NoSuchVersion => 7,
        Refusal::AuthMissingFailure => 8,
        Refusal::AuthFailure => 9,
        Refusal::RequestExpired(_, _) => 10,
        Refusal::SignatureDoesNotMatch => 11,
        Refusal::AccessFailure => 12,
        Refusal::NoSuchDomain => 13,
        Refusal::NumberDomainsExceeded(_) => 14,
        Refusal::NumberDomainAttributesExceeded(_) => 15,
        Refusal::NumberDomainBytesExceeded(_) => 16,
        Refusal::NumberItemAttributesExceeded(_) => 17,
        Refusal::NumberSubmittedAttributesExceeded(_) => 18,
        Refusal::NumberSubmittedItemsExceeded(_) => 19,
        Refusal::DuplicateItemName => 20,
        Refusal::ConditionalCheckFailed => 21,
        Refusal::AttributeDoesNotExist => 22,
        Refusal::MultiValuedAttribute => 23,
        Refusal::IncompleteExpectedExpression => 24,
        Refusal::ExistsAndExpectedValue => 25,
        Refusal::MultipleExpectedNames => 26,
        Refusal::InvalidQueryExpression => 27,
        Refusal::InvalidNumberPredicates => 28,
        Refusal::InvalidNumberValueTests => 29,
        Refusal::InvalidSortExpression => 30,
        Refusal::TooManyRequestedAttributes => 31,
        Refusal::InvalidNextToken => 32,
        Refusal::ServiceUnavailable => 33,
        Refusal::OutOfMemory => 34,
    }
}
