//! What parameters say of the signature of their request.

ghost use Rattle.std.specs.Prelude.{◌≡◌, MatchResult, Ok, Err};
ghost use Rattle.sdb_base.specs.Pairs.{value_of};
ghost use Rattle.sdb_sign.specs.Claims.{seen};
ghost use Rattle.sdb_sign.specs.Signing.{claim_of, is_supported, needed, one_moment, expires_name, timestamp_name};

use crate::words::{
    expires_name, key_id_name, method_name, method_word, signature_name, timestamp_name,
    version_name, version_word,
};
use sdb_base::{Params, Text};
use sdb_tables::Refusal;

// How the moment of a request limits it.
#[derive(Clone, Copy, Debug, PartialEq, Eq)]
pub(crate) enum MomentKind {
    // The moment at which it was signed.
    Timestamp,
    // The last moment at which it is accepted.
    Expires,
}

// What a request says of its signature.
#[derive(Clone, Copy)]
pub(crate) struct Claim<'p> {
    pub key_id: &'p Text,
    pub kind: MomentKind,
    pub moment: &'p Text,
    pub signature: &'p Text,
}

// What the parameters say of the signature, or the first refusal of what they lack.
#[tactic(auto, unfolding(crate::specs::Signing::claim_of))]
pub(crate) fn claim_of(params: &Params) -> Result<Claim<'_>, Refusal>
    ensures { MatchResult result
        (λ claim. claim_of params.now ≡ Ok (seen claim))
        (λ refusal. claim_of params.now ≡ Err refusal) }
{
    let key_id = needed(params, key_id_name())?;
    let version = needed(params, version_name())?;
    let method = needed(params, method_name())?;
    let signature = needed(params, signature_name())?;
    let (kind, moment) = one_moment(params)?;
    if !is_supported(version, method) {
        return Err(Refusal::InvalidParameterValue);
    }
    Ok(Claim {
        key_id,
        kind,
        moment,
        signature,
    })
}

fn needed<'p>(params: &'p Params, name: &str) -> Result<&'p Text, Refusal>
    ensures { MatchResult result
        (λ text. needed params.now name.now ≡ Ok text.now)
        (λ refusal. needed params.now name.now ≡ Err refusal) }
{
    match params.get(name) {
        Some(text) => Ok(text),
        None => Err(Refusal::AuthMissingFailure),
    }
}

// The one moment that a request names.
fn one_moment(params: &Params) -> Result<(MomentKind, &Text), Refusal>
    ensures { MatchResult result
        (λ found. one_moment (value_of params.now timestamp_name) (value_of params.now expires_name) ≡ Ok (found.0, found.1.now))
        (λ refusal. one_moment (value_of params.now timestamp_name) (value_of params.now expires_name) ≡ Err refusal) }
{
    match (params.get(timestamp_name()), params.get(expires_name())) {
        (Some(text), None) => Ok((MomentKind::Timestamp, text)),
        (None, Some(text)) => Ok((MomentKind::Expires, text)),
        (Some(_), Some(_)) => Err(Refusal::InvalidParameterCombination),
        (None, None) => Err(Refusal::AuthMissingFailure),
    }
}

fn is_supported(version: &Text, method: &Text) -> bool
    ensures { result ≡ is_supported version.now method.now }
{
    version.as_str() == version_word() && method.as_str() == method_word()
}
