//! The verdict on a signed request: whose key signed it, or why it is refused.

ghost use Rattle.std.specs.Prelude.{◌≡◌, ◌≢◌, ◌↔◌, ℕ, Ok, Err, IfOk};
ghost use Rattle.std.specs.declared.result.Result.{Result};
ghost use Rattle.std.specs.Str.{bytes_eq};
ghost use Rattle.sdb_tables.specs.declared.refusal.Refusal.{Refusal};
ghost use Rattle.sdb_sign.specs.Signing.{IsVerdict, IsVerdictOrMemory, Verdict, signature_of};

use crate::canon::string_to_sign;
use crate::claim::claim_of;
use crate::fresh::check_moment;
use crate::same::is_same;
use base64::engine::general_purpose::STANDARD;
use sdb_base::{AccountId, OutOfMemory, Params, Text, Verb};
use sdb_keys::{Keys, PreparedKey};
use sdb_tables::Refusal;
use std::alloc::Global;

/// The account whose key signed a request, at the Unix second `now` at which it came (SimpleDB
/// Developer Guide, "HMAC-SHA Signature").
///
/// `host` is the value of the Host header as sent. The signature is the padded standard base64 (RFC
/// 4648) of the HMAC of [`string_to_sign`] under the key's secret. A request is refused for no
/// length of its text. The signatures are compared by all their bytes.
///
/// # Errors
///
/// The first of these:
///
/// - `AuthMissingFailure` where AWSAccessKeyId, SignatureVersion, SignatureMethod or Signature is
///   absent, or Timestamp and Expires both are; `InvalidParameterCombination` where both are there;
///   `InvalidParameterValue` where SignatureVersion isn't `2` or SignatureMethod isn't `HmacSHA256`
/// - `AuthFailure` where the key id is unknown
/// - `InvalidParameterValue` where the moment can't be read; `RequestExpired`, with `now` and then
///   the moment, where a Timestamp lies more than 900 seconds before or after `now`, or an Expires
///   before it
/// - `SignatureDoesNotMatch` where Signature isn't the signature
pub fn verify(
    alloc: Global,
    verb: Verb,
    host: &[u8],
    params: &Params,
    keys: &Keys,
    now: u64,
) -> Result<AccountId, Refusal>
    // Want of memory may come in place of any verdict.
    ensures verdict { (verdict : Verdict) → result ≢ Err Refusal.OutOfMemory
        → (result ≡ verdict) ↔ IsVerdict verb host.now params.now keys.now now verdict }
{
    verdict(alloc, verb, host, params, keys, now)
}

fn verdict(
    alloc: Global,
    verb: Verb,
    host: &[u8],
    params: &Params,
    keys: &Keys,
    now: u64,
) -> Result<AccountId, Refusal>
    ensures { IsVerdictOrMemory (IsVerdict verb host.now params.now keys.now now) result }
{
    let claim = claim_of(params)?;
    let Some((account, key)) = keys.find_prepared(claim.key_id) else {
        return Err(Refusal::AuthFailure);
    };
    check_moment(claim.kind, claim.moment, now)?;
    let text = string_to_sign(alloc, verb, host, params)?;
    if !is_signed(alloc, key, text.as_slice(), claim.signature)? {
        return Err(Refusal::SignatureDoesNotMatch);
    }
    Ok(account)
}

#[tactic(auto, unfolding(crate::specs::Signing::signature_of))]
fn is_signed(
    alloc: Global,
    key: &PreparedKey,
    text: &[u8],
    signature: &Text,
) -> Result<bool, OutOfMemory>
    ensures { IfOk result (λ same. same ≡ bytes_eq signature.now (signature_of key.now text.now)) }
{
    let wanted = STANDARD.encode(alloc, &key.hmac(text))?;
    Ok(is_same(signature.as_str().as_bytes(), wanted.as_bytes()))
}
