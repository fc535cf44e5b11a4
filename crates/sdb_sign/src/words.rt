//! The names and values of a signature's parameters.

ghost use Rattle.std.specs.Prelude.{◌≡◌};
ghost use Rattle.sdb_sign.specs.Canon.{signature_name};
ghost use Rattle.sdb_sign.specs.Signing.{expires_name, key_id_name, method_name, method_word, timestamp_name, version_name, version_word};

#[tactic(auto, unfolding(crate::specs::Canon::signature_name))]
pub(crate) fn signature_name() -> &'static str
    ensures { result.now ≡ signature_name }
{
    "Signature"
}

#[tactic(auto, unfolding(crate::specs::Signing::key_id_name))]
pub(crate) fn key_id_name() -> &'static str
    ensures { result.now ≡ key_id_name }
{
    "AWSAccessKeyId"
}

#[tactic(auto, unfolding(crate::specs::Signing::version_name))]
pub(crate) fn version_name() -> &'static str
    ensures { result.now ≡ version_name }
{
    "SignatureVersion"
}

#[tactic(auto, unfolding(crate::specs::Signing::method_name))]
pub(crate) fn method_name() -> &'static str
    ensures { result.now ≡ method_name }
{
    "SignatureMethod"
}

#[tactic(auto, unfolding(crate::specs::Signing::timestamp_name))]
pub(crate) fn timestamp_name() -> &'static str
    ensures { result.now ≡ timestamp_name }
{
    "Timestamp"
}

#[tactic(auto, unfolding(crate::specs::Signing::expires_name))]
pub(crate) fn expires_name() -> &'static str
    ensures { result.now ≡ expires_name }
{
    "Expires"
}

#[tactic(auto, unfolding(crate::specs::Signing::version_word))]
pub(crate) fn version_word() -> &'static str
    ensures { result.now ≡ version_word }
{
    "2"
}

#[tactic(auto, unfolding(crate::specs::Signing::method_word))]
pub(crate) fn method_word() -> &'static str
    ensures { result.now ≡ method_word }
{
    "HmacSHA256"
}
