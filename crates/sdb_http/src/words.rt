//! The names and words of headers that rules speak of.

ghost use Rattle.std.specs.Prelude.{◌≡◌};
ghost use Rattle.sdb_http.specs.Heads.{close_word, connection, content_length, host_name, transfer_encoding};

#[tactic(auto, unfolding(crate::specs::Heads::transfer_encoding))]
pub(crate) fn transfer_encoding() -> &'static [u8]
    ensures { result.now ≡ transfer_encoding }
{
    b"transfer-encoding"
}

#[tactic(auto, unfolding(crate::specs::Heads::content_length))]
pub(crate) fn content_length() -> &'static [u8]
    ensures { result.now ≡ content_length }
{
    b"content-length"
}

#[tactic(auto, unfolding(crate::specs::Heads::host_name))]
pub(crate) fn host_name() -> &'static [u8]
    ensures { result.now ≡ host_name }
{
    b"host"
}

#[tactic(auto, unfolding(crate::specs::Heads::connection))]
pub(crate) fn connection() -> &'static [u8]
    ensures { result.now ≡ connection }
{
    b"connection"
}

#[tactic(auto, unfolding(crate::specs::Heads::close_word))]
pub(crate) fn close_word() -> &'static [u8]
    ensures { result.now ≡ close_word }
{
    b"close"
}
