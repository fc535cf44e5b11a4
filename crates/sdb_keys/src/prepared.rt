//! A secret, prepared for HMAC over SHA-256.

ghost use Rattle.std.specs.Prelude.{◌≡◌};
ghost use Rattle.sdb_keys.specs.Hmac.{hmac};

use crate::mac::{block_key, masked};
use sdb_base::Text;
use sha2::{Digest, Sha256};
use std::marker::Model;

/// A secret with the two hashes that every HMAC under it begins with (RFC 2104): those of its block under each
/// of the two masks. Contracts see the secret. It has no `Debug`, so that no secret is printed by mistake.
#[derive(Drop)]
pub struct PreparedKey {
    secret: Text,
    inner: Sha256,
    outer: Sha256,
}

impl Model for PreparedKey {
    ghost use Rattle.std.specs.Prelude.{List, ℕ};
    ghost use Rattle.sdb_keys.specs.Hmac.{IsPrepared};

    ghost Value = { List ℕ };

    ghost view = { λ it. it.secret };

    ghost invariant = { λ it. IsPrepared it.secret it.inner it.outer };
}

impl PreparedKey {
    // Prepares a secret. It takes no memory.
    pub(crate) fn new(secret: Text) -> PreparedKey
        ensures { result ≡ secret }
    {
        let block = block_key(secret.as_str().as_bytes());
        let mut inner = Sha256::new();
        inner.update(&masked(block, 0x36));
        let mut outer = Sha256::new();
        outer.update(&masked(block, 0x5c));
        PreparedKey {
            secret,
            inner,
            outer,
        }
    }

    /// The secret.
    pub fn secret(&self) -> &[u8]
        ensures { result.now ≡ self.now }
    {
        self.secret.as_str().as_bytes()
    }

    /// The HMAC of a message under the secret. It takes no memory.
    #[tactic(auto, unfolding(crate::specs::Hmac::hmac))]
    pub fn hmac(&self, message: &[u8]) -> [u8; 32]
        ensures { result ≡ hmac self.now message.now }
    {
        let mut inner = self.inner.clone().unwrap();
        inner.update(message);
        let mut outer = self.outer.clone().unwrap();
        outer.update(&inner.finalize());
        outer.finalize()
    }
}
