//! HMAC over SHA-256.

ghost use Rattle.std.specs.Prelude.{◌≡◌, ◌≤◌, ◌-◌, ◌++◌, length, map, replicate, bit_xor};
ghost use Rattle.sdb_keys.specs.Hmac.{block_key, hmac};

use sha2::{Digest, Sha256};

// The bytes in a block of SHA-256.
const BLOCK: usize = 64;

/// The HMAC of a message under a key (RFC 2104) over SHA-256. It takes no memory.
#[tactic(auto, unfolding(crate::specs::Hmac::hmac))]
pub fn hmac(key: &[u8], message: &[u8]) -> [u8; 32]
    ensures { result ≡ hmac key.now message.now }
{
    let block = block_key(key);
    let mut inner = Sha256::new();
    inner.update(&masked(block, 0x36));
    inner.update(message);
    let mut outer = Sha256::new();
    outer.update(&masked(block, 0x5c));
    outer.update(&inner.finalize());
    outer.finalize()
}

// The key as a block: hashed where it is longer, and filled with zeros.
#[tactic(auto, unfolding(crate::specs::Hmac::block_key))]
pub(crate) fn block_key(key: &[u8]) -> [u8; 64]
    ensures { result ≡ block_key key.now }
{
    if key.len() <= BLOCK {
        filled(key)
    } else {
        filled(&Sha256::digest(key))
    }
}

fn filled(bytes: &[u8]) -> [u8; 64]
    requires { length bytes.now ≤ 64 }
    ensures { result ≡ bytes.now ++ replicate (64 - length bytes.now) 0 }
{
    let mut block = [0; BLOCK];
    block[..bytes.len()].copy_from_slice(bytes);
    block
}

pub(crate) fn masked(mut block: [u8; 64], mask: u8) -> [u8; 64]
    ensures { result ≡ map (λ b. bit_xor b mask) block }
{
    for b in block.iter_mut() {
        *b ^= mask;
    }
    block
}
