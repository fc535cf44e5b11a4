// The digest of a text.
ghost use Rattle.std.specs.Prelude.{◌≡◌};
ghost use Rattle.sha2.specs.Sha256.{sha256};

use sdb_base::Text;
use sha2::{Digest, Sha256};

/// The SHA-256 (FIPS 180-4) of a text: that of the expression of a Select, or of `ListDomains`. It binds a token
/// to the request that it goes on. It takes no memory.
pub fn digest(text: &Text) -> [u8; 32]
    ensures { result ≡ sha256 text.now }
{
    Sha256::digest(text.as_str().as_bytes())
}
