//! Digests of secrets under a tenant's salt (FIPS 180-4).
ghost use Rattle.std.specs.Prelude.{◌≡◌, ◌↔◌, IsOk, IfErr};
ghost use Rattle.wb_base.specs.Secrets.{digest as digest_of};

use crate::AccessFault;
use sha2::{Digest as _, Sha256};
use wb_base::{Digest, Salt};

/// The SHA-256 digest of a tenant's salt followed by a text.
#[tactic(auto, unfolding(wb_base::specs::Secrets::digest))]
pub fn digest(salt: &Salt, text: &[u8]) -> Digest
    ensures { result ≡ digest_of salt.now text.now }
{
    let mut hasher = Sha256::new();
    hasher.update(salt.0.as_slice());
    hasher.update(text);
    Digest(hasher.finalize())
}

/// Whether a text is the one whose digest is kept.
pub fn check_secret(kept: &Digest, salt: &Salt, text: &[u8]) -> Result<(), AccessFault>
    ensures ok { IsOk result ↔ (digest_of salt.now text.now ≡ kept.now) }
    ensures bad_login { IfErr result (λ fault. fault ≡ AccessFault.BadLogin) }
{
    if digest(salt, text) == *kept {
        Ok(())
    } else {
        Err(AccessFault::BadLogin)
    }
}
