//! The digest of a task's texts.
ghost use Rattle.std.specs.Prelude.{◌≡◌};
ghost use Rattle.hd_base.specs.Seed.{seeded};
ghost use Rattle.hd_texts.specs.Digest.{digest_of};

use hd_base::Seed;
use sha2::{Digest, Sha256};

/// Returns the digest of a task's texts: SHA-256 (FIPS 180-4) of the domain's length in 8 bytes,
/// the lowest first, the domain's bytes and the problem's bytes.
pub fn digest_of(domain: &[u8], problem: &[u8]) -> [u8; 32]
    ensures { result ≡ digest_of domain.now problem.now }
{
    let mut hasher = Sha256::new();
    let length = (domain.len() as u64).to_le_bytes();
    hasher.update(length.as_slice());
    hasher.update(domain);
    hasher.update(problem);
    hasher.finalize()
}

/// Returns what the tables of names and atoms of a task hash by: the digest of its texts, so that
/// nobody can write texts whose names collide.
pub fn seed_of(domain: &[u8], problem: &[u8]) -> Seed
    ensures { result ≡ record { begun = seeded (digest_of domain.now problem.now) } }
{
    Seed::of(digest_of(domain, problem))
}
