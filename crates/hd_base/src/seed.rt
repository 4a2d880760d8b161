//! What tables hash by.
ghost use Rattle.std.specs.Prelude.{◌≡◌};
ghost use Rattle.hd_base.specs.Seed.{seeded};

use std::hash::{BuildHasher, DefaultHasher, Hasher};

/// What tables hash by: SipHash, begun with a digest of the texts that the keys come from.
///
/// So whoever writes the texts can't write keys that collide, and the same texts hash alike in each
/// run.
#[derive(Clone, Copy)]
pub struct Seed {
    begun: DefaultHasher,
}

impl Seed {
    /// Returns the seed of texts with this digest.
    pub fn of(digest: [u8; 32]) -> Seed
        ensures { result ≡ record { begun = seeded digest } }
    {
        let mut begun = DefaultHasher::new();
        begun.write(digest.as_slice());
        Seed { begun }
    }
}

impl BuildHasher for Seed {
    type Hasher = DefaultHasher;

    ghost build_hasher = { λ seed. seed.begun };

    fn build_hasher(&self) -> DefaultHasher {
        self.begun
    }
}
