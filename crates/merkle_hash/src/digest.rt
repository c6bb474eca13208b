//! Digests.

ghost use Rattle.std.specs.Prelude.{◌≡◌, length};
ghost use Rattle.hex.specs.Hex.{encode_lower};
ghost use Rattle.vfs_model.specs.World.{digest_of_bytes};

use case_order::{NoMemory, Share};
use md5::{Digest as _, Md5};
use std::marker::Model;

/// An MD5 digest (RFC 1321): sixteen bytes, which contracts see.
#[derive(Clone, Copy, Debug, PartialEq, Eq)]
pub struct Digest {
    pub(crate) bytes: [u8; 16],
}

impl Model for Digest {
    ghost use Rattle.std.specs.Prelude.{List, ℕ};

    ghost Value = { List ℕ };

    ghost view = { λ d. d.bytes };

    ghost inverse = { λ bytes. record { bytes = bytes } };
}

impl Digest {
    /// The sixteen bytes.
    pub fn bytes(&self) -> [u8; 16]
        ensures bytes { result ≡ self.now }
        ensures sixteen { length self.now ≡ 16 }
    {
        self.bytes
    }

    /// Two lower-case hexadecimal digits for each byte.
    pub fn to_hex(&self) -> [u8; 32]
        ensures { result ≡ encode_lower self.now }
    {
        let mut digits = [0u8; 32];
        let _ = hex::encode_to_slice(self.bytes.as_slice(), &mut digits);
        digits
    }
}

impl Share for Digest {
    fn share(&self) -> Result<Digest, NoMemory> {
        Ok(*self)
    }
}

/// The MD5 of the bytes.
#[tactic(auto, unfolding(vfs_model::specs::World::digest_of_bytes))]
pub fn file_digest(text: &[u8]) -> Digest
    ensures { result ≡ digest_of_bytes text.now }
{
    let mut hasher = Md5::new();
    hasher.update(text);
    Digest {
        bytes: hasher.finalize(),
    }
}
