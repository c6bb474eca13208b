//! The digest of a directory, child by child.

ghost use Rattle.std.specs.Prelude.{◌≡◌, ◌≤◌, [], ◌∷◌, ◌++◌, List, ℕ, length};
ghost use Rattle.vfs_model.specs.World.{digest_of_bytes};
ghost use Rattle.vfs_model.specs.Snapshot.{Children, Dir};
ghost use Rattle.vfs_model.specs.Fingerprint.{digest_of, digest_bytes, four_bytes};
ghost use Rattle.merkle_hash.specs.DirHasher.{HasTaken, byte_of};

use crate::digest::Digest;
use md5::{Digest as _, Md5};

/// The kind of a child, as the digest of its directory tells it.
#[derive(Clone, Copy, Debug, PartialEq, Eq)]
pub enum Mark {
    /// A file.
    F,
    /// A directory.
    D,
}

impl Mark {
    fn byte(self) -> u8
        ensures { result ≡ byte_of self }
    {
        match self {
            Mark::F => b'F',
            Mark::D => b'D',
        }
    }
}

/// Hashes a directory, whose children are handed in one after another, in name order.
#[derive(Drop)]
pub struct DirHasher {
    hasher: Md5,
}

impl DirHasher {
    /// No child was taken yet.
    pub fn new() -> DirHasher
        ensures { HasTaken result [] }
    {
        let mut hasher = Md5::new();
        hasher.update(b"D");
        DirHasher { hasher }
    }

    /// Takes a child: the length of its name in 4 bytes, the highest first, the name, the byte of
    /// the mark and the digest.
    pub fn child(&mut self, name: &[u8], mark: Mark, digest: &Digest)
        requires { length name.now ≤ 255 }
        ensures { (bytes : List ℕ) → HasTaken self.old bytes → HasTaken self.new (bytes ++ four_bytes (length name.now) ++ name.now ++ byte_of mark ∷ digest.now) }
    {
        self.hasher.update((name.len() as u32).to_be_bytes());
        self.hasher.update(name);
        self.hasher.update([mark.byte()]);
        self.hasher.update(digest.bytes());
    }

    /// The MD5 of the byte `D` and what was taken.
    #[tactic(auto, unfolding(vfs_model::specs::World::digest_of_bytes))]
    pub fn finish(self) -> Digest
        ensures bytes { (bytes : List ℕ) → HasTaken self bytes → result ≡ digest_of_bytes (68 ∷ bytes) }
        ensures directory { (children : Children) → HasTaken self (digest_bytes children) → result ≡ digest_of (Dir children) }
    {
        let DirHasher { hasher } = self;
        Digest {
            bytes: hasher.finalize(),
        }
    }
}
