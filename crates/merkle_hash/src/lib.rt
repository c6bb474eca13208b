//! Digests, and byte strings that several owners in any threads can have.
#![tactic(auto)]

mod bytes;
mod digest;
mod dir_hasher;

pub use bytes::Bytes;
pub use digest::{Digest, file_digest};
pub use dir_hasher::{DirHasher, Mark};

/// Bytes and digests may be shared by threads.
pub fn shares_with_threads(bytes: &Bytes, digest: &Digest) {
    shareable(bytes);
    shareable(digest);
}

fn shareable<T: Send + Sync>(_value: &T) {}

#[cfg(test)]
mod tests;
