//! Snapshots: what is remembered of a location and of all below it.
#![tactic(auto)]

mod builder;
mod directory;
mod pieces;
mod snapshot;
#[cfg(test)]
mod tests;

pub use builder::DirBuilder;
pub use directory::DirRef;
pub use pieces::{Pair, Pairs, Pieces};
pub use snapshot::{Glance, Snapshot};
pub use vfs_model::Kind;

/// Snapshots, directories and pairs may be shared by threads.
pub fn shares_with_threads(snapshot: &Snapshot, directory: &DirRef, pairs: &Pairs) {
    shareable(snapshot);
    shareable(directory);
    shareable(pairs);
}

fn shareable<T: Send + Sync>(_value: &T) {}
