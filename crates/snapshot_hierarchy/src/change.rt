//! What changes what is retained.

use case_order::{NoMemory, Share};
use snapshot_tree::Snapshot;
use vfs_path::Path;

/// A change of what is retained, as a holder that tells its changes lists it.
#[derive(Debug, Drop)]
pub enum Change {
    /// The snapshot was stored at the path.
    Kept(Path, Snapshot),
    /// The path was invalidated.
    Gone(Path),
    /// Everything was forgotten.
    Cleared,
}

impl Share for Change {
    fn share(&self) -> Result<Change, NoMemory> {
        match self {
            Change::Kept(path, snapshot) => Ok(Change::Kept(path.share()?, snapshot.share()?)),
            Change::Gone(path) => Ok(Change::Gone(path.share()?)),
            Change::Cleared => Ok(Change::Cleared),
        }
    }
}
