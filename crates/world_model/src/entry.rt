//! What is at a location.

ghost use Rattle.std.specs.Prelude.{◌≡◌};
ghost use Rattle.world_model.specs.declared.entry.LookError.TheVariants as look_error;

use case_order::NoMemory;
use merkle_hash::Bytes;
use vfs_path::Names;

/// What a look at a location gives.
#[derive(Debug, Drop)]
pub enum Entry {
    /// Nothing is there.
    Missing,
    /// A file with these bytes.
    File(Bytes),
    /// A directory with these names in it, in order under the tree's case, no two the same.
    Dir(Names),
}

/// Why a look gave nothing.
#[derive(Clone, Copy, Debug, PartialEq, Eq)]
pub enum LookError {
    /// The look failed, and the tree counted it.
    Failed,
    /// Want of memory.
    NoMemory,
}

impl From<NoMemory> for LookError {
    ghost from_gives = { λ _ e. e ≡ look_error.NoMemory };

    fn from(_: NoMemory) -> LookError {
        LookError::NoMemory
    }
}
