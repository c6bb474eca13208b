//! Edits of a tree, their refusals and their events.

ghost use Rattle.std.specs.Prelude.{◌≡◌};
ghost use Rattle.world_model.specs.declared.edit.ApplyError.TheVariants as apply_error;
ghost use Rattle.world_model.specs.Meaning.{number_of};

use case_order::{NoMemory, Share};
use merkle_hash::Bytes;
use thiserror::Error;
use vfs_path::Path;

/// An edit of a tree.
#[derive(Debug, Drop)]
pub enum Edit {
    /// Makes the file at the path, or replaces its bytes; a name that is there keeps its spelling.
    Write(Path, Bytes),
    /// Makes an empty directory at the path.
    Mkdir(Path),
    /// Takes away what is at the path, and all below it.
    Remove(Path),
    /// Moves what is at the first path, with all below it, to the second, whose last name gives it
    /// its spelling.
    Move(Path, Path),
}

impl Share for Edit {
    fn share(&self) -> Result<Edit, NoMemory> {
        Ok(match self {
            Edit::Write(path, content) => Edit::Write(path.share()?, content.share()?),
            Edit::Mkdir(path) => Edit::Mkdir(path.share()?),
            Edit::Remove(path) => Edit::Remove(path.share()?),
            Edit::Move(from, to) => Edit::Move(from.share()?, to.share()?),
        })
    }
}

/// The paths that tell of an edit that was done.
#[derive(Debug, Drop)]
pub enum Events {
    /// The path of a write, of a new directory, or of a removal.
    One(Path),
    /// From where and to where something was moved.
    Two(Path, Path),
}

/// Why a tree refuses an edit.
#[derive(Clone, Copy, Debug, PartialEq, Eq, Error)]
pub enum EditError {
    /// A path of the edit is the root.
    #[error("the root cannot be edited")]
    Root,
    /// The parent of the path to be made is missing.
    #[error("there is no parent")]
    NoParent,
    /// The parent of the path to be made is a file.
    #[error("the parent is no directory")]
    NotDir,
    /// Something is there that the edit does not replace.
    #[error("something is there")]
    Exists,
    /// Nothing is there.
    #[error("nothing is there")]
    Absent,
    /// A directory would be moved into itself.
    #[error("a directory cannot be moved into itself")]
    IntoItself,
    /// A path would have more than 64 names.
    #[error("a path would have more than 64 names")]
    TooDeep,
    /// The directory has 4,096 names already.
    #[error("the directory is full")]
    Crowded,
    /// The tree is read only.
    #[error("the tree is read only")]
    ReadOnly,
}

impl EditError {
    /// The number of the refusal, 1 to 9 in the order in which they are declared.
    pub fn number(self) -> u64
        ensures { result ≡ number_of self }
    {
        match self {
            EditError::Root => 1,
            EditError::NoParent => 2,
            EditError::NotDir => 3,
            EditError::Exists => 4,
            EditError::Absent => 5,
            EditError::IntoItself => 6,
            EditError::TooDeep => 7,
            EditError::Crowded => 8,
            EditError::ReadOnly => 9,
        }
    }
}

/// Why an edit was not done.
#[derive(Clone, Copy, Debug, PartialEq, Eq)]
pub enum ApplyError {
    /// The tree refuses it.
    Refused(EditError),
    /// Want of memory.
    NoMemory,
}

impl From<EditError> for ApplyError {
    ghost from_gives = { λ refusal e. e ≡ apply_error.Refused refusal };

    fn from(refusal: EditError) -> ApplyError {
        ApplyError::Refused(refusal)
    }
}

impl From<NoMemory> for ApplyError {
    ghost from_gives = { λ _ e. e ≡ apply_error.NoMemory };

    fn from(_: NoMemory) -> ApplyError {
        ApplyError::NoMemory
    }
}
