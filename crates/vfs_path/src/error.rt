//! Why a text is no name or no path.

ghost use Rattle.std.specs.Prelude.{◌≡◌};
ghost use Rattle.vfs_path.specs.Errors.{number_of};
ghost use Rattle.vfs_path.specs.declared.error.PathError.TheVariants.{NoMemory as NoMemoryError};

use case_order::NoMemory;
use std::alloc::AllocFailed;
use thiserror::Error;

/// Why a text is no name or no path, or why there is no path below one.
#[derive(Clone, Copy, Debug, PartialEq, Eq, Error)]
pub enum PathError {
    /// The text does not begin with `/`.
    #[error("a path begins with `/`")]
    NotAbsolute,
    /// A name has no byte.
    #[error("a name is empty")]
    EmptyName,
    /// A name is `.` or `..`.
    #[error("a name is `.` or `..`")]
    DotName,
    /// A name has more than 255 bytes.
    #[error("a name has more than 255 bytes")]
    LongName,
    /// A path has more than 64 names.
    #[error("a path has more than 64 names")]
    TooDeep,
    /// A byte 0 or LF, in a name `/` too, or bytes that are not UTF-8.
    #[error("a byte that no name has")]
    BadByte,
    /// Want of memory.
    #[error("no memory")]
    NoMemory,
}

impl PathError {
    /// The number of the refusal, 1 to 7 in the order in which they are declared.
    pub fn number(self) -> u64
        ensures { result ≡ number_of self }
    {
        match self {
            PathError::NotAbsolute => 1,
            PathError::EmptyName => 2,
            PathError::DotName => 3,
            PathError::LongName => 4,
            PathError::TooDeep => 5,
            PathError::BadByte => 6,
            PathError::NoMemory => 7,
        }
    }
}

impl From<NoMemory> for PathError {
    ghost from_gives = { λ _ e. e ≡ NoMemoryError };

    fn from(_: NoMemory) -> PathError {
        PathError::NoMemory
    }
}

impl<T: Drop> From<AllocFailed<T>> for PathError {
    ghost from_gives = { λ _ e. e ≡ NoMemoryError };

    fn from(_: AllocFailed<T>) -> PathError {
        PathError::NoMemory
    }
}
