//! Why a look failed, and the notes that a tree keeps of it.

ghost use Rattle.std.specs.Prelude.{◌≡◌};
ghost use Rattle.vfs_io.specs.declared.fault.Stop.TheVariants as stop;

use case_order::NoMemory;
use std::{fmt, io};
use vfs_path::Path;

/// Why a look failed.
#[derive(Debug, Drop)]
pub enum LookFault {
    /// The file has more than 67,108,864 bytes.
    TooLarge,
    /// The directory has more than 4,096 names.
    TooManyNames,
    /// The directory has a name that no path can have.
    NotAName,
    /// The directory has two names that are the same under the case.
    SameNames,
    /// The directory is at a path of 64 names and has names.
    TooDeep,
    /// What stood there, or a directory above, was another one after it was read than before.
    Changed,
    /// A call of the system failed.
    System(io::Error),
}

/// The cause in words; of a call of the system its own.
impl fmt::Display for LookFault {
    fn fmt<W: fmt::Write>(&self, f: &mut fmt::Formatter<W>) -> fmt::Result {
        match self {
            LookFault::TooLarge => f.write_str("too large"),
            LookFault::TooManyNames => f.write_str("too many names"),
            LookFault::NotAName => f.write_str("not a name"),
            LookFault::SameNames => f.write_str("two names the same"),
            LookFault::TooDeep => f.write_str("too deep"),
            LookFault::Changed => f.write_str("changed while it was looked at"),
            LookFault::System(error) => error.fmt(f),
        }
    }
}

/// A look that failed: at which path, and why.
#[derive(Debug, Drop)]
pub struct FailedLook {
    pub path: Path,
    pub cause: LookFault,
}

/// Why a look gave nothing.
#[derive(Drop)]
pub(crate) enum Stop {
    Fault(LookFault),
    NoMemory,
}

impl From<NoMemory> for Stop {
    ghost from_gives = { λ _ e. e ≡ stop.NoMemory };

    fn from(_: NoMemory) -> Stop {
        Stop::NoMemory
    }
}
