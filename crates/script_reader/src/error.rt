//! Why a text or a line was not read.

ghost use Rattle.std.specs.Prelude.{◌≡◌};
ghost use Rattle.script_reader.specs.declared.error.LineError.TheVariants.{NoMemory as WantOfMemory};

use case_order::NoMemory;
use script_text::{BadLine, Cause};
use std::alloc::{AllocError, AllocFailed};

/// Why a text was not read.
#[derive(Debug, Drop)]
pub enum ScriptError {
    /// It is no script.
    Bad(BadLine),
    /// Want of memory.
    NoMemory,
}

/// Why a line was not read.
#[derive(Debug, Drop)]
pub(crate) enum LineError {
    Bad(Cause),
    NoMemory,
}

impl From<NoMemory> for LineError {
    ghost from_gives = { λ _ e. e ≡ WantOfMemory };

    fn from(_: NoMemory) -> LineError {
        LineError::NoMemory
    }
}

impl From<AllocError> for LineError {
    ghost from_gives = { λ _ e. e ≡ WantOfMemory };

    fn from(_: AllocError) -> LineError {
        LineError::NoMemory
    }
}

impl<T: Drop> From<AllocFailed<T>> for LineError {
    ghost from_gives = { λ _ e. e ≡ WantOfMemory };

    fn from(_: AllocFailed<T>) -> LineError {
        LineError::NoMemory
    }
}
