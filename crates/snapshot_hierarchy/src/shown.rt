//! What shows its changes to others.

ghost use Rattle.std.specs.Prelude.{◌≡◌, Some, IfOk};
ghost use Rattle.vfs_model.specs.History.{ChangeLog};

use crate::retain::Retain;
use case_order::NoMemory;
use std::sync::Wait;
use std::thread::Threads;

/// What tells its changes and shows them on a board.
pub trait Shown: Retain {
    /// What is handed on: it stands for a list of changes and a board's name.
    type Note;

    ghost noted: { Self.Note → ChangeLog };

    /// Shows all the changes so far. The note has them all, and the name of the board; what is
    /// retained and what is told of it stay.
    ///
    /// The only error is want of memory.
    fn show<X: Threads + Wait + Sync>(&mut self, rt: &X) -> Result<Self::Note, NoMemory>
        ensures same { Self.held self.new ≡ Self.held self.old }
        ensures note { IfOk result (λ note. (Self.held self.old).log ≡ Some (noted note)) };
}
