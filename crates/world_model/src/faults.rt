//! Counts of faults, for proofs alone.

ghost use Rattle.std.specs.Prelude.{◌≡◌, ℕ};
ghost use Rattle.std.specs.Borrow.{ftrue};
ghost use Rattle.std.specs.Coded.{coded_ℕ};
ghost use Rattle.vfs_model.specs.Faults.{next_count};

use std::marker::Model;

/// How many faults there were, as a number without a limit. It takes no memory, and only clauses read
/// it: what fails keeps one, and a clause can then say that each failure was counted.
#[derive(Drop)]
pub struct FaultCount {
    ghost count: { ℕ } by { coded_ℕ },
}

impl Model for FaultCount {
    ghost also_owns = { λ _. ftrue };
}

impl FaultCount {
    /// No fault.
    pub fn none() -> FaultCount
        ensures { result.count ≡ 0 }
    {
        FaultCount {}
    }

    /// The count with one more fault.
    pub fn and_one(&self) -> FaultCount
        ensures { result.count ≡ next_count self.now.count }
    {
        FaultCount {}
    }
}
