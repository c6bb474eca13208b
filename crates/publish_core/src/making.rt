//! What makes the snapshot of a publication.

ghost use Rattle.std.specs.Prelude.{◌≡◌, IfOk};
ghost use Rattle.vfs_model.specs.declared.Case.{Case as CaseOf};
ghost use Rattle.vfs_model.specs.Snapshot.{Snapshot as SnapshotOf, IsTree};
ghost use Rattle.snapshot_tree.specs.Meaning.{meaning_of};

use case_order::{Case, NoMemory};
use snapshot_tree::Snapshot;
use std::marker::Model;

/// What makes a snapshot, once, when it is asked.
///
/// So a publication that is refused makes none.
pub trait MakeSnapshot: Drop {
    /// The case of the snapshot.
    ghost case: { Self → CaseOf };

    /// What the snapshot says.
    ghost made: { Self → SnapshotOf };

    /// The snapshot.
    ///
    /// The names of its directories are in order under the case, and no child is missing. The only
    /// error is want of memory.
    fn make(self) -> Result<Snapshot, NoMemory>
        ensures made { IfOk result (λ snapshot. meaning_of snapshot ≡ made self) }
        ensures tree { IfOk result (λ snapshot. IsTree (case self) (meaning_of snapshot)) };
}

/// A snapshot that is there already. Its making takes no memory.
///
/// Contracts see its case, and what it says.
#[derive(Drop)]
pub(crate) struct Ready {
    case: Case,
    snapshot: Snapshot,
}

impl Model for Ready {
    ghost use Rattle.std.specs.Coded.{coded×};
    ghost use Rattle.vfs_model.specs.declared.Case.{Case};
    ghost use Rattle.vfs_model.specs.Snapshot.{Snapshot, IsTree};
    ghost use Rattle.vfs_model.specs.Code.{case_code, snapshot_code};
    ghost use Rattle.snapshot_tree.specs.Meaning.{meaning_of};

    ghost Value = { Case × Snapshot };

    ghost coded = { coded× case_code snapshot_code };

    ghost view = { λ r. (r.case, meaning_of r.snapshot) };

    ghost invariant = { λ r. IsTree r.case (meaning_of r.snapshot) };
}

impl Ready {
    /// The snapshot, whose names are in order under the case.
    pub(crate) fn new(case: Case, snapshot: Snapshot) -> Ready
        requires { IsTree case (meaning_of snapshot) }
        ensures { result ≡ (case, meaning_of snapshot) }
    {
        Ready { case, snapshot }
    }
}

impl MakeSnapshot for Ready {
    ghost case = { λ r. r.0 };

    ghost made = { λ r. r.1 };

    fn make(self) -> Result<Snapshot, NoMemory> {
        Ok(self.snapshot)
    }
}
