//! Scans in progress with nothing left.

ghost use Rattle.std.specs.Prelude.{◌≡◌};
ghost use Rattle.vfs_model.specs.Scanning as scanning;
ghost use Rattle.vfs_machine.specs.Publish.{IsFinished};

use case_order::NoMemory;
use merkle_hash::Digest;
use publish_core::MakeSnapshot;
use scan_walk::Scan;
use snapshot_tree::Snapshot;
use std::marker::Model;

/// A scan in progress with nothing left, and the digests of its contents, in order.
///
/// Contracts see the scan.
#[derive(Drop)]
pub(crate) struct FinishedScan<'a> {
    scan: &'a Scan,
    digests: &'a [Digest],
}

impl<'a> Model for FinishedScan<'a> {
    ghost use Rattle.scan_walk.specs.Cased.{CasedScan, cased_code};
    ghost use Rattle.vfs_machine.specs.Publish.{IsFinished};

    ghost Value = { CasedScan };

    ghost coded = { cased_code };

    ghost view = { λ f. f.scan.now };

    ghost invariant = { λ f. IsFinished f.scan.now f.digests.now };
}

impl<'a> FinishedScan<'a> {
    /// The scan, with the digests of its contents.
    pub(crate) fn new(scan: &'a Scan, digests: &'a [Digest]) -> FinishedScan<'a>
        requires { IsFinished scan.now digests.now }
        ensures { result ≡ scan.now }
    {
        FinishedScan { scan, digests }
    }
}

impl<'a> MakeSnapshot for FinishedScan<'a> {
    ghost case = { λ f. f.case };

    ghost made = { λ f. scanning.snapshot_made f.scan.partial };

    fn make(self) -> Result<Snapshot, NoMemory> {
        self.scan.snapshot(self.digests)
    }
}
