//! Scans in progress.

ghost use Rattle.std.specs.Prelude.{◌≡◌, ◌++◌, None, IfOk, OnOk, OnErr, map, option_map};
ghost use Rattle.std.specs.Option.{option_copied};
ghost use Rattle.vfs_model.specs.World.{digest_of_bytes};
ghost use Rattle.vfs_model.specs.Scanning as scanning;
ghost use Rattle.vfs_model.specs.Snapshot.{IsTree};
ghost use Rattle.snapshot_tree.specs.Meaning.{meaning_of};
ghost use Rattle.world_model.specs.Meaning.{look_seen};
ghost use Rattle.scan_walk.specs.Scans.{IsLookOf, IsShapedRunning, cased_after, location_of};

use crate::walk::ScanWalk;
use case_order::{Case, NoMemory};
use merkle_hash::{Bytes, Digest};
use snapshot_tree::Snapshot;
use std::alloc::Global;
use std::marker::Model;
use version_hierarchy::Ticket;
use vfs_path::Path;
use world_model::Entry;

/// A scan in progress: its path with the version at its begin, and the walk over it.
///
/// Contracts see the case of the walk, the path, that version, and what was read so far.
#[derive(Drop)]
pub struct Scan {
    ticket: Ticket,
    walk: ScanWalk,
}

impl Model for Scan {
    ghost use Rattle.std.specs.Prelude.{◌≡◌};
    ghost use Rattle.scan_walk.specs.Cased.{CasedScan, cased_code};

    ghost Value = { CasedScan };

    ghost coded = { cased_code };

    ghost view = { λ s. record { case = s.walk.case; scan = record { path = s.ticket.path; seen = s.ticket.seen; partial = s.walk.partial } } };

    ghost invariant = { λ s. s.walk.path ≡ s.ticket.path };
}

impl Scan {
    /// A scan of the ticket's path, with nothing read.
    ///
    /// The only error is want of memory.
    pub fn begin(alloc: Global, case: Case, ticket: Ticket) -> Result<Scan, NoMemory>
        ensures { IfOk result (λ s. s ≡ record { case = case; scan = record { path = ticket.path; seen = ticket.seen; partial = scanning.Unread } }) }
    {
        let walk = ScanWalk::begin(alloc, case, &ticket.path)?;
        Ok(Scan { ticket, walk })
    }

    /// The path, and its version at the begin.
    pub fn ticket(&self) -> &Ticket
        ensures path { result.now.path ≡ self.now.scan.path }
        ensures seen { result.now.seen ≡ self.now.scan.seen }
    {
        &self.ticket
    }

    /// The location to be read next; None exactly where nothing is left.
    pub fn next(&self) -> Option<&Path>
        ensures { option_copied result ≡ location_of self.now.scan }
    {
        self.walk.next()
    }

    /// How many locations are left.
    pub fn left(&self) -> u64
        ensures { result ≡ scanning.count_left self.now.scan.partial }
    {
        self.walk.left()
    }

    /// The next location was seen.
    ///
    /// A location is left, and the names of a directory are as a look at it lists them. The only
    /// error is want of memory; then nothing changed.
    pub fn see(&mut self, entry: Entry) -> Result<(), NoMemory>
        requires { IsLookOf self.old (look_seen entry) }
        ensures seen { OnOk result (self.new ≡ cased_after (look_seen entry) self.old) }
        ensures refused { OnErr result (self.new ≡ self.old) }
    {
        self.walk.see(entry)
    }

    /// The bytes of the files that were read, in order.
    pub fn contents(&self) -> &[Bytes]
        ensures bytes { result.now ≡ scanning.contents self.now.scan.partial }
        ensures shape { IsShapedRunning self.now.case self.now.scan }
    {
        let _path = self.walk.path();
        self.walk.contents()
    }

    /// The snapshot of what was read, with the digests of its contents.
    ///
    /// The only error is want of memory.
    pub fn snapshot(&self, digests: &[Digest]) -> Result<Snapshot, NoMemory>
        requires done { scanning.next_left self.now.scan.partial ≡ None }
        requires digests { digests.now ≡ map digest_of_bytes (scanning.contents self.now.scan.partial) }
        ensures snapshot { IfOk result (λ snapshot. meaning_of snapshot ≡ scanning.snapshot_made self.now.scan.partial) }
        ensures tree { IfOk result (λ snapshot. IsTree self.now.case (meaning_of snapshot)) }
    {
        self.walk.snapshot(digests)
    }
}
