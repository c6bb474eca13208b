//! Walks.

ghost use Rattle.std.specs.Prelude.{◌≡◌, ◌↔◌, ◌+◌, ◌++◌, IfOk, OnOk, OnErr, IsSome, None, length, map, option_map};
ghost use Rattle.std.specs.Option.{option_copied, ForSome};
ghost use Rattle.vfs_model.specs.Scanning as scanning;
ghost use Rattle.vfs_model.specs.Snapshot.{IsTree};
ghost use Rattle.vfs_model.specs.World.{digest_of_bytes};
ghost use Rattle.snapshot_tree.specs.Meaning.{meaning_of};
ghost use Rattle.vfs_model.specs.Sound.{IsLook};
ghost use Rattle.world_model.specs.Meaning.{look_seen};
ghost use Rattle.scan_walk.specs.Progress.{IsShaped};

use crate::additions::{add_content, children_of, content_of, names_of, replace_last};
use crate::making::snapshots_of;
use case_order::{Case, NoMemory, Share};
use merkle_hash::{Bytes, Digest};
use snapshot_tree::Snapshot;
use std::alloc::Global;
use std::marker::Model;
use vfs_path::Path;
use world_model::Entry;

/// A walk over the locations at and below a path, depth first in name order.
///
/// Contracts see the case, the path, and what was read so far, which is always in shape: the names
/// of each directory are in order under the case and at most 4,096, none is listed at a location of
/// 64 names, and nothing behind the next location is read yet.
#[derive(Drop)]
pub struct ScanWalk {
    alloc: Global,
    case: Case,
    path: Path,
    seen: Vec<Entry>,
    contents: Vec<Bytes>,
    left: Vec<Path>,
}

impl Model for ScanWalk {
    ghost use Rattle.std.specs.Prelude.{map};
    ghost use Rattle.world_model.specs.Meaning.{look_seen};
    ghost use Rattle.scan_walk.specs.Progress.{Progress, progress_code};
    ghost use Rattle.scan_walk.specs.Walking.{progress_after, IsWalk};

    ghost Value = { Progress };

    ghost coded = { progress_code };

    ghost view = { λ w. progress_after w.case w.path (map look_seen w.seen.items) };

    ghost invariant = { λ w. IsWalk (progress_after w.case w.path (map look_seen w.seen.items)) (map look_seen w.seen.items) w.contents.items w.left.items };
}

impl ScanWalk {
    /// A walk that has read nothing, with the path itself left.
    ///
    /// The only error is want of memory.
    pub fn begin(alloc: Global, case: Case, path: &Path) -> Result<ScanWalk, NoMemory>
        ensures { IfOk result (λ walk. walk ≡ record { case = case; path = path.now; partial = scanning.Unread }) }
    {
        let mut left = Vec::new(alloc);
        left.push(path.share()?)?;
        Ok(ScanWalk {
            alloc,
            case,
            path: path.share()?,
            seen: Vec::new(alloc),
            contents: Vec::new(alloc),
            left,
        })
    }

    /// The path of the walk.
    pub fn path(&self) -> &Path
        ensures path { result.now ≡ self.now.path }
        ensures shape { IsShaped self.now }
    {
        &self.path
    }

    /// The location to be looked at next: the first that is left, depth first in name order; None
    /// exactly where nothing is left.
    pub fn next(&self) -> Option<&Path>
        ensures { option_copied result ≡ option_map (λ y. self.now.path ++ y) (scanning.next_left self.now.partial) }
    {
        self.left.last()
    }

    /// How many locations are left.
    pub fn left(&self) -> u64
        ensures count { result ≡ scanning.count_left self.now.partial }
        ensures done { (result ≡ 0) ↔ (scanning.next_left self.now.partial ≡ None) }
    {
        self.left.len() as u64
    }

    /// The look at the next location gave this entry.
    ///
    /// A location is left, and the names of a directory are as a look at it lists them: in order
    /// under the case, no two the same, at most 4,096, and none where its path has 64 names. The
    /// only error is want of memory; then nothing changed.
    pub fn see(&mut self, entry: Entry) -> Result<(), NoMemory>
        requires left { IsSome (scanning.next_left self.old.partial) }
        requires look { ForSome (scanning.next_left self.old.partial) (λ y. IsLook self.old.case (length self.old.path + length y) (look_seen entry)) }
        ensures seen { OnOk result (self.new ≡ record self.old { partial = scanning.after_look (look_seen entry) self.old.partial }) }
        ensures refused { OnErr result (self.new ≡ self.old) }
    {
        let Some(location) = self.left.last() else {
            unreachable!()
        };
        let children = children_of(self.alloc, location, names_of(&entry))?;
        let content = content_of(&entry)?;
        self.left.reserve(children.len())?;
        self.contents.reserve(1)?;
        self.seen.reserve(1)?;
        replace_last(&mut self.left, children);
        add_content(&mut self.contents, content);
        self.seen.push_reserved(entry);
        Ok(())
    }

    /// The bytes of the files that were read, in the order of reading.
    pub fn contents(&self) -> &[Bytes]
        ensures { result.now ≡ scanning.contents self.now.partial }
    {
        self.contents.as_slice()
    }

    /// The snapshot of what was read, whose contents have these digests, in order; a child that was
    /// listed and later seen missing is left out.
    ///
    /// The only error is want of memory.
    pub fn snapshot(&self, digests: &[Digest]) -> Result<Snapshot, NoMemory>
        requires done { scanning.next_left self.now.partial ≡ None }
        requires digests { digests.now ≡ map digest_of_bytes (scanning.contents self.now.partial) }
        ensures snapshot { IfOk result (λ snapshot. meaning_of snapshot ≡ scanning.snapshot_made self.now.partial) }
        ensures tree { IfOk result (λ snapshot. IsTree self.now.case (meaning_of snapshot)) }
    {
        let mut made = snapshots_of(self.alloc, self.case, &self.seen, digests)?;
        match made.pop() {
            Some(snapshot) => Ok(snapshot),
            None => unreachable!(),
        }
    }
}
