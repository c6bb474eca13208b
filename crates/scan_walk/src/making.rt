//! The snapshots of what was read.

ghost use Rattle.std.specs.Prelude.{◌≡◌, ◌∷◌, ◌<◌, ◌≤◌, ◌-◌, ℕ, List, IfOk, OnOk, Some, drop, length, map, slice_get, vec_len};
ghost use Rattle.std.specs.List.{AllByRecursion as Each};
ghost use Rattle.vfs_model.specs.World.{digest_of_bytes};
ghost use Rattle.vfs_model.specs.Snapshot.{Dir, names_of};
ghost use Rattle.vfs_model.specs.Scanning.{names_seen, SeesFile, IsListed};
ghost use Rattle.world_model.specs.Meaning.{look_seen};
ghost use Rattle.snapshot_tree.specs.Meaning.{meaning_of};
ghost use Rattle.snapshot_tree.specs.Listing.{IsAfterLast};
ghost use Rattle.scan_walk.specs.Walking.{bytes_seen};
ghost use Rattle.scan_walk.specs.Making.{bytes_of, children_with, followed_by_present, made_by, made_of, AreWhole, stacked};

use case_order::{Case, NoMemory, Share};
use merkle_hash::Digest;
use snapshot_tree::{DirBuilder, Snapshot};
use std::alloc::Global;
use vfs_path::Name;
use world_model::Entry;

/// The snapshots of what was seen, in order, with the digests of the files; the first one last, and
/// that of a directory in place of its children's.
///
/// The only error is want of memory.
pub(crate) fn snapshots_of(
    alloc: Global,
    case: Case,
    seen: &[Entry],
    digests: &[Digest],
) -> Result<Vec<Snapshot>, NoMemory>
    requires digests { digests.now ≡ map digest_of_bytes (bytes_of (map look_seen seen.now)) }
    requires whole { AreWhole (map look_seen seen.now) }
    requires listed { Each (λ l. IsListed case (names_seen l)) (map look_seen seen.now) }
    ensures { IfOk result (λ made. stacked made.items ≡ made_of (map look_seen seen.now)) }
{
    let mut made = Vec::new(alloc);
    let mut files = digests.len();
    for i in 0..seen.len() {
        let entry = &seen[seen.len() - 1 - i];
        let snapshot = snapshot_of(alloc, case, entry, &digests[..files], &mut made)?;
        made.push(snapshot)?;
        files -= file_count(entry);
    }
    Ok(made)
}

/// 1 for a file.
fn file_count(entry: &Entry) -> usize
    ensures { result ≡ length (bytes_seen (look_seen entry.now)) }
{
    match entry {
        Entry::Missing => 0,
        Entry::File(_) => 1,
        Entry::Dir(_) => 0,
    }
}

/// The snapshot of what the entry shows: a file with the last of the digests, a directory with the
/// snapshots of its children, which go from the stack.
///
/// The only error is want of memory.
fn snapshot_of(
    alloc: Global,
    case: Case,
    entry: &Entry,
    digests: &[Digest],
    made: &mut Vec<Snapshot>,
) -> Result<Snapshot, NoMemory>
    requires digest { (bytes : List ℕ) → look_seen entry.now ≡ SeesFile bytes → slice_get digests.now (length digests.now - 1) ≡ Some (digest_of_bytes bytes) }
    requires listed { IsListed case (names_seen (look_seen entry.now)) }
    requires whole { length (names_seen (look_seen entry.now)) ≤ vec_len made.old }
    ensures { IfOk result (λ snapshot. meaning_of snapshot ∷ stacked made.new.items ≡ made_by (look_seen entry.now) (stacked made.old.items)) }
{
    match entry {
        Entry::Missing => Ok(Snapshot::Missing),
        Entry::File(_) => match digests.last() {
            Some(digest) => Ok(Snapshot::File(*digest)),
            None => unreachable!(),
        },
        Entry::Dir(names) => directory_of(alloc, case, names.as_slice(), made),
    }
}

/// The directory of the children with these names, whose snapshots go from the stack, the last one
/// first; those that are missing are left out.
///
/// The only error is want of memory.
fn directory_of(
    alloc: Global,
    case: Case,
    names: &[Name],
    made: &mut Vec<Snapshot>,
) -> Result<Snapshot, NoMemory>
    requires listed { IsListed case names.now }
    requires whole { length names.now ≤ vec_len made.old }
    ensures directory { IfOk result (λ snapshot. meaning_of snapshot ≡ Dir (children_with names.now (stacked made.old.items))) }
    ensures rest { OnOk result (stacked made.new.items ≡ drop (length names.now) (stacked made.old.items)) }
{
    let mut builder = DirBuilder::new(alloc, case);
    for name in names {
        let Some(snapshot) = made.pop() else {
            unreachable!()
        };
        add_present(&mut builder, name, snapshot)?;
    }
    builder.finish()
}

/// Adds a child behind the others, unless it is missing.
///
/// The only error is want of memory.
fn add_present(builder: &mut DirBuilder, name: &Name, snapshot: Snapshot) -> Result<(), NoMemory>
    requires order { IsAfterLast builder.old.case builder.old.children name.now }
    requires room { length (names_of builder.old.children) < 4096 }
    ensures case { OnOk result (builder.new.case ≡ builder.old.case) }
    ensures added { OnOk result (builder.new.children ≡ followed_by_present builder.old.children name.now (meaning_of snapshot)) }
{
    match snapshot {
        Snapshot::Missing => Ok(()),
        Snapshot::File(digest) => builder.add(name.share()?, Snapshot::File(digest)),
        Snapshot::Dir(children) => builder.add(name.share()?, Snapshot::Dir(children)),
    }
}
