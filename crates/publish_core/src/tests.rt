//! When a ticket is stale, and what a publication leaves, over lists.

ghost use Rattle.std.specs.Prelude.{◌≡◌, ◌≢◌, ◌<◌, ◌^◌, [], IfOk, Some, length, map};
ghost use Rattle.vfs_model.specs.declared.Case.{Case as CaseOf};
ghost use Rattle.vfs_model.specs.declared.Case.TheVariants.{Insensitive};
ghost use Rattle.vfs_model.specs.Snapshot.{Missing, IsTree};
ghost use Rattle.snapshot_tree.specs.Meaning.{meaning_of};
ghost use Rattle.snapshot_hierarchy.specs.Held.{change_of};

use crate::{MakeSnapshot, Published, Refusal, Vfs};
use case_order::{Case, NoMemory, Share, share_all};
use merkle_hash::{Digest, file_digest};
use snapshot_hierarchy::{Change, FlatRetain, Retain, Shown, Stored};
use snapshot_tree::{DirBuilder, Glance, Kind, Snapshot};
use std::alloc::Global;
use std::cell::Cell;
use std::process::Abort;
use std::sync::Wait;
use std::test::Fail;
use std::thread::Threads;
use version_hierarchy::{FlatVersions, Versions};
use vfs_path::{Name, Path};

fn empty(alloc: Global) -> Vfs<FlatRetain, FlatVersions>
    ensures versions { length result.versions.places ≡ 0 }
    ensures case { result.case ≡ Case.Insensitive }
{
    let retained = FlatRetain::new(alloc, Case::Insensitive);
    Vfs::make(retained, FlatVersions::new(alloc, Case::Insensitive))
}

fn path(alloc: Global, text: &str) -> Result<Path, Fail> {
    Ok(Path::parse(alloc, text.as_bytes())?)
}

fn file(text: &str) -> Snapshot
    ensures there { meaning_of result ≢ Missing }
    ensures tree { (case : CaseOf) → IsTree case (meaning_of result) }
{
    Snapshot::File(file_digest(text.as_bytes()))
}

fn missing() -> Snapshot
    ensures { (case : CaseOf) → IsTree case (meaning_of result) }
{
    Snapshot::Missing
}

/// The directory with one file, which holds its name.
fn directory(alloc: Global, name: &str) -> Result<Snapshot, Fail>
    ensures { IfOk result (λ snapshot. IsTree Case.Insensitive (meaning_of snapshot)) }
{
    let mut builder = DirBuilder::new(alloc, Case::Insensitive);
    builder.add(Name::from_bytes(alloc, name.as_bytes())?, file(name))?;
    Ok(builder.finish()?)
}

/// Publishes the snapshot at the path, with a ticket of just now.
fn publish<R: Retain, V: Versions>(
    alloc: Global,
    vfs: &mut Vfs<R, V>,
    at: &str,
    snapshot: Snapshot,
) -> Result<Published, Fail>
    requires { IsTree vfs.old.case (meaning_of snapshot) }
    ensures case { vfs.new.case ≡ vfs.old.case }
    ensures versions { vfs.new.versions ≡ vfs.old.versions }
{
    let ticket = vfs.begin(path(alloc, at)?);
    Ok(vfs.publish(ticket, snapshot))
}

/// Publishes at `/a/b`, after the path was invalidated, and asserts that the refusal was told
/// beforehand.
fn publish_after<R: Retain, V: Versions + Drop>(
    rt: &impl Abort,
    alloc: Global,
    vfs: &mut Vfs<R, V>,
    at: &str,
) -> Result<Published, Fail>
    requires { V.count vfs.old.versions < 2 ^ 62 }
{
    let ticket = vfs.begin(path(alloc, "/a/b")?);
    let later = ticket.share()?;
    vfs.invalidate(&path(alloc, at)?)?;
    let told = vfs.refusal(&later);
    let published = vfs.publish(ticket, file("x"));
    let refused = match published {
        Published::Stale(version) => Some(Refusal::Stale(version)),
        Published::Covered => Some(Refusal::Covered),
        Published::Stored | Published::NoMemory => None,
    };
    assert_eq!(rt; told, refused, "at {at}");
    Ok(published)
}

/// The digest of what is found at the path.
fn digest_at<R: Retain, V: Versions>(
    alloc: Global,
    vfs: &Vfs<R, V>,
    at: &str,
) -> Result<Option<Digest>, Fail> {
    match vfs.find(&path(alloc, at)?) {
        Some(glance) => Ok(glance.digest),
        None => Ok(None),
    }
}

fn kind_at<R: Retain, V: Versions>(
    alloc: Global,
    vfs: &Vfs<R, V>,
    at: &str,
) -> Result<Option<Kind>, Fail> {
    Ok(vfs.kind(&path(alloc, at)?))
}

#[test]
fn ticket_is_stale_where_a_related_path_was_invalidated(rt: HostRuntime) -> Result<(), Fail> {
    let alloc = rt.alloc();
    for (at, want) in [
        ("/a", Published::Stale(1)),
        ("/A/b", Published::Stale(1)),
        ("/a/b/c", Published::Stale(1)),
        ("/", Published::Stale(1)),
        ("/a/c", Published::Stored),
        ("/b", Published::Stored),
    ] {
        let mut vfs = empty(alloc);
        assert_eq!(rt; publish_after(&rt, alloc, &mut vfs, at)?, want, "at {at}");
    }
    Ok(())
}

/// The making of a snapshot of nothing, which is counted.
#[derive(Drop)]
struct Counted<'a> {
    makings: &'a Cell<u64>,
}

impl<'a> MakeSnapshot for Counted<'a> {
    ghost case = { λ _. Insensitive };

    ghost made = { λ _. Missing };

    fn make(self) -> Result<Snapshot, NoMemory> {
        self.makings.set(self.makings.get().saturating_add(1));
        Ok(Snapshot::Missing)
    }
}

#[test]
fn refused_publication_makes_no_snapshot(rt: HostRuntime) -> Result<(), Fail> {
    let alloc = rt.alloc();
    let mut vfs = empty(alloc);
    let makings = Cell::new(0u64);
    let early = vfs.begin(path(alloc, "/a/b")?);
    vfs.invalidate(&path(alloc, "/a")?)?;
    let stale = vfs.publish_made(&early, Counted { makings: &makings });
    assert_eq!(rt; (stale, makings.get()), (Published::Stale(1), 0));
    let fresh = vfs.begin(path(alloc, "/a/b")?);
    let stored = vfs.publish_made(&fresh, Counted { makings: &makings });
    assert_eq!(rt; (stored, makings.get()), (Published::Stored, 1));
    let below = vfs.begin(path(alloc, "/a/b/c")?);
    let covered = vfs.publish_made(&below, Counted { makings: &makings });
    assert_eq!(rt; (covered, makings.get()), (Published::Covered, 1));
    assert_eq!(rt; kind_at(alloc, &vfs, "/a/b")?, Some(Kind::Missing));
    Ok(())
}

#[test]
fn file_is_kept_above_what_lies_below_it(rt: HostRuntime) -> Result<(), Fail> {
    let alloc = rt.alloc();
    let mut vfs = empty(alloc);
    assert_eq!(rt;
        publish(alloc, &mut vfs, "/a/b", file("x"))?,
        Published::Stored
    );
    assert_eq!(rt;
        publish(alloc, &mut vfs, "/a/b/c", file("y"))?,
        Published::Covered
    );
    assert_eq!(rt; digest_at(alloc, &vfs, "/A/B")?, Some(file_digest(b"x")));
    assert_eq!(rt; kind_at(alloc, &vfs, "/a")?, Some(Kind::Dir));
    assert_eq!(rt; vfs.count(), 0);
    vfs.drop_all()?;
    assert_eq!(rt; kind_at(alloc, &vfs, "/a")?, None);
    assert_eq!(rt; vfs.count(), 1);
    Ok(())
}

/// Asserts the part at the path: nothing is retained there, nothing was there, or the digest.
fn assert_part<R: Retain, V: Versions>(
    rt: &impl Abort,
    alloc: Global,
    vfs: &Vfs<R, V>,
    at: &str,
    want: Option<Option<Digest>>,
) -> Result<(), Fail> {
    let part = vfs.part(&path(alloc, at)?)?;
    assert_eq!(rt; part.map(|part| part.digest()), want, "at {at}");
    Ok(())
}

#[test]
fn part_is_what_was_published(rt: HostRuntime) -> Result<(), Fail> {
    let alloc = rt.alloc();
    let mut vfs = empty(alloc);
    let nothing = publish(alloc, &mut vfs, "/a", missing())?;
    assert_eq!(rt; nothing, Published::Stored);
    let whole = directory(alloc, "a")?;
    let published = publish(alloc, &mut vfs, "/d", whole)?;
    assert_eq!(rt; published, Published::Stored);
    for (at, want) in [
        ("/a/b", Some(None)),
        ("/d/A", Some(Some(file_digest(b"a")))),
        ("/d/b", Some(None)),
        ("/x", None),
    ] {
        assert_part(&rt, alloc, &vfs, at, want)?;
    }
    let retained = vfs.into_retained();
    assert_eq!(rt; retained.kind(&path(alloc, "/d")?), Some(Kind::Dir));
    Ok(())
}

/// Two lists, and the changes that were made of them.
#[derive(Drop)]
struct Recorded {
    retained: FlatRetain,
    changes: Vec<Change>,
}

impl Retain for Recorded {
    ghost held = { λ r. record { case = r.retained.case; retained = r.retained.retained; log = Some (record { board = []; changes = map change_of r.changes.items }) } };

    fn case(&self) -> Case {
        self.retained.case()
    }

    fn part(&self, path: &Path) -> Result<Option<Snapshot>, NoMemory> {
        self.retained.part(path)
    }

    fn find(&self, path: &Path) -> Option<Glance> {
        self.retained.find(path)
    }

    fn kind(&self, path: &Path) -> Option<Kind> {
        self.retained.kind(path)
    }

    fn covers(&self, path: &Path) -> bool {
        self.retained.covers(path)
    }

    fn store(&mut self, path: &Path, snapshot: Snapshot) -> Result<Stored, NoMemory> {
        if self.retained.covers(path) {
            return Ok(Stored::Covered);
        }
        let change = Change::Kept(path.share()?, snapshot.share()?);
        self.changes.reserve(1)?;
        let stored = self.retained.store(path, snapshot)?;
        self.changes.push_reserved(change);
        Ok(stored)
    }

    fn invalidate(&mut self, path: &Path) -> Result<(), NoMemory> {
        let change = Change::Gone(path.share()?);
        self.changes.reserve(1)?;
        self.retained.invalidate(path)?;
        self.changes.push_reserved(change);
        Ok(())
    }

    fn clear(&mut self) -> Result<(), NoMemory> {
        self.changes.reserve(1)?;
        self.retained.clear()?;
        self.changes.push_reserved(Change::Cleared);
        Ok(())
    }
}

/// All the changes that were shown.
#[derive(Drop)]
struct Shelf {
    changes: Vec<Change>,
}

impl Shown for Recorded {
    type Note = Shelf;

    ghost noted = { λ n. record { board = []; changes = map change_of n.changes.items } };

    fn show<X: Threads + Wait + Sync>(&mut self, _rt: &X) -> Result<Shelf, NoMemory> {
        let changes = share_all(*self.changes.allocator(), &self.changes)?;
        Ok(Shelf { changes })
    }
}

fn telling(alloc: Global) -> Vfs<Recorded, FlatVersions>
    ensures versions { length result.versions.places ≡ 0 }
    ensures case { result.case ≡ Case.Insensitive }
{
    let retained = FlatRetain::new(alloc, Case::Insensitive);
    let changes = Vec::new(alloc);
    let versions = FlatVersions::new(alloc, Case::Insensitive);
    Vfs::make(Recorded { retained, changes }, versions)
}

/// Shows the changes so far.
fn shown<X: Threads + Wait + Sync>(
    rt: &X,
    vfs: &mut Vfs<Recorded, FlatVersions>,
) -> Result<Shelf, NoMemory> {
    vfs.show(rt)
}

/// Publishes at `/d`, where it is retained, and at `/d/a`, where it is not; then `/D` is invalidated
/// and all is dropped.
fn change_thrice(alloc: Global, vfs: &mut Vfs<Recorded, FlatVersions>) -> Result<(), Fail>
    requires versions { length vfs.old.versions.places ≡ 0 }
{
    publish(alloc, vfs, "/d", file("x"))?;
    publish(alloc, vfs, "/d/a", file("y"))?;
    vfs.invalidate(&path(alloc, "/D")?)?;
    vfs.drop_all()?;
    Ok(())
}

#[test]
fn changes_are_shown_but_not_a_covered_publication(rt: HostRuntime) -> Result<(), Fail> {
    let alloc = rt.alloc();
    let mut vfs = telling(alloc);
    change_thrice(alloc, &mut vfs)?;
    let shelf = shown(&rt, &mut vfs)?;
    let mut shape = Vec::new(alloc);
    for change in &shelf.changes {
        shape.push(match change {
            Change::Kept(path, _) => (0u64, path.len()),
            Change::Gone(path) => (1u64, path.len()),
            Change::Cleared => (2u64, 0),
        })?;
    }
    assert_eq!(rt; shape.as_slice(), [(0u64, 1), (1, 1), (2, 0)].as_slice());
    Ok(())
}
