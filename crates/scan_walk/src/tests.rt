//! Walks and scans over a small tree, from look to look, and the snapshot of what was read.

ghost use Rattle.std.specs.Prelude.{◌≡◌, ◌+◌, ◌<◌, None, IfOk, IsSome, IsTrue, length, map};
ghost use Rattle.std.specs.Option.{ForSome};
ghost use Rattle.vfs_model.specs.declared.Case.{Case};
ghost use Rattle.vfs_model.specs.Scanning as scanning;
ghost use Rattle.vfs_model.specs.World.{digest_of_bytes};
ghost use Rattle.world_model.specs.Meaning.{look_seen};

use crate::{Next, Scan, ScanWalk, contents_of, is_open, left_of, next_of, see_in, set_scan};
use case_order::{Case, NoMemory, order};
use merkle_hash::{Bytes, Digest, file_digest};
use snapshot_tree::{Kind, Snapshot};
use std::alloc::Global;
use std::process::Abort;
use std::test::Fail;
use version_hierarchy::Ticket;
use vfs_path::{Name, Names, Path};
use world_model::Entry;

/// What a look sees.
#[derive(Clone, Copy)]
enum Sees {
    Nothing,
    File(&'static str),
    Dir(&'static str, &'static str),
}

fn path(alloc: Global, text: &str) -> Result<Path, Fail> {
    Ok(Path::parse(alloc, text.as_bytes())?)
}

fn bytes(alloc: Global, text: &str) -> Result<Bytes, NoMemory> {
    let items = Vec::from_slice(alloc, text.as_bytes())?;
    match Bytes::from_vec(alloc, items) {
        Ok(bytes) => Ok(bytes),
        Err((_, refused)) => Err(refused),
    }
}

/// The two names, which are in order under each case.
fn names(rt: &impl Abort, alloc: Global, first: &str, second: &str) -> Result<Names, Fail>
    ensures { IfOk result (λ names. (case : Case) → scanning.IsListed case names) }
{
    let first = Name::from_bytes(alloc, first.as_bytes())?;
    let second = Name::from_bytes(alloc, second.as_bytes())?;
    assert!(rt; order(Case::Sensitive, first.as_bytes(), second.as_bytes()).is_lt());
    assert!(rt; order(Case::Insensitive, first.as_bytes(), second.as_bytes()).is_lt());
    let mut items = Vec::new(alloc);
    items.push(first)?;
    items.push(second)?;
    Ok(Names::from_vec(items))
}

fn entry(rt: &impl Abort, alloc: Global, sees: Sees) -> Result<Entry, Fail>
    ensures { IfOk result (λ entry. (case : Case) → scanning.IsListed case (scanning.names_seen (look_seen entry))) }
{
    match sees {
        Sees::Nothing => Ok(Entry::Missing),
        Sees::File(text) => Ok(Entry::File(bytes(alloc, text)?)),
        Sees::Dir(first, second) => Ok(Entry::Dir(names(rt, alloc, first, second)?)),
    }
}

/// Whether a location is left whose path has fewer than 64 names.
fn has_room(walk: &ScanWalk) -> bool
    ensures left { IsTrue result → IsSome (scanning.next_left walk.now.partial) }
    ensures room { IsTrue result → ForSome (scanning.next_left walk.now.partial) (λ y. length walk.now.path + length y < 64) }
{
    match walk.next() {
        None => false,
        Some(location) => location.len() < 64,
    }
}

fn is_next(walk: &ScanWalk, path: &Path) -> bool {
    match walk.next() {
        None => false,
        Some(location) => location == path,
    }
}

/// Asserts that the path is next, and looks there; gives how many locations are left then.
fn look(
    rt: &impl Abort,
    alloc: Global,
    walk: &mut ScanWalk,
    at: &str,
    sees: Sees,
) -> Result<u64, Fail> {
    assert!(rt; is_next(walk, &path(alloc, at)?), "at {at}");
    assert!(rt; has_room(walk));
    let entry = entry(rt, alloc, sees)?;
    walk.see(entry)?;
    Ok(walk.left())
}

/// The digests of the contents.
fn digests_of(alloc: Global, contents: &[Bytes]) -> Result<Vec<Digest>, NoMemory>
    ensures { IfOk result (λ digests. digests.items ≡ map digest_of_bytes contents.now) }
{
    let mut digests = Vec::new(alloc);
    for bytes in contents {
        digests.push(file_digest(bytes.as_slice()))?;
    }
    Ok(digests)
}

/// The snapshot, where nothing is left.
fn snapshot(rt: &impl Abort, alloc: Global, walk: &ScanWalk) -> Result<Snapshot, Fail> {
    assert!(rt; walk.left() == 0);
    let digests = digests_of(alloc, walk.contents())?;
    Ok(walk.snapshot(digests.as_slice())?)
}

/// A scan of the path, whose version at the begin is 3.
fn scan(alloc: Global, at: &str) -> Result<Scan, Fail> {
    let ticket = Ticket {
        path: path(alloc, at)?,
        seen: 3,
    };
    Ok(Scan::begin(alloc, Case::Insensitive, ticket)?)
}

/// Asserts that the path is next of the scan 1, and looks there; gives how many locations are left
/// then.
fn look_in(
    rt: &impl Abort,
    alloc: Global,
    scans: &mut Vec<Option<Scan>>,
    at: &str,
    sees: Sees,
) -> Result<u64, Fail>
    requires { length scans.old.items ≡ 2 }
    ensures { length scans.new.items ≡ 2 }
{
    let entry = entry(rt, alloc, sees)?;
    match next_of(scans, 1)? {
        Next::Location(location) => {
            assert_eq!(rt; location, path(alloc, at)?);
            assert!(rt; location.len() < 64);
            Ok(see_in(scans, 1, entry)?)
        }
        Next::Closed | Next::Done => {
            assert!(rt; false, "at {at}");
            Ok(0)
        }
    }
}

/// The snapshot of what the scan read, where nothing is left.
fn scanned(rt: &impl Abort, alloc: Global, scan: &Scan) -> Result<Snapshot, Fail> {
    assert!(rt; scan.next().is_none());
    assert_eq!(rt; scan.left(), 0);
    let digests = digests_of(alloc, scan.contents())?;
    Ok(scan.snapshot(digests.as_slice())?)
}

/// What the snapshot of the first name of the path tells of the path.
fn assert_told(
    rt: &impl Abort,
    alloc: Global,
    snapshot: &Snapshot,
    text: &str,
    kind: Kind,
) -> Result<(), Fail> {
    let at = path(alloc, text)?;
    assert!(rt; at.len() > 0);
    assert_eq!(rt;
        snapshot.glance(Case::Insensitive, &at, 1).kind,
        kind,
        "at {text}"
    );
    Ok(())
}

#[test]
fn walk_goes_depth_first_in_name_order(rt: HostRuntime) -> Result<(), Fail> {
    let alloc = rt.alloc();
    let mut walk = ScanWalk::begin(alloc, Case::Insensitive, &path(alloc, "/d")?)?;
    assert_eq!(rt; walk.path().len(), 1);
    assert_eq!(rt; walk.left(), 1);
    for (at, sees, left) in [
        ("/d", Sees::Dir("a", "b"), 2),
        ("/d/a", Sees::Dir("x", "y"), 3),
        ("/d/a/x", Sees::File("one"), 2),
        ("/d/a/y", Sees::Nothing, 1),
        ("/d/b", Sees::File("two"), 0),
    ] {
        assert_eq!(rt; look(&rt, alloc, &mut walk, at, sees)?, left, "at {at}");
    }
    assert!(rt; walk.next().is_none());
    let contents = walk.contents();
    assert_eq!(rt; contents.len(), 2);
    assert_eq!(rt; contents[0].as_slice(), b"one".as_slice());
    assert_eq!(rt; contents[1].as_slice(), b"two".as_slice());
    Ok(())
}

#[test]
fn location_seen_missing_is_left_out(rt: HostRuntime) -> Result<(), Fail> {
    let alloc = rt.alloc();
    let mut walk = ScanWalk::begin(alloc, Case::Sensitive, &path(alloc, "/")?)?;
    for (at, sees) in [
        ("/", Sees::Dir("a", "b")),
        ("/a", Sees::Nothing),
        ("/b", Sees::Dir("c", "d")),
        ("/b/c", Sees::File("one")),
        ("/b/d", Sees::File("two")),
    ] {
        let _left = look(&rt, alloc, &mut walk, at, sees)?;
    }
    let made = snapshot(&rt, alloc, &walk)?;
    for (text, kind) in [
        ("/r", Kind::Dir),
        ("/r/a", Kind::Missing),
        ("/r/b", Kind::Dir),
        ("/r/b/c", Kind::File),
        ("/r/b/d", Kind::File),
        ("/r/b/e", Kind::Missing),
    ] {
        assert_told(&rt, alloc, &made, text, kind)?;
    }
    Ok(())
}

#[test]
fn scans_are_read_by_their_numbers(rt: HostRuntime) -> Result<(), Fail> {
    let alloc = rt.alloc();
    let begun = scan(alloc, "/d")?;
    assert_eq!(rt; begun.ticket().path, path(alloc, "/d")?);
    assert_eq!(rt; begun.ticket().seen, 3);
    let mut scans = Vec::new(alloc);
    scans.push(None)?;
    scans.push(None)?;
    set_scan(&mut scans, 1, Some(begun));
    assert_eq!(rt; (is_open(&scans, 0), is_open(&scans, 1)), (false, true));
    assert_eq!(rt; (left_of(&scans, 0), left_of(&scans, 1)), (None, Some(1)));
    for (at, sees, left) in [
        ("/d", Sees::Dir("a", "b"), 2),
        ("/d/a", Sees::Nothing, 1),
        ("/d/b", Sees::File("two"), 0),
    ] {
        assert_eq!(rt; look_in(&rt, alloc, &mut scans, at, sees)?, left, "at {at}");
    }
    assert!(rt; matches!(next_of(&scans, 0)?, Next::Closed));
    assert!(rt; matches!(next_of(&scans, 1)?, Next::Done));
    assert!(rt; contents_of(&scans, 0).is_none());
    assert_eq!(rt;
        contents_of(&scans, 1).map(|contents| contents.len()),
        Some(1)
    );
    match &scans[1] {
        None => assert!(rt; false),
        Some(scan) => {
            let made = scanned(&rt, alloc, scan)?;
            assert_told(&rt, alloc, &made, "/d/a", Kind::Missing)?;
            assert_told(&rt, alloc, &made, "/d/b", Kind::File)?;
        }
    }
    set_scan(&mut scans, 1, None);
    assert!(rt; !is_open(&scans, 1));
    Ok(())
}
