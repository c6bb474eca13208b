//! What is told at and below a location, what is built, and what is left.

ghost use Rattle.std.specs.Prelude.{◌≢◌};
ghost use Rattle.vfs_model.specs.Snapshot.{Missing};
ghost use Rattle.snapshot_tree.specs.Meaning.{meaning_of};

use crate::{DirBuilder, Kind, Pieces, Snapshot};
use case_order::{Case, Share, order};
use merkle_hash::{Digest, file_digest};
use std::alloc::Global;
use std::process::Abort;
use std::test::Fail;
use vfs_path::{Name, Path};

fn file(text: &str) -> Snapshot
    ensures { meaning_of result ≢ Missing }
{
    Snapshot::File(file_digest(text.as_bytes()))
}

/// The directory with a file of each name, which holds its name.
fn directory(
    rt: &impl Abort,
    alloc: Global,
    first: &str,
    second: Option<&str>,
) -> Result<Snapshot, Fail> {
    let name = Name::from_bytes(alloc, first.as_bytes())?;
    let mut builder = DirBuilder::new(alloc, Case::Sensitive);
    match second {
        None => builder.add(name, file(first))?,
        Some(second) => {
            let last = Name::from_bytes(alloc, second.as_bytes())?;
            assert!(rt; order(Case::Sensitive, name.as_bytes(), last.as_bytes()).is_lt());
            builder.add(name, file(first))?;
            builder.add(last, file(second))?;
        }
    }
    Ok(builder.finish()?)
}

fn hex_of(snapshot: &Snapshot) -> [u8; 32] {
    match snapshot.digest() {
        Some(digest) => digest.to_hex(),
        None => [b'-'; 32],
    }
}

/// Asserts what the snapshot of the path's first name tells of the path.
fn assert_told(
    rt: &impl Abort,
    alloc: Global,
    snapshot: &Snapshot,
    text: &str,
    kind: Kind,
    digest: Option<Digest>,
) -> Result<(), Fail> {
    let path = Path::parse(alloc, text.as_bytes())?;
    assert!(rt; path.len() >= 1);
    let glance = snapshot.share()?.glance(Case::Sensitive, &path, 1);
    assert_eq!(rt; glance.kind, kind, "{text}");
    assert_eq!(rt; glance.digest, digest, "{text}");
    let part = snapshot.sub(Case::Sensitive, &path, 1)?;
    assert_eq!(rt; part.kind(), kind, "{text}");
    assert_eq!(rt; part.digest(), digest, "{text}");
    Ok(())
}

#[test]
fn nothing_is_below_a_file(rt: HostRuntime) -> Result<(), Fail> {
    let alloc = rt.alloc();
    let digest = file_digest(b"abc");
    let file = Snapshot::File(digest);
    assert_told(&rt, alloc, &file, "/f", Kind::File, Some(digest))?;
    assert_told(&rt, alloc, &file, "/f/x", Kind::Missing, None)?;
    let missing = Snapshot::Missing;
    assert_told(&rt, alloc, &missing, "/f", Kind::Missing, None)?;
    assert_told(&rt, alloc, &missing, "/f/x", Kind::Missing, None)?;
    Ok(())
}

#[test]
fn children_are_told_by_their_directory(rt: HostRuntime) -> Result<(), Fail> {
    let alloc = rt.alloc();
    let directory = directory(&rt, alloc, "a", Some("b"))?;
    let whole = directory.digest();
    for (text, kind, digest) in [
        ("/d", Kind::Dir, whole),
        ("/d/a", Kind::File, Some(file_digest(b"a"))),
        ("/d/b", Kind::File, Some(file_digest(b"b"))),
        ("/d/A", Kind::Missing, None),
        ("/d/a/b", Kind::Missing, None),
        ("/d/c", Kind::Missing, None),
    ] {
        assert_told(&rt, alloc, &directory, text, kind, digest)?;
    }
    Ok(())
}

#[test]
fn directories_are_built_of_their_children(rt: HostRuntime) -> Result<(), Fail> {
    let alloc = rt.alloc();
    let one = directory(&rt, alloc, "a", None)?;
    assert_eq!(rt;
        hex_of(&one).as_slice(),
        b"d82cdc9dc4d40917449769aa7211a458".as_slice()
    );
    let two = directory(&rt, alloc, "a", Some("b"))?.share()?;
    assert_eq!(rt;
        hex_of(&two).as_slice(),
        b"d40a4912bff328225550624ae9b64f76".as_slice()
    );
    let Snapshot::Dir(children) = &two else {
        panic!(rt; "no directory");
    };
    assert_eq!(rt; children.len(), 2);
    assert_eq!(rt; children.name(1).as_bytes(), b"b".as_slice());
    assert_eq!(rt; children.child(1).digest(), Some(file_digest(b"b")));
    Ok(())
}

/// What is left of the snapshot at the first path where the second has changed.
fn left_of(
    rt: &impl Abort,
    alloc: Global,
    snapshot: &Snapshot,
    at: &str,
    e: &str,
) -> Result<Pieces, Fail> {
    let at = Path::parse(alloc, at.as_bytes())?;
    let e = Path::parse(alloc, e.as_bytes())?;
    assert!(rt; at.is_at_or_above(Case::Sensitive, &e));
    Ok(snapshot.pieces(alloc, Case::Sensitive, &at, &e)?)
}

#[test]
fn what_stands_beside_the_way_is_left(rt: HostRuntime) -> Result<(), Fail> {
    let alloc = rt.alloc();
    let snapshot = directory(&rt, alloc, "a", Some("b"))?;
    let left = left_of(&rt, alloc, &snapshot, "/d", "/d/a/q")?;
    let pairs = left.pairs.share()?;
    assert_eq!(rt; pairs.as_slice().len(), 1);
    assert!(rt; pairs.as_slice()[0].path == Path::parse(alloc, b"/d/b")?);
    assert_eq!(rt;
        pairs.as_slice()[0].snapshot.digest(),
        Some(file_digest(b"b"))
    );
    assert_eq!(rt; left.dirs.as_slice().len(), 1);
    assert!(rt; left.dirs.as_slice()[0] == Path::parse(alloc, b"/d")?);
    Ok(())
}

#[test]
fn nothing_is_left_of_a_file(rt: HostRuntime) -> Result<(), Fail> {
    let left = left_of(&rt, rt.alloc(), &file("f"), "/f", "/f/x")?;
    assert!(rt; left.pairs.as_slice().is_empty());
    assert!(rt; left.dirs.as_slice().is_empty());
    Ok(())
}
