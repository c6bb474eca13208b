//! Versions after invalidations, in both forms, and a ticket that is shared.

ghost use Rattle.std.specs.Prelude.{◌≡◌};

use crate::{FlatVersions, Ticket, TreeVersions, Versions};
use case_order::{Case, Share};
use std::alloc::Global;
use std::process::Abort;
use std::test::Fail;
use vfs_path::Path;

/// The version of the path with this text.
fn at<V: Versions>(alloc: Global, versions: &V, text: &str) -> Result<u64, Fail> {
    let path = Path::parse(alloc, text.as_bytes())?;
    Ok(versions.at(&path))
}

/// Raises `/a` and then `/A/b`, and asserts the versions of each of the three values in the end.
fn assert_raised<V: Versions + Drop>(rt: &impl Abort, alloc: Global, none: &V) -> Result<(), Fail>
    requires { V.count none.now ≡ 0 }
{
    let one = none.raised(&Path::parse(alloc, b"/a")?)?;
    let two = one.raised(&Path::parse(alloc, b"/A/b")?)?;
    for (text, after_one, after_two) in [
        ("/a/b/c", 1, 2),
        ("/a", 1, 2),
        ("/a/x", 1, 1),
        ("/ab", 0, 0),
        ("/b", 0, 0),
        ("/", 1, 2),
    ] {
        assert_eq!(rt; at(alloc, none, text)?, 0, "{text}");
        assert_eq!(rt; at(alloc, &one, text)?, after_one, "{text}");
        assert_eq!(rt; at(alloc, &two, text)?, after_two, "{text}");
    }
    assert_eq!(rt; (none.count(), one.count(), two.count()), (0, 1, 2));
    assert_eq!(rt; two.case(), Case::Insensitive);
    Ok(())
}

#[test]
fn versions_are_of_what_is_related(rt: HostRuntime) -> Result<(), Fail> {
    let alloc = rt.alloc();
    let none = FlatVersions::new(alloc, Case::Insensitive);
    assert_raised(&rt, alloc, &none)
}

#[test]
fn versions_of_the_tree_are_of_what_is_related(rt: HostRuntime) -> Result<(), Fail> {
    let alloc = rt.alloc();
    let none = TreeVersions::new(alloc, Case::Insensitive);
    assert_raised(&rt, alloc, &none)
}

/// Asserts that both forms tell the same of some paths.
fn assert_alike(
    rt: &impl Abort,
    alloc: Global,
    flat: &FlatVersions,
    tree: &TreeVersions,
) -> Result<(), Fail> {
    for text in [
        "/", "/a", "/A/b", "/a/b/c", "/a/x", "/b", "/c", "/c/d/e/f", "/k", "/l/m", "/n",
    ] {
        assert_eq!(rt; at(alloc, tree, text)?, at(alloc, flat, text)?, "{text}");
    }
    assert_eq!(rt; tree.count(), flat.count());
    Ok(())
}

#[test]
fn both_forms_tell_the_same_after_each_raise(rt: HostRuntime) -> Result<(), Fail> {
    let alloc = rt.alloc();
    let mut flat = FlatVersions::new(alloc, Case::Insensitive);
    let mut tree = TreeVersions::new(alloc, Case::Insensitive);
    for text in [
        "/a/b", "/c/D/e", "/A", "/f", "/e", "/g", "/b/x", "/d", "/i", "/h", "/j", "/L", "/k/y",
        "/a/B/c", "/", "/c", "/l/m",
    ] {
        let path = Path::parse(alloc, text.as_bytes())?;
        assert!(rt; flat.count() < 100);
        assert!(rt; tree.count() < 100);
        flat = flat.raised(&path)?;
        tree = tree.raised(&path)?;
        assert_alike(&rt, alloc, &flat, &tree)?;
    }
    Ok(())
}

#[test]
fn shared_ticket_has_path_and_version(rt: HostRuntime) -> Result<(), Fail> {
    let alloc = rt.alloc();
    let ticket = Ticket {
        path: Path::parse(alloc, b"/a/B")?,
        seen: 7,
    };
    let shared = ticket.share()?;
    assert_eq!(rt; shared.path, Path::parse(alloc, b"/a/B")?);
    assert_eq!(rt; shared.seen, 7);
    Ok(())
}
