//! How paths stand to keys, and what changes leave.

use crate::{ChildList, ChildMap, Entry, Form, Key, Place};
use case_order::{Case, Share, share_all};
use std::alloc::Global;
use std::process::Abort;
use std::test::Fail;
use vfs_path::{Name, Path};

/// The names of the path with this text.
fn names(alloc: Global, text: &str) -> Result<Vec<Name>, Fail> {
    let path = Path::parse(alloc, text.as_bytes())?;
    Ok(share_all(alloc, path.as_slice())?)
}

/// The map with one child more, whose value is a name with these bytes.
fn with(
    rt: &impl Abort,
    alloc: Global,
    map: &ChildMap<Name>,
    text: &str,
    value: &[u8],
) -> Result<ChildMap<Name>, Fail> {
    let key = names(alloc, text)?;
    let value = Name::from_bytes(alloc, value)?;
    assert!(rt; !key.is_empty());
    match map.get(key.as_slice()) {
        Place::Apart(i) => Ok(map.with(i, key, value)?),
        _ => panic!(rt; "a key with that first name"),
    }
}

/// The map of the one key `/a/b`.
fn one(rt: &impl Abort, alloc: Global) -> Result<ChildMap<Name>, Fail> {
    with(
        rt,
        alloc,
        &ChildMap::new(alloc, Case::Sensitive),
        "/a/b",
        b"v",
    )
}

/// The map of so many children, from `/b` on.
fn many(rt: &impl Abort, alloc: Global, count: usize) -> Result<ChildMap<Name>, Fail> {
    let mut map = ChildMap::new(alloc, Case::Insensitive);
    for text in ["/k", "/c", "/g", "/b", "/i", "/e", "/h", "/d", "/j", "/f"]
        .iter()
        .take(count)
    {
        map = with(rt, alloc, &map, text, b"v")?;
    }
    Ok(map)
}

fn assert_place(
    rt: &impl Abort,
    alloc: Global,
    map: &ChildMap<Name>,
    text: &str,
    want: Place,
) -> Result<(), Fail> {
    let path = names(alloc, text)?;
    assert!(rt; !path.is_empty());
    assert_eq!(rt; map.get(path.as_slice()), want, "{text}");
    Ok(())
}

/// Asserts that the map has this one key and value, each of one name.
fn assert_only(rt: &impl Abort, map: &ChildMap<Name>, key: &[u8], value: &[u8]) {
    assert_eq!(rt; map.len(), 1);
    assert_eq!(rt; map.key(0).len(), 1);
    assert_eq!(rt; map.key(0)[0].as_bytes(), key);
    assert_eq!(rt; map.value(0).as_bytes(), value);
}

#[test]
fn each_path_has_its_place(rt: HostRuntime) -> Result<(), Fail> {
    let alloc = rt.alloc();
    let map = one(&rt, alloc)?;
    for (text, want) in [
        ("/a/b", Place::Exact(0)),
        ("/a/b/c", Place::Below(0, 2)),
        ("/a", Place::Above(0)),
        ("/a/c", Place::Prefix(0, 1)),
        ("/b", Place::Apart(1)),
    ] {
        assert_place(&rt, alloc, &map, text, want)?;
    }
    Ok(())
}

#[test]
fn child_is_taken_from_two(rt: HostRuntime) -> Result<(), Fail> {
    let alloc = rt.alloc();
    let map = one(&rt, alloc)?;
    let two = with(&rt, alloc, &map, "/b", b"w")?;
    assert_eq!(rt; two.len(), 2);
    let left = two.without(0)?;
    assert_only(&rt, &left, b"b", b"w");
    assert_eq!(rt; (two.len(), map.len()), (2, 1));
    let none = left.without(0)?;
    assert!(rt; none.is_empty());
    Ok(())
}

#[test]
fn child_takes_the_place_of_another(rt: HostRuntime) -> Result<(), Fail> {
    let alloc = rt.alloc();
    let map = one(&rt, alloc)?;
    let key = names(alloc, "/a")?;
    assert!(rt; !key.is_empty());
    let Place::Above(i) = map.get(key.as_slice()) else {
        panic!(rt; "a key that is not below the path");
    };
    let changed = map.replaced(i, key, Name::from_bytes(alloc, b"w")?)?;
    assert_only(&rt, &changed, b"a", b"w");
    assert_place(&rt, alloc, &map, "/a/b", Place::Exact(0))
}

#[test]
fn children_are_found_in_each_form(rt: HostRuntime) -> Result<(), Fail> {
    let alloc = rt.alloc();
    for (count, form) in [
        (0, Form::Empty),
        (1, Form::One),
        (2, Form::Few),
        (9, Form::Few),
        (10, Form::Many),
    ] {
        let map = many(&rt, alloc, count)?;
        assert_eq!(rt; map.len(), count);
        assert_eq!(rt; map.form(), form);
        assert_place(&rt, alloc, &map, "/a", Place::Apart(0))?;
        assert_place(&rt, alloc, &map, "/z", Place::Apart(count))?;
    }
    Ok(())
}

#[test]
fn ten_children_are_found_under_either_spelling(rt: HostRuntime) -> Result<(), Fail> {
    let alloc = rt.alloc();
    let map = many(&rt, alloc, 10)?;
    for (text, want) in [
        ("/b", Place::Exact(0)),
        ("/B/x", Place::Below(0, 1)),
        ("/f", Place::Exact(4)),
        ("/ga", Place::Apart(6)),
        ("/K", Place::Exact(9)),
    ] {
        assert_place(&rt, alloc, &map, text, want)?;
    }
    Ok(())
}

#[test]
fn shared_map_has_the_same_children(rt: HostRuntime) -> Result<(), Fail> {
    let alloc = rt.alloc();
    let map = one(&rt, alloc)?;
    let copy = map.share()?;
    assert_eq!(rt; copy.len(), 1);
    assert_place(&rt, alloc, &copy, "/a/b", Place::Exact(0))
}

#[test]
fn names_are_sought_in_a_list_under_a_case(rt: HostRuntime) -> Result<(), Fail> {
    let alloc = rt.alloc();
    let child = Entry {
        key: Key::one(Name::from_bytes(alloc, b"b")?),
        value: Name::from_bytes(alloc, b"v")?,
    };
    let list = ChildList::new(alloc).with(0, child)?;
    let name = Name::from_bytes(alloc, b"B")?;
    assert_eq!(rt; list.seek(Case::Insensitive, &name), Ok(0));
    assert_eq!(rt; list.seek(Case::Sensitive, &name), Err(0));
    Ok(())
}
