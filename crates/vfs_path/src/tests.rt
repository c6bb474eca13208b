//! Texts of names and paths, and what is asked of paths.

use crate::{Name, Names, Path, PathError, Paths};
use case_order::{Case, Share};
use std::alloc::Global;
use std::process::Abort;
use std::test::Fail;

/// The number of the refusal of a text, or 0.
fn refusal(alloc: Global, text: &[u8]) -> u64 {
    match Path::parse(alloc, text) {
        Ok(_) => 0,
        Err(refused) => refused.number(),
    }
}

/// The first text, and the other so many times behind it.
fn repeated(alloc: Global, first: &[u8], text: &[u8], times: usize) -> Result<Vec<u8>, Fail> {
    let mut all = Vec::from_slice(alloc, first)?;
    for _ in 0..times {
        all.extend_from_slice(text)?;
    }
    Ok(all)
}

fn assert_text(rt: &impl Abort, alloc: Global, path: &Path, want: &[u8]) -> Result<(), Fail> {
    let mut text = Vec::from_slice(alloc, b"=")?;
    path.write(&mut text)?;
    assert_eq!(rt; text.as_slice(), want);
    Ok(())
}

#[test]
fn texts_are_read_or_refused(rt: HostRuntime) {
    for (text, want) in [
        (b"/a/b".as_slice(), 0),
        (b"/".as_slice(), 0),
        (b"".as_slice(), 1),
        (b"a".as_slice(), 1),
        (b"a\n".as_slice(), 1),
        (b"/a//b".as_slice(), 2),
        (b"/a/".as_slice(), 2),
        (b"/a/../b".as_slice(), 3),
        (b"/a\n".as_slice(), 6),
        (b"//\xff".as_slice(), 6),
    ] {
        assert_eq!(rt; refusal(rt.alloc(), text), want);
    }
}

#[test]
fn long_texts_are_read_or_refused(rt: HostRuntime) -> Result<(), Fail> {
    for (first, text, times, want) in [
        (b"/".as_slice(), b"x".as_slice(), 255, 0),
        (b"/".as_slice(), b"x".as_slice(), 256, 4),
        (b"".as_slice(), b"/x".as_slice(), 65, 5),
        (b"/".as_slice(), b"x/".as_slice(), 64, 5),
    ] {
        let made = repeated(rt.alloc(), first, text, times)?;
        assert_eq!(rt; refusal(rt.alloc(), made.as_slice()), want);
    }
    Ok(())
}

/// So many bytes and a `z` behind them are a name, and a copy of it outlives it.
fn assert_name_behind(rt: &impl Abort, alloc: Global, before: usize) -> Result<(), Fail> {
    let mut text = repeated(alloc, b"", b"y", before)?;
    text.push(b'z')?;
    let name = Name::from_bytes(alloc, text.as_slice())?;
    assert_eq!(rt; name.as_bytes(), text.as_slice());
    let copy = name.share()?;
    drop(name);
    assert_eq!(rt; copy.as_bytes(), text.as_slice());
    Ok(())
}

#[test]
fn short_and_long_names_keep_their_bytes(rt: HostRuntime) -> Result<(), Fail> {
    for before in [0, 21, 22, 254] {
        assert_name_behind(&rt, rt.alloc(), before)?;
    }
    Ok(())
}

fn assert_no_name(rt: &impl Abort, alloc: Global, text: &[u8], want: PathError) {
    match Name::from_bytes(alloc, text) {
        Ok(_) => panic!(rt; "a name"),
        Err(refused) => assert_eq!(rt; refused, want),
    }
}

#[test]
fn names_are_made_or_refused(rt: HostRuntime) -> Result<(), Fail> {
    let name = Name::from_bytes(rt.alloc(), b"b")?;
    assert_eq!(rt; name.as_bytes(), b"b".as_slice());
    assert_no_name(&rt, rt.alloc(), b"a/b", PathError::BadByte);
    assert_no_name(&rt, rt.alloc(), b"", PathError::EmptyName);
    let names = Names::from_vec(vec![in rt.alloc(); name]?).share()?;
    assert_eq!(rt; names.as_slice().len(), 1);
    Ok(())
}

#[test]
fn paths_are_written(rt: HostRuntime) -> Result<(), Fail> {
    let alloc = rt.alloc();
    assert_text(&rt, alloc, &Path::root(), b"=/")?;
    let a = Path::parse(alloc, b"/a")?;
    let below = a.child(alloc, &Name::from_bytes(alloc, b"b")?)?;
    assert_text(&rt, alloc, &below, b"=/a/b")?;
    assert!(rt; below.len() == 2);
    assert_text(&rt, alloc, &below.front(alloc, 1)?, b"=/a")
}

#[test]
fn longest_path_has_no_child(rt: HostRuntime) -> Result<(), Fail> {
    let alloc = rt.alloc();
    let text = repeated(alloc, b"", b"/x", 64)?;
    let path = Path::parse(alloc, text.as_slice())?;
    let name = Name::from_bytes(alloc, b"x")?;
    match path.child(alloc, &name) {
        Ok(_) => panic!(rt; "a path of 65 names"),
        Err(refused) => assert_eq!(rt; refused, PathError::TooDeep),
    }
    Ok(())
}

#[test]
fn paths_are_shared(rt: HostRuntime) -> Result<(), Fail> {
    let path = Path::parse(rt.alloc(), b"/a")?;
    let paths = Paths::from_vec(vec![in rt.alloc(); path.share()?]?).share()?;
    assert!(rt; paths.as_slice().len() == 1);
    assert!(rt; paths.as_slice()[0] == path);
    Ok(())
}

#[test]
fn paths_are_compared_name_by_name(rt: HostRuntime) -> Result<(), Fail> {
    for (front, text, common, above) in [
        (b"/a".as_slice(), b"/A/b".as_slice(), 1, true),
        (b"/a".as_slice(), b"/ab".as_slice(), 0, false),
        (b"/A/b".as_slice(), b"/a/c".as_slice(), 1, false),
    ] {
        let x = Path::parse(rt.alloc(), front)?;
        let y = Path::parse(rt.alloc(), text)?;
        assert_eq!(rt; x.common(Case::Insensitive, &y), common);
        assert_eq!(rt; x.is_at_or_above(Case::Insensitive, &y), above);
        assert_eq!(rt; y.related(Case::Insensitive, &x), above);
        assert!(rt; x.order(Case::Insensitive, &y).is_lt());
    }
    Ok(())
}
