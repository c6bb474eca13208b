//! Tests: tables of edits and looks, each line with its answer.

use crate::{FailingTree, MemTree};
use case_order::{Case, NoMemory};
use merkle_hash::Bytes;
use std::alloc::{AllocError, Global};
use std::test::Fail;
use vfs_path::{Name, Path};
use world_model::{ApplyError, Edit, Entry, LookError, Tree};

fn bytes(alloc: Global, text: &str) -> Result<Bytes, NoMemory> {
    let items = Vec::from_slice(alloc, text.as_bytes())?;
    match Bytes::from_vec(alloc, items) {
        Ok(bytes) => Ok(bytes),
        Err((_, refused)) => Err(refused),
    }
}

fn path(alloc: Global, text: &str) -> Result<Path, Fail> {
    Ok(Path::parse(alloc, text.as_bytes())?)
}

/// `done`, or the number of the refusal.
fn after_edit<T: Tree>(alloc: Global, tree: &mut T, edit: &Edit) -> Result<String, Fail> {
    match tree.apply(edit) {
        Ok(_) => Ok(String::from_str(alloc, "done")?),
        Err(ApplyError::Refused(refusal)) => Ok(format!(in alloc; "{}", refusal.number())?),
        Err(ApplyError::NoMemory) => Err(Fail::from(NoMemory)),
    }
}

fn add_words(out: &mut Vec<u8>, names: &[Name]) -> Result<(), AllocError> {
    for name in names {
        out.push(b' ')?;
        out.extend_from_slice(name.as_bytes())?;
    }
    Ok(())
}

/// `missing`, `file` with its bytes, or `dir` with its names.
fn look_text(alloc: Global, entry: &Entry) -> Result<String, Fail> {
    let mut out = Vec::new(alloc);
    match entry {
        Entry::Missing => out.extend_from_slice(b"missing")?,
        Entry::File(bytes) => {
            out.extend_from_slice(b"file ")?;
            out.extend_from_slice(bytes.as_slice())?;
        }
        Entry::Dir(names) => {
            out.extend_from_slice(b"dir")?;
            add_words(&mut out, names.as_slice())?;
        }
    }
    Ok(String::from_utf8(out)?)
}

/// What the look gives, or `failed`.
fn looked<T: Tree>(alloc: Global, tree: &mut T, at: &Path) -> Result<String, Fail> {
    match tree.look(at) {
        Ok(entry) => look_text(alloc, &entry),
        Err(LookError::Failed) => Ok(String::from_str(alloc, "failed")?),
        Err(LookError::NoMemory) => Err(Fail::from(NoMemory)),
    }
}

/// The edit of a line.
fn edit_of(alloc: Global, word: &str, at: Path, last: &str) -> Result<Edit, Fail> {
    match word {
        "write" => Ok(Edit::Write(at, bytes(alloc, last)?)),
        "mkdir" => Ok(Edit::Mkdir(at)),
        "remove" => Ok(Edit::Remove(at)),
        _ => Ok(Edit::Move(at, path(alloc, last)?)),
    }
}

/// What the tree answers to a line: `look PATH`, `write PATH BYTES`, `mkdir PATH`, `remove PATH` or
/// `move PATH PATH`.
fn answer<T: Tree>(alloc: Global, tree: &mut T, line: &str) -> Result<String, Fail> {
    let mut words = line.split_whitespace();
    let word = words.next().unwrap_or("");
    let at = path(alloc, words.next().unwrap_or(""))?;
    let last = words.next().unwrap_or("");
    if word == "look" {
        return looked(alloc, tree, &at);
    }
    let edit = edit_of(alloc, word, at, last)?;
    after_edit(alloc, tree, &edit)
}

#[test]
fn edits_are_refused_in_order(rt: HostRuntime) -> Result<(), Fail> {
    let alloc = rt.alloc();
    for (line, want) in [
        ("write / a", "1"),
        ("write /n/x a", "2"),
        ("write /f/x/y a", "2"),
        ("write /f/x a", "3"),
        ("write /d a", "4"),
        ("write /f b", "done"),
        ("mkdir /", "1"),
        ("mkdir /n/x", "2"),
        ("mkdir /f/x", "3"),
        ("mkdir /f", "4"),
        ("mkdir /d", "4"),
        ("remove /", "1"),
        ("remove /n", "5"),
        ("remove /f/x", "5"),
        ("move / /e", "1"),
        ("move /n /", "1"),
        ("move /n /n/x", "5"),
        ("move /d /d/e", "6"),
        ("move /d /d/n/e", "6"),
        ("move /f /f/e", "6"),
        ("move /d /n/e", "2"),
        ("move /d /f/e", "3"),
        ("move /d /f", "4"),
        ("move /f /d", "4"),
        ("move /d/x /d", "4"),
        ("move /d /e", "done"),
        ("move /d /d", "done"),
        ("move /d/x /x", "done"),
    ] {
        let mut tree = MemTree::new(alloc, Case::Sensitive);
        for made in ["write /f a", "mkdir /d", "write /d/x a"] {
            assert_eq!(rt; answer(alloc, &mut tree, made)?.as_str(), "done");
        }
        assert_eq!(rt; answer(alloc, &mut tree, line)?.as_str(), want, "{line}");
    }
    Ok(())
}

#[test]
fn looks_follow_edits(rt: HostRuntime) -> Result<(), Fail> {
    let alloc = rt.alloc();
    let mut tree = MemTree::new(alloc, Case::Insensitive);
    for (line, want) in [
        ("look /", "dir"),
        ("mkdir /a", "done"),
        ("write /a/X x", "done"),
        ("write /a/b y", "done"),
        ("mkdir /a/C", "done"),
        ("look /a", "dir b C X"),
        ("look /A/x", "file x"),
        ("look /a/x/y", "missing"),
        ("look /a/x/y/z", "missing"),
        ("look /n", "missing"),
        ("write /A/B z", "done"),
        ("look /a", "dir b C X"),
        ("look /a/b", "file z"),
        ("move /a/b /a/B", "done"),
        ("look /a", "dir B C X"),
        ("move /a/x /a/c/Y", "done"),
        ("look /a", "dir B C"),
        ("look /a/C", "dir Y"),
        ("move /A /Top", "done"),
        ("look /", "dir Top"),
        ("look /top/c/y", "file x"),
        ("look /a/c/y", "missing"),
        ("move /top /TOP", "done"),
        ("look /", "dir TOP"),
        ("look /Top", "dir B C"),
        ("remove /top/C", "done"),
        ("look /top", "dir B"),
        ("look /top/c/y", "missing"),
        ("mkdir /top/c", "done"),
        ("look /top/c", "dir"),
    ] {
        assert_eq!(rt; answer(alloc, &mut tree, line)?.as_str(), want, "{line}");
    }
    Ok(())
}

#[test]
fn names_are_in_order(rt: HostRuntime) -> Result<(), Fail> {
    let alloc = rt.alloc();
    let mut tree = MemTree::new(alloc, Case::Sensitive);
    for made in ["write /b b", "write /C c", "write /a a", "mkdir /B"] {
        assert_eq!(rt; answer(alloc, &mut tree, made)?.as_str(), "done");
    }
    assert_eq!(rt; answer(alloc, &mut tree, "look /")?.as_str(), "dir B C a b");
    assert_eq!(rt; answer(alloc, &mut tree, "look /c")?.as_str(), "missing");
    Ok(())
}

#[test]
fn directory_takes_4096_names(rt: HostRuntime) -> Result<(), Fail> {
    let alloc = rt.alloc();
    let mut tree = MemTree::new(alloc, Case::Sensitive);
    for made in ["mkdir /full", "mkdir /other", "write /other/x a"] {
        assert_eq!(rt; answer(alloc, &mut tree, made)?.as_str(), "done");
    }
    for i in 0..4096u32 {
        let made = format!(in alloc; "write /full/{i} a")?;
        assert_eq!(rt; answer(alloc, &mut tree, made.as_str())?.as_str(), "done");
    }
    for (line, want) in [
        ("write /full/new a", "8"),
        ("mkdir /full/new", "8"),
        ("write /full/0 b", "done"),
        ("move /full/0 /full/new", "done"),
        ("move /other/x /full/x", "8"),
        ("move /full/1 /other/1", "done"),
        ("move /other/x /full/x", "done"),
        ("look /full/new", "file b"),
        ("look /full/x", "file a"),
    ] {
        assert_eq!(rt; answer(alloc, &mut tree, line)?.as_str(), want, "{line}");
    }
    Ok(())
}

#[test]
fn paths_have_64_names(rt: HostRuntime) -> Result<(), Fail> {
    let alloc = rt.alloc();
    let mut tree = MemTree::new(alloc, Case::Sensitive);
    let mut deep = String::new(alloc);
    for _ in 0..64u32 {
        deep.push_str("/a")?;
        let made = format!(in alloc; "mkdir {deep}")?;
        assert_eq!(rt; answer(alloc, &mut tree, made.as_str())?.as_str(), "done");
    }
    for (line, want) in [
        ("mkdir /b", "done"),
        ("move /a /b/a", "7"),
        ("move /a/a /b/a", "done"),
        ("move /b /a/b", "7"),
        ("move /a /c", "done"),
        ("look /b/a", "dir a"),
    ] {
        assert_eq!(rt; answer(alloc, &mut tree, line)?.as_str(), want, "{line}");
    }
    Ok(())
}

#[test]
fn stated_looks_fail(rt: HostRuntime) -> Result<(), Fail> {
    let alloc = rt.alloc();
    let mut tree = MemTree::new(alloc, Case::Sensitive);
    for made in ["mkdir /d", "write /d/a a"] {
        assert_eq!(rt; answer(alloc, &mut tree, made)?.as_str(), "done");
    }
    let mut tree = FailingTree::over(tree, [2, 5].to_vec(alloc)?);
    for (line, want) in [
        ("look /d", "dir a"),
        ("look /d/a", "failed"),
        ("look /d/a", "file a"),
        ("write /d/b b", "done"),
        ("remove /n", "5"),
        ("look /n", "missing"),
        ("look /d/b", "failed"),
        ("look /d", "dir a b"),
    ] {
        assert_eq!(rt; answer(alloc, &mut tree, line)?.as_str(), want, "{line}");
    }
    assert!(rt; !tree.read_only());
    Ok(())
}

/// Sets the case, and gives whether the tree took it and which case it then has.
fn taken<T: Tree>(tree: &mut T, case: Case) -> (bool, Case) {
    let is_taken = tree.set_case(case);
    (is_taken, tree.case())
}

#[test]
fn cases_of_trees(rt: HostRuntime) -> Result<(), Fail> {
    let alloc = rt.alloc();
    let mut tree = MemTree::new(alloc, Case::Sensitive);
    assert_eq!(rt;
        taken(&mut tree, Case::Insensitive),
        (true, Case::Insensitive)
    );
    assert_eq!(rt; answer(alloc, &mut tree, "mkdir /d")?.as_str(), "done");
    assert_eq!(rt; answer(alloc, &mut tree, "look /D")?.as_str(), "dir");
    assert_eq!(rt;
        taken(&mut tree, Case::Insensitive),
        (true, Case::Insensitive)
    );
    assert_eq!(rt;
        taken(&mut tree, Case::Sensitive),
        (false, Case::Insensitive)
    );
    assert_eq!(rt; answer(alloc, &mut tree, "look /D")?.as_str(), "dir");

    let mut tree = FailingTree::over(tree, [].to_vec(alloc)?);
    assert_eq!(rt;
        taken(&mut tree, Case::Sensitive),
        (false, Case::Insensitive)
    );
    assert_eq!(rt; answer(alloc, &mut tree, "remove /d")?.as_str(), "done");
    assert_eq!(rt; taken(&mut tree, Case::Sensitive), (true, Case::Sensitive));
    assert!(rt; !tree.read_only());
    Ok(())
}
