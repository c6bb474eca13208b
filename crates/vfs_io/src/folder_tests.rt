//! A test over a folder that it writes, where it runs.
//!
//! It writes links, but no pipe, which std does not make in a folder; and that a file is unreadable
//! shows only to a user who may not read all.

use crate::{FailedLook, FolderTree};
use case_order::Case;
use std::alloc::{AllocError, Allocator, Global};
use std::fs::{File, Files, Metadata, OpenFile, OpenOptions};
use std::os::unix::fs::{PermissionsExt, symlink};
use std::test::Fail;
use std::{fs, io};
use vfs_path::{Name, Path};
use world_model::{ApplyError, Edit, EditError, Entry, LookError, Tree};

fn add_names(out: &mut Vec<u8>, names: &[Name]) -> Result<(), AllocError> {
    for name in names {
        out.push(b' ')?;
        out.extend_from_slice(name.as_bytes())?;
    }
    Ok(())
}

/// `missing`, `file` with its bytes, `dir` with its names, or `failed`.
fn told(alloc: Global, seen: Result<Entry, LookError>) -> Result<String, Fail> {
    let mut out = Vec::new(alloc);
    match seen {
        Ok(Entry::Missing) => out.extend_from_slice(b"missing")?,
        Ok(Entry::File(bytes)) => {
            out.extend_from_slice(b"file ")?;
            out.extend_from_slice(bytes.as_slice())?;
        }
        Ok(Entry::Dir(names)) => {
            out.extend_from_slice(b"dir")?;
            add_names(&mut out, names.as_slice())?;
        }
        Err(LookError::Failed) => out.extend_from_slice(b"failed")?,
        Err(LookError::NoMemory) => out.extend_from_slice(b"no memory")?,
    }
    Ok(String::from_utf8(out)?)
}

/// What a look at the path tells.
fn look<R: Files>(alloc: Global, tree: &mut FolderTree<R>, path: &str) -> Result<String, Fail> {
    let path = Path::parse(alloc, path.as_bytes())?;
    told(alloc, tree.look(&path))
}

/// A line for each failed look: the path, and the cause in words.
fn noted(alloc: Global, looks: &[FailedLook]) -> Result<String, Fail> {
    let mut out = String::new(alloc);
    for look in looks {
        let mut path = Vec::new(alloc);
        look.path.write(&mut path)?;
        let path = String::from_utf8(path)?;
        let cause = &look.cause;
        out.push_str(format!(in alloc; "{path}: {cause}\n")?.as_str())?;
    }
    Ok(out)
}

/// The folder with this name, empty.
fn emptied<'a>(rt: &HostRuntime, name: &'a str) -> io::Result<&'a str> {
    if fs::exists(rt, name)? {
        fs::remove_dir_all(rt, name)?;
    }
    fs::create_dir(rt, name)?;
    Ok(name)
}

fn tree_at(rt: &HostRuntime, dir: &str) -> Result<FolderTree<HostRuntime>, Fail> {
    let alloc = rt.alloc();
    Ok(FolderTree::at(*rt, alloc, String::from_str(alloc, dir)?))
}

/// Files, directories and links of each kind.
fn write_folder(rt: &HostRuntime) -> io::Result<()> {
    fs::create_dir(rt, "folder_a/d")?;
    fs::create_dir(rt, "folder_a/empty")?;
    fs::write(rt, "folder_a/f", "abc")?;
    fs::write(rt, "folder_a/none", "")?;
    fs::write(rt, "folder_a/d/b", "x")?;
    fs::write(rt, "folder_a/d/C", "y")?;
    symlink(rt, "f", "folder_a/to_file")?;
    symlink(rt, "d", "folder_a/to_dir")?;
    symlink(rt, "nothing", "folder_a/to_nothing")?;
    symlink(rt, "folder_a", "folder_link")
}

#[test]
fn folders_are_told(rt: HostRuntime) -> Result<(), Fail> {
    let alloc = rt.alloc();
    emptied(&rt, "folder_a")?;
    let _ = fs::remove_file(&rt, "folder_link");
    write_folder(&rt)?;
    for (dir, path, want) in [
        ("folder_a", "/", "dir d empty f none"),
        ("folder_link", "/", "dir d empty f none"),
        ("folder_a/", "/d", "dir C b"),
        ("folder_link", "/d/b", "file x"),
        ("folder_a", "/f", "file abc"),
        ("folder_a", "/none", "file "),
        ("folder_a", "/empty", "dir"),
        ("folder_a", "/D", "missing"),
        ("folder_a", "/n/m/o", "missing"),
        ("folder_a", "/f/x", "missing"),
        ("folder_a", "/to_file", "missing"),
        ("folder_a", "/to_dir", "missing"),
        ("folder_a", "/to_dir/b", "missing"),
        ("folder_a", "/to_nothing", "missing"),
        ("folder_a/f", "/", "missing"),
        ("folder_a/f", "/x", "missing"),
        ("folder_a/nothing", "/", "missing"),
        ("folder_a/nothing", "/x", "missing"),
    ] {
        let mut tree = tree_at(&rt, dir)?;
        assert_eq!(rt;
            look(alloc, &mut tree, path)?.as_str(),
            want,
            "{dir} {path}"
        );
    }
    fs::remove_file(&rt, "folder_link")?;
    fs::remove_dir_all(&rt, "folder_a")?;
    Ok(())
}

/// What no tree can hold, or what cannot be read.
fn write_faults(rt: &HostRuntime) -> io::Result<()> {
    for dir in ["case", "line", "links", "large", "closed"] {
        fs::create_dir(rt, format!(in rt.alloc(); "folder_b/{dir}")?)?;
    }
    fs::write(rt, "folder_b/case/b", "x")?;
    fs::write(rt, "folder_b/case/a", "x")?;
    fs::write(rt, "folder_b/case/B", "y")?;
    fs::write(rt, "folder_b/line/new\nline", "x")?;
    symlink(rt, "f", "folder_b/links/new\nline")?;
    fs::create(rt, "folder_b/large/most")?.set_len(67_108_865)?;
    fs::write(rt, "folder_b/closed/f", "x")?;
    let closed = fs::Permissions::from_mode(0);
    fs::set_permissions(rt, "folder_b/closed/f", closed)
}

#[test]
fn faults_are_told(rt: HostRuntime) -> Result<(), Fail> {
    let alloc = rt.alloc();
    emptied(&rt, "folder_b")?;
    write_faults(&rt)?;
    let closed = match fs::open(&rt, "folder_b/closed/f") {
        Ok(_) => "file x",
        Err(_) => "failed",
    };
    let mut tree = tree_at(&rt, "folder_b")?;
    for (path, want) in [
        ("/", "dir case closed large line links"),
        ("/case", "dir B a b"),
        ("/line", "failed"),
        ("/links", "dir"),
        ("/large", "dir most"),
        ("/large/most", "failed"),
        ("/closed", "dir f"),
        ("/closed/f", closed),
    ] {
        assert_eq!(rt; look(alloc, &mut tree, path)?.as_str(), want, "{path}");
    }
    assert!(rt; tree.set_case(Case::Insensitive));
    assert_eq!(rt; look(alloc, &mut tree, "/case")?.as_str(), "failed");
    assert_eq!(rt;
        look(alloc, &mut tree, "/")?.as_str(),
        "dir case closed large line links"
    );
    assert_eq!(rt; tree.case(), Case::Insensitive);
    let unreadable = match closed {
        "failed" => "/closed/f: Permission denied (os error 13)\n",
        _ => "",
    };
    assert_eq!(rt;
        noted(alloc, tree.failed_looks())?.as_str(),
        format!(in alloc;
            "/line: not a name\n/large/most: too large\n{unreadable}/case: two names the same\n"
        )?.as_str()
    );
    fs::remove_dir_all(&rt, "folder_b")?;
    Ok(())
}

/// How many bytes the file has that was seen.
fn length_of(seen: Result<Entry, LookError>) -> Option<usize> {
    match seen {
        Ok(Entry::File(bytes)) => Some(bytes.as_slice().len()),
        _ => None,
    }
}

#[test]
fn files_have_67108864_bytes(rt: HostRuntime) -> Result<(), Fail> {
    let alloc = rt.alloc();
    let dir = emptied(&rt, "folder_e")?;
    fs::create(&rt, "folder_e/most")?.set_len(67_108_864)?;
    let mut tree = tree_at(&rt, dir)?;
    let path = Path::parse(alloc, b"/most")?;
    assert_eq!(rt; length_of(tree.look(&path)), Some(67_108_864));
    assert_eq!(rt; tree.failed_looks().len(), 0);
    fs::remove_dir_all(&rt, dir)?;
    Ok(())
}

#[test]
fn failed_looks_are_64(rt: HostRuntime) -> Result<(), Fail> {
    let alloc = rt.alloc();
    let dir = emptied(&rt, "folder_f")?;
    fs::create_dir(&rt, "folder_f/first")?;
    fs::write(&rt, "folder_f/first/new\nline", "x")?;
    fs::write(&rt, "folder_f/new\nline", "x")?;
    let mut tree = tree_at(&rt, dir)?;
    assert_eq!(rt; look(alloc, &mut tree, "/first")?.as_str(), "failed");
    for _ in 0..64 {
        assert_eq!(rt; look(alloc, &mut tree, "/")?.as_str(), "failed");
    }
    let noted = noted(alloc, tree.failed_looks())?;
    assert!(rt;
        noted
            .as_str()
            .starts_with("/first: not a name\n/: not a name\n")
    );
    assert_eq!(rt; noted.as_str().lines().count(), 64);
    fs::remove_dir_all(&rt, dir)?;
    Ok(())
}

/// A system in which something stands in another's place once it is opened.
#[derive(Drop)]
struct Swapping {
    rt: HostRuntime,
    place: &'static str,
    other: &'static str,
}

impl Swapping {
    /// Puts a link to the other in the place, or the other itself where its text is a place's.
    fn swap(&self) -> io::Result<()> {
        self.rt.rename(self.place, "folder_g/away")?;
        if self.other.starts_with("folder_g/") {
            self.rt.rename(self.other, self.place)
        } else {
            self.rt.symlink(self.other, self.place)
        }
    }
}

impl Files for Swapping {
    type File = File;

    type Dir = <HostRuntime as Files>::Dir;

    fn open_file(&self, how: &OpenOptions, path: &str) -> io::Result<File> {
        self.swap()?;
        self.rt.open_file(how, path)
    }

    fn open_dir(&self, path: &str) -> io::Result<<HostRuntime as Files>::Dir> {
        self.swap()?;
        self.rt.open_dir(path)
    }

    fn metadata(&self, path: &str) -> io::Result<Metadata> {
        self.rt.metadata(path)
    }

    fn symlink_metadata(&self, path: &str) -> io::Result<Metadata> {
        self.rt.symlink_metadata(path)
    }

    fn copy(&self, from: &str, to: &str) -> io::Result<u64> {
        self.rt.copy(from, to)
    }

    fn rename(&self, from: &str, to: &str) -> io::Result<()> {
        self.rt.rename(from, to)
    }

    fn remove_file(&self, path: &str) -> io::Result<()> {
        self.rt.remove_file(path)
    }

    fn create_dir(&self, path: &str) -> io::Result<()> {
        self.rt.create_dir(path)
    }

    fn remove_dir(&self, path: &str) -> io::Result<()> {
        self.rt.remove_dir(path)
    }

    fn remove_dir_all<B: Allocator>(&self, alloc: B, path: &str) -> io::Result<()> {
        self.rt.remove_dir_all(alloc, path)
    }
}

/// What a look tells in a folder where another takes this place when the look opens what it is at.
fn look_while_swapped(
    rt: &HostRuntime,
    place: &'static str,
    other: &'static str,
    path: &str,
) -> Result<String, Fail> {
    let alloc = rt.alloc();
    let dir = emptied(rt, "folder_g")?;
    fs::create_dir(rt, "folder_g/d")?;
    fs::create_dir(rt, "folder_g/e")?;
    fs::write(rt, "folder_g/f", "inside")?;
    fs::write(rt, "folder_g/g", "other")?;
    fs::hard_link(rt, "folder_g/f", "folder_g/d/f")?;
    fs::hard_link(rt, "folder_g/f", "folder_g/e/f")?;
    let swapping = Swapping {
        rt: *rt,
        place,
        other,
    };
    let mut tree = FolderTree::at(swapping, alloc, String::from_str(alloc, dir)?);
    let mut out = look(alloc, &mut tree, path)?;
    out.push_str(" ")?;
    out.push_str(noted(alloc, tree.failed_looks())?.as_str())?;
    fs::remove_dir_all(rt, dir)?;
    Ok(out)
}

#[test]
fn swaps_are_told(rt: HostRuntime) -> Result<(), Fail> {
    for (place, other, path, want) in [
        // A file, a directory, and a directory on the way to the very same file.
        (
            "folder_g/f",
            "g",
            "/f",
            "failed /f: changed while it was looked at\n",
        ),
        (
            "folder_g/f",
            "folder_g/g",
            "/f",
            "failed /f: changed while it was looked at\n",
        ),
        (
            "folder_g/d",
            "e",
            "/d",
            "failed /d: Not a directory (os error 20)\n",
        ),
        (
            "folder_g/d",
            "folder_g/e",
            "/d",
            "failed /d: changed while it was looked at\n",
        ),
        (
            "folder_g/d",
            "e",
            "/d/f",
            "failed /d/f: changed while it was looked at\n",
        ),
        (
            "folder_g/d",
            "folder_g/e",
            "/d/f",
            "failed /d/f: changed while it was looked at\n",
        ),
        // What takes no part in the look.
        ("folder_g/g", "f", "/f", "file inside "),
        ("folder_g/e", "d", "/d", "dir f "),
        ("folder_g/e", "d", "/d/f", "file inside "),
    ] {
        let told = look_while_swapped(&rt, place, other, path)?;
        assert_eq!(rt; told.as_str(), want, "{place} {path}");
    }
    Ok(())
}

#[test]
fn folders_are_read_only(rt: HostRuntime) -> Result<(), Fail> {
    let alloc = rt.alloc();
    let mut tree = tree_at(&rt, "folder_none")?;
    let edit = Edit::Mkdir(Path::root());
    assert!(rt; tree.read_only());
    assert_eq!(rt;
        tree.apply(&edit).err(),
        Some(ApplyError::Refused(EditError::ReadOnly))
    );
    assert_eq!(rt; look(alloc, &mut tree, "/")?.as_str(), "missing");
    Ok(())
}

/// `/a` so many times.
fn deep(alloc: Global, levels: u32) -> Result<String, AllocError> {
    let mut text = String::new(alloc);
    for _ in 0..levels {
        text.push_str("/a")?;
    }
    Ok(text)
}

#[test]
fn folders_end_at_64_names(rt: HostRuntime) -> Result<(), Fail> {
    let alloc = rt.alloc();
    let dir = emptied(&rt, "folder_c")?;
    let last = deep(alloc, 64)?;
    fs::create_dir_all(&rt, format!(in alloc; "{dir}{last}")?)?;
    let mut tree = tree_at(&rt, dir)?;
    assert_eq!(rt; look(alloc, &mut tree, last.as_str())?.as_str(), "dir");
    fs::write(&rt, format!(in alloc; "{dir}{last}/f")?, "x")?;
    assert_eq!(rt; look(alloc, &mut tree, last.as_str())?.as_str(), "failed");
    assert_eq!(rt;
        look(alloc, &mut tree, deep(alloc, 63)?.as_str())?.as_str(),
        "dir a"
    );
    assert!(rt;
        noted(alloc, tree.failed_looks())?
            .as_str()
            .ends_with("/a: too deep\n")
    );
    fs::remove_dir_all(&rt, dir)?;
    Ok(())
}

fn write_files(rt: &HostRuntime, dir: &str, from: u32, to: u32) -> io::Result<()> {
    for i in from..to {
        fs::write(rt, format!(in rt.alloc(); "{dir}/{i}")?, "")?;
    }
    Ok(())
}

#[test]
fn folders_have_4096_names(rt: HostRuntime) -> Result<(), Fail> {
    let alloc = rt.alloc();
    let dir = emptied(&rt, "folder_d")?;
    write_files(&rt, dir, 0, 4096)?;
    symlink(&rt, "0", "folder_d/link")?;
    let mut tree = tree_at(&rt, dir)?;
    let all = look(alloc, &mut tree, "/")?;
    assert!(rt; all.as_str().starts_with("dir 0 1 10 100 1000 1001 "));
    assert_eq!(rt; all.as_str().split(' ').count(), 4097);
    write_files(&rt, dir, 4096, 4097)?;
    assert_eq!(rt; look(alloc, &mut tree, "/")?.as_str(), "failed");
    assert_eq!(rt;
        noted(alloc, tree.failed_looks())?.as_str(),
        "/: too many names\n"
    );
    fs::remove_dir_all(&rt, dir)?;
    Ok(())
}
