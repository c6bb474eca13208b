//! Runs of `folder` over trees that are handed in: in memory, with looks that fail, and over a folder
//! that the test writes, where it runs.

use crate::run::run;
use crate::status::Status;
use crate::tests::words_of;
use case_order::Case;
use mem_tree::{FailingTree, MemTree};
use merkle_hash::Bytes;
use std::alloc::Global;
use std::process::Abort;
use std::test::Fail;
use std::thread::Threads;
use std::{fs, io};
use vfs_io::{FolderTree, MemSink, MemSource};
use vfs_path::Path;
use world_model::{Edit, Entry, Tree};

/// Runs the script with these words over the tree, compares what is written, and gives the tree back.
fn assert_over<T: Tree + Drop>(
    rt: &(impl Abort + Threads + Sync),
    alloc: Global,
    words: &[&str],
    tree: T,
    script: &[u8],
    report: &[u8],
) -> Result<T, Fail> {
    let words = words_of(alloc, words)?;
    let mut source = MemSource::over(script.to_vec(alloc)?, Vec::new(alloc));
    let mut sink = MemSink::new(alloc, Vec::new(alloc));
    let (status, tree) = run(rt, alloc, words.as_slice(), &mut source, &mut sink, tree);
    assert_eq!(rt; status, Status::Done);
    assert_eq!(rt; sink.written(), report);
    Ok(tree)
}

/// A tree whose names compare byte by byte, with one directory, and one file in it.
fn small_tree(alloc: Global) -> Result<MemTree, Fail> {
    let mut tree = MemTree::new(alloc, Case::Sensitive);
    let bytes = Bytes::from_vec(alloc, Vec::from_slice(alloc, b"abc")?).map_err(|(
        _,
        refused,
    )| refused)?;
    tree.apply(&Edit::Mkdir(Path::parse(alloc, b"/d")?))?;
    tree.apply(&Edit::Write(Path::parse(alloc, b"/d/a")?, bytes))?;
    Ok(tree)
}

#[test]
fn tells_a_look_that_failed(rt: HostRuntime) -> Result<(), Fail> {
    let alloc = rt.alloc();
    let tree = FailingTree::over(small_tree(alloc)?, vec![in alloc; 2; 1]?);
    assert_over(
        &rt,
        alloc,
        &["folder", "x"],
        tree,
        b"0 begin /d\n0 read\n0 read\n0 read\n0 publish\n",
        b"version 0\nsaw /d dir left 1\nfault\nsaw /d/a file left 0\nstored\n",
    )?;
    Ok(())
}

#[test]
fn reads_on_after_a_failed_scan_and_closes_a_failed_build(rt: HostRuntime) -> Result<(), Fail> {
    let alloc = rt.alloc();
    let tree = FailingTree::over(small_tree(alloc)?, Vec::from_slice(alloc, &[2, 4])?);
    assert_over(
        &rt,
        alloc,
        &["folder", "x"],
        tree,
        b"0 scan /d\n0 read\n0 publish\n0 find /d/a\n0 event /d\n0 build rel:/d\n0 read\n\
        0 build rel:/d\n0 build rel:/d\n",
        b"fault\nsaw /d/a file left 0\nstored\nfile 900150983cd24fb0d6963f7d28e17f72\nqueued\n\
        fault\nnoscan\nbuild 6348a9e340c358d028e08090b2a08128 hits 0 misses 1 reads 2\n\
        build 6348a9e340c358d028e08090b2a08128 hits 1 misses 0 reads 0\n",
    )?;
    Ok(())
}

#[test]
fn compares_names_by_the_case_that_the_tree_keeps(rt: HostRuntime) -> Result<(), Fail> {
    let alloc = rt.alloc();
    assert_over(
        &rt,
        alloc,
        &["folder", "x"],
        small_tree(alloc)?,
        b"set case insensitive\nset dir /D\n0 scan /d\n0 find /D/A\n0 scan /D\n0 find /d/A\n0 find /d/a\n",
        b"refused 4\nok\nstored reads 2\nunknown\nstored reads 1\nmissing\nfile 900150983cd24fb0d6963f7d28e17f72\n",
    )?;
    // The same case is taken, and an empty tree takes the other one.
    assert_over(
        &rt,
        alloc,
        &["folder", "x"],
        small_tree(alloc)?,
        b"set case sensitive\n0 find /d\n",
        b"ok\nunknown\n",
    )?;
    assert_over(
        &rt,
        alloc,
        &["folder", "x"],
        MemTree::new(alloc, Case::Sensitive),
        b"set case insensitive\nset dir /d\n0 scan /d\n0 kind /D\n",
        b"ok\nok\nstored reads 1\ndir\n",
    )?;
    Ok(())
}

/// A folder with a file, and a directory with another one.
fn write_folder(rt: &HostRuntime, name: &str) -> io::Result<()> {
    if fs::exists(rt, name)? {
        fs::remove_dir_all(rt, name)?;
    }
    fs::create_dir(rt, name)?;
    fs::create_dir(rt, "folder_run/d")?;
    fs::write(rt, "folder_run/f", "abc")?;
    fs::write(rt, "folder_run/d/a", "a")
}

#[test]
fn runs_over_a_folder_of_the_system(rt: HostRuntime) -> Result<(), Fail> {
    let alloc = rt.alloc();
    write_folder(&rt, "folder_run")?;
    let tree = FolderTree::at(rt, alloc, String::from_str(alloc, "folder_run")?);
    assert_over(
        &rt,
        alloc,
        &["folder", "folder_run"],
        tree,
        b"set case insensitive\nset dir /x\nset file /y a\n0 write /f b\n0 scan /d\n0 find /d/a\n\
        0 find /D/A\n0 build rel:/d\n0 build name:/F\n",
        b"ok\nrefused 9\nrefused 9\nrefused 9\nstored reads 2\n\
        file 0cc175b9c0f1b6a831c399e269772661\nfile 0cc175b9c0f1b6a831c399e269772661\n\
        build a7dc8ff81af06555ead9b90e922f651e hits 1 misses 0 reads 0\n\
        build f2e5409d676bf6167c20ac31b12dfc58 hits 0 misses 1 reads 1\n",
    )?;
    fs::remove_dir_all(&rt, "folder_run")?;
    Ok(())
}

/// How many names the root of the tree has.
fn count_names<T: Tree>(alloc: Global, tree: &mut T) -> Result<usize, Fail> {
    match tree.look(&Path::parse(alloc, b"/")?)? {
        Entry::Dir(names) => Ok(names.as_slice().len()),
        _ => Ok(0),
    }
}

#[test]
fn gives_the_tree_back(rt: HostRuntime) -> Result<(), Fail> {
    let alloc = rt.alloc();
    let script = b"set dir /g\n0 write /h a\n0 remove /d\n".as_slice();
    let mut tree = assert_over(
        &rt,
        alloc,
        &["replay"],
        small_tree(alloc)?,
        script,
        b"ok\nok\nrefused 5\n",
    )?;
    assert_eq!(&rt; count_names(alloc, &mut tree)?, 1);
    let mut tree = assert_over(&rt, alloc, &["folder", "x"], tree, script, b"ok\nok\nok\n")?;
    assert_eq!(&rt; count_names(alloc, &mut tree)?, 2);
    Ok(())
}
