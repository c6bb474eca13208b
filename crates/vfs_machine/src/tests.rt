//! Scans of a tree in memory, from the edit to what is retained, and events that are lost.

ghost use Rattle.std.specs.Prelude.{◌≡◌, ◌<◌, ◌≤◌, ◌+◌, ◌^◌, IfOk, OnOk, length, map};
ghost use Rattle.vfs_model.specs.World.{digest_of_bytes};
ghost use Rattle.scan_walk.specs.Scans.{running_at, AreDigests};

use crate::{Answer, Began, Call, Delivered, Edited, Machine, Readed, Reply, SideCall, SideReply};
use case_order::{Case, NoMemory, Share};
use mem_tree::MemTree;
use merkle_hash::{Bytes, Digest, file_digest};
use snapshot_hierarchy::{FlatRetain, Retain};
use snapshot_tree::Kind;
use std::alloc::Global;
use std::process::Abort;
use std::test::Fail;
use version_hierarchy::{FlatVersions, Versions};
use vfs_path::Path;
use world_model::{Edit, EditError, Fit, Tree};

fn path(alloc: Global, text: &str) -> Result<Path, Fail> {
    Ok(Path::parse(alloc, text.as_bytes())?)
}

/// The edit that writes the text at the path.
fn write(alloc: Global, at: &str, text: &str) -> Result<Edit, Fail> {
    let items = Vec::from_slice(alloc, text.as_bytes())?;
    match Bytes::from_vec(alloc, items) {
        Ok(bytes) => Ok(Edit::Write(path(alloc, at)?, bytes)),
        Err((_, refused)) => Err(Fail::from(refused)),
    }
}

/// A machine over an empty tree, with a queue for so many events.
fn machine(
    alloc: Global,
    queue: u64,
) -> Result<Machine<MemTree, FlatRetain, FlatVersions>, NoMemory>
    requires some { 1 ≤ queue }
    requires few { queue ≤ 65536 }
    ensures { IfOk result (λ m. length m.versions.places ≡ 0) }
{
    let made = Machine::make(
        alloc,
        MemTree::new(alloc, Case::Insensitive),
        FlatRetain::new(alloc, Case::Insensitive),
        FlatVersions::new(alloc, Case::Insensitive),
        queue,
    );
    match made {
        Ok(machine) => Ok(machine),
        Err((_, _, refused)) => Err(refused),
    }
}

/// A directory `/d` with the files `a` and `b`, which hold their names, and whose events wait.
fn make_directory<T: Tree, R: Retain, V: Versions>(
    rt: &impl Abort,
    alloc: Global,
    machine: &mut Machine<T, R, V>,
) -> Result<(), Fail>
    ensures { OnOk result (machine.new.versions ≡ machine.old.versions) }
{
    let directory = Edit::Mkdir(path(alloc, "/d")?);
    assert_eq!(rt; machine.edit(&directory), Edited::Done);
    assert_eq!(rt; machine.edit(&write(alloc, "/d/a", "a")?), Edited::Done);
    assert_eq!(rt; machine.edit(&write(alloc, "/d/b", "b")?), Edited::Done);
    Ok(())
}

/// The digests of the contents.
fn digests_of(alloc: Global, contents: &[Bytes]) -> Result<Vec<Digest>, NoMemory>
    ensures { IfOk result (λ digests. digests.items ≡ map digest_of_bytes contents.now) }
{
    let mut digests = Vec::new(alloc);
    for bytes in contents {
        digests.push(file_digest(bytes.as_slice()))?;
    }
    Ok(digests)
}

/// The digests of what the scan with the number read; none where it is closed.
fn scan_digests<T: Tree, R: Retain, V: Versions>(
    alloc: Global,
    machine: &Machine<T, R, V>,
    scan: u64,
) -> Result<Vec<Digest>, NoMemory>
    requires { scan < 16 }
    ensures { IfOk result (λ digests. AreDigests (running_at machine.now.scans scan) digests.items) }
{
    match machine.contents(scan) {
        None => Ok(Vec::new(alloc)),
        Some(contents) => digests_of(alloc, contents),
    }
}

fn publish<T: Tree, R: Retain, V: Versions>(
    alloc: Global,
    machine: &mut Machine<T, R, V>,
    scan: u64,
) -> Result<Answer, NoMemory>
    requires { scan < 16 }
{
    let digests = scan_digests(alloc, machine, scan)?;
    Ok(machine.publish(scan, digests.as_slice()))
}

/// Reads the next location of the scan 15, and asserts what is told of it.
fn assert_read<T: Tree, R: Retain, V: Versions>(
    rt: &impl Abort,
    alloc: Global,
    machine: &mut Machine<T, R, V>,
    at: &str,
    kind: Kind,
    left: u64,
) -> Result<(), Fail>
    ensures { machine.new.versions ≡ machine.old.versions }
{
    match machine.read(15) {
        Readed::Saw(location, seen, count) => {
            assert_eq!(rt; location, path(alloc, at)?);
            assert_eq!(rt; (seen, count), (kind, left), "at {at}");
        }
        _ => assert!(rt; false, "at {at}"),
    }
    Ok(())
}

/// Asserts the kind of what is retained at each path, None where nothing is known.
fn assert_kinds<T: Tree, R: Retain, V: Versions>(
    rt: &impl Abort,
    alloc: Global,
    machine: &Machine<T, R, V>,
    wants: &[(&str, Option<Kind>)],
) -> Result<(), Fail> {
    for (text, want) in wants {
        let at = path(alloc, text)?;
        assert_eq!(rt;
            machine.find(&at).map(|glance| glance.kind),
            *want,
            "at {text}"
        );
    }
    Ok(())
}

/// Asserts the digest of the part at each path, None where nothing is retained there, and the
/// digest None where nothing was seen there.
fn assert_parts<T: Tree, R: Retain, V: Versions>(
    rt: &impl Abort,
    alloc: Global,
    machine: &Machine<T, R, V>,
    wants: &[(&str, Option<Option<Digest>>)],
) -> Result<(), Fail> {
    for (text, want) in wants {
        let part = machine.part(&path(alloc, text)?)?;
        assert_eq!(rt; part.map(|part| part.digest()), *want, "at {text}");
    }
    Ok(())
}

/// Scans the path, of which the reads tell these locations, kinds and numbers left; gives the
/// answer of the publication.
fn published<T: Tree, R: Retain, V: Versions>(
    rt: &impl Abort,
    alloc: Global,
    machine: &mut Machine<T, R, V>,
    at: &str,
    version: u64,
    reads: &[(&str, Kind, u64)],
) -> Result<Answer, Fail> {
    let began = machine.begin(15, &path(alloc, at)?);
    assert_eq!(rt; began, Began::Version(version), "at {at}");
    for (location, kind, left) in reads {
        assert_read(rt, alloc, machine, location, *kind, *left)?;
    }
    assert!(rt; matches!(machine.read(15), Readed::Done), "at {at}");
    Ok(publish(alloc, machine, 15)?)
}

/// A scan is begun, dropped, and dropped again.
fn assert_dropped<T: Tree, R: Retain, V: Versions>(
    rt: &impl Abort,
    machine: &mut Machine<T, R, V>,
    at: &Path,
) {
    assert!(rt; !machine.scanning(15));
    assert_eq!(rt; machine.begin(15, at), Began::Version(0));
    assert!(rt; machine.scanning(15));
    assert!(rt; !machine.scanning(14));
    assert!(rt; machine.drop_scan(15));
    assert!(rt; !machine.scanning(15));
    assert!(rt; !machine.drop_scan(15));
    assert!(rt; matches!(machine.read(15), Readed::NoScan));
}

/// The case of the machine's tree, and the digest of what is retained at the path.
fn assert_left<T: Tree + Drop, R: Retain + Drop, V: Versions + Drop>(
    rt: &impl Abort,
    machine: Machine<T, R, V>,
    at: &Path,
    want: Option<Digest>,
) {
    let (tree, retained) = machine.into_parts();
    assert_eq!(rt; tree.case(), Case::Insensitive);
    assert_eq!(rt; retained.case(), Case::Insensitive);
    assert_eq!(rt; retained.find(at).map(|glance| glance.digest), Some(want));
}

/// A file is written, and its event delivered.
fn assert_written<T: Tree, R: Retain, V: Versions + Drop>(
    rt: &impl Abort,
    alloc: Global,
    machine: &mut Machine<T, R, V>,
) -> Result<(), Fail>
    requires { V.count machine.old.versions < 2 ^ 62 }
{
    assert!(rt; machine.settled());
    assert_eq!(rt; machine.edit(&write(alloc, "/f", "abc")?), Edited::Done);
    assert!(rt; !machine.settled());
    assert!(rt; matches!(machine.deliver(), Delivered::Event(_)));
    assert!(rt; machine.settled());
    Ok(())
}

/// The path is scanned, and the scan is published.
fn assert_scanned<T: Tree, R: Retain, V: Versions>(
    rt: &impl Abort,
    alloc: Global,
    machine: &mut Machine<T, R, V>,
    at: &Path,
) -> Result<(), Fail> {
    assert_eq!(rt; machine.begin(15, at), Began::Version(1));
    assert_eq!(rt; machine.begin(15, at), Began::AlreadyOpen);
    assert_eq!(rt; publish(alloc, machine, 15)?, Answer::Unfinished(1));
    assert!(rt; matches!(machine.read(15), Readed::Saw(_, Kind::File, 0)));
    assert!(rt; matches!(machine.read(15), Readed::Done));
    assert_eq!(rt; publish(alloc, machine, 15)?, Answer::Stored);
    assert_eq!(rt; publish(alloc, machine, 15)?, Answer::NoScan);
    assert!(rt; matches!(machine.read(15), Readed::NoScan));
    Ok(())
}

/// The file is found at the path.
fn assert_found<T: Tree, R: Retain, V: Versions>(
    rt: &impl Abort,
    machine: &Machine<T, R, V>,
    at: &Path,
) -> Result<(), Fail> {
    let digest = Some(Some(file_digest(b"abc")));
    assert_eq!(rt; machine.find(at).map(|glance| glance.digest), digest);
    assert_eq!(rt; machine.part(at)?.map(|part| part.digest()), digest);
    assert_eq!(rt; machine.kind(at), Some(Kind::File));
    assert_eq!(rt; machine.version(at), 1);
    Ok(())
}

/// Scans `/d/a`, of which nothing is there, while the event is delivered; gives the answer of the
/// publication.
fn published_after<T: Tree, R: Retain, V: Versions + Drop>(
    rt: &impl Abort,
    alloc: Global,
    machine: &mut Machine<T, R, V>,
    event: &str,
) -> Result<Answer, Fail>
    requires { V.count machine.old.versions < 2 ^ 62 }
{
    assert_eq!(rt; machine.begin(15, &path(alloc, "/d/a")?), Began::Version(0));
    assert_read(rt, alloc, machine, "/d/a", Kind::Missing, 0)?;
    assert_eq!(rt; machine.event(path(alloc, event)?), Fit::Fits);
    assert!(rt; matches!(machine.deliver(), Delivered::Event(_)));
    Ok(publish(alloc, machine, 15)?)
}

#[test]
fn scan_is_retained(rt: HostRuntime) -> Result<(), Fail> {
    let alloc = rt.alloc();
    let at = path(alloc, "/F")?;
    let mut machine = machine(alloc, 2)?;
    assert_written(&rt, alloc, &mut machine)?;
    assert_scanned(&rt, alloc, &mut machine, &at)?;
    assert_found(&rt, &machine, &at)
}

#[test]
fn events_past_the_queue_are_lost(rt: HostRuntime) -> Result<(), Fail> {
    let alloc = rt.alloc();
    let mut machine = machine(alloc, 2)?;
    let to = Edit::Move(path(alloc, "/f")?, path(alloc, "/g")?);
    assert_eq!(rt; machine.edit(&write(alloc, "/f", "abc")?), Edited::Done);
    assert_eq!(rt; machine.edit(&to), Edited::Overflow);
    assert_eq!(rt;
        machine.edit(&write(alloc, "/", "abc")?),
        Edited::Refused(EditError::Root)
    );
    machine.lose();
    assert!(rt; matches!(machine.deliver(), Delivered::Cleared));
    assert!(rt; machine.settled());
    assert!(rt; matches!(machine.deliver(), Delivered::Nothing));
    let tree = machine.into_tree();
    assert_eq!(rt; tree.case(), Case::Insensitive);
    Ok(())
}

#[test]
fn child_that_went_between_the_reads_is_left_out(rt: HostRuntime) -> Result<(), Fail> {
    let alloc = rt.alloc();
    let mut machine = machine(alloc, 8)?;
    make_directory(&rt, alloc, &mut machine)?;
    assert_eq!(rt; machine.begin(15, &path(alloc, "/d")?), Began::Version(0));
    assert_read(&rt, alloc, &mut machine, "/d", Kind::Dir, 2)?;
    let remove = Edit::Remove(path(alloc, "/d/a")?);
    assert_eq!(rt; machine.edit(&remove), Edited::Done);
    assert_read(&rt, alloc, &mut machine, "/d/a", Kind::Missing, 1)?;
    assert_read(&rt, alloc, &mut machine, "/d/b", Kind::File, 0)?;
    assert_eq!(rt; publish(alloc, &mut machine, 15)?, Answer::Stored);
    let wants = [
        ("/d", Some(Kind::Dir)),
        ("/d/a", Some(Kind::Missing)),
        ("/d/b", Some(Kind::File)),
        ("/e", None),
    ];
    assert_kinds(&rt, alloc, &machine, &wants)
}

#[test]
fn directory_is_retained(rt: HostRuntime) -> Result<(), Fail> {
    let alloc = rt.alloc();
    let mut machine = machine(alloc, 8)?;
    make_directory(&rt, alloc, &mut machine)?;
    assert_dropped(&rt, &mut machine, &path(alloc, "/d")?);
    let reads = [
        ("/", Kind::Dir, 1),
        ("/d", Kind::Dir, 2),
        ("/d/a", Kind::File, 1),
        ("/d/b", Kind::File, 0),
    ];
    let first = published(&rt, alloc, &mut machine, "/d", 0, &reads[1..])?;
    assert_eq!(rt; first, Answer::Stored);
    let file = Some(file_digest(b"a"));
    let wants = [("/d/a", Some(file)), ("/D/c", Some(None)), ("/x", None)];
    assert_parts(&rt, alloc, &machine, &wants)?;
    let whole = published(&rt, alloc, &mut machine, "/", 0, &reads)?;
    assert_eq!(rt; whole, Answer::Stored);
    let wants = [
        ("/", Some(Kind::Dir)),
        ("/d/b", Some(Kind::File)),
        ("/e", Some(Kind::Missing)),
    ];
    assert_kinds(&rt, alloc, &machine, &wants)?;
    assert_left(&rt, machine, &path(alloc, "/D/A")?, file);
    Ok(())
}

#[test]
fn calls_are_values(rt: HostRuntime) -> Result<(), Fail> {
    let alloc = rt.alloc();
    let at = path(alloc, "/f")?;
    let mut machine = machine(alloc, 2)?;
    let edit = Call::Edit(write(alloc, "/f", "abc")?);
    let again = edit.share()?;
    for call in [edit, again] {
        let reply = machine.call(15, call, &[]);
        assert!(rt; matches!(reply, Reply::Edited(Edited::Done)));
    }
    let began = machine.call(15, Call::Begin(at.share()?), &[]);
    assert!(rt; matches!(began, Reply::Began(Began::Version(0))));
    let read = machine.call(15, Call::Read, &[]);
    assert!(rt; matches!(read, Reply::Readed(Readed::Saw(_, Kind::File, 0))));
    let digests = scan_digests(alloc, &machine, 15)?;
    let published = machine.call(15, Call::Publish, digests.as_slice());
    assert!(rt; matches!(published, Reply::Answer(Answer::Stored)));
    let known = machine.side_call(15, SideCall::Kind(&at));
    assert_eq!(rt; known, SideReply::Known(Some(Kind::File)));
    let dropped = machine.side_call(15, SideCall::Abandon);
    assert_eq!(rt; dropped, SideReply::Dropped(false));
    Ok(())
}

#[test]
fn stale_comes_before_covered(rt: HostRuntime) -> Result<(), Fail> {
    let alloc = rt.alloc();
    let mut machine = machine(alloc, 8)?;
    make_directory(&rt, alloc, &mut machine)?;
    // The scan 0 is overtaken by the event of `/d`, and a scan of `/d` then covers it.
    assert_eq!(rt; machine.begin(0, &path(alloc, "/d/a")?), Began::Version(0));
    assert!(rt; matches!(machine.read(0), Readed::Saw(_, Kind::File, 0)));
    assert!(rt; matches!(machine.deliver(), Delivered::Event(_)));
    let reads = [
        ("/d", Kind::Dir, 2),
        ("/d/a", Kind::File, 1),
        ("/d/b", Kind::File, 0),
    ];
    let above = published(&rt, alloc, &mut machine, "/d", 1, &reads)?;
    assert_eq!(rt; above, Answer::Stored);
    assert_eq!(rt; publish(alloc, &mut machine, 0)?, Answer::Stale(1));
    let fresh = published(
        &rt,
        alloc,
        &mut machine,
        "/d/a",
        1,
        &[("/d/a", Kind::File, 0)],
    )?;
    assert_eq!(rt; fresh, Answer::Covered);
    Ok(())
}

#[test]
fn publication_is_stale_after_an_event_of_a_related_path(rt: HostRuntime) -> Result<(), Fail> {
    let alloc = rt.alloc();
    for (event, want) in [
        ("/D/A", Answer::Stale(1)),
        ("/d", Answer::Stale(1)),
        ("/", Answer::Stale(1)),
        ("/d/a/x", Answer::Stale(1)),
        ("/d/b", Answer::Stored),
        ("/d/ab", Answer::Stored),
    ] {
        let mut machine = machine(alloc, 2)?;
        assert_eq!(rt;
            published_after(&rt, alloc, &mut machine, event)?,
            want,
            "at {event}"
        );
    }
    Ok(())
}
