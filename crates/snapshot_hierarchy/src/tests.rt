//! What is retained of files and directories after stores and invalidations, by two lists and by a
//! holder that also tells its changes.

ghost use Rattle.std.specs.Prelude.{◌≡◌, ◌≢◌, [], IfOk, Some, map};
ghost use Rattle.vfs_model.specs.declared.Case.{Case as CaseOf};
ghost use Rattle.vfs_model.specs.Snapshot.{Missing, IsTree};
ghost use Rattle.snapshot_tree.specs.Meaning.{meaning_of};
ghost use Rattle.snapshot_hierarchy.specs.Held.{change_of};

use crate::{Change, FlatRetain, Retain, Shown, Stored};
use case_order::{Case, NoMemory, Share, order, share_all};
use merkle_hash::{Digest, file_digest};
use snapshot_tree::{DirBuilder, Glance, Kind, Snapshot};
use std::alloc::Global;
use std::process::Abort;
use std::sync::Wait;
use std::test::Fail;
use std::thread::Threads;
use vfs_path::{Name, Path};

/// Two lists, and the changes that were made of them.
#[derive(Drop)]
struct Recorded {
    retained: FlatRetain,
    changes: Vec<Change>,
}

impl Recorded {
    fn new(alloc: Global, case: Case) -> Recorded {
        Recorded {
            retained: FlatRetain::new(alloc, case),
            changes: Vec::new(alloc),
        }
    }
}

impl Retain for Recorded {
    ghost held = { λ r. record { case = r.retained.case; retained = r.retained.retained; log = Some (record { board = []; changes = map change_of r.changes.items }) } };

    fn case(&self) -> Case {
        self.retained.case()
    }

    fn part(&self, path: &Path) -> Result<Option<Snapshot>, NoMemory> {
        self.retained.part(path)
    }

    fn find(&self, path: &Path) -> Option<Glance> {
        self.retained.find(path)
    }

    fn kind(&self, path: &Path) -> Option<Kind> {
        self.retained.kind(path)
    }

    fn covers(&self, path: &Path) -> bool {
        self.retained.covers(path)
    }

    fn store(&mut self, path: &Path, snapshot: Snapshot) -> Result<Stored, NoMemory> {
        if self.retained.covers(path) {
            return Ok(Stored::Covered);
        }
        let change = Change::Kept(path.share()?, snapshot.share()?);
        self.changes.reserve(1)?;
        let stored = self.retained.store(path, snapshot)?;
        self.changes.push_reserved(change);
        Ok(stored)
    }

    fn invalidate(&mut self, path: &Path) -> Result<(), NoMemory> {
        let change = Change::Gone(path.share()?);
        self.changes.reserve(1)?;
        self.retained.invalidate(path)?;
        self.changes.push_reserved(change);
        Ok(())
    }

    fn clear(&mut self) -> Result<(), NoMemory> {
        self.changes.reserve(1)?;
        self.retained.clear()?;
        self.changes.push_reserved(Change::Cleared);
        Ok(())
    }
}

/// All the changes that were shown.
#[derive(Drop)]
struct Shelf {
    changes: Vec<Change>,
}

impl Shown for Recorded {
    type Note = Shelf;

    ghost noted = { λ n. record { board = []; changes = map change_of n.changes.items } };

    fn show<X: Threads + Wait + Sync>(&mut self, _rt: &X) -> Result<Shelf, NoMemory> {
        let changes = share_all(*self.changes.allocator(), &self.changes)?;
        Ok(Shelf { changes })
    }
}

/// Shows the changes so far.
fn shown<S: Shown, X: Threads + Wait + Sync>(rt: &X, retained: &mut S) -> Result<S::Note, NoMemory>
    ensures { S.held retained.new ≡ S.held retained.old }
{
    retained.show(rt)
}

/// What is asked of a holder, and what must come of it.
#[derive(Clone, Copy)]
enum Ask {
    Store(Stored),
    StoreMissing(Stored),
    Invalidate,
    Clear,
    Covers(bool),
    Kind(Option<Kind>),
    Find(Option<Option<Digest>>),
}

fn file(text: &str) -> Snapshot
    ensures there { meaning_of result ≢ Missing }
    ensures tree { (case : CaseOf) → IsTree case (meaning_of result) }
{
    Snapshot::File(file_digest(text.as_bytes()))
}

fn missing() -> Snapshot
    ensures { (case : CaseOf) → IsTree case (meaning_of result) }
{
    Snapshot::Missing
}

/// The directory with a file of each name, which holds its name.
fn directory(rt: &impl Abort, alloc: Global, first: &str, second: &str) -> Result<Snapshot, Fail>
    ensures { IfOk result (λ snapshot. IsTree Case.Insensitive (meaning_of snapshot)) }
{
    let name = Name::from_bytes(alloc, first.as_bytes())?;
    let last = Name::from_bytes(alloc, second.as_bytes())?;
    assert!(rt; order(Case::Insensitive, name.as_bytes(), last.as_bytes()).is_lt());
    let mut builder = DirBuilder::new(alloc, Case::Insensitive);
    builder.add(name, file(first))?;
    builder.add(last, file(second))?;
    Ok(builder.finish()?)
}

fn assert_asked<R: Retain>(
    rt: &impl Abort,
    alloc: Global,
    retained: &mut R,
    text: &str,
    ask: Ask,
) -> Result<(), Fail> {
    let path = Path::parse(alloc, text.as_bytes())?;
    match ask {
        Ask::Store(want) => {
            assert_eq!(rt; retained.store(&path, file(text))?, want, "{text}");
        }
        Ask::StoreMissing(want) => {
            assert_eq!(rt; retained.store(&path, missing())?, want, "{text}");
        }
        Ask::Invalidate => retained.invalidate(&path)?,
        Ask::Clear => retained.clear()?,
        Ask::Covers(want) => assert_eq!(rt; retained.covers(&path), want, "{text}"),
        Ask::Kind(want) => assert_eq!(rt; retained.kind(&path), want, "{text}"),
        Ask::Find(want) => {
            let found = retained.find(&path).map(|glance| glance.digest);
            assert_eq!(rt; found, want, "{text}");
            let part = retained.part(&path)?;
            assert_eq!(rt; part.map(|part| part.digest()), want, "{text}");
        }
    }
    Ok(())
}

fn digest_of(text: &str) -> Option<Option<Digest>> {
    Some(Some(file_digest(text.as_bytes())))
}

/// Files come and go, by five changes.
fn assert_files<R: Retain>(rt: &impl Abort, alloc: Global, retained: &mut R) -> Result<(), Fail> {
    for (text, ask) in [
        ("/d/a", Ask::Kind(None)),
        ("/d/a", Ask::Find(None)),
        ("/d/a", Ask::Store(Stored::Kept)),
        ("/D/A", Ask::Find(digest_of("/d/a"))),
        ("/d/a/b", Ask::Find(Some(None))),
        ("/d", Ask::Find(None)),
        ("/d", Ask::Kind(Some(Kind::Dir))),
        ("/", Ask::Kind(Some(Kind::Dir))),
        ("/e", Ask::Kind(None)),
        ("/d/a", Ask::Covers(false)),
        ("/d", Ask::Store(Stored::Kept)),
        ("/d/a", Ask::Find(Some(None))),
        ("/d", Ask::Kind(Some(Kind::File))),
        ("/d", Ask::Covers(false)),
        ("/D/a", Ask::Covers(true)),
        ("/d/a", Ask::Store(Stored::Covered)),
        ("/d/a", Ask::Invalidate),
        ("/d", Ask::Find(None)),
        ("/", Ask::Kind(Some(Kind::Dir))),
        ("/c", Ask::StoreMissing(Stored::Kept)),
        ("/c", Ask::Kind(Some(Kind::Missing))),
        ("/", Ask::Clear),
        ("/c", Ask::Find(None)),
        ("/", Ask::Kind(None)),
    ] {
        assert_asked(rt, alloc, retained, text, ask)?;
    }
    assert_eq!(rt; retained.case(), Case::Insensitive);
    Ok(())
}

#[test]
fn files_are_kept_until_they_are_invalidated(rt: HostRuntime) -> Result<(), Fail> {
    let alloc = rt.alloc();
    let mut retained = FlatRetain::new(alloc, Case::Insensitive);
    assert_files(&rt, alloc, &mut retained)
}

#[test]
fn changes_are_told_but_not_of_a_covered_store(rt: HostRuntime) -> Result<(), Fail> {
    let alloc = rt.alloc();
    let mut retained = Recorded::new(alloc, Case::Insensitive);
    assert_files(&rt, alloc, &mut retained)?;
    let shelf = shown(&rt, &mut retained)?;
    assert_eq!(rt; shelf.changes.len(), 5);
    Ok(())
}

#[test]
fn directory_that_breaks_leaves_its_pieces(rt: HostRuntime) -> Result<(), Fail> {
    let alloc = rt.alloc();
    let mut retained = FlatRetain::new(alloc, Case::Insensitive);
    let path = Path::parse(alloc, b"/d")?;
    let whole = directory(&rt, alloc, "a", "b")?;
    let stored = retained.store(&path, whole)?;
    assert_eq!(rt; stored, Stored::Kept);
    for (text, ask) in [
        ("/D/A", Ask::Find(digest_of("a"))),
        ("/d/c", Ask::Find(Some(None))),
        ("/x", Ask::Find(None)),
        ("/d/A", Ask::Invalidate),
        ("/d/a", Ask::Find(None)),
        ("/d/b", Ask::Find(digest_of("b"))),
        ("/d", Ask::Find(None)),
        ("/d", Ask::Kind(Some(Kind::Dir))),
        ("/", Ask::Kind(Some(Kind::Dir))),
        ("/d/b", Ask::Invalidate),
        ("/d", Ask::Kind(Some(Kind::Dir))),
        ("/d", Ask::Invalidate),
        ("/d", Ask::Kind(None)),
    ] {
        assert_asked(&rt, alloc, &mut retained, text, ask)?;
    }
    Ok(())
}
