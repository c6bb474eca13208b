//! What is left of a snapshot where a location below it has changed.

ghost use Rattle.std.specs.Prelude.{◌≡◌, ◌<◌, ◌≤◌, ◌++◌, ◌∷◌, [], true, length, take, drop, slice_index_or, IfOk, OnOk};
ghost use Rattle.vfs_model.specs.Paths.{place, is_at_or_above};
ghost use Rattle.vfs_model.specs.Retained as spec;
ghost use Rattle.snapshot_tree.specs.Meaning.{meaning_of, children_in};
ghost use Rattle.snapshot_tree.specs.Pieces.{pairs_of, places_of, inner_pieces};

use crate::directory::{Child, DirRef};
use crate::snapshot::Snapshot;
use case_order::{Case, NoMemory, Share, same, share_all};
use std::alloc::Global;
use std::marker::Model;
use vfs_path::{Path, PathError, Paths};

/// A path and the snapshot of its location.
#[derive(Debug, Drop)]
pub struct Pair {
    pub path: Path,
    pub snapshot: Snapshot,
}

impl Share for Pair {
    fn share(&self) -> Result<Pair, NoMemory> {
        Ok(Pair {
            path: self.path.share()?,
            snapshot: self.snapshot.share()?,
        })
    }
}

/// A list of pairs.
#[derive(Debug, Drop)]
pub struct Pairs {
    items: Vec<Pair>,
}

impl Model for Pairs {
    ghost use Rattle.std.specs.Prelude.{List};
    ghost use Rattle.std.specs.Coded.{coded_list};
    ghost use Rattle.snapshot_tree.specs.declared.pieces.Pair.{Pair};
    ghost use Rattle.snapshot_tree.specs.contracts.pieces.Pair as pair;

    ghost Value = { List Pair };

    ghost coded = { coded_list pair.the_row.coded };

    ghost view = { λ p. p.items.items };
}

impl Pairs {
    /// The pairs of the vector; takes no memory.
    pub fn from_vec(items: Vec<Pair>) -> Pairs
        ensures { result ≡ items.items }
    {
        Pairs { items }
    }

    /// The pairs.
    pub fn as_slice(&self) -> &[Pair]
        ensures { result.now ≡ self.now }
    {
        self.items.as_slice()
    }
}

impl Share for Pairs {
    fn share(&self) -> Result<Pairs, NoMemory> {
        let items = share_all(*self.items.allocator(), &self.items)?;
        Ok(Pairs { items })
    }
}

/// What is left of a snapshot, both lists in the order of their paths.
#[derive(Debug, Drop)]
pub struct Pieces {
    /// The snapshots beside the way.
    pub pairs: Pairs,
    /// The directories on the way.
    pub dirs: Paths,
}

impl Snapshot {
    /// What is left of the snapshot of the path `at` where the location `e` at or below it has
    /// changed: the directories from `at` on that are strictly above `e`, and their children that
    /// are not at or above it. Nothing is left of a file on the way, or of what is missing.
    ///
    /// The only error is want of memory.
    pub fn pieces(&self, alloc: Global, case: Case, at: &Path, e: &Path) -> Result<Pieces, NoMemory>
        requires { is_at_or_above (place case at.now) (place case e.now) ≡ true }
        ensures pairs { IfOk result (λ left. pairs_of case left.pairs ≡ spec.pieces case (place case at.now) (meaning_of self.now) (drop (length at.now) (place case e.now))) }
        ensures dirs { IfOk result (λ left. places_of case left.dirs ≡ spec.dirs_from case (place case at.now) (meaning_of self.now) (drop (length at.now) (place case e.now))) }
    {
        let dirs = self.dirs_above(alloc, case, e, at.len())?;
        let mut pairs = Vec::new(alloc);
        self.add_pieces(case, e, at.len(), &mut pairs)?;
        Ok(Pieces {
            pairs: Pairs::from_vec(pairs),
            dirs: Paths::from_vec(dirs),
        })
    }

    /// The paths strictly above `e`, from the one with so many names on, that the snapshot there
    /// calls directories.
    fn dirs_above(
        &self,
        alloc: Global,
        case: Case,
        e: &Path,
        from: usize,
    ) -> Result<Vec<Path>, NoMemory>
        requires { from ≤ length e.now }
        ensures { IfOk result (λ dirs. places_of case dirs.items ≡ spec.dirs_from case (take from (place case e.now)) (meaning_of self.now) (drop from (place case e.now))) }
    {
        let mut dirs = Vec::new(alloc);
        let mut here = self;
        for depth in from..e.len() {
            let directory = match here {
                Snapshot::Missing => return Ok(dirs),
                Snapshot::File(_) => return Ok(dirs),
                Snapshot::Dir(directory) => directory,
            };
            let dir = e.front(alloc, depth)?;
            dirs.push(dir)?;
            match directory.listed(case, e.name(depth)) {
                Some(child) => here = child,
                None => return Ok(dirs),
            }
        }
        Ok(dirs)
    }

    /// Appends the children beside the way to `e`, from the path with so many names on, where the
    /// snapshot stands.
    #[cycle(pieces)]
    fn add_pieces(
        &self,
        case: Case,
        e: &Path,
        depth: usize,
        pairs: &mut Vec<Pair>,
    ) -> Result<(), NoMemory>
        requires { depth ≤ length e.now }
        ensures { OnOk result (pairs_of case pairs.new.items ≡ pairs_of case pairs.old.items ++ spec.pieces case (take depth (place case e.now)) (meaning_of self.now) (drop depth (place case e.now))) }
    {
        let directory = match self {
            Snapshot::Missing => return Ok(()),
            Snapshot::File(_) => return Ok(()),
            Snapshot::Dir(directory) => directory,
        };
        if depth >= e.len() {
            return Ok(());
        }
        let here = e.front(*pairs.allocator(), depth)?;
        for child in directory.children() {
            directory.add_piece(case, e, &here, child, pairs)?;
        }
        Ok(())
    }
}

impl DirRef {
    /// Appends the child, with its path below the directory's; in place of the child on the way to
    /// `e`, what is left of it.
    #[cycle(pieces)]
    fn add_piece(
        &self,
        case: Case,
        e: &Path,
        here: &Path,
        child: &Child,
        pairs: &mut Vec<Pair>,
    ) -> Result<(), NoMemory>
        requires above { here.now ≡ take (length here.now) e.now }
        requires strictly { length here.now < length e.now }
        requires room { length here.now < 64 }
        ensures { OnOk result (pairs_of case pairs.new.items ≡ pairs_of case pairs.old.items ++ spec.pieces_beside case (place case here.now) (children_in (child.now ∷ [])) (slice_index_or (place case e.now) (length here.now) []) (inner_pieces case self.now (place case e.now) (length here.now))) }
    {
        let depth = here.len();
        let name = e.name(depth);
        if !same(case, child.name.as_bytes(), name.as_bytes()) {
            let pair = pair_below(*pairs.allocator(), here, child)?;
            pairs.push(pair)?;
            return Ok(());
        }
        match self.listed(case, name) {
            Some(next) => {
                next.add_pieces(case, e, depth + 1, pairs)?;
                Ok(())
            }
            None => Ok(()),
        }
    }
}

/// The child with its path below the directory's.
fn pair_below(alloc: Global, directory: &Path, child: &Child) -> Result<Pair, NoMemory>
    requires { length directory.now < 64 }
    ensures { IfOk result (λ pair. (pair.path ≡ directory.now ++ child.now.name ∷ []) × (pair.snapshot ≡ child.now.snapshot)) }
{
    let snapshot = child.snapshot.share()?;
    match directory.child(alloc, &child.name) {
        Ok(path) => Ok(Pair { path, snapshot }),
        Err(PathError::NoMemory) => Err(NoMemory),
        Err(_) => unreachable!(),
    }
}
