//! The two lists themselves.

ghost use Rattle.std.specs.Prelude.{◌≡◌, ◌++◌, ◌&&◌, None, false, not, filter, IfOk, OnOk};
ghost use Rattle.std.specs.Option.{option_map};
ghost use Rattle.vfs_model.specs.Paths.{place, is_at_or_above, is_same_place};
ghost use Rattle.vfs_model.specs.Retained as spec;
ghost use Rattle.vfs_model.specs.Snapshot.{IsTree};
ghost use Rattle.snapshot_tree.specs.Meaning.{meaning_of};
ghost use Rattle.snapshot_tree.specs.Pieces.{pair_of, pairs_of, places_of};
ghost use Rattle.snapshot_hierarchy.specs.Held.{nothing};
ghost use Rattle.snapshot_hierarchy.specs.Flat.{holding, first_over, opened_dirs};

use crate::retain::{Retain, Stored};
use case_order::{Case, NoMemory, Share};
use snapshot_tree::{Glance, Kind, Pair, Snapshot};
use std::alloc::Global;
use std::cmp::Ordering;
use std::marker::Model;
use vfs_path::Path;

/// The pairs and the known directories in two lists, each in its order: every call takes time that
/// grows with them, and a change makes them anew.
#[derive(Drop)]
pub struct FlatRetain {
    case: Case,
    pairs: Vec<Pair>,
    dirs: Vec<Path>,
}

impl Model for FlatRetain {
    ghost use Rattle.vfs_model.specs.Retained.{IsInShape};
    ghost use Rattle.snapshot_hierarchy.specs.Held.{Held, held_code};

    ghost Value = { Held };

    ghost coded = { held_code };

    ghost use Rattle.snapshot_hierarchy.specs.Flat.{lists_of, holding};

    ghost view = { λ r. holding r.case (lists_of r.case r.pairs.items r.dirs.items) };

    ghost invariant = { λ r. IsInShape r.case (lists_of r.case r.pairs.items r.dirs.items) };
}

impl FlatRetain {
    /// Nothing is retained; takes no memory.
    pub fn new(alloc: Global, case: Case) -> FlatRetain
        ensures { result ≡ holding case nothing }
    {
        FlatRetain {
            case,
            pairs: Vec::new(alloc),
            dirs: Vec::new(alloc),
        }
    }

    /// What an invalidation of the path leaves.
    fn without(&self, path: &Path) -> Result<FlatRetain, NoMemory>
        ensures left { IfOk result (λ left. left ≡ holding self.now.case
            (spec.after_invalidation self.now.case (place self.now.case path.now) self.now.retained)) }
        ensures untold { self.now.log ≡ None }
    {
        let (pairs, opened) = pairs_left(*self.pairs.allocator(), self.case, &self.pairs, path)?;
        let mut dirs = dirs_outside(*self.dirs.allocator(), self.case, &self.dirs, path)?;
        add_dirs(self.case, &mut dirs, &opened)?;
        Ok(FlatRetain {
            case: self.case,
            pairs,
            dirs,
        })
    }

    /// The same with the snapshot at the path, which no pair stands strictly above.
    fn with(&self, path: &Path, snapshot: Snapshot) -> Result<FlatRetain, NoMemory>
        requires tree { IsTree self.now.case (meaning_of snapshot) }
        requires free { spec.is_covered self.now.retained.pairs (place self.now.case path.now) ≡ false }
        ensures kept { IfOk result (λ kept. kept ≡ holding self.now.case
            (spec.after_store (place self.now.case path.now) (meaning_of snapshot) self.now.retained)) }
        ensures untold { self.now.log ≡ None }
    {
        let case = self.case();
        let FlatRetain {
            case: _,
            mut pairs,
            mut dirs,
        } = self.without(path)?;
        add_known(case, &mut dirs, path, &snapshot)?;
        let path = path.share()?;
        add_pair(case, &mut pairs, Pair { path, snapshot })?;
        Ok(FlatRetain { case, pairs, dirs })
    }
}

impl Retain for FlatRetain {
    ghost held = { λ r. r };

    fn case(&self) -> Case {
        self.case
    }

    fn part(&self, path: &Path) -> Result<Option<Snapshot>, NoMemory> {
        match over(self.case, &self.pairs, path) {
            Some(pair) => {
                let part = pair.snapshot.sub(self.case, path, pair.path.len())?;
                Ok(Some(part))
            }
            None => Ok(None),
        }
    }

    fn find(&self, path: &Path) -> Option<Glance> {
        let pair = over(self.case, &self.pairs, path)?;
        Some(pair.snapshot.glance(self.case, path, pair.path.len()))
    }

    fn kind(&self, path: &Path) -> Option<Kind> {
        match self.find(path) {
            Some(glance) => Some(glance.kind),
            None if is_known(self.case, &self.dirs, path) => Some(Kind::Dir),
            None => None,
        }
    }

    fn covers(&self, path: &Path) -> bool {
        is_covered(self.case, &self.pairs, path)
    }

    fn store(&mut self, path: &Path, snapshot: Snapshot) -> Result<Stored, NoMemory> {
        if self.covers(path) {
            return Ok(Stored::Covered);
        }
        *self = self.with(path, snapshot)?;
        Ok(Stored::Kept)
    }

    fn invalidate(&mut self, path: &Path) -> Result<(), NoMemory> {
        *self = self.without(path)?;
        Ok(())
    }

    fn clear(&mut self) -> Result<(), NoMemory> {
        *self = FlatRetain::new(*self.pairs.allocator(), self.case);
        Ok(())
    }
}

/// The first pair at or above the path.
fn over<'a>(case: Case, pairs: &'a [Pair], path: &Path) -> Option<&'a Pair>
    ensures { option_map (λ pair. pair.now) result ≡ first_over case path.now pairs.now }
{
    pairs
        .iter()
        .find(|pair| pair.path.is_at_or_above(case, path))
}

/// Whether the path is known to be a directory.
fn is_known(case: Case, dirs: &[Path], path: &Path) -> bool
    ensures { result ≡ spec.is_known (places_of case dirs.now) (place case path.now) }
{
    dirs.iter().any(|dir| is_same_place(case, dir, path))
}

/// Whether both paths are the same location.
fn is_same_place(case: Case, a: &Path, b: &Path) -> bool
    ensures { result ≡ is_same_place (place case a.now) (place case b.now) }
{
    a.is_at_or_above(case, b) && b.is_at_or_above(case, a)
}

/// Whether a pair stands strictly above the path.
fn is_covered(case: Case, pairs: &[Pair], path: &Path) -> bool
    ensures { result ≡ spec.is_covered (pairs_of case pairs.now) (place case path.now) }
{
    pairs
        .iter()
        .any(|pair| is_strictly_above(case, &pair.path, path))
}

/// Whether the second path is below the first.
fn is_strictly_above(case: Case, a: &Path, b: &Path) -> bool
    ensures { result ≡ (is_at_or_above (place case a.now) (place case b.now) && not (is_at_or_above (place case b.now) (place case a.now))) }
{
    a.is_at_or_above(case, b) && !b.is_at_or_above(case, a)
}

/// What an invalidation of the path leaves of the pairs, and the directories that become known by
/// it.
fn pairs_left(
    alloc: Global,
    case: Case,
    pairs: &[Pair],
    path: &Path,
) -> Result<(Vec<Pair>, Vec<Path>), NoMemory>
    ensures pairs { IfOk result (λ left. pairs_of case left.0.items ≡ spec.all_pairs_left case (place case path.now) (pairs_of case pairs.now)) }
    ensures opened { IfOk result (λ left. places_of case left.1.items ≡ opened_dirs case (place case path.now) (pairs_of case pairs.now)) }
{
    let mut left = Vec::new(alloc);
    let mut opened = Vec::new(alloc);
    for pair in pairs {
        add_left(case, &mut left, &mut opened, pair, path)?;
    }
    Ok((left, opened))
}

/// Appends what an invalidation of the path leaves of one pair: nothing at or below the path, the
/// pieces of one strictly above it with the directories on the way, and else the pair itself.
fn add_left(
    case: Case,
    left: &mut Vec<Pair>,
    opened: &mut Vec<Path>,
    pair: &Pair,
    path: &Path,
) -> Result<(), NoMemory>
    ensures pairs { OnOk result (pairs_of case left.new.items ≡ pairs_of case left.old.items ++ spec.pairs_left case (place case path.now) (pair_of case pair.now)) }
    ensures opened { OnOk result (places_of case opened.new.items ≡ places_of case opened.old.items ++ spec.dirs_left case (place case path.now) (pair_of case pair.now)) }
{
    if path.is_at_or_above(case, &pair.path) {
        return Ok(());
    }
    if !pair.path.is_at_or_above(case, path) {
        left.push(pair.share()?)?;
        return Ok(());
    }
    let pieces = pair
        .snapshot
        .pieces(*left.allocator(), case, &pair.path, path)?;
    add_shared(left, pieces.pairs.as_slice())?;
    add_shared(opened, pieces.dirs.as_slice())
}

/// Appends equal values.
fn add_shared<T: Share + Drop>(items: &mut Vec<T>, more: &[T]) -> Result<(), NoMemory>
    ensures { OnOk result (items.new.items ≡ items.old.items ++ more.now) }
{
    for item in more {
        items.push(item.share()?)?;
    }
    Ok(())
}

/// The directories that are not at or below the path.
fn dirs_outside(
    alloc: Global,
    case: Case,
    dirs: &[Path],
    path: &Path,
) -> Result<Vec<Path>, NoMemory>
    ensures { IfOk result (λ left. places_of case left.items ≡ filter (λ d. not (is_at_or_above (place case path.now) d)) (places_of case dirs.now)) }
{
    let mut left = Vec::new(alloc);
    for dir in dirs {
        if !path.is_at_or_above(case, dir) {
            left.push(dir.share()?)?;
        }
    }
    Ok(left)
}

/// Puts the pair before the first one that its path precedes.
fn add_pair(case: Case, pairs: &mut Vec<Pair>, pair: Pair) -> Result<(), NoMemory>
    ensures { OnOk result (pairs_of case pairs.new.items ≡ spec.insert_pair (pair_of case pair) (pairs_of case pairs.old.items)) }
{
    for i in 0..pairs.len() {
        if precedes(case, &pair.path, &pairs[i].path) {
            pairs.insert(i, pair)?;
            return Ok(());
        }
    }
    pairs.push(pair)?;
    Ok(())
}

/// Whether the first path comes before the second, and is not above it.
fn precedes(case: Case, a: &Path, b: &Path) -> bool
    ensures { result ≡ spec.precedes (place case a.now) (place case b.now) }
{
    a.order(case, b).is_lt() && !a.is_at_or_above(case, b)
}

/// Adds the directories that the snapshot of the path makes known.
fn add_known(
    case: Case,
    dirs: &mut Vec<Path>,
    path: &Path,
    snapshot: &Snapshot,
) -> Result<(), NoMemory>
    ensures { OnOk result (places_of case dirs.new.items ≡ spec.insert_dirs (spec.known_above (place case path.now) (meaning_of snapshot.now)) (places_of case dirs.old.items)) }
{
    match snapshot {
        Snapshot::Missing => Ok(()),
        Snapshot::File(_) | Snapshot::Dir(_) => add_ancestors(case, dirs, path),
    }
}

/// Adds the paths strictly above the path, the deepest first.
fn add_ancestors(case: Case, dirs: &mut Vec<Path>, path: &Path) -> Result<(), NoMemory>
    ensures { OnOk result (places_of case dirs.new.items ≡ spec.insert_dirs (spec.ancestors (place case path.now)) (places_of case dirs.old.items)) }
{
    for n in (0..path.len()).rev() {
        let dir = path.front(*dirs.allocator(), n)?;
        add_dir(case, dirs, &dir)?;
    }
    Ok(())
}

/// Puts each of the directories in its place, the last first.
fn add_dirs(case: Case, dirs: &mut Vec<Path>, more: &[Path]) -> Result<(), NoMemory>
    ensures { OnOk result (places_of case dirs.new.items ≡ spec.insert_dirs (places_of case more.now) (places_of case dirs.old.items)) }
{
    for i in (0..more.len()).rev() {
        add_dir(case, dirs, &more[i])?;
    }
    Ok(())
}

/// Puts the directory in its place in the order, where it is not there yet.
fn add_dir(case: Case, dirs: &mut Vec<Path>, dir: &Path) -> Result<(), NoMemory>
    ensures { OnOk result (places_of case dirs.new.items ≡ spec.insert_dir (place case dir.now) (places_of case dirs.old.items)) }
{
    for i in 0..dirs.len() {
        match dir.order(case, &dirs[i]) {
            Ordering::Less => {
                let dir = dir.share()?;
                dirs.insert(i, dir)?;
                return Ok(());
            }
            Ordering::Equal => return Ok(()),
            Ordering::Greater => {}
        }
    }
    dirs.push(dir.share()?)?;
    Ok(())
}
