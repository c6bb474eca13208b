//! What holds snapshots at paths.

ghost use Rattle.std.specs.Prelude.{◌≡◌, ◌∷◌, [], false, true, IfOk, IfSome, OnOk, OnErr, is_some, option_map};
ghost use Rattle.vfs_model.specs.Paths.{place};
ghost use Rattle.vfs_model.specs.Retained as spec;
ghost use Rattle.vfs_model.specs.Snapshot.{IsTree};
ghost use Rattle.vfs_model.specs.State.{glance};
ghost use Rattle.vfs_model.specs.History.{Gone, AllGone, with_changes};
ghost use Rattle.snapshot_tree.specs.Meaning.{meaning_of, glance_of};
ghost use Rattle.snapshot_hierarchy.specs.Held.{Held, nothing, was_covered, changes_of_store};

use case_order::{Case, NoMemory};
use snapshot_tree::{Glance, Kind, Snapshot};
use vfs_path::Path;

/// What came of a store.
#[derive(Clone, Copy, Debug, PartialEq, Eq)]
pub enum Stored {
    /// The snapshot is retained.
    Kept,
    /// A snapshot is retained strictly above the path: nothing changed.
    Covered,
}

/// What holds snapshots at paths: a sorted list of pairs of a path and its snapshot, no path at or
/// below another's, and a sorted list of directories that are known, none at or below a pair.
///
/// The spelling of the paths in these lists is no part of the content. Where it tells them, it has
/// besides a list of the changes so far and the name of the board on which they are shown. No call
/// changes the case, the board's name, or whether changes are told.
pub trait Retain {
    ghost held: { Self → Held };

    /// The case under which paths are compared. The lists are in shape under it.
    fn case(&self) -> Case
        ensures case { result ≡ (held self.now).case }
        ensures shape { spec.IsInShape (held self.now).case (held self.now).retained };

    /// The part at the path of the pair at or above it; None exactly where there is no such pair.
    ///
    /// The names of the directories of a part are in order under the case, and no child is missing.
    /// The only error is want of memory, which comes only where there is such a pair.
    fn part(&self, path: &Path) -> Result<Option<Snapshot>, NoMemory>
        ensures found { IfOk result (λ part. option_map meaning_of part
            ≡ spec.part_of (held self.now).case (held self.now).retained.pairs (place (held self.now).case path.now)) }
        ensures tree { IfOk result (λ part. IfSome part (λ s. IsTree (held self.now).case (meaning_of s))) }
        ensures last { OnErr result
            (is_some (spec.part_of (held self.now).case (held self.now).retained.pairs (place (held self.now).case path.now)) ≡ true) };

    /// The kind and the digest of that part; takes no memory.
    fn find(&self, path: &Path) -> Option<Glance>
        ensures { option_map glance_of result
            ≡ glance (spec.part_of (held self.now).case (held self.now).retained.pairs (place (held self.now).case path.now)) };

    /// The kind of that part, and else that of a directory where the path is known to be one; takes
    /// no memory.
    fn kind(&self, path: &Path) -> Option<Kind>
        ensures { result
            ≡ spec.kind_of (held self.now).case (held self.now).retained (place (held self.now).case path.now) };

    /// Whether a pair stands strictly above the path, so that a store at the path changes nothing;
    /// takes no memory.
    fn covers(&self, path: &Path) -> bool
        ensures { result
            ≡ spec.is_covered (held self.now).retained.pairs (place (held self.now).case path.now) };

    /// Retains the snapshot at the path, in place of all that was known at and below it, unless a
    /// pair stands strictly above. Where it is not missing, the paths strictly above become known
    /// directories.
    ///
    /// The names of its directories are in order under the case, and no child is missing. The only
    /// error is want of memory, which comes only where no pair stands strictly above; then nothing
    /// changed.
    fn store(&mut self, path: &Path, snapshot: Snapshot) -> Result<Stored, NoMemory>
        requires { IsTree (held self.old).case (meaning_of snapshot) }
        ensures case { (held self.new).case ≡ (held self.old).case }
        ensures answer { IfOk result (λ stored. was_covered stored
            ≡ spec.is_covered (held self.old).retained.pairs (place (held self.old).case path.now)) }
        ensures kept { OnOk result ((held self.new).retained
            ≡ spec.after_store (place (held self.old).case path.now) (meaning_of snapshot) (held self.old).retained) }
        ensures told { IfOk result (λ stored. (held self.new).log
            ≡ option_map (with_changes (changes_of_store path.now (meaning_of snapshot) stored)) (held self.old).log) }
        ensures last { OnErr result
            (spec.is_covered (held self.old).retained.pairs (place (held self.old).case path.now) ≡ false) }
        ensures refused { OnErr result (held self.new ≡ held self.old) };

    /// Forgets what has to do with the path: all at and below it, and of a pair strictly above it
    /// all but what stands beside the way.
    ///
    /// The only error is want of memory; then nothing changed.
    fn invalidate(&mut self, path: &Path) -> Result<(), NoMemory>
        ensures case { (held self.new).case ≡ (held self.old).case }
        ensures gone { OnOk result ((held self.new).retained
            ≡ spec.after_invalidation (held self.old).case (place (held self.old).case path.now) (held self.old).retained) }
        ensures told { OnOk result ((held self.new).log
            ≡ option_map (with_changes (Gone path.now ∷ [])) (held self.old).log) }
        ensures refused { OnErr result (held self.new ≡ held self.old) };

    /// Forgets everything.
    ///
    /// The only error is want of memory; then nothing changed.
    fn clear(&mut self) -> Result<(), NoMemory>
        ensures case { (held self.new).case ≡ (held self.old).case }
        ensures gone { OnOk result ((held self.new).retained ≡ nothing) }
        ensures told { OnOk result ((held self.new).log
            ≡ option_map (with_changes (AllGone ∷ [])) (held self.old).log) }
        ensures refused { OnErr result (held self.new ≡ held self.old) };
}
