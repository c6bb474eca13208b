//! What is retained, and the versions of paths.

ghost use Rattle.std.specs.Prelude.{◌≡◌, ◌<◌, ◌^◌, ◌+◌, ◌++◌, ◌∷◌, [], true, List, ℕ, Some, IfOk, IfSome, OnOk, OnErr, is_some, option_map};
ghost use Rattle.std.specs.List.{list_any};
ghost use Rattle.vfs_model.specs.Paths as paths;
ghost use Rattle.vfs_model.specs.Pending as pending;
ghost use Rattle.vfs_model.specs.Retained as spec;
ghost use Rattle.vfs_model.specs.Snapshot.{IsTree};
ghost use Rattle.vfs_model.specs.State.{glance};
ghost use Rattle.vfs_model.specs.History.{Gone, AllGone, with_changes};
ghost use Rattle.vfs_model.specs.Stands.{StandsFor};
ghost use Rattle.snapshot_tree.specs.Meaning.{meaning_of, glance_of};
ghost use Rattle.snapshot_hierarchy.specs.Held.{nothing};
ghost use Rattle.publish_core.specs.Publication.{IsRefusal, IsAnswer, retained_after, changes_published, is_stale};

use crate::making::{MakeSnapshot, Ready};
use crate::published::{Published, Refusal};
use case_order::{Case, NoMemory};
use snapshot_hierarchy::{Retain, Shown, Stored};
use snapshot_tree::{Glance, Kind, Snapshot};
use std::marker::Model;
use std::sync::Wait;
use std::thread::Threads;
use version_hierarchy::{Ticket, Versions};
use vfs_path::Path;

/// What is retained, and the versions of paths, under one case.
///
/// Contracts see the case, the two lists of what is retained, the changes where they are told, and
/// the versions.
#[derive(Drop)]
pub struct Vfs<R: Retain, V: Versions> {
    retained: R,
    versions: V,
}

impl<R: Retain, V: Versions> Model for Vfs<R, V> {
    ghost use Rattle.std.specs.Prelude.{◌≡◌};
    ghost use Rattle.publish_core.specs.Holds.{Holds, holds_code};

    ghost Value = { Holds V };

    ghost coded = { holds_code V.code };

    ghost view = { λ v. record { held = R.held v.retained; versions = v.versions } };

    ghost invariant = { λ v. V.case v.versions ≡ (R.held v.retained).case };
}

impl<R: Retain, V: Versions> Vfs<R, V> {
    /// Both under their one case.
    pub fn make(retained: R, versions: V) -> Vfs<R, V>
        requires { V.case versions ≡ (R.held retained).case }
        ensures { result ≡ record { held = R.held retained; versions = versions } }
    {
        Vfs { retained, versions }
    }

    /// The case under which paths are compared. The lists are in shape under it.
    pub fn case(&self) -> Case
        ensures case { result ≡ self.now.case }
        ensures shape { spec.IsInShape self.now.case self.now.retained }
    {
        self.retained.case()
    }

    /// The version of the path; takes no memory.
    pub fn version(&self, path: &Path) -> u64
        ensures { result ≡ V.version self.now.versions (paths.place self.now.case path.now) }
    {
        self.versions.at(path)
    }

    /// How many paths were invalidated.
    pub fn count(&self) -> u64
        ensures { result ≡ V.count self.now.versions }
    {
        self.versions.count()
    }

    /// The kind and the digest of the part at the path, where one is retained; takes no memory.
    pub fn find(&self, path: &Path) -> Option<Glance>
        ensures { option_map glance_of result
            ≡ glance (spec.part_of self.now.case self.now.retained.pairs (paths.place self.now.case path.now)) }
    {
        self.retained.find(path)
    }

    /// The kind of the location, where it is known; takes no memory.
    pub fn kind(&self, path: &Path) -> Option<Kind>
        ensures { result
            ≡ spec.kind_of self.now.case self.now.retained (paths.place self.now.case path.now) }
    {
        self.retained.kind(path)
    }

    /// The part at the path, where one is retained.
    ///
    /// The names of its directories are in order under the case, and no child is missing. The only
    /// error is want of memory, which comes only where a part is retained.
    pub fn part(&self, path: &Path) -> Result<Option<Snapshot>, NoMemory>
        ensures found { IfOk result (λ part. option_map meaning_of part
            ≡ spec.part_of self.now.case self.now.retained.pairs (paths.place self.now.case path.now)) }
        ensures tree { IfOk result (λ part. IfSome part (λ s. IsTree self.now.case (meaning_of s))) }
        ensures last { OnErr result
            (is_some (spec.part_of self.now.case self.now.retained.pairs (paths.place self.now.case path.now)) ≡ true) }
    {
        self.retained.part(path)
    }

    /// The path with its version now, which is read before the location is; takes no memory.
    pub fn begin(&self, path: Path) -> Ticket
        ensures path { result.path ≡ path }
        ensures seen { result.seen ≡ V.version self.now.versions (paths.place self.now.case path) }
    {
        let seen = self.version(&path);
        Ticket { path, seen }
    }

    /// Why a publication with the ticket would come to nothing now; None where its snapshot would be
    /// retained. Takes no memory.
    pub fn refusal(&self, ticket: &Ticket) -> Option<Refusal>
        ensures { IsRefusal (V.version self.now.versions (paths.place self.now.case ticket.now.path)) ticket.now.seen
            (spec.is_covered self.now.retained.pairs (paths.place self.now.case ticket.now.path)) result }
    {
        let version = self.versions.at(&ticket.path);
        if version > ticket.seen {
            return Some(Refusal::Stale(version));
        }
        if self.retained.covers(&ticket.path) {
            return Some(Refusal::Covered);
        }
        None
    }

    /// Retains the snapshot at the ticket's path, unless the path's version has grown.
    ///
    /// The names of its directories are in order under the case, and no child is missing. `Stale`
    /// comes exactly where a path related to the ticket's was invalidated since the ticket was made,
    /// with the version now, which is greater than the ticket's; else `Covered` exactly where a
    /// snapshot is retained strictly above. Want of memory comes last.
    pub fn publish(&mut self, ticket: Ticket, snapshot: Snapshot) -> Published
        requires { IsTree self.old.case (meaning_of snapshot) }
        ensures case { self.new.case ≡ self.old.case }
        ensures versions { self.new.versions ≡ self.old.versions }
        ensures answer { IsAnswer (V.version self.old.versions (paths.place self.old.case ticket.path)) ticket.seen
            (spec.is_covered self.old.retained.pairs (paths.place self.old.case ticket.path)) result }
        ensures retained { self.new.retained
            ≡ retained_after (paths.place self.old.case ticket.path) (meaning_of snapshot) self.old.retained result }
        ensures log { self.new.log
            ≡ option_map (with_changes (changes_published ticket.path (meaning_of snapshot) result)) self.old.log }
        ensures since { (past since : List paths.Path)
            → StandsFor (V.version self.old.versions) (V.count self.old.versions) (past ++ since)
            → ticket.seen ≡ pending.version past (paths.place self.old.case ticket.path)
            → is_stale result ≡ list_any (λ e. paths.is_related e (paths.place self.old.case ticket.path)) since }
    {
        let ready = Ready::new(self.case(), snapshot);
        self.publish_made(&ticket, ready)
    }

    /// Retains a snapshot at the ticket's path as `publish` does, and makes it only where nothing
    /// refuses it.
    ///
    /// The snapshot is made under the case of what is retained. The answers are those of `publish`:
    /// want of memory comes last, and then it may be that of the making.
    pub fn publish_made<M: MakeSnapshot>(&mut self, ticket: &Ticket, making: M) -> Published
        requires { M.case making ≡ self.old.case }
        ensures case { self.new.case ≡ self.old.case }
        ensures versions { self.new.versions ≡ self.old.versions }
        ensures answer { IsAnswer
            (V.version self.old.versions (paths.place self.old.case ticket.now.path))
            ticket.now.seen
            (spec.is_covered self.old.retained.pairs (paths.place self.old.case ticket.now.path))
            result }
        ensures retained { self.new.retained
            ≡ retained_after (paths.place self.old.case ticket.now.path) (M.made making)
            self.old.retained result }
        ensures log { self.new.log ≡ option_map
            (with_changes (changes_published ticket.now.path (M.made making) result)) self.old.log }
        ensures since { (past since : List paths.Path)
            → StandsFor (V.version self.old.versions) (V.count self.old.versions) (past ++ since)
            → ticket.now.seen ≡ pending.version past (paths.place self.old.case ticket.now.path)
            → is_stale result ≡ list_any
            (λ e. paths.is_related e (paths.place self.old.case ticket.now.path)) since }
    {
        match self.refusal(ticket) {
            Some(Refusal::Stale(version)) => Published::Stale(version),
            Some(Refusal::Covered) => Published::Covered,
            None => match making.make() {
                Err(NoMemory) => Published::NoMemory,
                Ok(snapshot) => match self.retained.store(&ticket.path, snapshot) {
                    Ok(Stored::Kept) => Published::Stored,
                    Ok(Stored::Covered) => Published::Covered,
                    Err(NoMemory) => Published::NoMemory,
                },
            },
        }
    }
}

impl<R: Retain, V: Versions + Drop> Vfs<R, V> {
    /// Raises the version and forgets what has to do with the path, both or neither.
    ///
    /// The only error is want of memory; then nothing changed.
    pub fn invalidate(&mut self, path: &Path) -> Result<(), NoMemory>
        requires { V.count self.old.versions < 2 ^ 62 }
        ensures case { self.new.case ≡ self.old.case }
        ensures gone { OnOk result (self.new.retained
            ≡ spec.after_invalidation self.old.case (paths.place self.old.case path.now) self.old.retained) }
        ensures log { OnOk result (self.new.log ≡ option_map (with_changes (Gone path.now ∷ [])) self.old.log) }
        ensures count { OnOk result (V.count self.new.versions ≡ V.count self.old.versions + 1) }
        ensures stands { OnOk result ((past : List paths.Path)
            → StandsFor (V.version self.old.versions) (V.count self.old.versions) past
            → StandsFor (V.version self.new.versions) (V.count self.new.versions) (past ++ paths.place self.old.case path.now ∷ [])) }
        ensures refused { OnErr result (self.new ≡ self.old) }
    {
        let raised = self.versions.raised(path)?;
        self.retained.invalidate(path)?;
        self.versions = raised;
        Ok(())
    }

    /// Raises the version at the root, which is related to every path, and forgets everything,
    /// both or neither.
    ///
    /// The only error is want of memory; then nothing changed.
    pub fn drop_all(&mut self) -> Result<(), NoMemory>
        requires { V.count self.old.versions < 2 ^ 62 }
        ensures case { self.new.case ≡ self.old.case }
        ensures gone { OnOk result (self.new.retained ≡ nothing) }
        ensures log { OnOk result (self.new.log ≡ option_map (with_changes (AllGone ∷ [])) self.old.log) }
        ensures count { OnOk result (V.count self.new.versions ≡ V.count self.old.versions + 1) }
        ensures stands { OnOk result ((past : List paths.Path)
            → StandsFor (V.version self.old.versions) (V.count self.old.versions) past
            → StandsFor (V.version self.new.versions) (V.count self.new.versions) (past ++ [] ∷ [])) }
        ensures refused { OnErr result (self.new ≡ self.old) }
    {
        let raised = self.versions.raised(&Path::root())?;
        self.retained.clear()?;
        self.versions = raised;
        Ok(())
    }

    /// What is retained.
    pub fn into_retained(self) -> R
        ensures { R.held result ≡ self.held }
    {
        let Vfs {
            retained,
            versions: _,
        } = self;
        retained
    }
}

impl<R: Shown, V: Versions> Vfs<R, V> {
    /// Shows all the changes so far. The note has them all, and the name of the board; what is
    /// retained and the versions stay.
    ///
    /// The only error is want of memory.
    pub fn show<X: Threads + Wait + Sync>(&mut self, rt: &X) -> Result<R::Note, NoMemory>
        ensures same { self.new ≡ self.old }
        ensures note { IfOk result (λ note. self.old.log ≡ Some (R.noted note)) }
    {
        self.retained.show(rt)
    }
}
