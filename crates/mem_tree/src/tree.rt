//! The tree in memory.

ghost use Rattle.std.specs.Prelude.{◌≡◌, [], false, None, Err, IfOk, IfErr, OnOk, OnErr, length, if◌then◌else◌};
ghost use Rattle.vfs_model.specs.Paths.{place};
ghost use Rattle.vfs_model.specs.World.{IsWorld, IsSameBelow};
ghost use Rattle.vfs_model.specs.Edit as edits;
ghost use Rattle.vfs_model.specs.Scanning as scanning;
ghost use Rattle.vfs_model.specs.Sound.{IsLook};
ghost use Rattle.vfs_model.specs.History.{empty_world};
ghost use Rattle.mem_tree.specs.FileTree.{world_of, IsTree};
ghost use Rattle.world_model.specs.Meaning.{edit_of, events_of, look_seen, IsRefusal};
ghost use Rattle.world_model.specs.Told.{takes_case};
ghost use Rattle.world_model.specs.declared.edit.ApplyError.TheVariants as apply_error;
ghost use Rattle.world_model.specs.declared.edit.EditError.TheVariants as edit_error;
ghost use Rattle.world_model.specs.declared.entry.LookError.TheVariants as look_error;

use crate::apply::edit_tree;
use crate::node::{Found, Listing};
use crate::refuse::check;
use case_order::{Case, NoMemory, Share};
use std::alloc::Global;
use std::marker::Model;
use vfs_path::{Name, Path};
use world_model::{ApplyError, Edit, Entry, Events, LookError, Tree};

/// A tree in memory, which tells its content and has no faults; its answers it does not list.
///
/// Contracts see its case and its world. An edit changes the directory in its place, once all that
/// may want memory is there, so that want of memory leaves the tree as it was.
#[derive(Drop)]
pub struct MemTree {
    alloc: Global,
    case: Case,
    root: Listing,
}

impl Model for MemTree {
    ghost use Rattle.mem_tree.specs.Held.{Held};

    ghost Value = { Held };

    ghost use Rattle.mem_tree.specs.FileTree.{world_of, IsTree};

    ghost view = { λ t. record { case = t.case; world = world_of t.root } };

    ghost invariant = { λ t. IsTree t.case t.root };
}

impl MemTree {
    /// The empty tree: its root alone. Takes no memory.
    pub fn new(alloc: Global, case: Case) -> MemTree
        ensures { result ≡ record { case = case; world = empty_world } }
    {
        MemTree {
            alloc,
            case,
            root: Listing::empty(),
        }
    }
}

impl Tree for MemTree {
    ghost use Rattle.std.specs.Prelude.{Some, None, false, true};

    ghost told = { λ t. record { case = t.case; content = Some t.world; faults = 0; answers = None } };

    ghost never_fails = { true };

    ghost takes_no_edits = { false };

    fn case(&self) -> Case
        ensures case { result ≡ self.now.case }
        ensures world { IsWorld self.now.case self.now.world }
    {
        self.case
    }

    /// What is at the path. The tree stays.
    ///
    /// The only error is `NoMemory`, want of memory.
    fn look(&mut self, path: &Path) -> Result<Entry, LookError>
        ensures tree { self.new ≡ self.old }
        ensures shape { IfOk result (λ entry. IsLook self.old.case (length path.now) (look_seen entry)) }
        ensures seen { IfOk result (λ entry. look_seen entry
            ≡ scanning.look self.old.case self.old.world (place self.old.case path.now)) }
        ensures failed { IfErr result (λ e. e ≡ look_error.NoMemory) }
    {
        let entry = look_at(self.alloc, self.case, &self.root, path.as_slice())?;
        Ok(entry)
    }

    /// Does the edit, and gives the paths that tell of it.
    ///
    /// `Refused` carries the first refusal that holds; `NoMemory` is want of memory, where no
    /// refusal holds. On either the tree stays.
    fn apply(&mut self, edit: &Edit) -> Result<Events, ApplyError>
        ensures case { self.new.case ≡ self.old.case }
        ensures events { IfOk result (λ events. events_of events ≡ edits.events (edit_of edit.now)) }
        ensures allowed { OnOk result
            (edits.refusal self.old.case self.old.world (edit_of edit.now) ≡ None) }
        ensures applied { OnOk result (IsSameBelow self.old.case
            (edits.apply self.old.case self.old.world (edit_of edit.now)) [] self.new.world []) }
        ensures refused { IfErr result
            (IsRefusal (edits.refusal self.old.case self.old.world (edit_of edit.now))) }
        ensures kept { OnErr result (self.new ≡ self.old) }
        ensures editable { result ≡ Err (apply_error.Refused edit_error.ReadOnly) → ⊥ }
    {
        edit_checked(self.alloc, self.case, &mut self.root, edit)
    }

    fn read_only(&self) -> bool
        ensures { result ≡ false }
    {
        false
    }

    /// Sets the case of a tree that has its root alone; of another one it stays.
    fn set_case(&mut self, case: Case) -> bool
        ensures seen { result ≡ takes_case self.old.case self.old.world case }
        ensures tree { self.new ≡ (if result then record self.old { case = case } else self.old) }
    {
        if self.case == case {
            return true;
        }
        if !self.root.is_empty() {
            return false;
        }
        self.case = case;
        true
    }
}

/// What is at the place that these names lead to.
fn look_at(alloc: Global, case: Case, root: &Listing, names: &[Name]) -> Result<Entry, NoMemory>
    requires { IsTree case root.now }
    ensures { IfOk result (λ entry. look_seen entry
        ≡ scanning.look case (world_of root.now) (place case names.now)) }
{
    match root.at(case, names) {
        Found::Missing => Ok(Entry::Missing),
        Found::File(bytes) => {
            let bytes = bytes.share()?;
            Ok(Entry::File(bytes))
        }
        Found::Dir(directory) => {
            let names = directory.names(alloc)?;
            Ok(Entry::Dir(names))
        }
    }
}

/// Does the edit where it is not refused, and gives the paths that tell of it. On an error the tree
/// stays.
fn edit_checked(
    alloc: Global,
    case: Case,
    root: &mut Listing,
    edit: &Edit,
) -> Result<Events, ApplyError>
    requires { IsTree case root.old }
    ensures events { IfOk result (λ events. events_of events ≡ edits.events (edit_of edit.now)) }
    ensures allowed { OnOk result (edits.refusal case (world_of root.old) (edit_of edit.now) ≡ None) }
    ensures tree { IsTree case root.new }
    ensures applied { OnOk result (IsSameBelow case
        (edits.apply case (world_of root.old) (edit_of edit.now)) [] (world_of root.new) []) }
    ensures refused { IfErr result (IsRefusal (edits.refusal case (world_of root.old) (edit_of edit.now))) }
    ensures kept { OnErr result (root.new ≡ root.old) }
{
    check(case, root, edit)?;
    let events = events_of(edit)?;
    edit_tree(alloc, case, root, edit)?;
    Ok(events)
}

/// The paths that tell of an edit.
///
/// The only error is want of memory.
fn events_of(edit: &Edit) -> Result<Events, NoMemory>
    ensures { IfOk result (λ events. events_of events ≡ edits.events (edit_of edit.now)) }
{
    match edit {
        Edit::Write(path, _) => Ok(Events::One(path.share()?)),
        Edit::Mkdir(path) => Ok(Events::One(path.share()?)),
        Edit::Remove(path) => Ok(Events::One(path.share()?)),
        Edit::Move(from, to) => Ok(Events::Two(from.share()?, to.share()?)),
    }
}
