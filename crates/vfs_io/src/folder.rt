//! The tree over a folder of the system.

ghost use Rattle.std.specs.Prelude.{◌≡◌, ◌≤◌, [], true, Err, IfOk, length};
ghost use Rattle.vfs_model.specs.declared.Case.TheVariants as cases;
ghost use Rattle.vfs_model.specs.Sound.{IsLook};
ghost use Rattle.world_model.specs.Meaning.{look_seen};
ghost use Rattle.world_model.specs.declared.edit.ApplyError.TheVariants as apply_error;
ghost use Rattle.world_model.specs.declared.edit.EditError.TheVariants as edit_error;
ghost use Rattle.vfs_io.specs.Folder.{HasFewBytes, faults_after, IsNoted, IsNotedAfter};

use crate::fault::{FailedLook, LookFault, Stop};
use crate::look::entry_at;
use case_order::{Case, Share};
use std::alloc::Global;
use std::fs::Files;
use std::marker::Model;
use vfs_path::Path;
use world_model::{ApplyError, Edit, EditError, Entry, Events, FaultCount, LookError, Tree};

/// How many failed looks are kept at most.
const MAX_NOTES: usize = 64;

/// What a folder of the system holds, as a tree that is read only. It tells neither its content nor
/// its answers, and counts each look that fails. Of the first 64 of these it keeps where and why.
///
/// A location is looked at by its text after the folder's. Its case is Sensitive until `set_case`
/// sets another.
#[derive(Drop)]
pub struct FolderTree<R: Files> {
    rt: R,
    alloc: Global,
    dir: String,
    case: Case,
    faults: FaultCount,
    notes: Vec<FailedLook>,
}

impl<R: Files> Model for FolderTree<R> {
    ghost use Rattle.std.specs.Prelude.{◌≤◌, length};
    ghost use Rattle.vfs_io.specs.Folder.{Folder};

    ghost Value = { Folder };

    ghost view = { λ t. record { case = t.case; faults = t.faults.count; notes = t.notes.items } };

    ghost invariant = { λ t. length t.notes.items ≤ 64 };
}

impl<R: Files> FolderTree<R> {
    /// The tree over the folder at this path of the system, which may be a link to a directory.
    pub fn at(rt: R, alloc: Global, dir: String) -> FolderTree<R>
        ensures { result ≡ record { case = cases.Sensitive; faults = 0; notes = [] } }
    {
        FolderTree {
            rt,
            alloc,
            dir,
            case: Case::Sensitive,
            faults: FaultCount::none(),
            notes: Vec::new(alloc),
        }
    }

    /// The first 64 looks that failed, in order, but for those of which memory for a note was wanting.
    pub fn failed_looks(&self) -> &[FailedLook]
        ensures notes { result.now ≡ self.now.notes }
        ensures few { length result.now ≤ 64 }
    {
        self.notes.as_slice()
    }

    /// Keeps a note of a failed look, where fewer than 64 are kept. Without memory for it it is left
    /// out.
    fn note(&mut self, path: &Path, cause: LookFault)
        ensures notes { IsNoted self.old.notes self.new.notes path.now cause }
        ensures tree { self.new ≡ record self.old { notes = self.new.notes } }
    {
        if self.notes.len() >= MAX_NOTES {
            return;
        }
        if let Ok(path) = path.share() {
            let _ = self.notes.push(FailedLook { path, cause });
        }
    }
}

impl<R: Files> Tree for FolderTree<R> {
    ghost use Rattle.std.specs.Prelude.{None, true, false};

    ghost told = { λ t. record { case = t.case; content = None; faults = t.faults; answers = None } };

    ghost never_fails = { false };

    ghost takes_no_edits = { true };

    fn case(&self) -> Case
        ensures { result ≡ self.now.case }
    {
        self.case
    }

    /// What is at the path, as `look` tells it.
    ///
    /// `Failed` is counted as a fault; `NoMemory` is want of memory.
    fn look(&mut self, path: &Path) -> Result<Entry, LookError>
        ensures shape { IfOk result (λ entry. IsLook self.old.case (length path.now) (look_seen entry)) }
        ensures few { IfOk result HasFewBytes }
        ensures tree { self.new ≡ record self.old { faults = faults_after self.old.faults result; notes = self.new.notes } }
        ensures notes { IsNotedAfter self.old.notes self.new.notes path.now result }
        ensures later { self.old.faults ≤ self.new.faults }
    {
        match entry_at(&self.rt, self.alloc, self.dir.as_str(), self.case, path) {
            Ok(entry) => Ok(entry),
            Err(Stop::NoMemory) => Err(LookError::NoMemory),
            Err(Stop::Fault(cause)) => {
                self.faults = self.faults.and_one();
                self.note(path, cause);
                Err(LookError::Failed)
            }
        }
    }

    /// Refuses every edit, with `ReadOnly`.
    fn apply(&mut self, edit: &Edit) -> Result<Events, ApplyError>
        ensures refused { result ≡ Err (apply_error.Refused edit_error.ReadOnly) }
        ensures tree { self.new ≡ self.old }
    {
        Err(ApplyError::Refused(EditError::ReadOnly))
    }

    fn read_only(&self) -> bool
        ensures { result ≡ true }
    {
        true
    }

    /// Sets the case, whatever the folder holds.
    fn set_case(&mut self, case: Case) -> bool
        ensures done { result ≡ true }
        ensures tree { self.new ≡ record self.old { case = case } }
    {
        self.case = case;
        true
    }
}
