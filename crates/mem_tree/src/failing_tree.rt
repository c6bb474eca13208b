//! A tree in memory whose stated looks fail.

ghost use Rattle.std.specs.Prelude.{◌≡◌, ◌≤◌, ◌↔◌, ◌++◌, [], false, None, Err, IfOk, IfErr, OnErr, OnOk, length, if◌then◌else◌};
ghost use Rattle.vfs_model.specs.Paths.{place};
ghost use Rattle.vfs_model.specs.World.{IsWorld, IsSameBelow};
ghost use Rattle.vfs_model.specs.Edit as edits;
ghost use Rattle.vfs_model.specs.Faults.{next_number};
ghost use Rattle.vfs_model.specs.Scanning as scanning;
ghost use Rattle.vfs_model.specs.Sound.{IsLook};
ghost use Rattle.mem_tree.specs.Failing.{IsNextToFail, faults_after, after_look};
ghost use Rattle.world_model.specs.Meaning.{edit_of, events_of, look_seen, edit_answers_of, IsRefusal};
ghost use Rattle.world_model.specs.Told.{takes_case};
ghost use Rattle.world_model.specs.declared.edit.ApplyError.TheVariants as apply_error;
ghost use Rattle.world_model.specs.declared.edit.EditError.TheVariants as edit_error;
ghost use Rattle.world_model.specs.declared.entry.LookError.TheVariants as look_error;

use crate::trail::{Given, Trail};
use crate::tree::MemTree;
use case_order::Case;
use std::marker::Model;
use vfs_path::Path;
use world_model::{ApplyError, Edit, Entry, Events, FaultCount, LookError, Tree};

/// A tree in memory whose k-th look fails for each k in a list, where k counts from 1. It tells its
/// content and its answers.
#[derive(Drop)]
pub struct FailingTree {
    tree: MemTree,
    fails: Vec<u64>,
    looks: u64,
    faults: FaultCount,
    trail: Trail,
}

impl Model for FailingTree {
    ghost use Rattle.mem_tree.specs.Failing.{Failing};

    ghost Value = { Failing };

    ghost view = { λ t. record {
      case = t.tree.case;
      world = t.tree.world;
      fails = t.fails.items;
      looks = t.looks;
      faults = t.faults.count;
      answers = t.trail.answers;
    } };
}

impl FailingTree {
    /// The tree with looks that fail: no look was made yet, and no answer given.
    pub fn over(tree: MemTree, fails: Vec<u64>) -> FailingTree
        ensures { result ≡ record { case = tree.case; world = tree.world; fails = fails.items; looks = 0; faults = 0; answers = [] } }
    {
        FailingTree {
            tree,
            fails,
            looks: 0,
            faults: FaultCount::none(),
            trail: Trail::new(),
        }
    }

    /// What is at the path, or the failure of the look. The answer is not listed yet.
    fn looked(&mut self, path: &Path) -> Result<Entry, LookError>
        ensures stated { (result ≡ Err look_error.Failed) ↔ IsNextToFail self.old }
        ensures shape { IfOk result (λ entry. IsLook self.old.case (length path.now) (look_seen entry)) }
        ensures seen { IfOk result (λ entry. look_seen entry
            ≡ scanning.look self.old.case self.old.world (place self.old.case path.now)) }
        ensures tree { self.new ≡ record self.old {
          looks = next_number self.old.looks;
          faults = faults_after self.old.faults result;
        } }
        ensures later { self.old.faults ≤ self.new.faults }
    {
        self.looks = self.looks.saturating_add(1);
        if self.fails.contains(&self.looks) {
            self.faults = self.faults.and_one();
            return Err(LookError::Failed);
        }
        self.tree.look(path)
    }
}

impl Tree for FailingTree {
    ghost use Rattle.std.specs.Prelude.{Some, false};

    ghost told = { λ t. record { case = t.case; content = Some t.world; faults = t.faults; answers = Some t.answers } };

    ghost never_fails = { false };

    ghost takes_no_edits = { false };

    fn case(&self) -> Case
        ensures case { result ≡ self.now.case }
        ensures world { IsWorld self.now.case self.now.world }
    {
        self.tree.case()
    }

    /// What is at the path. The content stays.
    ///
    /// `Failed` comes exactly where the list has the number of the look, and is counted as a fault;
    /// `NoMemory` is want of memory.
    fn look(&mut self, path: &Path) -> Result<Entry, LookError>
        ensures stated { (result ≡ Err look_error.Failed) ↔ IsNextToFail self.old }
        ensures shape { IfOk result (λ entry. IsLook self.old.case (length path.now) (look_seen entry)) }
        ensures seen { IfOk result (λ entry. look_seen entry
            ≡ scanning.look self.old.case self.old.world (place self.old.case path.now)) }
        ensures tree { self.new ≡ after_look self.old result }
        ensures later { self.old.faults ≤ self.new.faults }
    {
        let result = self.looked(path);
        self.trail = self.trail.and(&Given::Look(&result));
        result
    }

    /// Does the edit, and gives the paths that tell of it.
    ///
    /// `Refused` carries the first refusal that holds; `NoMemory` is want of memory, where no
    /// refusal holds. On either the content stays.
    fn apply(&mut self, edit: &Edit) -> Result<Events, ApplyError>
        ensures events { IfOk result (λ events. events_of events ≡ edits.events (edit_of edit.now)) }
        ensures allowed { OnOk result
            (edits.refusal self.old.case self.old.world (edit_of edit.now) ≡ None) }
        ensures applied { OnOk result (IsSameBelow self.old.case
            (edits.apply self.old.case self.old.world (edit_of edit.now)) [] self.new.world []) }
        ensures refused { IfErr result
            (IsRefusal (edits.refusal self.old.case self.old.world (edit_of edit.now))) }
        ensures kept { OnErr result (self.new.world ≡ self.old.world) }
        ensures editable { result ≡ Err (apply_error.Refused edit_error.ReadOnly) → ⊥ }
        ensures rest { self.new ≡ record self.old {
          world = self.new.world;
          answers = self.old.answers ++ edit_answers_of result;
        } }
    {
        let result = self.tree.apply(edit);
        self.trail = self.trail.and(&Given::Edit(&result));
        result
    }

    fn read_only(&self) -> bool
        ensures { result ≡ false }
    {
        false
    }

    /// Sets the case of a tree that has its root alone; of another one it stays.
    fn set_case(&mut self, case: Case) -> bool
        ensures seen { result ≡ takes_case self.old.case self.old.world case }
        ensures tree { self.new ≡ (if result then record self.old { case = case } else self.old) }
    {
        self.tree.set_case(case)
    }
}
