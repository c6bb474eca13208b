//! Trees.

ghost use Rattle.std.specs.Prelude.{◌≡◌, ◌≤◌, Bool, true, Some, None, Err, IfOk, IfErr, OnOk, OnErr, length, option_map};
ghost use Rattle.vfs_model.specs.Paths.{place};
ghost use Rattle.vfs_model.specs.World.{World, IsWorld};
ghost use Rattle.vfs_model.specs.Edit as edits;
ghost use Rattle.vfs_model.specs.Scanning as scanning;
ghost use Rattle.vfs_model.specs.Faults.{Rose};
ghost use Rattle.vfs_model.specs.Sound.{IsLook};
ghost use Rattle.world_model.specs.declared.edit.ApplyError.TheVariants as apply_error;
ghost use Rattle.world_model.specs.declared.edit.EditError.TheVariants as edit_error;
ghost use Rattle.world_model.specs.declared.entry.LookError.TheVariants as look_error;
ghost use Rattle.world_model.specs.Told.{TreeTold, IsApplied, IsCaseSet, takes_case, with_answers};
ghost use Rattle.world_model.specs.Meaning.{edit_of, events_of, look_seen, look_answers, edit_answers_of, IsRefusal};

use crate::edit::{ApplyError, Edit, Events};
use crate::entry::{Entry, LookError};
use case_order::Case;
use vfs_path::Path;

/// A tree of files, which may keep its content to itself.
///
/// Where it tells it, it has besides the list of its answers to looks and edits so far, in order;
/// want of memory is no answer. No call but `set_case` changes the case, and none changes whether the
/// content or the answers are told. The count of faults never falls. Whether a tree is read only is
/// said by its type.
pub trait Tree {
    ghost told: { Self → TreeTold };

    /// Whether none of its looks fails.
    ghost never_fails: { Bool };

    /// Whether it refuses every edit.
    ghost takes_no_edits: { Bool };

    /// The case under which its names compare.
    fn case(&self) -> Case
        ensures case { result ≡ (told self.now).case }
        ensures world { (w : World) → (told self.now).content ≡ Some w → IsWorld (told self.now).case w };

    /// What is at the path. The content stays.
    ///
    /// The names of a directory are in order under the case, no two the same, at most 4,096, and
    /// none where the path has 64 names. `Failed` comes only where the count of faults rose in this
    /// call; `NoMemory` is want of memory.
    fn look(&mut self, path: &Path) -> Result<Entry, LookError>
        ensures case { (told self.new).case ≡ (told self.old).case }
        ensures content { (told self.new).content ≡ (told self.old).content }
        ensures faults { (told self.old).faults ≤ (told self.new).faults }
        ensures shape { IfOk result (λ entry. IsLook (told self.old).case (length path.now) (look_seen entry)) }
        ensures seen { IfOk result (λ entry. (w : World) → (told self.old).content ≡ Some w → look_seen entry ≡ scanning.look (told self.old).case w (place (told self.old).case path.now)) }
        ensures failed { IfErr result (λ e. e ≡ look_error.Failed → Rose (told self.old).faults (told self.new).faults) }
        ensures unfailing { never_fails ≡ true → result ≡ Err look_error.Failed → ⊥ }
        ensures answered { (told self.new).answers ≡ option_map (with_answers (look_answers result)) (told self.old).answers };

    /// Does the edit, and gives the paths that tell of it.
    ///
    /// Where the content is told, `Refused` carries the first refusal that holds, and `NoMemory`,
    /// which is want of memory, comes only where none holds. A read-only tree refuses every edit with
    /// `ReadOnly`, and no other tree does. On an error the content stays.
    fn apply(&mut self, edit: &Edit) -> Result<Events, ApplyError>
        ensures case { (told self.new).case ≡ (told self.old).case }
        ensures faults { (told self.old).faults ≤ (told self.new).faults }
        ensures events { IfOk result (λ events. events_of events ≡ edits.events (edit_of edit.now)) }
        ensures allowed { IfOk result (λ _. (w : World) → (told self.old).content ≡ Some w → edits.refusal (told self.old).case w (edit_of edit.now) ≡ None) }
        ensures applied { OnOk result (IsApplied (told self.old).case (edit_of edit.now) (told self.old).content (told self.new).content) }
        ensures refused { IfErr result (λ e. (w : World) → (told self.old).content ≡ Some w → IsRefusal (edits.refusal (told self.old).case w (edit_of edit.now)) e) }
        ensures kept { OnErr result ((told self.new).content ≡ (told self.old).content) }
        ensures read_only { takes_no_edits ≡ true → result ≡ Err (apply_error.Refused edit_error.ReadOnly) }
        ensures editable { result ≡ Err (apply_error.Refused edit_error.ReadOnly) → takes_no_edits ≡ true }
        ensures answered { (told self.new).answers ≡ option_map (with_answers (edit_answers_of result)) (told self.old).answers };

    /// Whether the tree refuses every edit. Such a tree tells no content.
    fn read_only(&self) -> bool
        ensures read_only { result ≡ takes_no_edits }
        ensures untold { takes_no_edits ≡ true → (told self.now).content ≡ None };

    /// Sets the case under which names compare, and answers whether the case is now this one.
    ///
    /// False comes only where the tree has another case, and then the tree is as before. Where the
    /// content is told, that is exactly where the tree has another case and more than its root; over
    /// a read-only tree it never comes. Content, answers and faults stay.
    fn set_case(&mut self, case: Case) -> bool
        ensures set { IsCaseSet (told self.old) (told self.new) case result }
        ensures seen { (w : World) → (told self.old).content ≡ Some w → result ≡ takes_case (told self.old).case w case }
        ensures read_only { takes_no_edits ≡ true → result ≡ true };
}
