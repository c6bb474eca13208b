//! Which edits a tree refuses, and why.

ghost use Rattle.std.specs.Prelude.{◌≡◌, ◌≤◌, ◌&&◌, not, ℕ, List, Some, None, IfOk, IfErr, length, if◌then◌else◌};
ghost use Rattle.std.specs.List.{AllByRecursion as Each};
ghost use Rattle.vfs_model.specs.Paths.{Path, place};
ghost use Rattle.vfs_model.specs.Edit as edits;
ghost use Rattle.mem_tree.specs.FileTree.{Branch, at_root, world_of, IsOrdered, IsTree};
ghost use Rattle.world_model.specs.Meaning.{edit_of, refusal_of};
ghost use Rattle.mem_tree.specs.Refused.{refused_by, no_directory};

use crate::names::{is_same_place, is_strictly_below, last, parent};
use crate::node::{Found, Listing, Node};
use case_order::Case;
use vfs_path::Name;
use world_model::{Edit, EditError};

/// Nothing, or the first refusal of the edit that holds.
pub(crate) fn check(case: Case, root: &Listing, edit: &Edit) -> Result<(), EditError>
    requires { IsTree case root.now }
    ensures refused { refused_by result ≡ edits.refusal case (world_of root.now) (edit_of edit.now) }
    ensures short { Each (λ (p : Path). length p ≤ 64) (edits.events (edit_of edit.now)) }
{
    match edit {
        Edit::Write(path, _) => check_write(case, root, path.as_slice()),
        Edit::Mkdir(path) => check_mkdir(case, root, path.as_slice()),
        Edit::Remove(path) => check_remove(case, root, path.as_slice()),
        Edit::Move(from, to) => check_move(case, root, from.as_slice(), to.as_slice()),
    }
}

fn check_write(case: Case, root: &Listing, path: &[Name]) -> Result<(), EditError>
    requires { IsTree case root.now }
    ensures { (bytes : List ℕ) → refused_by result
        ≡ edits.refusal case (world_of root.now) (edits.Write path.now bytes) }
{
    if path.is_empty() {
        return Err(EditError::Root);
    }
    let directory = directory_at(case, root, parent(path))?;
    match directory.child(case, last(path)) {
        None => refuse_if(directory.is_full(), EditError::Crowded),
        Some(child) => match &child.node {
            Node::File(_) => Ok(()),
            Node::Dir(_) => Err(EditError::Exists),
        },
    }
}

fn check_mkdir(case: Case, root: &Listing, path: &[Name]) -> Result<(), EditError>
    requires { IsTree case root.now }
    ensures { refused_by result ≡ edits.refusal case (world_of root.now) (edits.Mkdir path.now) }
{
    if path.is_empty() {
        return Err(EditError::Root);
    }
    let directory = directory_at(case, root, parent(path))?;
    match directory.child(case, last(path)) {
        None => refuse_if(directory.is_full(), EditError::Crowded),
        Some(_) => Err(EditError::Exists),
    }
}

fn check_remove(case: Case, root: &Listing, path: &[Name]) -> Result<(), EditError>
    requires { IsTree case root.now }
    ensures { refused_by result ≡ edits.refusal case (world_of root.now) (edits.Remove path.now) }
{
    if path.is_empty() {
        return Err(EditError::Root);
    }
    refuse_if(root.at(case, path).is_missing(), EditError::Absent)
}

fn check_move(case: Case, root: &Listing, from: &[Name], to: &[Name]) -> Result<(), EditError>
    requires tree { IsTree case root.now }
    requires short { length to.now ≤ 64 }
    ensures { refused_by result ≡ edits.refusal case (world_of root.now) (edits.Move from.now to.now) }
{
    if from.is_empty() {
        return Err(EditError::Root);
    }
    if to.is_empty() {
        return Err(EditError::Root);
    }
    let moved = root.at(case, from);
    if moved.is_missing() {
        return Err(EditError::Absent);
    }
    if is_strictly_below(case, to, from) {
        return Err(EditError::IntoItself);
    }
    let directory = directory_at(case, root, parent(to))?;
    let taken = directory.child(case, last(to)).is_some();
    let in_place = is_same_place(case, to, from);
    if holds_unless(taken, in_place) {
        return Err(EditError::Exists);
    }
    if !moved.fits(64 - to.len()) {
        return Err(EditError::TooDeep);
    }
    let inside = is_same_place(case, parent(to), parent(from));
    refuse_if(
        holds_unless(directory.is_full(), inside),
        EditError::Crowded,
    )
}

/// The directory at the place, or why nothing can be made there.
fn directory_at<'a>(case: Case, root: &'a Listing, names: &[Name]) -> Result<&'a Listing, EditError>
    requires { IsOrdered case (Branch root.now) }
    ensures found { IfOk result (λ listing. at_root case root.now (place case names.now)
        ≡ Some (Branch listing.now)) }
    ensures ordered { IfOk result (λ listing. IsOrdered case (Branch listing.now)) }
    ensures refused { IfErr result (λ e. no_directory (at_root case root.now (place case names.now))
        ≡ Some (refusal_of e)) }
{
    match root.at(case, names) {
        Found::Missing => Err(EditError::NoParent),
        Found::File(_) => Err(EditError::NotDir),
        Found::Dir(listing) => Ok(listing),
    }
}

/// The refusal, where the test holds.
fn refuse_if(test: bool, refusal: EditError) -> Result<(), EditError>
    ensures { refused_by result ≡ (if test then Some (refusal_of refusal) else None) }
{
    if test { Err(refusal) } else { Ok(()) }
}

/// Whether the test holds and nothing excuses it.
fn holds_unless(test: bool, excuse: bool) -> bool
    ensures { result ≡ test && not excuse }
{
    test && !excuse
}
