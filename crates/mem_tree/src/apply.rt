//! Edits of a nested tree, each of which changes it in place.

ghost use Rattle.std.specs.Prelude.{◌≡◌, ◌<◌, None, IfOk, OnOk, OnErr, length};
ghost use Rattle.vfs_model.specs.Edit as edits;
ghost use Rattle.mem_tree.specs.FileTree.{Branch, cleared, edited, placed, spelled, world_of, IsOrdered, IsTree};
ghost use Rattle.world_model.specs.Meaning.{edit_of};
ghost use Rattle.mem_tree.specs.Nodes.{tree_of_node};

use crate::names::{last, parent};
use crate::node::{Change, Child, Found, Listing, Node};
use case_order::{Case, NoMemory, Share};
use std::alloc::Global;
use vfs_path::Name;
use world_model::Edit;

/// Does an edit that is not refused.
///
/// The only error is want of memory, and the tree stays then.
pub(crate) fn edit_tree(
    alloc: Global,
    case: Case,
    root: &mut Listing,
    edit: &Edit,
) -> Result<(), NoMemory>
    requires tree { IsTree case root.old }
    requires allowed { edits.refusal case (world_of root.old) (edit_of edit.now) ≡ None }
    ensures edited { OnOk result (root.new ≡ edited case root.old (edit_of edit.now)) }
    ensures kept { OnErr result (root.new ≡ root.old) }
{
    match edit {
        Edit::Write(path, bytes) => {
            let names = path.as_slice();
            let name = spelled(case, root, names)?;
            let node = Node::File(bytes.share()?);
            place(alloc, case, root, names, Child { name, node })
        }
        Edit::Mkdir(path) => {
            let names = path.as_slice();
            let name = last(names).share()?;
            let node = Node::Dir(Listing::empty());
            place(alloc, case, root, names, Child { name, node })
        }
        Edit::Remove(path) => clear(alloc, case, root, path.as_slice()),
        Edit::Move(from, to) => move_node(alloc, case, root, from.as_slice(), to.as_slice()),
    }
}

/// Moves what is at one path to another, if anything is there.
///
/// Both changes are made in a tree that shares with this one, so that it stays where memory is
/// wanting for the second.
fn move_node(
    alloc: Global,
    case: Case,
    root: &mut Listing,
    from: &[Name],
    to: &[Name],
) -> Result<(), NoMemory>
    requires ordered { IsOrdered case (Branch root.old) }
    requires below_from { 0 < length from.now }
    requires below_to { 0 < length to.now }
    ensures moved { OnOk result (root.new ≡ edited case root.old (edits.Move from.now to.now)) }
    ensures kept { OnErr result (root.new ≡ root.old) }
{
    let mut changed = root.share()?;
    clear(alloc, case, &mut changed, from)?;
    let Some(node) = root.at(case, from).node()? else {
        *root = changed;
        return Ok(());
    };
    let name = last(to).share()?;
    place(alloc, case, &mut changed, to, Child { name, node })?;
    *root = changed;
    Ok(())
}

/// Puts the child at the path, under its own name.
///
/// The only error is want of memory, and the tree stays then.
fn place(
    alloc: Global,
    case: Case,
    root: &mut Listing,
    path: &[Name],
    child: Child,
) -> Result<(), NoMemory>
    requires ordered { IsOrdered case (Branch root.old) }
    requires below { 0 < length path.now }
    ensures placed { OnOk result (root.new
        ≡ placed case root.old path.now child.name (tree_of_node child.node)) }
    ensures kept { OnErr result (root.new ≡ root.old) }
{
    root.change(alloc, case, parent(path), Change::Put(child))
}

/// Takes away what is at the path.
///
/// The only error is want of memory, and the tree stays then.
fn clear(alloc: Global, case: Case, root: &mut Listing, path: &[Name]) -> Result<(), NoMemory>
    requires ordered { IsOrdered case (Branch root.old) }
    requires below { 0 < length path.now }
    ensures cleared { OnOk result (root.new ≡ cleared case root.old path.now) }
    ensures kept { OnErr result (root.new ≡ root.old) }
{
    let name = last(path).share()?;
    root.change(alloc, case, parent(path), Change::Take(name))
}

/// How the last name of what is at the path is spelled, or how the path spells it where nothing is
/// there.
fn spelled(case: Case, root: &Listing, path: &[Name]) -> Result<Name, NoMemory>
    requires ordered { IsOrdered case (Branch root.now) }
    requires below { 0 < length path.now }
    ensures { IfOk result (λ name. name ≡ spelled case root.now path.now) }
{
    let name = last(path);
    match root.at(case, parent(path)) {
        Found::Missing => name.share(),
        Found::File(_) => name.share(),
        Found::Dir(directory) => match directory.child(case, name) {
            None => name.share(),
            Some(child) => child.name.share(),
        },
    }
}
