//! Files and directories in memory, which change in place where they have one owner.

ghost use Rattle.std.specs.Prelude.{◌≡◌, length, option_map, nat_le, IfOk, IfSome, OnOk, OnErr, MatchResult};
ghost use Rattle.std.specs.Option.{option_copied};
ghost use Rattle.vfs_model.specs.Paths.{folded_name, place, name_order};
ghost use Rattle.vfs_model.specs.World.{AreInOrder};
ghost use Rattle.vfs_model.specs.Edit.{is_missing};
ghost use Rattle.mem_tree.specs.FileTree.{Branch, NoChildren, names_of, child, at_root, changed, fits, found_fits, status_of_tree, world_of, IsOrdered};
ghost use Rattle.mem_tree.specs.Nodes.{tree_of_node, named_of, children_of, IsHere, IsGap};
ghost use Rattle.mem_tree.specs.Found.{tree_found, AreOrderedAt, after_change};
ghost use Rattle.world_model.specs.Told.{is_root_alone};

use case_order::{Case, NoMemory, Share, order, share_all};
use merkle_hash::Bytes;
use std::alloc::Global;
use std::cmp::Ordering;
use std::marker::Model;
use std::sync::Arc;
use vfs_path::{Name, Names};

/// How many names a directory has at most.
const MAX_NAMES: usize = 4096;

/// A file with its bytes, or a directory.
#[cycle(tree)]
#[derive(Drop)]
pub(crate) enum Node {
    File(Bytes),
    Dir(Listing),
}

/// What is in a directory, in name order. A directory that is new takes no memory.
#[cycle(tree)]
#[derive(Drop)]
pub(crate) struct Listing {
    children: Option<Arc<Vec<Child>, Global>>,
}

/// A location in a directory.
#[cycle(tree)]
#[derive(Drop)]
pub(crate) struct Child {
    pub(crate) name: Name,
    pub(crate) node: Node,
}

impl Model for Listing {
    ghost use Rattle.mem_tree.specs.FileTree.{Children};
    ghost use Rattle.mem_tree.specs.TreeCode.{children_code};

    ghost Value = { Children };

    ghost coded = { children_code };

    ghost use Rattle.mem_tree.specs.Nodes.{children_of, listed};
    ghost use Rattle.mem_tree.specs.FileTree.{height_of};

    ghost view = { λ l. children_of (listed l.children) };

    ghost size = { height_of };

    ghost use Rattle.mem_tree.specs.Falls.{listing-lower};

    ghost size_decreases = { λ a h. listing-lower a };
}

impl Share for Node {
    fn share(&self) -> Result<Node, NoMemory> {
        match self {
            Node::File(bytes) => Ok(Node::File(bytes.share()?)),
            Node::Dir(listing) => Ok(Node::Dir(listing.share()?)),
        }
    }
}

impl Share for Listing {
    fn share(&self) -> Result<Listing, NoMemory> {
        match &self.children {
            None => Ok(Listing { children: None }),
            Some(children) => Ok(Listing {
                children: Some(Arc::try_clone(children)?),
            }),
        }
    }
}

impl Share for Child {
    fn share(&self) -> Result<Child, NoMemory> {
        let name = self.name.share()?;
        let node = self.node.share()?;
        Ok(Child { name, node })
    }
}

/// What stands at a place.
#[derive(Drop)]
pub(crate) enum Found<'a> {
    Missing,
    File(&'a Bytes),
    Dir(&'a Listing),
}

impl Found<'_> {
    /// Whether nothing is there.
    pub(crate) fn is_missing(&self) -> bool
        ensures { result ≡ is_missing (status_of_tree (tree_found self.now)) }
    {
        match self {
            Found::Missing => true,
            Found::File(_) => false,
            Found::Dir(_) => false,
        }
    }

    /// Whether no path below it has more names than this, from it on.
    pub(crate) fn fits(&self, levels: usize) -> bool
        ensures { result ≡ found_fits levels (tree_found self.now) }
    {
        match self {
            Found::Missing => true,
            Found::File(_) => true,
            Found::Dir(listing) => listing.fits(levels),
        }
    }

    /// What is there, shared.
    ///
    /// The only error is want of memory.
    pub(crate) fn node(&self) -> Result<Option<Node>, NoMemory>
        ensures { IfOk result (λ node. option_map tree_of_node node ≡ tree_found self.now) }
    {
        match self {
            Found::Missing => Ok(None),
            Found::File(bytes) => {
                let bytes = bytes.share()?;
                Ok(Some(Node::File(bytes)))
            }
            Found::Dir(listing) => {
                let listing = listing.share()?;
                Ok(Some(Node::Dir(listing)))
            }
        }
    }
}

/// A change of what is in a directory.
#[derive(Drop)]
pub(crate) enum Change {
    /// The child goes to its place in the order, instead of one of the same name.
    Put(Child),
    /// The child of this name goes.
    Take(Name),
}

impl Listing {
    /// The empty directory, which takes no memory.
    pub(crate) fn empty() -> Listing
        ensures { result ≡ NoChildren }
    {
        Listing { children: None }
    }

    /// The children, in name order.
    fn children(&self) -> &[Child]
        ensures { children_of result.now ≡ self.now }
    {
        match &self.children {
            None => &[],
            Some(children) => children.as_slice(),
        }
    }

    /// Whether nothing is in it.
    pub(crate) fn is_empty(&self) -> bool
        ensures { result ≡ is_root_alone (world_of self.now) }
    {
        self.children().is_empty()
    }

    /// Whether it has as many names as it may have.
    pub(crate) fn is_full(&self) -> bool
        ensures { result ≡ nat_le 4096 (length (names_of self.now)) }
    {
        self.children().len() >= MAX_NAMES
    }

    /// Whether no path below it has more names than this, from it on.
    #[cycle(fits)]
    pub(crate) fn fits(&self, levels: usize) -> bool
        ensures { result ≡ fits levels (Branch self.now) }
    {
        for child in self.children() {
            if levels == 0 || !child.node.fits(levels - 1) {
                return false;
            }
        }
        true
    }

    /// The names of the children, in order.
    pub(crate) fn names(&self, alloc: Global) -> Result<Names, NoMemory>
        ensures { IfOk result (λ names. names ≡ names_of self.now) }
    {
        let mut names = Vec::new(alloc);
        for child in self.children() {
            names.push(child.name.share()?)?;
        }
        Ok(Names::from_vec(names))
    }

    /// The child of this name.
    pub(crate) fn child(&self, case: Case, name: &Name) -> Option<&Child>
        requires { IsOrdered case (Branch self.now) }
        ensures child { option_map named_of (option_copied result)
            ≡ child case self.now (folded_name case name.now) }
        ensures ordered { IfSome result (λ found. IsOrdered case (tree_of_node found.now.node)) }
    {
        let children = self.children();
        match seek(case, children, name) {
            Ok(i) => Some(&children[i]),
            Err(_) => None,
        }
    }

    /// What stands at the place below that these names lead to.
    pub(crate) fn at(&self, case: Case, names: &[Name]) -> Found<'_>
        requires { IsOrdered case (Branch self.now) }
        ensures found { tree_found result ≡ at_root case self.now (place case names.now) }
        ensures ordered { AreOrderedAt case result }
    {
        match names {
            [] => Found::Dir(self),
            [name, more @ ..] => match self.child(case, name) {
                None => Found::Missing,
                Some(child) => match &child.node {
                    Node::Dir(listing) => listing.at(case, more),
                    Node::File(bytes) => {
                        if more.is_empty() {
                            Found::File(bytes)
                        } else {
                            Found::Missing
                        }
                    }
                },
            },
        }
    }

    /// Makes a change in the directory that these names lead to; where they lead to none, all stays.
    ///
    /// What has no other owner changes in its place, and what has one is copied on the way. The only
    /// error is want of memory, and all stays then too.
    #[cycle(change)]
    pub(crate) fn change(
        &mut self,
        alloc: Global,
        case: Case,
        names: &[Name],
        change: Change,
    ) -> Result<(), NoMemory>
        requires { IsOrdered case (Branch self.old) }
        ensures changed { OnOk result (self.new
            ≡ changed case (after_change case change) (place case names.now) self.old) }
        ensures kept { OnErr result (self.new ≡ self.old) }
    {
        if let Some(shared) = &mut self.children {
            if let Some(children) = Arc::get_mut(shared) {
                return change_children(alloc, case, children, names, change);
            }
        }
        let mut children = share_all(alloc, self.children())?;
        change_children(alloc, case, &mut children, names, change)?;
        *self = Listing::of(alloc, children)?;
        Ok(())
    }

    /// The directory of these children.
    fn of(alloc: Global, children: Vec<Child>) -> Result<Listing, NoMemory>
        ensures { IfOk result (λ listing. listing ≡ children_of children.items) }
    {
        if children.is_empty() {
            return Ok(Listing::empty());
        }
        let children = Arc::new(alloc, children)?;
        Ok(Listing {
            children: Some(children),
        })
    }
}

/// Makes a change in the directory that these names lead to from the one of these children.
///
/// The only error is want of memory, and all stays then.
#[cycle(change)]
fn change_children(
    alloc: Global,
    case: Case,
    children: &mut Vec<Child>,
    names: &[Name],
    change: Change,
) -> Result<(), NoMemory>
    requires { IsOrdered case (Branch (children_of children.old.items)) }
    ensures changed { OnOk result (children_of children.new.items
        ≡ changed case (after_change case change) (place case names.now) (children_of children.old.items)) }
    ensures kept { OnErr result (children_of children.new.items ≡ children_of children.old.items) }
{
    match names {
        [] => change_here(case, children, change),
        [name, more @ ..] => match seek(case, children.as_slice(), name) {
            Err(_) => Ok(()),
            Ok(i) => match &mut children[i].node {
                Node::File(_) => Ok(()),
                Node::Dir(listing) => listing.change(alloc, case, more, change),
            },
        },
    }
}

/// Makes a change among these children themselves.
///
/// The only error is want of memory, and all stays then.
fn change_here(case: Case, children: &mut Vec<Child>, change: Change) -> Result<(), NoMemory>
    requires { AreInOrder case (names_of (children_of children.old.items)) }
    ensures changed { OnOk result (children_of children.new.items
        ≡ after_change case change (children_of children.old.items)) }
    ensures kept { OnErr result (children_of children.new.items ≡ children_of children.old.items) }
{
    match change {
        Change::Put(child) => match seek(case, children.as_slice(), &child.name) {
            Ok(i) => {
                children[i] = child;
                Ok(())
            }
            Err(i) => {
                children.insert(i, child)?;
                Ok(())
            }
        },
        Change::Take(name) => match seek(case, children.as_slice(), &name) {
            Ok(i) => {
                children.remove(i);
                Ok(())
            }
            Err(_) => Ok(()),
        },
    }
}

/// The index of the child of this name, or where one would stand.
fn seek(case: Case, children: &[Child], name: &Name) -> Result<usize, usize>
    requires { AreInOrder case (names_of (children_of children.now)) }
    ensures { MatchResult result (IsHere case children.now name.now) (IsGap case children.now name.now) }
{
    children.binary_search_by(
        |child: &Child| -> Ordering
            ensures { result ≡ name_order case child.now.name name.entry.now }
        { order(case, child.name.as_bytes(), name.as_bytes()) },
    )
}

impl Node {
    #[cycle(fits)]
    fn fits(&self, levels: usize) -> bool
        ensures { result ≡ fits levels (tree_of_node self.now) }
    {
        match self {
            Node::File(_) => true,
            Node::Dir(listing) => listing.fits(levels),
        }
    }
}
