//! Directories in the making.

ghost use Rattle.std.specs.Prelude.{◌≡◌, ◌≢◌, ◌<◌, ◌∷◌, ◌++◌, List, ℕ, length, IfOk, OnOk, OnErr};
ghost use Rattle.vfs_model.specs.Snapshot.{Nothing, Missing, Dir, names_of, ArePresent, IsTree};
ghost use Rattle.vfs_model.specs.Fingerprint.{digest_of, four_bytes, kind_byte};
ghost use Rattle.merkle_hash.specs.DirHasher.{HasTaken};
ghost use Rattle.snapshot_tree.specs.Meaning.{meaning_of, children_in};
ghost use Rattle.snapshot_tree.specs.Listing.{followed_by, IsAfterLast, AreTrees};

use crate::directory::{Child, DirRef};
use crate::snapshot::Snapshot;
use case_order::{Case, NoMemory, Shared};
use merkle_hash::{Digest, DirHasher, Mark};
use sqlite_items::Items;
use std::alloc::Global;
use std::marker::Model;
use vfs_path::Name;

/// A directory in the making, whose children are added in the order of their names.
///
/// Contracts see the case of that order and the children so far.
#[derive(Debug, Drop)]
pub struct DirBuilder {
    alloc: Global,
    case: Case,
    children: Vec<Child>,
}

impl Model for DirBuilder {
    ghost use Rattle.snapshot_tree.specs.Building.{Building, building_code};

    ghost Value = { Building };

    ghost coded = { building_code };

    ghost use Rattle.vfs_model.specs.Snapshot.{IsListing};
    ghost use Rattle.snapshot_tree.specs.Meaning.{children_in};

    ghost view = { λ b. record { case = b.case; children = children_in b.children.items } };

    ghost invariant = { λ b. IsListing b.case (children_in b.children.items) };
}

impl DirBuilder {
    /// No child was added yet; takes no memory.
    pub fn new(alloc: Global, case: Case) -> DirBuilder
        ensures { result ≡ record { case = case; children = Nothing } }
    {
        DirBuilder {
            alloc,
            case,
            children: Vec::new(alloc),
        }
    }

    /// Adds a child behind the others. A directory has at most 4,096, none of them missing, and
    /// each name comes after the one before it.
    ///
    /// The only error is want of memory; then nothing changed.
    pub fn add(&mut self, name: Name, snapshot: Snapshot) -> Result<(), NoMemory>
        requires present { meaning_of snapshot ≢ Missing }
        requires order { IsAfterLast self.old.case self.old.children name }
        requires room { length (names_of self.old.children) < 4096 }
        ensures added { OnOk result (self.new ≡ record self.old { children = followed_by self.old.children name (meaning_of snapshot) }) }
        ensures refused { OnErr result (self.new ≡ self.old) }
    {
        self.children.push(Child { name, snapshot })?;
        Ok(())
    }

    /// The directory of the children that were added.
    ///
    /// The only error is want of memory.
    pub fn finish(self) -> Result<Snapshot, NoMemory>
        ensures directory { IfOk result (λ snapshot. meaning_of snapshot ≡ Dir self.children) }
        ensures tree { IfOk result (λ snapshot. AreTrees self.case self.children → IsTree self.case (meaning_of snapshot)) }
    {
        let DirBuilder {
            alloc,
            case: _,
            children,
        } = self;
        let digest = digest_of_children(&children);
        match Shared::new(alloc, Items::from_vec(children)) {
            Ok(children) => Ok(Snapshot::Dir(DirRef::new(children, digest))),
            Err((_, refused)) => Err(refused),
        }
    }
}

/// The digest of the directory of these children.
fn digest_of_children(children: &[Child]) -> Digest
    requires { ArePresent (children_in children.now) }
    ensures { result ≡ digest_of (Dir (children_in children.now)) }
{
    let mut hasher = DirHasher::new();
    for child in children {
        take_child(&mut hasher, &child.name, &child.snapshot);
    }
    hasher.finish()
}

/// Hands a child to the hasher.
fn take_child(hasher: &mut DirHasher, name: &Name, snapshot: &Snapshot)
    requires { meaning_of snapshot.now ≢ Missing }
    ensures { (bytes : List ℕ) → HasTaken hasher.old bytes → HasTaken hasher.new (bytes ++ four_bytes (length name.now) ++ name.now ++ kind_byte (meaning_of snapshot.now) ∷ digest_of (meaning_of snapshot.now)) }
{
    let name = name.as_bytes();
    match snapshot {
        Snapshot::Missing => unreachable!(),
        Snapshot::File(digest) => hasher.child(name, Mark::F, digest),
        Snapshot::Dir(directory) => hasher.child(name, Mark::D, &directory.digest()),
    }
}
