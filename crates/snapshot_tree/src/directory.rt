//! The children of a directory, with its digest beside them.

ghost use Rattle.std.specs.Prelude.{◌≡◌, ◌<◌, [], length, slice_index_or, unwrap_or, option_map};
ghost use Rattle.std.specs.Option.{option_copied};
ghost use Rattle.vfs_model.specs.Paths.{folded_name};
ghost use Rattle.vfs_model.specs.Snapshot.{Dir, Missing, child};
ghost use Rattle.vfs_model.specs.Fingerprint.{digest_of};
ghost use Rattle.snapshot_tree.specs.Meaning.{meaning_of, children_in};
ghost use Rattle.snapshot_tree.specs.Listing.{entries_of};

use crate::snapshot::Snapshot;
use case_order::{Case, NoMemory, Share, Shared, same};
use merkle_hash::Digest;
use sqlite_items::Items;
use std::marker::Model;
use vfs_path::Name;

/// The children of a directory, each a name with its snapshot, in order.
///
/// It has several owners; sharing it copies nothing of what lies below. Contracts see the children.
#[cycle(snapshot)]
#[derive(Debug, Drop)]
pub struct DirRef {
    children: Shared<Items<Child>>,
    digest: Digest,
}

/// A child of a directory.
#[cycle(snapshot)]
#[derive(Debug, Drop)]
pub(crate) struct Child {
    pub(crate) name: Name,
    pub(crate) snapshot: Snapshot,
}

impl Model for DirRef {
    ghost use Rattle.vfs_model.specs.Snapshot.{Children, Dir};
    ghost use Rattle.vfs_model.specs.Code.{children_code};

    ghost Value = { Children };

    ghost coded = { children_code };

    ghost use Rattle.std.specs.Prelude.{◌≡◌};
    ghost use Rattle.vfs_model.specs.Fingerprint.{digest_of};
    ghost use Rattle.snapshot_tree.specs.Meaning.{children_in};
    ghost use Rattle.snapshot_tree.specs.Height.{height_of};

    ghost view = { λ d. children_in d.children };

    ghost invariant = { λ d. d.digest ≡ digest_of (Dir (children_in d.children)) };

    ghost size = { height_of };

    ghost use Rattle.std.proofs.Common.{arith};
    ghost use Rattle.snapshot_tree.specs.Falls.{children_fall};

    ghost size_decreases = { λ d h. omega (arith, children_fall d.children) };
}

impl DirRef {
    /// The directory of these children.
    pub(crate) fn new(children: Shared<Items<Child>>, digest: Digest) -> DirRef
        requires { digest ≡ digest_of (Dir (children_in children)) }
        ensures { result ≡ children_in children }
    {
        DirRef { children, digest }
    }

    /// How many children there are.
    pub fn len(&self) -> usize
        ensures { result ≡ length (entries_of self.now) }
    {
        self.children().len()
    }

    /// The name of the child at a place, counted from 0.
    pub fn name(&self, i: usize) -> &Name
        requires { i < length (entries_of self.now) }
        ensures { result.now ≡ (slice_index_or (entries_of self.now) i ([], Missing)).0 }
    {
        &self.children()[i].name
    }

    /// The snapshot of the child at a place, counted from 0.
    pub fn child(&self, i: usize) -> &Snapshot
        requires { i < length (entries_of self.now) }
        ensures { meaning_of result.now ≡ (slice_index_or (entries_of self.now) i ([], Missing)).1 }
    {
        &self.children()[i].snapshot
    }

    /// The digest of the directory.
    pub(crate) fn digest(&self) -> Digest
        ensures { result ≡ digest_of (Dir self.now) }
    {
        self.digest
    }

    /// The children.
    pub(crate) fn children(&self) -> &[Child]
        ensures { children_in result.now ≡ self.now }
    {
        self.children.get().as_slice()
    }

    /// The first child with the name, where one is listed.
    pub(crate) fn listed(&self, case: Case, name: &Name) -> Option<&Snapshot>
        ensures { unwrap_or (option_map meaning_of (option_copied result)) Missing ≡ child case self.now (folded_name case name.now) }
    {
        for child in self.children() {
            if same(case, child.name.as_bytes(), name.as_bytes()) {
                return Some(&child.snapshot);
            }
        }
        None
    }
}

impl Share for DirRef {
    fn share(&self) -> Result<DirRef, NoMemory> {
        let children = self.children.share()?;
        Ok(DirRef {
            children,
            digest: self.digest,
        })
    }
}
