//! Snapshots of locations.

ghost use Rattle.std.specs.Prelude.{◌≡◌, ◌≤◌, Some, IfOk, length, drop, unwrap_or, option_map};
ghost use Rattle.std.specs.Option.{option_copied};
ghost use Rattle.vfs_model.specs.Paths.{folded_name, place};
ghost use Rattle.vfs_model.specs.World.{kind_of_status};
ghost use Rattle.vfs_model.specs.Snapshot.{Missing, child, children_of, sub, status};
ghost use Rattle.vfs_model.specs.State.{glance, digest_or};
ghost use Rattle.snapshot_tree.specs.Meaning.{meaning_of, glance_of};

use crate::directory::DirRef;
use case_order::{Case, NoMemory, Share};
use merkle_hash::Digest;
use vfs_model::Kind;
use vfs_path::{Name, Path};

/// What is remembered of a location and of all below it.
#[cycle(snapshot)]
#[derive(Debug, Drop)]
pub enum Snapshot {
    /// Nothing was there.
    Missing,
    /// A file whose bytes have this digest.
    File(Digest),
    /// A directory with its children.
    Dir(DirRef),
}

/// The kind of a location and its digest, which there is but for what is missing.
#[derive(Clone, Copy, Debug, PartialEq, Eq)]
pub struct Glance {
    pub kind: Kind,
    pub digest: Option<Digest>,
}

impl Snapshot {
    /// The kind of the location.
    pub fn kind(&self) -> Kind
        ensures { result ≡ kind_of_status (status (meaning_of self.now)) }
    {
        match self {
            Snapshot::Missing => Kind::Missing,
            Snapshot::File(_) => Kind::File,
            Snapshot::Dir(_) => Kind::Dir,
        }
    }

    /// The digest; None exactly for `Missing`.
    pub fn digest(&self) -> Option<Digest>
        ensures { result ≡ digest_or (meaning_of self.now) }
    {
        match self {
            Snapshot::Missing => None,
            Snapshot::File(digest) => Some(*digest),
            Snapshot::Dir(directory) => Some(directory.digest()),
        }
    }

    /// The child at a name; None where none is listed, and where the snapshot is no directory.
    fn listed(&self, case: Case, name: &Name) -> Option<&Snapshot>
        ensures { unwrap_or (option_map meaning_of (option_copied result)) Missing ≡ child case (children_of (meaning_of self.now)) (folded_name case name.now) }
    {
        match self {
            Snapshot::Missing | Snapshot::File(_) => None,
            Snapshot::Dir(directory) => directory.listed(case, name),
        }
    }

    /// The snapshot at the names of the path from a place on, where each of them is listed.
    fn below(&self, case: Case, path: &Path, from: usize) -> Option<&Snapshot>
        requires { from ≤ length path.now }
        ensures { unwrap_or (option_map meaning_of (option_copied result)) Missing ≡ sub case (meaning_of self.now) (drop from (place case path.now)) }
    {
        let mut here = self;
        for i in from..path.len() {
            match here.listed(case, path.name(i)) {
                Some(child) => here = child,
                None => return None,
            }
        }
        Some(here)
    }

    /// What the snapshot says of the names of the path from a place on: below a file, below what is
    /// missing and at a name that is not listed, that nothing is there.
    ///
    /// The only error is want of memory.
    pub fn sub(&self, case: Case, path: &Path, from: usize) -> Result<Snapshot, NoMemory>
        requires { from ≤ length path.now }
        ensures { IfOk result (λ s. meaning_of s ≡ sub case (meaning_of self.now) (drop from (place case path.now))) }
    {
        match self.below(case, path, from) {
            Some(part) => part.share(),
            None => Ok(Snapshot::Missing),
        }
    }

    /// The kind and the digest of what `sub` gives; takes no memory.
    pub fn glance(&self, case: Case, path: &Path, from: usize) -> Glance
        requires { from ≤ length path.now }
        ensures { Some (glance_of result) ≡ glance (Some (sub case (meaning_of self.now) (drop from (place case path.now)))) }
    {
        match self.below(case, path, from) {
            Some(part) => Glance {
                kind: part.kind(),
                digest: part.digest(),
            },
            None => Glance {
                kind: Kind::Missing,
                digest: None,
            },
        }
    }
}

impl Share for Snapshot {
    fn share(&self) -> Result<Snapshot, NoMemory> {
        match self {
            Snapshot::Missing => Ok(Snapshot::Missing),
            Snapshot::File(digest) => Ok(Snapshot::File(*digest)),
            Snapshot::Dir(directory) => Ok(Snapshot::Dir(directory.share()?)),
        }
    }
}
