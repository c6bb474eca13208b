//! The fingerprints that are kept, the oldest first.

ghost use Rattle.std.specs.Prelude.{◌≡◌, [], map, filter, find, not, IfOk, OnOk, OnErr, option_map};
ghost use Rattle.vfs_model.specs.Paths.{place};
ghost use Rattle.vfs_model.specs.State.{is_for_inputs, is_touched, with_kept};
ghost use Rattle.vfs_model.specs.Fingerprint.{fingerprint};
ghost use Rattle.fingerprint_norms.specs.Meaning.{input_of, seen_of};

use crate::kept::Kept;
use case_order::{Case, NoMemory};
use fingerprint_norms::{Input, Seen, fingerprint};
use merkle_hash::Digest;
use std::alloc::Global;
use std::marker::Model;
use vfs_path::Path;

/// How many are kept.
const MOST: usize = 64;

/// At most 64 fingerprints, each with the inputs and the snapshots that it is of, the oldest first.
///
/// Snapshots share their memory with those that they were shared from; they are held until the
/// fingerprint goes.
#[derive(Debug, Drop)]
pub struct KeptFingerprints {
    items: Vec<Kept>,
}

impl Model for KeptFingerprints {
    ghost use Rattle.std.specs.Prelude.{List};
    ghost use Rattle.std.specs.Coded.{coded_list};
    ghost use Rattle.vfs_model.specs.State.{KeptPrint};
    ghost use Rattle.vfs_model.specs.Code.{kept_code};

    ghost Value = { List KeptPrint };

    ghost coded = { coded_list kept_code };

    ghost view = { λ k. k.items.items };
}

impl KeptFingerprints {
    /// None is kept; takes no memory.
    pub fn new(alloc: Global) -> KeptFingerprints
        ensures { result ≡ [] }
    {
        KeptFingerprints {
            items: Vec::new(alloc),
        }
    }

    /// The fingerprint that is kept for this very list of inputs, the roots equal in spelling;
    /// takes no memory.
    pub fn find(&self, inputs: &[Input]) -> Option<Digest>
        ensures { result ≡ option_map (λ k. k.digest)
            (find (λ k. is_for_inputs (map input_of inputs.now) k.seen) self.now) }
    {
        let kept = self.items.iter().find(|kept| kept.is_of(inputs))?;
        Some(kept.digest)
    }

    /// The fingerprint of the inputs by these snapshots of their roots, which is kept from now on;
    /// where 64 are kept, the oldest goes.
    ///
    /// The only error is want of memory; then nothing changed.
    pub fn keep(&mut self, case: Case, seen: Vec<Seen>) -> Result<Digest, NoMemory>
        ensures digest { IfOk result (λ digest. digest ≡ fingerprint case (map seen_of seen.items)) }
        ensures kept { OnOk result (self.new ≡ with_kept self.old
            (record { seen = map seen_of seen.items; digest = fingerprint case (map seen_of seen.items) })) }
        ensures refused { OnErr result (self.new ≡ self.old) }
    {
        let digest = fingerprint(*self.items.allocator(), case, &seen)?;
        self.items.push(Kept { seen, digest })?;
        if self.items.len() > MOST {
            self.items.remove(0);
        }
        Ok(digest)
    }

    /// Those with a root that is related to the path go; takes no memory.
    pub fn drop_related(&mut self, case: Case, path: &Path)
        ensures { self.new ≡ filter (λ k. not (is_touched case (place case path.now) k)) self.old }
    {
        self.items.retain(|kept| !kept.is_related(case, path));
    }

    /// All go; takes no memory.
    pub fn clear(&mut self)
        ensures { self.new ≡ [] }
    {
        self.items.clear();
    }
}
