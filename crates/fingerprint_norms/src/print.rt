//! The entries of inputs, in order, and their fingerprint.

ghost use Rattle.std.specs.Prelude.{◌≡◌, [], map, IfOk};
ghost use Rattle.vfs_model.specs.Fingerprint.{all_entries, sorted, fingerprint};
ghost use Rattle.fingerprint_norms.specs.Meaning.{entry_of, seen_of};

use crate::bytes::bytes_of;
use crate::entry::FpEntry;
use crate::input::Seen;
use crate::order::sort;
use crate::walk::add_input;
use case_order::{Case, NoMemory};
use merkle_hash::{Digest, file_digest};
use std::alloc::Global;

/// The entries of the inputs, one input after another.
fn all_entries(alloc: Global, case: Case, seen: &[Seen]) -> Result<Vec<FpEntry>, NoMemory>
    ensures { IfOk result (λ all. map entry_of all.items ≡ all_entries case [] (map seen_of seen.now)) }
{
    let mut all = Vec::new(alloc);
    for i in 0..seen.len() {
        add_input(case, &seen[..i], &seen[i], &mut all)?;
    }
    Ok(all)
}

/// The entries of the inputs, by path, then kind, then digest: one for each location at or below
/// a root, by the snapshots, and one for a root that is missing. A location at or below the root
/// of an earlier input has none again, and directories have none where paths are ignored.
///
/// The only error is want of memory.
pub fn entries(alloc: Global, case: Case, seen: &[Seen]) -> Result<Vec<FpEntry>, NoMemory>
    ensures { IfOk result (λ all. map entry_of all.items ≡ sorted (all_entries case [] (map seen_of seen.now))) }
{
    let mut all = all_entries(alloc, case, seen)?;
    sort(&mut all)?;
    Ok(all)
}

/// The MD5 of the entries: for each the length of its path in 4 bytes, the highest first, the
/// path, `M`, `F` or `D` for its kind, the length of its digest in 4 bytes, and the digest.
///
/// The only error is want of memory.
#[tactic(auto, unfolding(vfs_model::specs::Fingerprint::fingerprint))]
pub fn fingerprint(alloc: Global, case: Case, seen: &[Seen]) -> Result<Digest, NoMemory>
    ensures { IfOk result (λ digest. digest ≡ fingerprint case (map seen_of seen.now)) }
{
    let all = entries(alloc, case, seen)?;
    let bytes = bytes_of(alloc, &all)?;
    Ok(file_digest(&bytes))
}
