//! The order of entries.

ghost use Rattle.std.specs.Prelude.{◌≡◌, [], unwrap_or, map, OnOk};
ghost use Rattle.std.specs.Cmp.Lexicographic.{slice_cmp};
ghost use Rattle.std.specs.Ordering.{nat_cmp};
ghost use Rattle.vfs_model.specs.Fingerprint.{entry_order, sorted};
ghost use Rattle.fingerprint_norms.specs.Meaning.{entry_of};

use crate::entry::{FpEntry, kind_byte};
use case_order::NoMemory;
use merkle_hash::Digest;
use std::cmp::Ordering;

/// By path, then kind, then digest.
fn order_of(a: &FpEntry, b: &FpEntry) -> Ordering
    ensures { result ≡ entry_order (entry_of a.now) (entry_of b.now) }
{
    let paths = a.path.as_slice().cmp(b.path.as_slice());
    if paths.is_ne() {
        return paths;
    }
    let kinds = kind_byte(a.kind).cmp(&kind_byte(b.kind));
    kinds.then(digest_order(a.digest, b.digest))
}

/// What has no digest comes first.
fn digest_order(a: Option<Digest>, b: Option<Digest>) -> Ordering
    ensures { result ≡ slice_cmp nat_cmp (unwrap_or a []) (unwrap_or b []) }
{
    match (a, b) {
        (None, None) => Ordering::Equal,
        (None, Some(y)) => [].as_slice().cmp(y.bytes().as_slice()),
        (Some(x), None) => x.bytes().as_slice().cmp([].as_slice()),
        (Some(x), Some(y)) => x.bytes().as_slice().cmp(y.bytes().as_slice()),
    }
}

/// Puts the entries in order.
///
/// The only error is want of memory.
pub(crate) fn sort(entries: &mut Vec<FpEntry>) -> Result<(), NoMemory>
    ensures { OnOk result (map entry_of entries.new.items ≡ sorted (map entry_of entries.old.items)) }
{
    entries.sort_by(|a, b| order_of(a, b))?;
    Ok(())
}
