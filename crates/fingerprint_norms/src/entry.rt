//! Entries of fingerprints.

ghost use Rattle.std.specs.Prelude.{◌≡◌, [], unwrap_or, IfOk};
ghost use Rattle.fingerprint_norms.specs.Meaning.{entry_of, byte_of, is_dir};
ghost use Rattle.fingerprint_norms.specs.Walk.{IsBelow, shown_text};

use crate::input::Input;
use crate::shown::shown_path;
use crate::text::Text;
use case_order::NoMemory;
use merkle_hash::Digest;
use snapshot_tree::Kind;
use std::alloc::Global;
use vfs_path::Name;

/// An entry of a fingerprint.
#[derive(Debug, Drop)]
pub struct FpEntry {
    /// The path by which the location is shown.
    pub path: Text,
    /// What is there.
    pub kind: Kind,
    /// The digest, which only files have.
    pub digest: Option<Digest>,
}

/// The byte of a kind.
pub(crate) fn kind_byte(kind: Kind) -> u8
    ensures { result ≡ byte_of kind }
{
    match kind {
        Kind::Missing => b'M',
        Kind::File => b'F',
        Kind::Dir => b'D',
    }
}

/// The entry of the location with these names, which stand at or below the root of the input.
///
/// The only error is want of memory.
pub(crate) fn entry_at(
    alloc: Global,
    input: &Input,
    names: &[Name],
    kind: Kind,
    digest: Option<Digest>,
) -> Result<FpEntry, NoMemory>
    requires { IsBelow input.now.root names.now }
    ensures { IfOk result (λ e. entry_of e ≡ record { path = shown_text input.now names.now (is_dir kind); kind = byte_of kind; digest = unwrap_or digest [] }) }
{
    let path = shown_path(alloc, input, names, kind == Kind::Dir)?;
    Ok(FpEntry { path, kind, digest })
}
