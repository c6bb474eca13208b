//! The bytes of entries, as they are hashed.

ghost use Rattle.std.specs.Prelude.{◌≡◌, ◌++◌, map, IfOk, OnOk};
ghost use Rattle.std.specs.List.{flat_map};
ghost use Rattle.vfs_model.specs.Fingerprint.{four_bytes, entry_bytes};
ghost use Rattle.fingerprint_norms.specs.Meaning.{entry_of};

use crate::entry::{FpEntry, kind_byte};
use case_order::NoMemory;
use std::alloc::Global;

/// The lowest 32 bits of the number, the highest byte first.
fn four_bytes(n: usize) -> [u8; 4]
    ensures { result ≡ four_bytes n }
{
    [
        (n / 0x100_0000 % 0x100) as u8,
        (n / 0x1_0000 % 0x100) as u8,
        (n / 0x100 % 0x100) as u8,
        (n % 0x100) as u8,
    ]
}

/// Appends the bytes of the entry: the length of the path, the path, the byte of the kind, the
/// length of the digest and the digest.
///
/// Where memory is wanting, some of them may stand behind what `out` held.
fn write_entry(entry: &FpEntry, out: &mut Vec<u8>) -> Result<(), NoMemory>
    ensures { OnOk result (out.new.items ≡ out.old.items ++ entry_bytes (entry_of entry.now)) }
{
    let path = entry.path.as_slice();
    out.extend_from_slice(&four_bytes(path.len()))?;
    out.extend_from_slice(path)?;
    out.push(kind_byte(entry.kind))?;
    match entry.digest {
        None => out.extend_from_slice(&four_bytes(0))?,
        Some(digest) => {
            let bytes = digest.bytes();
            out.extend_from_slice(&four_bytes(bytes.len()))?;
            out.extend_from_slice(&bytes)?;
        }
    }
    Ok(())
}

/// The bytes of the entries, one after another.
///
/// The only error is want of memory.
pub(crate) fn bytes_of(alloc: Global, entries: &[FpEntry]) -> Result<Vec<u8>, NoMemory>
    ensures { IfOk result (λ bytes. bytes.items ≡ flat_map entry_bytes (map entry_of entries.now)) }
{
    let mut bytes = Vec::new(alloc);
    for entry in entries {
        write_entry(entry, &mut bytes)?;
    }
    Ok(bytes)
}
