//! What is retained at the roots of inputs.

ghost use Rattle.std.specs.Prelude.{◌≡◌, IfOk, is_some, length, map};
ghost use Rattle.std.specs.List.{AllByRecursion as Each};
ghost use Rattle.vfs_model.specs.Paths.{IsShort, place};
ghost use Rattle.vfs_model.specs.Retained.{part_of};
ghost use Rattle.vfs_model.specs.State.{seen_inputs};
ghost use Rattle.vfs_machine.specs.Roots.{unknown_of};
ghost use Rattle.fingerprint_norms.specs.Meaning.{input_of, seen_of};

use case_order::{NoMemory, Share};
use fingerprint_norms::{Input, Seen};
use publish_core::Vfs;
use snapshot_hierarchy::Retain;
use std::alloc::Global;
use version_hierarchy::Versions;
use vfs_path::Path;

/// The word of the roots that they have at most 64 names.
pub(crate) fn ask_roots(inputs: &[Input])
    ensures { Each (λ i. IsShort i.root) (map input_of inputs.now) }
{
    for input in inputs {
        let _short = input.root.len();
    }
}

/// Whether something is retained at the path; takes no memory.
fn is_retained<R: Retain, V: Versions>(vfs: &Vfs<R, V>, path: &Path) -> bool
    ensures { result ≡ is_some (part_of vfs.now.case vfs.now.retained.pairs (place vfs.now.case path.now)) }
{
    vfs.find(path).is_some()
}

/// The number of the first input whose root is not retained, counted from 0; takes no memory.
pub(crate) fn first_unknown<R: Retain, V: Versions>(
    vfs: &Vfs<R, V>,
    inputs: &[Input],
) -> Option<u64>
    ensures { result ≡ unknown_of (length (seen_inputs vfs.now.case vfs.now.retained.pairs (map input_of inputs.now))) (length inputs.now) }
{
    let number = inputs
        .iter()
        .position(|input| !is_retained(vfs, &input.root))?;
    Some(number as u64)
}

/// The inputs with what is retained at their roots, up to the first whose root is not retained.
///
/// The only error is want of memory.
pub(crate) fn seen_roots<R: Retain, V: Versions>(
    alloc: Global,
    vfs: &Vfs<R, V>,
    inputs: &[Input],
) -> Result<Vec<Seen>, NoMemory>
    ensures { IfOk result (λ seen. map seen_of seen.items
        ≡ seen_inputs vfs.now.case vfs.now.retained.pairs (map input_of inputs.now)) }
{
    let mut seen = Vec::new(alloc);
    for input in inputs {
        let Some(snapshot) = vfs.part(&input.root)? else {
            break;
        };
        let input = input.share()?;
        seen.push(Seen { input, snapshot })?;
    }
    Ok(seen)
}
