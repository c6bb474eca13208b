//! The digests of contents, on several threads: [`digests`] of contents that are all there, and
//! [`Ahead`] of those that come one after the other.
//!
//! What the threads give is put together in the order of the contents, so that their number is never
//! seen in an answer.
#![tactic(auto)]

ghost use Rattle.std.specs.Prelude.{◌≡◌, ◌≤◌, IfOk, map};
ghost use Rattle.vfs_model.specs.World.{digest_of_bytes};

use case_order::NoMemory;
use merkle_hash::{Bytes, Digest, file_digest};
use std::alloc::Global;
use std::thread;
use std::thread::Threads;

mod ahead;
#[cfg(test)]
mod tests;

pub use ahead::Ahead;

/// The digests of a run of contents, one after the other.
fn digests_in_turn(alloc: Global, contents: &[Bytes]) -> Result<Vec<Digest>, NoMemory>
    ensures { IfOk result (λ digests. digests.items ≡ map digest_of_bytes contents.now) }
{
    let mut digests = Vec::new(alloc);
    for bytes in contents {
        digests.push(file_digest(bytes.as_slice()))?;
    }
    Ok(digests)
}

/// The MD5 (RFC 1321) of each content, in the order of the contents, hashed by 1 to 16 workers.
///
/// The contents are cut into at most as many runs as there are workers, each of equally many
/// contents but for the last, and each run is hashed by a worker of its own. The caller's thread is
/// one of the workers, so that one worker starts no thread; and where no thread can be made, the
/// runs are hashed one after the other. How long the contents are is not looked at: the worker with
/// the longest takes the most time, and a single content is hashed by one worker alone.
///
/// Returns when all workers have ended. The only error is want of memory. How the contents are cut
/// is this project's own.
pub fn digests<R: Threads + Sync>(
    rt: &R,
    alloc: Global,
    contents: &[Bytes],
    workers: u64,
) -> Result<Vec<Digest>, NoMemory>
    requires some { 1 ≤ workers }
    requires few { workers ≤ 16 }
    ensures { IfOk result (λ digests. digests.items ≡ map digest_of_bytes contents.now) }
{
    let size = contents.len().div_ceil(workers as usize).max(1);
    let runs = thread::map_chunks(
        rt,
        alloc,
        contents,
        size,
        &|_, run| digests_in_turn(alloc, run),
    )?;
    let mut all = Vec::new(alloc);
    for run in runs.as_slice() {
        match run {
            Ok(digests) => all.extend_from_slice(digests.as_slice())?,
            Err(NoMemory) => return Err(NoMemory),
        }
    }
    Ok(all)
}
