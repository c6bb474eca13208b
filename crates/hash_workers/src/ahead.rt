//! Contents that are hashed while more of them come.

ghost use Rattle.std.specs.Prelude.{◌≡◌, ◌≤◌, ◌++◌, [], IfOk, length, map};
ghost use Rattle.vfs_model.specs.World.{digest_of_bytes};
ghost use Rattle.hash_workers.specs.Ahead.{promised};

use crate::digests_in_turn;
use case_order::NoMemory;
use merkle_hash::{Bytes, Digest};
use std::alloc::Global;
use std::collections::VecDeque;
use std::marker::Model;
use std::snapshot::Snapshot;
use std::thread;
use std::thread::{Promise, PromisedHandle, Threads};

/// The digests of a batch, in the order of its contents.
#[derive(Drop)]
struct DigestsOf(Snapshot<Vec<Bytes>>);

impl Promise<Result<Vec<Digest>, NoMemory>> for DigestsOf {
    ghost kept_by = { λ p r. IfOk r (λ digests. digests.items ≡ map digest_of_bytes p.0.value.items) };
}

/// A thread that hashes a batch.
type Hashing = PromisedHandle<Result<Vec<Digest>, NoMemory>, DigestsOf>;

/// Contents that are hashed on threads of their own while more of them come.
///
/// Contracts see the digests of what was handed over so far, in that order. Where it is dropped, no
/// thread is waited for: each runs on to its end. This way of handing over is this project's own.
#[derive(Drop)]
pub struct Ahead {
    /// Of the batches whose threads were waited for.
    digests: Vec<Digest>,
    /// The threads of the batches behind these, in the order in which they were started.
    hashing: VecDeque<Hashing>,
}

impl Model for Ahead {
    ghost use Rattle.std.specs.Prelude.{List, ℕ, ◌++◌};
    ghost use Rattle.hash_workers.specs.Ahead.{promised};

    ghost Value = { List (List ℕ) };

    ghost view = { λ a. a.digests.items ++ promised a.hashing.items };
}

impl Ahead {
    /// Nothing was handed over so far.
    pub fn new(alloc: Global) -> Ahead
        ensures { result ≡ [] }
    {
        Ahead {
            digests: Vec::new(alloc),
            hashing: VecDeque::new(alloc),
        }
    }

    /// Hands over a batch of contents, which a thread of its own hashes one after the other.
    ///
    /// Where as many threads as there are workers hash already, those that were started first are
    /// waited for, so that never more threads than workers hash at a time; no workers count as one.
    /// Where no thread can be made, all threads are waited for, and the caller's own hashes the
    /// batch. A batch may be empty.
    ///
    /// The only error is want of memory, of this call's or of a thread's that was waited for. After
    /// it digests may be missing, so that nothing more should be handed over, and none be asked for.
    pub fn hash<R: Threads>(
        &mut self,
        rt: &R,
        alloc: Global,
        batch: Vec<Bytes>,
        workers: u64,
    ) -> Result<(), NoMemory>
        ensures { IfOk result (λ _. self.new ≡ self.old ++ map digest_of_bytes batch.items) }
    {
        // One thread less, so that there is room for the new one.
        wait_until(
            rt,
            &mut self.digests,
            &mut self.hashing,
            (workers as usize).saturating_sub(1),
        )?;
        let promise = DigestsOf(Snapshot::of(&batch));
        match thread::spawn_with(
            rt,
            promise,
            move || digests_in_turn(alloc, batch.as_slice()),
        ) {
            Ok(thread) => self.hashing.push_back(thread)?,
            Err(refused) => {
                wait_until(rt, &mut self.digests, &mut self.hashing, 0)?;
                let digests = (refused.value)()?;
                self.digests.extend_from_slice(digests.as_slice())?;
            }
        }
        Ok(())
    }

    /// The digests of all that was handed over, in that order. Waits for all threads.
    ///
    /// The only error is want of memory, of this call's or of a thread's.
    pub fn into_digests<R: Threads>(self, rt: &R) -> Result<Vec<Digest>, NoMemory>
        ensures { IfOk result (λ digests. digests.items ≡ self) }
    {
        let Ahead {
            mut digests,
            mut hashing,
        } = self;
        wait_until(rt, &mut digests, &mut hashing, 0)?;
        Ok(digests)
    }
}

/// Waits for the threads that were started first, until at most so many hash, and puts their
/// digests behind the others.
fn wait_until<R: Threads>(
    rt: &R,
    digests: &mut Vec<Digest>,
    hashing: &mut VecDeque<Hashing>,
    most: usize,
) -> Result<(), NoMemory>
    ensures same { IfOk result (λ _. digests.new.items ++ promised hashing.new.items ≡ digests.old.items ++ promised hashing.old.items) }
    ensures few { IfOk result (λ _. length hashing.new.items ≤ most) }
{
    while most < hashing.len() {
        let Some(first) = hashing.pop_front() else {
            unreachable!()
        };
        let found = first.join(rt)?;
        digests.extend_from_slice(found.as_slice())?;
    }
    Ok(())
}
