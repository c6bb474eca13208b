//! The line `build`, which retains what is to be retained, and shows a fingerprint of it.

ghost use Rattle.std.specs.Prelude.{◌≡◌, ◌<◌, ◌≤◌, ◌+◌, ◌^◌, ℕ, List, length, map, IfOk, OnOk, OnErr, IfSome, is_some, ◌++◌, []};
ghost use Rattle.std.specs.Fmt.{decimal};
ghost use Rattle.fingerprint_norms.specs.Meaning.{input_of};
ghost use Rattle.vfs_model.specs.State as state;
ghost use Rattle.vfs_model.specs.Fingerprint as fingerprints;
ghost use Rattle.scan_walk.specs.Scans.{running_at};
ghost use Rattle.script_report.specs.Stages.{Stage, Whole, Asks, Reads};
ghost use Rattle.script_report.specs.Lines as report;
ghost use Rattle.vfs_machine.specs.Called.{spent};
ghost use Rattle.script_runs.specs.Printing.{SpendsNone};
ghost use Rattle.script_runs.specs.Making.{Leads, Stops};
ghost use Rattle.script_runs.specs.Taking.{counts_of, root_end, inputs_end};

use crate::replay::{read_all, scan_digests, settle};
use crate::report::{numbered, put_number, word};
use crate::workers::{Front, Workers};
use case_order::NoMemory;
use fingerprint_norms::Input;
use merkle_hash::Digest;
use snapshot_hierarchy::Retain;
use std::alloc::Global;
use std::thread::Threads;
use version_hierarchy::Versions;
use vfs_machine::{Answer, Began, Machine, Printed};
use vfs_path::Path;
use world_model::Tree;

/// What a build counts: the roots that were retained, those that were not, and the locations that
/// were read for these.
#[derive(Clone, Copy)]
pub(crate) struct Counts {
    hits: u64,
    misses: u64,
    reads: u64,
}

impl Counts {
    /// The counts with one more root that was retained.
    fn with_hit(self) -> Counts
        requires { self.hits + self.misses < 64 }
        ensures { result ≡ record { hits = self.hits + 1; misses = self.misses; reads = self.reads } }
    {
        Counts {
            hits: self.hits + 1,
            misses: self.misses,
            reads: self.reads,
        }
    }

    /// The counts with one more root that was not, and for which so many locations were read.
    ///
    /// The only error is want of memory: more locations were read than any memory holds.
    fn with_miss(self, reads: u64) -> Result<Counts, NoMemory>
        requires { self.hits + self.misses < 64 }
        ensures { IfOk result (λ counts.
            counts ≡ record { hits = self.hits; misses = self.misses + 1; reads = self.reads + reads }) }
    {
        let Some(reads) = self.reads.checked_add(reads) else {
            return Err(NoMemory);
        };
        Ok(Counts {
            hits: self.hits,
            misses: self.misses + 1,
            reads,
        })
    }
}

/// Reads the scan that was just begun to its end, publishes it, and tells how many locations were
/// read; where a look failed, the scan is dropped, and none is told.
fn publish_begun<H: Threads + Sync, T: Tree, R: Retain, V: Versions>(
    workers: &Workers<H>,
    alloc: Global,
    machine: &mut Machine<T, R, V>,
    caller: u64,
) -> Result<Option<u64>, NoMemory>
    requires caller { caller < 16 }
    ensures done { IfOk result (λ read. (k : report.Counts) (more : report.Counts → Stage) → Leads V.version V.count machine.old machine.new caller
        (Reads caller 0 (report.root_read caller k more)) (root_end k more read)) }
    ensures broken { OnErr result ((k : report.Counts) (more : report.Counts → Stage) → Stops V.version V.count machine.old machine.new caller
        (Reads caller 0 (report.root_read caller k more))) }
    ensures room { SpendsNone V.count machine.old machine.new }
{
    let mut front = Front::new(alloc);
    let Some(reads) = read_all(workers, alloc, machine, caller, &mut front)? else {
        workers.give_up(front);
        machine.drop_scan(caller);
        return Ok(None);
    };
    let digests = scan_digests(workers, alloc, machine, caller, front)?;
    match machine.publish(caller, digests.as_slice()) {
        Answer::NoMemory => Err(NoMemory),
        _ => Ok(Some(reads)),
    }
}

/// Scans the root whole, and tells how many locations were read; none where a look failed, and the
/// scan is closed then too.
fn scan_root<H: Threads + Sync, T: Tree, R: Retain, V: Versions>(
    workers: &Workers<H>,
    alloc: Global,
    machine: &mut Machine<T, R, V>,
    caller: u64,
    root: &Path,
) -> Result<Option<u64>, NoMemory>
    requires caller { caller < 16 }
    ensures done { IfOk result (λ read. (k : report.Counts) (more : report.Counts → Stage) → Leads V.version V.count machine.old machine.new caller
        (Asks (state.CallBegin caller root.now) (λ reply. Reads caller 0 (report.root_read caller k more))) (root_end k more read)) }
    ensures broken { OnErr result ((k : report.Counts) (more : report.Counts → Stage) → Stops V.version V.count machine.old machine.new caller
        (Asks (state.CallBegin caller root.now) (λ reply. Reads caller 0 (report.root_read caller k more)))) }
    ensures room { SpendsNone V.count machine.old machine.new }
{
    match machine.begin(caller, root) {
        Began::NoMemory => Err(NoMemory),
        _ => publish_begun(workers, alloc, machine, caller),
    }
}

/// Takes an input: where its root is not retained, it is scanned. None where a look failed.
fn take_input<H: Threads + Sync, T: Tree, R: Retain, V: Versions>(
    workers: &Workers<H>,
    alloc: Global,
    machine: &mut Machine<T, R, V>,
    caller: u64,
    input: &Input,
    counts: Counts,
) -> Result<Option<Counts>, NoMemory>
    requires caller { caller < 16 }
    requires few { counts.hits + counts.misses < 64 }
    ensures done { IfOk result (λ taken. (more : report.Counts → Stage) → Leads V.version V.count machine.old machine.new caller
        (Asks (state.CallFind (input_of input.now).root) (report.root_found caller (input_of input.now).root (counts_of counts) more)) (inputs_end more taken)) }
    ensures broken { OnErr result ((more : report.Counts → Stage) → Stops V.version V.count machine.old machine.new caller
        (Asks (state.CallFind (input_of input.now).root) (report.root_found caller (input_of input.now).root (counts_of counts) more))) }
    ensures room { SpendsNone V.count machine.old machine.new }
    ensures counted { IfOk result (λ taken. IfSome taken (λ after.
        after.hits + after.misses ≡ counts.hits + counts.misses + 1)) }
{
    if machine.find(&input.root).is_some() {
        return Ok(Some(counts.with_hit()));
    }
    match scan_root(workers, alloc, machine, caller, &input.root)? {
        None => Ok(None),
        Some(reads) => Ok(Some(counts.with_miss(reads)?)),
    }
}

/// Takes the inputs in order, and counts what came of them; none where a look failed.
fn take_inputs<H: Threads + Sync, T: Tree, R: Retain, V: Versions>(
    workers: &Workers<H>,
    alloc: Global,
    machine: &mut Machine<T, R, V>,
    caller: u64,
    inputs: &[Input],
) -> Result<Option<Counts>, NoMemory>
    requires caller { caller < 16 }
    requires few { length inputs.now ≤ 64 }
    ensures done { IfOk result (λ taken. (all : List fingerprints.Input) → Leads V.version V.count machine.old machine.new caller
        (report.taking caller all (map input_of inputs.now) report.no_counts) (inputs_end (report.taking caller all []) taken)) }
    ensures broken { OnErr result ((all : List fingerprints.Input) → Stops V.version V.count machine.old machine.new caller
        (report.taking caller all (map input_of inputs.now) report.no_counts)) }
    ensures room { SpendsNone V.count machine.old machine.new }
{
    let mut counts = Counts {
        hits: 0,
        misses: 0,
        reads: 0,
    };
    for input in inputs {
        match take_input(workers, alloc, machine, caller, input, counts)? {
            None => return Ok(None),
            Some(more) => counts = more,
        }
    }
    Ok(Some(counts))
}

/// A word and a count.
fn put_count(alloc: Global, text: &mut Vec<u8>, word: &[u8], count: u64) -> Result<(), NoMemory>
    ensures { OnOk result (text.new.items ≡ text.old.items ++ word.now ++ decimal count) }
{
    text.extend_from_slice(word)?;
    put_number(alloc, text, count)
}

fn counted_text(alloc: Global, digest: Digest, counts: Counts) -> Result<Vec<u8>, NoMemory>
    ensures { IfOk result (λ text.
        text.items ≡ report.build_text (counts_of counts) digest) }
{
    let mut text = Vec::from_slice(alloc, b"build ")?;
    text.extend_from_slice(&digest.to_hex())?;
    put_count(alloc, &mut text, b" hits ", counts.hits)?;
    put_count(alloc, &mut text, b" misses ", counts.misses)?;
    put_count(alloc, &mut text, b" reads ", counts.reads)?;
    Ok(text)
}

/// Asks for the fingerprint of the inputs of a build, and tells it with the counts.
fn fingerprint_built<T: Tree, R: Retain, V: Versions>(
    alloc: Global,
    machine: &mut Machine<T, R, V>,
    inputs: &[Input],
    counts: Counts,
) -> Result<Vec<u8>, NoMemory>
    requires some { 1 ≤ length inputs.now }
    requires few { length inputs.now ≤ 64 }
    ensures done { IfOk result (λ text. (caller : ℕ) → Leads V.version V.count machine.old machine.new caller
        (report.taking caller (map input_of inputs.now) [] (counts_of counts)) (Whole text.items)) }
    ensures broken { OnErr result ((caller : ℕ) → Stops V.version V.count machine.old machine.new caller
        (report.taking caller (map input_of inputs.now) [] (counts_of counts))) }
    ensures room { SpendsNone V.count machine.old machine.new }
{
    match machine.fingerprint(inputs) {
        Printed::Is(digest) => counted_text(alloc, digest, counts),
        Printed::Unknown(input) => numbered(alloc, b"unknown ", input),
        Printed::NoMemory => Err(NoMemory),
    }
}

/// Delivers all that is pending, retains what is not retained of the inputs, and shows their
/// fingerprint; nothing of this where the caller's scan is in progress.
pub(crate) fn build_line<H: Threads + Sync, T: Tree, R: Retain, V: Versions + Drop>(
    workers: &Workers<H>,
    alloc: Global,
    machine: &mut Machine<T, R, V>,
    caller: u64,
    inputs: &[Input],
) -> Result<Vec<u8>, NoMemory>
    requires caller { caller < 16 }
    requires room { spent V.count machine.old < 2 ^ 62 }
    requires some { 1 ≤ length inputs.now }
    requires few { length inputs.now ≤ 64 }
    ensures done { IfOk result (λ text. Leads V.version V.count machine.old machine.new caller
        (report.building caller (is_some (running_at machine.old.scans caller)) (map input_of inputs.now)) (Whole text.items)) }
    ensures broken { OnErr result (Stops V.version V.count machine.old machine.new caller
        (report.building caller (is_some (running_at machine.old.scans caller)) (map input_of inputs.now))) }
    ensures room { SpendsNone V.count machine.old machine.new }
{
    if machine.scanning(caller) {
        return word(alloc, b"open");
    }
    // The machine's word that it stands for a state.
    let _case = machine.case();
    let _delivered = settle(machine)?;
    match take_inputs(workers, alloc, machine, caller, inputs)? {
        None => word(alloc, b"fault"),
        Some(counts) => fingerprint_built(alloc, machine, inputs, counts),
    }
}
