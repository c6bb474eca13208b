//! Output lines, put one by one as the lines of a script are done.

ghost use Rattle.std.specs.Prelude.{◌≡◌, ◌≤◌, [], ◌∷◌, length, IfErr, OnOk};
ghost use Rattle.std.specs.List.{AllByRecursion as Each};
ghost use Rattle.script_text.specs.Writing.{ended};
ghost use Rattle.script_runs.specs.Printing.{CanRun, HasRoom, SpendsTwo, IsWorkers};
ghost use Rattle.script_runs.specs.Output.{PutsEach, FailsIn};
ghost use Rattle.script_runs.specs.Running.{RunsLines, BreaksLines};
ghost use Rattle.script_runs.specs.Opening.{OpensLines, BreaksOpening};

use crate::opening::open;
use crate::replay::run_line;
use crate::workers::Workers;
use script_text::{Line, Opening};
use snapshot_hierarchy::Retain;
use std::alloc::Global;
use std::thread::Threads;
use version_hierarchy::Versions;
use vfs_io::{Failed, Sink};
use vfs_machine::Machine;
use world_model::Tree;

/// Why a report was not put to its end.
#[derive(Clone, Copy, Debug, PartialEq, Eq)]
pub enum Break {
    /// The sink failed.
    Fault,
    /// Want of memory.
    NoMemory,
}

/// Puts the text as a line of its own, by one put.
fn put_text<K: Sink>(mut text: Vec<u8>, sink: &mut K) -> Result<(), Break>
    ensures ok { OnOk result
        (PutsEach (K.told sink.old) (K.told sink.new) (ended text.items ∷ [])) }
    ensures err { IfErr result (λ e.
        FailsIn (K.told sink.old) (K.told sink.new) (ended text.items) e) }
    ensures later { (K.told sink.old).faults ≤ (K.told sink.new).faults }
{
    if text.push(b'\n').is_err() {
        return Err(Break::NoMemory);
    }
    match sink.put(text.as_slice()) {
        Ok(()) => Ok(()),
        Err(Failed) => Err(Break::Fault),
    }
}

/// Does what an opening line asks for, and puts its output line.
fn put_opening<T: Tree, K: Sink>(
    alloc: Global,
    tree: &mut T,
    takes_case: bool,
    opening: &Opening,
    sink: &mut K,
) -> Result<(), Break>
    ensures ok { OnOk result (OpensLines (T.told tree.old) (T.told tree.new) takes_case (opening.now ∷ []) (K.told sink.old) (K.told sink.new)) }
    ensures err { IfErr result (λ e. BreaksOpening (T.told tree.old) (T.told tree.new) takes_case (opening.now ∷ []) (K.told sink.old) (K.told sink.new) e) }
    ensures later { (K.told sink.old).faults ≤ (K.told sink.new).faults }
{
    let Ok(text) = open(alloc, tree, takes_case, opening) else {
        return Err(Break::NoMemory);
    };
    put_text(text, sink)
}

/// Does what the opening lines ask for, in order, and puts the output line of each. The tree was asked
/// before whether it takes the case of the script, and this is what it answered.
///
/// `Fault` comes only where the sink's count of faults rose in this call; the only other error is
/// want of memory.
pub fn put_openings<T: Tree, K: Sink>(
    alloc: Global,
    tree: &mut T,
    takes_case: bool,
    openings: &[Opening],
    sink: &mut K,
) -> Result<(), Break>
    ensures ok { OnOk result (OpensLines (T.told tree.old) (T.told tree.new) takes_case openings.now (K.told sink.old) (K.told sink.new)) }
    ensures err { IfErr result (λ e. BreaksOpening (T.told tree.old) (T.told tree.new) takes_case openings.now (K.told sink.old) (K.told sink.new) e) }
    ensures later { (K.told sink.old).faults ≤ (K.told sink.new).faults }
{
    for opening in openings {
        put_opening(alloc, tree, takes_case, opening, sink)?;
    }
    Ok(())
}

/// Runs a command line, and puts its output line.
fn put_line<H: Threads + Sync, T: Tree, R: Retain, V: Versions + Drop, K: Sink>(
    workers: &Workers<H>,
    alloc: Global,
    machine: &mut Machine<T, R, V>,
    line: &Line,
    sink: &mut K,
) -> Result<(), Break>
    requires line { CanRun line.now }
    requires room { HasRoom V.count machine.old 1 }
    ensures ok { OnOk result (RunsLines V.version V.count machine.old machine.new (line.now ∷ []) (K.told sink.old) (K.told sink.new)) }
    ensures err { IfErr result (λ e. BreaksLines V.version V.count machine.old machine.new (line.now ∷ []) (K.told sink.old) (K.told sink.new) e) }
    ensures room { OnOk result (SpendsTwo V.count machine.old machine.new) }
    ensures later { (K.told sink.old).faults ≤ (K.told sink.new).faults }
{
    let Ok(text) = run_line(workers, alloc, machine, line) else {
        return Err(Break::NoMemory);
    };
    put_text(text, sink)
}

/// Runs the command lines in order, and puts the output line of each. What a line publishes is
/// hashed by 1 to 16 workers, on whose number no output depends.
///
/// Each line makes the calls that it asks for, in order, and what is put is the text that their replies
/// make. `Fault` comes only where the sink's count of faults rose in this call; the only other error is
/// want of memory, after which nothing of the next line was put.
pub fn run_lines<H: Threads + Sync, T: Tree, R: Retain, V: Versions + Drop, K: Sink>(
    rt: &H,
    alloc: Global,
    workers: u64,
    machine: &mut Machine<T, R, V>,
    lines: &[Line],
    sink: &mut K,
) -> Result<(), Break>
    requires workers { IsWorkers workers }
    requires lines { Each CanRun lines.now }
    requires room { HasRoom V.count machine.old (length lines.now) }
    ensures ok { OnOk result (RunsLines V.version V.count machine.old machine.new lines.now (K.told sink.old) (K.told sink.new)) }
    ensures err { IfErr result (λ e. BreaksLines V.version V.count machine.old machine.new lines.now (K.told sink.old) (K.told sink.new) e) }
    ensures later { (K.told sink.old).faults ≤ (K.told sink.new).faults }
{
    let workers = Workers::new(rt, workers);
    for line in lines {
        put_line(&workers, alloc, machine, line, sink)?;
    }
    Ok(())
}
