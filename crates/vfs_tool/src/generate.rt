//! `gen N`: a script of N directories is run in memory, and one line sums up what it prints.

ghost use Rattle.std.specs.Prelude.{◌≡◌, ◌≤◌, ◌<◌, ◌^◌, ℕ, List, length, IfOk};
ghost use Rattle.std.specs.List.{concat, AllByRecursion as Each};
ghost use Rattle.script_text.specs.declared.cause.BadLine.{BadLine};
ghost use Rattle.script_runs.specs.Printing.{CanRun, IsQueue, IsWorkers};
ghost use Rattle.script_report.specs.Reports.{IsReport};
ghost use Rattle.vfs_tool.specs.Gen.{IsSummary, GenEnds};

use crate::run::run_over;
use crate::status::Status;
use case_order::NoMemory;
use mem_tree::MemTree;
use script_summary::{generated_script, summary_line};
use script_text::Script;
use std::alloc::Global;
use std::thread::Threads;
use vfs_io::{Failed, MemSink, Sink};

/// A sink in memory with what the script prints, which is run over an empty tree.
///
/// The only error is want of memory: no call of the sink is to fail otherwise.
fn replayed<H: Threads + Sync>(rt: &H, alloc: Global, script: &Script) -> Result<MemSink, NoMemory>
    requires queue { IsQueue script.now.settings.queue }
    requires workers { IsWorkers script.now.settings.workers }
    requires lines { Each CanRun script.now.lines }
    requires few { length script.now.lines < 2 ^ 61 }
    ensures { IfOk result (λ sink. (texts : List (List ℕ)) × IsReport script.now texts
        × (sink.bytes ≡ concat texts)) }
{
    let mut sink = MemSink::new(alloc, Vec::new(alloc));
    let empty = MemTree::new(alloc, script.settings.case);
    match run_over(rt, alloc, script, empty, &mut sink) {
        (Ok(()), _) => Ok(sink),
        (Err(_), _) => Err(NoMemory),
    }
}

/// The line that sums up what the script of so many directories prints, with its line end.
///
/// The only error is want of memory.
fn generated_summary<H: Threads + Sync>(
    rt: &H,
    alloc: Global,
    directories: u64,
) -> Result<Vec<u8>, NoMemory>
    requires { directories ≤ 1000 }
    ensures { IfOk result (λ line. IsSummary directories line.items) }
{
    let script = generated_script(alloc, directories)?;
    let report = replayed(rt, alloc, &script)?;
    summary_line(alloc, report.written())
}

/// Puts the line that sums up what the script of so many directories prints, by one call.
///
/// The status is `Done`, `WriteFault` only where the sink's count of faults rose in this call, or
/// `NoMemory`.
pub(crate) fn run_gen<H: Threads + Sync, K: Sink>(
    rt: &H,
    alloc: Global,
    directories: u64,
    sink: &mut K,
) -> Status
    requires { directories ≤ 1000 }
    ensures ends { GenEnds directories (K.told sink.old) (K.told sink.new) result }
    ensures usage { result ≡ Status.Usage → ⊥ }
    ensures bad { (b : BadLine) → result ≡ Status.BadScript b → ⊥ }
    ensures read_fault { result ≡ Status.ReadFault → ⊥ }
    ensures too_long { result ≡ Status.TooLong → ⊥ }
    ensures later { (K.told sink.old).faults ≤ (K.told sink.new).faults }
{
    let Ok(line) = generated_summary(rt, alloc, directories) else {
        return Status::NoMemory;
    };
    match sink.put(line.as_slice()) {
        Ok(()) => Status::Done,
        Err(Failed) => Status::WriteFault,
    }
}
