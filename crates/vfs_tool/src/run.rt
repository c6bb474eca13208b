//! The program as a call.

ghost use Rattle.std.specs.Prelude.{◌≡◌, ◌↔◌, ◌⊎◌, ◌+◌, ◌^◌, ◌<◌, ◌≤◌, ℕ, List, Some, length, IfErr, OnOk};
ghost use Rattle.std.specs.List.{AllByRecursion as Each};
ghost use Rattle.script_text.specs.declared.cause.BadLine.{BadLine};
ghost use Rattle.script_text.specs.declared.script.TextKind.TheVariants.{Replay};
ghost use Rattle.script_reader.specs.Faults.{FirstBad};
ghost use Rattle.vfs_model.specs.Faults.{Rose};
ghost use Rattle.vfs_tool.specs.Input.{TakesNothing, TakesAll, TakesSome, AsksAtMost, limit};
ghost use Rattle.script_runs.specs.Output.{PutsNothing};
ghost use Rattle.script_runs.specs.Printing.{CanRun, IsQueue, IsWorkers};
ghost use Rattle.vfs_tool.specs.declared.forms.Form.{Form};
ghost use Rattle.vfs_tool.specs.Forms.{IsReplay, IsFolder, IsGen, IsForm};
ghost use Rattle.vfs_tool.specs.Gen.{GenEnds};
ghost use Rattle.vfs_tool.specs.Run.{Reports, ReportsFront, Answers, IsUnrun};
ghost use Rattle.vfs_tool.specs.Scripts.{RunsCommands, BreaksCommands};
ghost use Rattle.vfs_tool.specs.Folder.{PutsOver, BreaksOver, PutsTextOver, BreaksText, ReportsOver, BreaksReport};

use crate::forms::{Form, form_of};
use crate::generate::run_gen;
use crate::input::{Stop, take_all};
use crate::status::Status;
use case_order::Case;
use mem_tree::MemTree;
use script_reader::{Line, Script, ScriptError, read_script};
use script_runs::{Break, put_openings, run_lines};
use snapshot_hierarchy::FlatRetain;
use std::alloc::Global;
use std::thread::Threads;
use version_hierarchy::TreeVersions;
use vfs_io::{Sink, Source};
use vfs_machine::Machine;
use world_model::{Settings, Tree};

/// Runs the command lines over the tree, with nothing pending and nothing retained, and gives the tree
/// back. Names compare by the case that the tree has.
fn run_commands<H: Threads + Sync, T: Tree, K: Sink>(
    rt: &H,
    alloc: Global,
    settings: Settings,
    tree: T,
    lines: &[Line],
    sink: &mut K,
) -> (Result<(), Break>, T)
    requires queue { IsQueue settings.queue }
    requires workers { IsWorkers settings.workers }
    requires lines { Each CanRun lines.now }
    requires few { length lines.now < 2 ^ 61 }
    ensures ok { OnOk result.0 (RunsCommands settings.queue (T.told tree) (T.told result.1)
        lines.now (K.told sink.old) (K.told sink.new)) }
    ensures err { IfErr result.0 (BreaksCommands settings.queue (T.told tree) (T.told result.1)
        lines.now (K.told sink.old) (K.told sink.new)) }
    ensures later { (K.told sink.old).faults ≤ (K.told sink.new).faults }
{
    let case = tree.case();
    let made = Machine::make(
        alloc,
        tree,
        FlatRetain::new(alloc, case),
        TreeVersions::new(alloc, case),
        settings.queue,
    );
    let mut machine = match made {
        Ok(machine) => machine,
        Err((tree, _, _)) => return (Err(Break::NoMemory), tree),
    };
    let ended = run_lines(rt, alloc, settings.workers, &mut machine, lines, sink);
    (ended, machine.into_tree())
}

/// Runs the script over the tree, and gives the tree back. The tree is asked once, before the first
/// line, to take the script's case; where it does not, names compare by its own.
pub(crate) fn run_over<H: Threads + Sync, T: Tree, K: Sink>(
    rt: &H,
    alloc: Global,
    script: &Script,
    mut tree: T,
    sink: &mut K,
) -> (Result<(), Break>, T)
    requires queue { IsQueue script.now.settings.queue }
    requires workers { IsWorkers script.now.settings.workers }
    requires lines { Each CanRun script.now.lines }
    requires few { length script.now.lines < 2 ^ 61 }
    ensures ok { OnOk result.0 (PutsOver T.takes_no_edits (T.told tree) (T.told result.1)
        script.now (K.told sink.old) (K.told sink.new)) }
    ensures err { IfErr result.0 (BreaksOver T.takes_no_edits (T.told tree) (T.told result.1)
        script.now (K.told sink.old) (K.told sink.new)) }
    ensures later { (K.told sink.old).faults ≤ (K.told sink.new).faults }
{
    let settings = script.settings;
    let takes_case = tree.set_case(settings.case);
    let opened = put_openings(
        alloc,
        &mut tree,
        takes_case,
        script.opening.as_slice(),
        sink,
    );
    if let Err(stopped) = opened {
        return (Err(stopped), tree);
    }
    run_commands(rt, alloc, settings, tree, script.lines.as_slice(), sink)
}

/// Runs the script of a text over the tree, and gives the tree back.
fn run_text<H: Threads + Sync, T: Tree, K: Sink>(
    rt: &H,
    alloc: Global,
    text: &[u8],
    tree: T,
    sink: &mut K,
) -> (Status, T)
    requires { length text.now ≤ limit }
    ensures done { result.0 ≡ Status.Done →
        PutsTextOver T.takes_no_edits (T.told tree) (T.told result.1)
        text.now (K.told sink.old) (K.told sink.new) }
    ensures bad { (b : BadLine) → result.0 ≡ Status.BadScript b →
        FirstBad Replay text.now b × PutsNothing (K.told sink.old) (K.told sink.new) }
    ensures faulted { result.0 ≡ Status.WriteFault →
        Rose (K.told sink.old).faults (K.told sink.new).faults }
    ensures write_fault { result.0 ≡ Status.WriteFault →
        BreaksText T.takes_no_edits (T.told tree) (T.told result.1)
        text.now (K.told sink.old) (K.told sink.new) Break.Fault }
    ensures no_memory { result.0 ≡ Status.NoMemory →
        (PutsNothing (K.told sink.old) (K.told sink.new) × (result.1 ≡ tree))
        ⊎ BreaksText T.takes_no_edits (T.told tree) (T.told result.1)
        text.now (K.told sink.old) (K.told sink.new) Break.NoMemory }
    ensures usage { result.0 ≡ Status.Usage → ⊥ }
    ensures read_fault { result.0 ≡ Status.ReadFault → ⊥ }
    ensures too_long { result.0 ≡ Status.TooLong → ⊥ }
    ensures unrun { IsUnrun result.0 → result.1 ≡ tree }
    ensures later { (K.told sink.old).faults ≤ (K.told sink.new).faults }
{
    match read_script(alloc, text) {
        Ok(script) => {
            let (ended, tree) = run_over(rt, alloc, &script, tree, sink);
            match ended {
                Ok(()) => (Status::Done, tree),
                Err(Break::Fault) => (Status::WriteFault, tree),
                Err(Break::NoMemory) => (Status::NoMemory, tree),
            }
        }
        Err(ScriptError::Bad(bad)) => (Status::BadScript(bad), tree),
        Err(ScriptError::NoMemory) => (Status::NoMemory, tree),
    }
}

/// Takes a script from the source, runs it over the tree, and gives the tree back.
fn run_input<H: Threads + Sync, S: Source, T: Tree, K: Sink>(
    rt: &H,
    alloc: Global,
    source: &mut S,
    tree: T,
    sink: &mut K,
) -> (Status, T)
    ensures done { result.0 ≡ Status.Done →
        ReportsOver T.takes_no_edits (T.told tree) (T.told result.1)
        (S.told source.old) (S.told source.new) (K.told sink.old) (K.told sink.new) }
    ensures bad { (b : BadLine) → result.0 ≡ Status.BadScript b →
        ((text : List ℕ) × TakesAll (S.told source.old).left (S.told source.new).left text
        × FirstBad Replay text b)
        × PutsNothing (K.told sink.old) (K.told sink.new) }
    ensures too_long { result.0 ≡ Status.TooLong →
        TakesSome (S.told source.old).left (S.told source.new).left (λ n. n ≡ limit + 1)
        × PutsNothing (K.told sink.old) (K.told sink.new) }
    ensures read_fault { result.0 ≡ Status.ReadFault →
        Rose (S.told source.old).faults (S.told source.new).faults
        × TakesSome (S.told source.old).left (S.told source.new).left (λ n. n ≤ limit)
        × PutsNothing (K.told sink.old) (K.told sink.new) }
    ensures faulted { result.0 ≡ Status.WriteFault →
        Rose (K.told sink.old).faults (K.told sink.new).faults }
    ensures write_fault { result.0 ≡ Status.WriteFault →
        BreaksReport T.takes_no_edits (T.told tree) (T.told result.1)
        (S.told source.old) (S.told source.new) (K.told sink.old) (K.told sink.new) Break.Fault }
    ensures no_memory { result.0 ≡ Status.NoMemory →
        TakesSome (S.told source.old).left (S.told source.new).left (λ n. n ≤ limit)
        × ((PutsNothing (K.told sink.old) (K.told sink.new) × (result.1 ≡ tree))
        ⊎ BreaksReport T.takes_no_edits (T.told tree) (T.told result.1)
        (S.told source.old) (S.told source.new) (K.told sink.old) (K.told sink.new) Break.NoMemory) }
    ensures complete { (S.told source.old).faults ≡ (S.told source.new).faults
        → (K.told sink.old).faults ≡ (K.told sink.new).faults
        → (input : List ℕ) → (S.told source.old).left ≡ Some input → length input ≤ limit
        → Answers input result.0 }
    ensures usage { result.0 ≡ Status.Usage → ⊥ }
    ensures unrun { IsUnrun result.0 → result.1 ≡ tree }
    ensures asked { AsksAtMost (S.told source.old) (S.told source.new) 65536 }
    ensures source_faults { (S.told source.old).faults ≤ (S.told source.new).faults }
    ensures sink_faults { (K.told sink.old).faults ≤ (K.told sink.new).faults }
{
    match take_all(alloc, source) {
        Ok(text) => run_text(rt, alloc, text.as_slice(), tree, sink),
        Err(Stop::Fault) => (Status::ReadFault, tree),
        Err(Stop::TooLong) => (Status::TooLong, tree),
        Err(Stop::NoMemory) => (Status::NoMemory, tree),
    }
}

/// Does what the words say, and gives the tree that is handed in back beside how it ended. `replay`
/// takes a script from the source, runs it over an empty tree, and puts an output line for each of its
/// opening and command lines. `folder DIR` does the same over the tree that is handed in, which the
/// caller opened at DIR. `gen N` makes a script of N directories, runs it over an empty tree, and puts
/// one line that sums up what the script prints; it leaves the source alone.
///
/// Takes at most 65,536 bytes at a time, and stops at the first byte past 16,777,216. Puts each
/// output line by a call of its own. Hashes what is published by as many workers as the script sets,
/// on threads of its own, and waits for nobody but these.
pub fn run<H: Threads + Sync, S: Source, K: Sink, T: Tree>(
    rt: &H,
    alloc: Global,
    words: &[String],
    source: &mut S,
    sink: &mut K,
    folder: T,
) -> (Status, T)
    // Words of no form: nothing is taken and nothing is put.
    ensures usage { (result.0 ≡ Status.Usage) ↔ ((form : Form) → IsForm form words.now → ⊥) }
    ensures unused { result.0 ≡ Status.Usage →
        TakesNothing (S.told source.old) (S.told source.new)
        × PutsNothing (K.told sink.old) (K.told sink.new) }

    // The input was taken to its end, it is the text of a script, and what was put is its report, each
    // line by a call of its own: the texts of a whole run of the script over the empty tree. Each state
    // of that run is sound, and each build in it shows the fingerprint of its inputs in the tree as it
    // stands then.
    ensures done { IsReplay words.now → result.0 ≡ Status.Done →
        Reports (S.told source.old) (S.told source.new) (K.told sink.old) (K.told sink.new) }

    // The input was taken to its end, it is the text of a script, and what was put is the texts of a
    // whole run of it over the tree that is handed in: each call that a line asks for was made, once, in
    // order, and what the tree answered in these calls is all that it answered. Where it tells its
    // content, each answer is the one that was due, or that of a look that failed; and its count of
    // faults rose by the looks that failed.
    ensures done_over { IsFolder words.now → result.0 ≡ Status.Done →
        ReportsOver T.takes_no_edits (T.told folder) (T.told result.1)
        (S.told source.old) (S.told source.new) (K.told sink.old) (K.told sink.new) }

    // The input was taken to its end, this is its first bad line, and nothing was put.
    ensures bad { (b : BadLine) → result.0 ≡ Status.BadScript b →
        ((text : List ℕ) × TakesAll (S.told source.old).left (S.told source.new).left text
        × FirstBad Replay text b)
        × PutsNothing (K.told sink.old) (K.told sink.new) }

    // One byte more than the limit was taken, and nothing was put.
    ensures too_long { result.0 ≡ Status.TooLong →
        TakesSome (S.told source.old).left (S.told source.new).left (λ n. n ≡ limit + 1)
        × PutsNothing (K.told sink.old) (K.told sink.new) }

    // The cause lies with the source, and nothing was put.
    ensures read_fault { result.0 ≡ Status.ReadFault →
        Rose (S.told source.old).faults (S.told source.new).faults
        × TakesSome (S.told source.old).left (S.told source.new).left (λ n. n ≤ limit)
        × PutsNothing (K.told sink.old) (K.told sink.new) }

    // The cause lies with the sink. The front of the report was put: whole lines, each by a call of its
    // own, and a front of the next. Over the tree that is handed in the same calls were made of it as
    // over any other, up to that line, and it comes back as they left it.
    ensures write_fault { IsReplay words.now → result.0 ≡ Status.WriteFault →
        Rose (K.told sink.old).faults (K.told sink.new).faults
        × ReportsFront (S.told source.old) (S.told source.new)
        (K.told sink.old) (K.told sink.new) Break.Fault }
    ensures write_fault_over { IsFolder words.now → result.0 ≡ Status.WriteFault →
        Rose (K.told sink.old).faults (K.told sink.new).faults
        × BreaksReport T.takes_no_edits (T.told folder) (T.told result.1)
        (S.told source.old) (S.told source.new) (K.told sink.old) (K.told sink.new) Break.Fault }

    // Nothing was put and the tree comes back as it was, or whole lines of the report were put, from the
    // first on, and of the next line nothing, though some of its calls may have been made.
    ensures no_memory { IsReplay words.now → result.0 ≡ Status.NoMemory →
        TakesSome (S.told source.old).left (S.told source.new).left (λ n. n ≤ limit)
        × (PutsNothing (K.told sink.old) (K.told sink.new)
        ⊎ ReportsFront (S.told source.old) (S.told source.new)
        (K.told sink.old) (K.told sink.new) Break.NoMemory) }
    ensures no_memory_over { IsFolder words.now → result.0 ≡ Status.NoMemory →
        TakesSome (S.told source.old).left (S.told source.new).left (λ n. n ≤ limit)
        × ((PutsNothing (K.told sink.old) (K.told sink.new) × (result.1 ≡ folder))
        ⊎ BreaksReport T.takes_no_edits (T.told folder) (T.told result.1)
        (S.told source.old) (S.told source.new) (K.told sink.old) (K.told sink.new) Break.NoMemory) }

    // A known input within the limit is answered by what it is, unless a fault of the source or the
    // sink comes or memory is wanting. A look that fails ends nothing.
    ensures complete { IsReplay words.now ⊎ IsFolder words.now
        → (S.told source.old).faults ≡ (S.told source.new).faults
        → (K.told sink.old).faults ≡ (K.told sink.new).faults
        → (input : List ℕ) → (S.told source.old).left ≡ Some input → length input ≤ limit
        → Answers input result.0 }

    // `gen N` puts one line, by one call, and that line is a function of N: it is put whole, unless the
    // sink fails or memory is wanting. However it ends, the source is as it was.
    ensures generated { (n : ℕ) → IsGen n words.now → GenEnds n (K.told sink.old) (K.told sink.new) result.0 }
    ensures untouched { (n : ℕ) → IsGen n words.now → source.new ≡ source.old }

    // The tree that is handed in comes back as it is, unless a script was run over it: then what was done
    // to it is told above.
    ensures other_words { (IsFolder words.now → ⊥) → result.1 ≡ folder }
    ensures unrun { IsUnrun result.0 → result.1 ≡ folder }

    // However it ends, no more bytes were asked for at a time.
    ensures asked { AsksAtMost (S.told source.old) (S.told source.new) 65536 }

    ensures source_faults { (S.told source.old).faults ≤ (S.told source.new).faults }
    ensures sink_faults { (K.told sink.old).faults ≤ (K.told sink.new).faults }
{
    match form_of(words) {
        None => (Status::Usage, folder),
        Some(Form::Gen(directories)) => (run_gen(rt, alloc, directories, sink), folder),
        Some(Form::Replay) => {
            // The script's case is set before its first line.
            let empty = MemTree::new(alloc, Case::Sensitive);
            let (status, _) = run_input(rt, alloc, source, empty, sink);
            (status, folder)
        }
        Some(Form::Folder) => run_input(rt, alloc, source, folder, sink),
    }
}
