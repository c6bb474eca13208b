//! `vfs`: replays a script of edits, scans and finds over a tree in memory or over a folder of the
//! system, and prints a line for each of its commands; or makes a script of a given size, and prints
//! one line on its replay.
//!
//! Where the environment has `VFS_FAULTS`, the first 64 looks into the folder that failed are told on
//! standard error when the run has ended.
//!
//! `run` is the program as a call: words, a source, a sink and a tree in, a status and the tree out.
//! `forms` tells what the words ask for. `input` takes the script, `script_reader` reads it, and
//! `script_runs` does its lines and puts what they print. `generate` runs a script of a given size,
//! which `script_summary` makes and sums up.
#![tactic(auto)]

ghost use Rattle.std.specs.Prelude.{◌≡◌, ◌≢◌};
ghost use Rattle.std.specs.declared.io.ErrorKind.TheVariants.{OutOfMemory};

mod forms;
mod generate;
mod input;
pub mod laws;
mod run;
mod status;

use case_order::NoMemory;
use script_text::put_spelled;
use status::Status;
use std::alloc::{AllocError, Global};
use std::env;
use std::env::VarError;
use std::io::ErrorKind;
use std::process::ExitCode;
use std::thread::Threads;
use vfs_io::{FailedLook, FolderTree, StdSink, StdSource};
use vfs_path::Path;

#[cfg(test)]
mod folder_tests;
#[cfg(test)]
mod tests;

/// The status where the words cannot be taken: `NoMemory` for want of memory, and `Usage` where one of
/// them is no text.
fn without_words(cause: ErrorKind) -> Status
    ensures memory { cause ≡ OutOfMemory → result ≡ Status.NoMemory }
    ensures usage { cause ≢ OutOfMemory → result ≡ Status.Usage }
{
    match cause {
        ErrorKind::OutOfMemory => Status::NoMemory,
        _ => Status::Usage,
    }
}

/// The words after the program's name, or the status with which it ends without them.
fn words(rt: &HostRuntime) -> Result<Vec<String>, Status> {
    let args = match env::args(rt) {
        Ok(args) => args,
        Err(refused) => return Err(without_words(refused.kind())),
    };
    match args.skip(1).collect(rt.alloc()) {
        Ok(words) => Ok(words),
        Err(_) => Err(Status::NoMemory),
    }
}

/// The folder that the words name; the one that the program runs in for words that name none.
fn folder_of(alloc: Global, words: &[String]) -> Result<String, AllocError> {
    match words {
        [_, dir] => String::from_str(alloc, dir.as_str()),
        _ => String::from_str(alloc, "."),
    }
}

/// Runs the program on the process's own input and output, and a folder of the system. Only `main` can
/// hand the runtime on as one that starts threads, so it comes twice.
fn run_process(rt: &HostRuntime, threads: &(impl Threads + Sync)) -> Status {
    let words = match words(rt) {
        Ok(words) => words,
        Err(status) => return status,
    };
    let Ok(dir) = folder_of(rt.alloc(), words.as_slice()) else {
        return Status::NoMemory;
    };
    let mut source = StdSource::over(rt.stdin());
    let mut sink = StdSink::over(rt.stdout());
    let folder = FolderTree::at(*rt, rt.alloc(), dir);
    let (status, folder) = run::run(
        threads,
        rt.alloc(),
        words.as_slice(),
        &mut source,
        &mut sink,
        folder,
    );
    if wants_faults(rt) {
        tell_faults(rt, folder.failed_looks());
    }
    status
}

/// Whether the failed looks are to be told: whether the environment has `VFS_FAULTS`, with any value.
fn wants_faults(rt: &HostRuntime) -> bool {
    match env::var(rt, "VFS_FAULTS") {
        Err(VarError::NotPresent) => false,
        _ => true,
    }
}

/// Writes a line `fault PATH: CAUSE` to standard error for each of the looks, the path as a script
/// spells it. One for which memory is wanting is left out.
fn tell_faults(rt: &HostRuntime, looks: &[FailedLook]) {
    for look in looks {
        if let Ok(path) = spelled(rt.alloc(), &look.path) {
            let cause = &look.cause;
            // Nobody is left to be told where standard error takes no text.
            let _ = eprintln!(rt; "fault {path}: {cause}");
        }
    }
}

/// The path as a script spells it.
fn spelled(alloc: Global, path: &Path) -> Result<String, NoMemory> {
    let mut text = Vec::new(alloc);
    path.write(&mut text)?;
    let mut word = Vec::new(alloc);
    put_spelled(&mut word, text.as_slice())?;
    match String::from_utf8(word) {
        Ok(word) => Ok(word),
        // The word is of ASCII alone.
        Err(_) => Ok(String::new(alloc)),
    }
}

fn main(rt: HostRuntime) -> ExitCode {
    let status = run_process(&rt, &rt);
    if status != Status::Done {
        // Nobody is left to be told where standard error takes no text.
        let _ = eprintln!(rt; "{status}");
    }
    ExitCode::from(status.number())
}
