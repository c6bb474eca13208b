//! How long calls on versions take after so many invalidations. Prints the nanoseconds of one `at` and
//! of one `raised`, the mean of so many calls on random paths.
//!
//! Words: `flat` or `tree`, the form; how many invalidations were made; of how many different paths;
//! how many calls are timed. The paths have three names, at most a hundred of them in a directory.
#![tactic(auto)]

use case_order::Case;
use std::alloc::Global;
use std::time::Instant;
use std::{env, io};
use version_hierarchy::{FlatVersions, TreeVersions, Versions};
use vfs_path::Path;

/// What is timed.
#[derive(Clone, Copy)]
struct Job {
    invalidations: u64,
    paths: u64,
    calls: u64,
}

/// Which form of versions is timed.
#[derive(Clone, Copy)]
enum Form {
    Flat,
    Tree,
}

/// The path of this number.
fn numbered(alloc: Global, i: u64) -> Option<Path> {
    let (first, second, third) = (i / 10000, i / 100 % 100, i % 100);
    let text = format!(in alloc; "/dir{first}/sub{second}/file{third}").ok()?;
    Path::parse(alloc, text.as_bytes()).ok()
}

/// The random number behind this one.
fn next(number: u64) -> u64 {
    number
        .wrapping_mul(6364136223846793005)
        .wrapping_add(1442695040888963407)
}

/// So many paths, of random numbers below the limit.
fn sample(alloc: Global, calls: u64, limit: u64) -> Option<Vec<Path>> {
    let mut number = 7;
    let mut paths = Vec::new(alloc);
    for _ in 0..calls {
        number = next(number);
        let path = numbered(alloc, (number >> 33).checked_rem(limit)?)?;
        paths.push(path).ok()?;
    }
    Some(paths)
}

/// What stands for one invalidation more; none for want of memory, or where no more can be counted.
fn raised<V: Versions>(versions: &V, path: &Path) -> Option<V> {
    if versions.count() >= 1 << 61 {
        return None;
    }
    versions.raised(path).ok()
}

/// What stands after invalidations of the paths of the first numbers, in turn.
fn filled<V: Versions + Drop>(alloc: Global, none: V, job: Job) -> Option<V> {
    let mut versions = none;
    for i in 0..job.invalidations {
        let path = numbered(alloc, i.checked_rem(job.paths)?)?;
        versions = raised(&versions, &path)?;
    }
    Some(versions)
}

/// The sum of the paths' versions.
fn looked<V: Versions>(versions: &V, paths: &[Path]) -> u64 {
    let mut sum = 0u64;
    for path in paths {
        sum = sum.wrapping_add(versions.at(path));
    }
    sum
}

/// What stands after an invalidation of each path.
fn changed<V: Versions + Drop>(versions: V, paths: &[Path]) -> Option<V> {
    let mut versions = versions;
    for path in paths {
        versions = raised(&versions, path)?;
    }
    Some(versions)
}

/// The nanoseconds of one of so many calls that were begun then.
fn each(rt: &HostRuntime, start: Instant, calls: u64) -> io::Result<u64> {
    let took = u64::try_from(start.elapsed(rt)?.as_nanos()).unwrap_or(0);
    Ok(took.checked_div(calls).unwrap_or(0))
}

/// Does the job, and prints its line.
fn time<V: Versions + Drop>(rt: &HostRuntime, none: V, job: Job) -> io::Result<()> {
    let alloc = rt.alloc();
    let (Some(paths), Some(versions)) = (
        sample(alloc, job.calls, job.paths),
        filled(alloc, none, job),
    ) else {
        eprintln!(rt; "out of memory")?;
        return Ok(());
    };
    let start = Instant::now(rt)?;
    let sum = looked(&versions, paths.as_slice());
    let at = each(rt, start, job.calls)?;
    let start = Instant::now(rt)?;
    let Some(versions) = changed(versions, paths.as_slice()) else {
        eprintln!(rt; "out of memory")?;
        return Ok(());
    };
    let raise = each(rt, start, job.calls)?;
    let count = versions.count();
    println!(rt; "at {at} ns, raised {raise} ns, sum {sum}, count {count}")
}

/// What the words ask for.
fn asked(words: &[String]) -> Option<(Form, Job)> {
    let [form, invalidations, paths, calls] = words else {
        return None;
    };
    let form = match form.as_str() {
        "flat" => Form::Flat,
        "tree" => Form::Tree,
        _ => return None,
    };
    let job = Job {
        invalidations: invalidations.as_str().parse::<u64>().ok()?,
        paths: paths.as_str().parse::<u64>().ok()?,
        calls: calls.as_str().parse::<u64>().ok()?,
    };
    if job.paths == 0 {
        return None;
    }
    Some((form, job))
}

fn main(rt: HostRuntime) -> io::Result<()> {
    let alloc = rt.alloc();
    let words: Vec<String> = env::args(&rt)?.skip(1).collect(alloc)?;
    match asked(words.as_slice()) {
        None => eprintln!(rt; "scale_bench flat|tree INVALIDATIONS PATHS CALLS"),
        Some((Form::Flat, job)) => time(&rt, FlatVersions::new(alloc, Case::Sensitive), job),
        Some((Form::Tree, job)) => time(&rt, TreeVersions::new(alloc, Case::Sensitive), job),
    }
}
