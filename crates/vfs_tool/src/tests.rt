//! Runs of whole scripts, and what a run answers where it is not done.

use crate::run::run;
use crate::status::Status;
use case_order::Case;
use mem_tree::MemTree;
use script_reader::{BadLine, Cause};
use std::alloc::Global;
use std::process::Abort;
use std::test::Fail;
use std::thread::Threads;
use vfs_io::{MemSink, MemSource, Source};
use vfs_path::PathError;

/// What a run answered, what it wrote, and how many bytes it left.
#[derive(Drop)]
struct Ended {
    status: Status,
    written: Vec<u8>,
    left: usize,
}

/// How many bytes a source has left.
fn count_left<S: Source>(source: &mut S) -> usize {
    let mut buf = [0u8; 4096];
    let mut count = 0usize;
    for _ in 0..8192 {
        match source.take(&mut buf) {
            Ok(taken) if taken > 0 => count = count.saturating_add(taken),
            _ => return count,
        }
    }
    count
}

pub(crate) fn words_of(alloc: Global, words: &[&str]) -> Result<Vec<String>, Fail> {
    let mut owned = Vec::new(alloc);
    for word in words {
        owned.push(String::from_str(alloc, word)?)?;
    }
    Ok(owned)
}

fn run_with(
    rt: &(impl Threads + Sync),
    alloc: Global,
    words: &[&str],
    script: &[u8],
    source_fails: &[u64],
    sink_fails: &[u64],
) -> Result<Ended, Fail> {
    let words = words_of(alloc, words)?;
    let mut source = MemSource::over(script.to_vec(alloc)?, source_fails.to_vec(alloc)?);
    let mut sink = MemSink::new(alloc, sink_fails.to_vec(alloc)?);
    let folder = MemTree::new(alloc, Case::Sensitive);
    let (status, _) = run(rt, alloc, words.as_slice(), &mut source, &mut sink, folder);
    Ok(Ended {
        status,
        written: sink.written().to_vec(alloc)?,
        left: count_left(&mut source),
    })
}

/// The stored run.
const STORED: &[u8] =
    b"0 write /f abc\n0 settle\n0 begin /f\n0 read\n0 read\n0 publish\n0 find /f\n";

const STORED_REPORT: &[u8] =
    b"ok\nsettled 1\nversion 1\nsaw /f file left 0\ndone\nstored\nfile 900150983cd24fb0d6963f7d28e17f72\n";

/// Runs each script, and compares what is written.
fn assert_reports(
    rt: &(impl Abort + Threads + Sync),
    alloc: Global,
    table: &[(&[u8], &[u8])],
) -> Result<(), Fail> {
    for (script, report) in table {
        let ended = run_with(rt, alloc, &["replay"], script, &[], &[])?;
        assert_eq!(rt; ended.status, Status::Done);
        assert_eq!(rt; ended.written.as_slice(), *report);
    }
    Ok(())
}

#[test]
fn reports_on_scripts(rt: HostRuntime) -> Result<(), Fail> {
    let table = [
        (b"".as_slice(), b"".as_slice()),
        (b"# a note\n\n".as_slice(), b"".as_slice()),
        (STORED, STORED_REPORT),
        // What is written as an escape.
        (
            b"0 write /a%20b %00\n0 settle\n0 begin /a%20b\n0 read\n0 read\n0 publish\n0 find /a%20b\n".as_slice(),
            b"ok\nsettled 1\nversion 1\nsaw /a%20b file left 0\ndone\nstored\nfile 93b885adfe0da089cdf634904fd59f71\n".as_slice(),
        ),
        (
            b"0 write /a%20b %00\n0 settle\n0 scan /a%20b\n0 find /a%20b\n0 write /e\n0 settle\n0 scan /e\n0 find /e\n".as_slice(),
            b"ok\nsettled 1\nstored reads 1\nfile 93b885adfe0da089cdf634904fd59f71\nok\nsettled 1\nstored reads 1\nfile d41d8cd98f00b204e9800998ecf8427e\n".as_slice(),
        ),
        // The other answers.
        (
            b"0 write / a\n0 write /n/x a\n0 read\n0 publish\n3 begin /m%7f\n3 begin /m\n3 publish\n3 read\n3 publish\n0 find /m%7F/x\n0 settle\n".as_slice(),
            b"refused 1\nrefused 2\nnoscan\nnoscan\nversion 0\nopen\nunfinished 1\nsaw /m%7f missing left 0\nstored\nmissing\nsettled 0\n".as_slice(),
        ),
    ];
    assert_reports(&rt, rt.alloc(), &table)
}

#[test]
fn sets_the_whole_run(rt: HostRuntime) -> Result<(), Fail> {
    let table = [
        // Settings stand in any order among the other opening lines.
        (
            b"set places 65536\nset dir /d\nset queue 1\nset case sensitive\nset file /d/a a\nset workers 16\n0 scan /d\n".as_slice(),
            b"ok\nok\nok\nok\nok\nok\nstored reads 2\n".as_slice(),
        ),
        (
            b"set dir /d\nset dir /D\nset workers 1\nset case sensitive\nset queue 65536\nset places 1\n".as_slice(),
            b"ok\nok\nok\nok\nok\nok\n".as_slice(),
        ),
        // The second event does not fit, and both are lost.
        (
            b"set queue 1\n0 write /f abc\n0 write /g abc\n0 begin /f\n0 read\n1 deliver\n0 publish\n0 version /zzz\n1 deliver\n".as_slice(),
            b"ok\nok\noverflow\nversion 0\nsaw /f file left 0\ncleared\nstale 1\nversion 1\nnothing\n".as_slice(),
        ),
    ];
    assert_reports(&rt, rt.alloc(), &table)
}

#[test]
fn compares_names_under_the_case(rt: HostRuntime) -> Result<(), Fail> {
    let table = [
        // A move gives the last name another spelling, and is no move to somewhere else.
        (
            b"set case insensitive\nset dir /a\nset file /a/x abc\n0 scan /\n0 find /A/X\n1 move /a /A\n0 find /a/x\n1 settle\n0 find /a/x\n0 begin /\n0 read\n0 read\n".as_slice(),
            b"ok\nok\nok\nstored reads 3\nfile 900150983cd24fb0d6963f7d28e17f72\nok\nfile 900150983cd24fb0d6963f7d28e17f72\nsettled 2\nunknown\nversion 2\nsaw / dir left 1\nsaw /A dir left 1\n".as_slice(),
        ),
        // A file that is written again keeps its spelling, a second directory is refused, and an event
        // has to do with the other spelling. `[` and `{`, and letters past ASCII, stay apart.
        (
            b"set case insensitive\nset file /F a\nset dir /f\nset file /[ a\nset file /{ a\nset file /%c3%84 a\nset file /%c3%a4 a\n0 write /f b\n0 settle\n0 begin /\n0 read\n0 read\n1 event /f\n1 deliver\n0 version /F\n0 version /[\n".as_slice(),
            b"ok\nok\nrefused 4\nok\nok\nok\nok\nok\nsettled 1\nversion 1\nsaw / dir left 5\nsaw /[ file left 4\nqueued\ndelivered /f\nversion 2\nversion 0\n".as_slice(),
        ),
        // The same under the other case.
        (
            b"set case sensitive\nset file /F a\nset dir /f\n0 scan /F\n1 event /f\n1 deliver\n0 find /F\n0 find /f\n".as_slice(),
            b"ok\nok\nok\nstored reads 1\nqueued\ndelivered /f\nfile 0cc175b9c0f1b6a831c399e269772661\nunknown\n".as_slice(),
        ),
    ];
    assert_reports(&rt, rt.alloc(), &table)
}

#[test]
fn loses_events_and_abandons_scans(rt: HostRuntime) -> Result<(), Fail> {
    let table = [
        (
            b"0 lose\n0 event /q\n0 settle\n0 version /q\n0 version /r\n".as_slice(),
            b"lost\nqueued\nsettled 2\nversion 2\nversion 1\n".as_slice(),
        ),
        (
            b"0 publish\n0 read\n0 abandon\n".as_slice(),
            b"noscan\nnoscan\nnoscan\n".as_slice(),
        ),
        (
            b"0 begin /a\n0 abandon\n0 abandon\n0 begin /b\n".as_slice(),
            b"version 0\nabandoned\nnoscan\nversion 0\n".as_slice(),
        ),
        // The scan is another caller's.
        (
            b"0 begin /a\n15 abandon\n0 read\n".as_slice(),
            b"version 0\nnoscan\nsaw /a missing left 0\n".as_slice(),
        ),
        // Locations are left.
        (
            b"set dir /d\nset file /d/a a\nset file /d/b b\n0 begin /d\n0 read\n0 publish\n".as_slice(),
            b"ok\nok\nok\nversion 0\nsaw /d dir left 2\nunfinished 2\n".as_slice(),
        ),
    ];
    assert_reports(&rt, rt.alloc(), &table)
}

#[test]
fn publishes_unless_something_related_was_invalidated(rt: HostRuntime) -> Result<(), Fail> {
    let table = [
        // The event is delivered after the publication, and before it.
        (
            b"0 write /f abc\n0 settle\n0 begin /f\n0 read\n1 write /f abd\n0 publish\n0 find /f\n1 deliver\n0 find /f\n".as_slice(),
            b"ok\nsettled 1\nversion 1\nsaw /f file left 0\nok\nstored\nfile 900150983cd24fb0d6963f7d28e17f72\ndelivered /f\nunknown\n".as_slice(),
        ),
        (
            b"0 write /f abc\n0 settle\n0 begin /f\n0 read\n1 write /f abd\n1 deliver\n0 publish\n0 find /f\n".as_slice(),
            b"ok\nsettled 1\nversion 1\nsaw /f file left 0\nok\ndelivered /f\nstale 2\nunknown\n".as_slice(),
        ),
        // An ancestor, and a descendant.
        (
            b"set dir /a\nset file /a/b abc\n0 begin /a/b\n0 read\n1 event /a\n1 deliver\n0 publish\n".as_slice(),
            b"ok\nok\nversion 0\nsaw /a/b file left 0\nqueued\ndelivered /a\nstale 1\n".as_slice(),
        ),
        (
            b"set dir /a\nset dir /a/b\nset file /a/b/c abc\n0 begin /a/b\n0 read\n0 read\n1 event /a/b/c\n1 deliver\n0 publish\n".as_slice(),
            b"ok\nok\nok\nversion 0\nsaw /a/b dir left 1\nsaw /a/b/c file left 0\nqueued\ndelivered /a/b/c\nstale 1\n".as_slice(),
        ),
        // A sibling, and a path whose text begins the same.
        (
            b"set dir /a\nset dir /a/b\nset file /a/b/c abc\n0 begin /a/b\n0 read\n0 read\n1 event /a/x\n1 event /ab\n1 settle\n0 publish\n0 find /a/b/c\n0 version /a/b\n0 version /a\n0 version /\n".as_slice(),
            b"ok\nok\nok\nversion 0\nsaw /a/b dir left 1\nsaw /a/b/c file left 0\nqueued\nqueued\nsettled 2\nstored\nfile 900150983cd24fb0d6963f7d28e17f72\nversion 0\nversion 1\nversion 2\n".as_slice(),
        ),
        // The root, with an event and without.
        (
            b"0 begin /\n0 read\n1 event /q\n1 deliver\n0 publish\n".as_slice(),
            b"version 0\nsaw / dir left 0\nqueued\ndelivered /q\nstale 1\n".as_slice(),
        ),
        (
            b"0 begin /\n0 read\n0 publish\n0 find /\n".as_slice(),
            b"version 0\nsaw / dir left 0\nstored\ndir f623e75af30e62bbd73d6df5b50bb7b5\n".as_slice(),
        ),
    ];
    assert_reports(&rt, rt.alloc(), &table)
}

#[test]
fn forgets_what_an_event_has_to_do_with(rt: HostRuntime) -> Result<(), Fail> {
    let table = [
        // What is missing.
        (
            b"0 begin /m/n/o\n0 read\n0 publish\n0 find /m/n/o/p\n1 mkdir /m\n1 deliver\n0 find /m/n/o\n".as_slice(),
            b"version 0\nsaw /m/n/o missing left 0\nstored\nmissing\nok\ndelivered /m\nunknown\n".as_slice(),
        ),
        // A file is removed between two reads, and its sibling stays.
        (
            b"set dir /d\nset file /d/a a\nset file /d/b b\n0 begin /d\n0 read\n0 read\n1 remove /d/a\n0 read\n0 publish\n0 find /d/a\n1 deliver\n0 find /d/a\n0 find /d/b\n0 find /d\n0 kind /d\n".as_slice(),
            b"ok\nok\nok\nversion 0\nsaw /d dir left 2\nsaw /d/a file left 1\nok\nsaw /d/b file left 0\nstored\nfile 0cc175b9c0f1b6a831c399e269772661\ndelivered /d/a\nunknown\nfile 92eb5ffee6ae2fec3ad71c777531578f\nunknown\ndir\n".as_slice(),
        ),
        // An event below a file.
        (
            b"set file /f abc\n0 scan /f\n1 event /f/x\n1 deliver\n0 find /f\n0 kind /\n".as_slice(),
            b"ok\nstored reads 1\nqueued\ndelivered /f/x\nunknown\ndir\n".as_slice(),
        ),
        // What is retained above, and what a publication above replaces.
        (
            b"set dir /d\nset file /d/a a\n0 scan /d\n0 scan /d/a\n0 find /d/a\n".as_slice(),
            b"ok\nok\nstored reads 2\ncovered reads 1\nfile 0cc175b9c0f1b6a831c399e269772661\n".as_slice(),
        ),
        (
            b"set dir /d\nset file /d/a a\n0 scan /d/a\n0 scan /d\n0 find /d\n".as_slice(),
            b"ok\nok\nstored reads 1\nstored reads 2\ndir d82cdc9dc4d40917449769aa7211a458\n".as_slice(),
        ),
        // A scan that is open already, and one of what is missing.
        (
            b"3 begin /m\n3 scan /d\n4 scan /m\n4 kind /m\n4 kind /\n4 deliver\n".as_slice(),
            b"version 0\nopen\nstored reads 1\nmissing\nunknown\nnothing\n".as_slice(),
        ),
    ];
    assert_reports(&rt, rt.alloc(), &table)
}

#[test]
fn edits_the_tree_or_refuses(rt: HostRuntime) -> Result<(), Fail> {
    let alloc = rt.alloc();
    let edits = [
        ("write / a", "refused 1"),
        ("write /n/x a", "refused 2"),
        ("write /f/x/y a", "refused 2"),
        ("write /f/x a", "refused 3"),
        ("write /d a", "refused 4"),
        ("mkdir /f", "refused 4"),
        ("remove /n", "refused 5"),
        ("move /d /d/e", "refused 6"),
        ("move /d /f", "refused 4"),
        ("move /n /n/x", "refused 5"),
        ("move /d /e", "ok"),
        ("write /f b", "ok"),
        ("write /f", "ok"),
    ];
    for (edit, answer) in edits {
        let script = format!(in alloc; "set file /f a\nset dir /d\nset file /d/x a\n0 {edit}\n")?;
        let report = format!(in alloc; "ok\nok\nok\n{answer}\n")?;
        let ended = run_with(&rt, alloc, &["replay"], script.as_bytes(), &[], &[])?;
        assert_eq!(rt; ended.written.as_slice(), report.as_bytes(), "at {edit}");
    }
    Ok(())
}

#[test]
fn overflows_its_queue(rt: HostRuntime) -> Result<(), Fail> {
    let alloc = rt.alloc();
    let mut script = Vec::new(alloc);
    let mut report = Vec::new(alloc);
    for i in 0..1025usize {
        script.extend_from_slice(b"0 write /f abc\n")?;
        report.extend_from_slice(if i < 1024 {
            b"ok\n".as_slice()
        } else {
            b"overflow\n".as_slice()
        })?;
    }
    script.extend_from_slice(b"0 deliver\n0 deliver\n")?;
    report.extend_from_slice(b"cleared\nnothing\n")?;
    let ended = run_with(&rt, alloc, &["replay"], script.as_slice(), &[], &[])?;
    assert_eq!(rt; ended.status, Status::Done);
    assert!(rt; ended.written.as_slice() == report.as_slice());
    Ok(())
}

/// Puts the opening lines of a directory with so many files, each of which holds its own path.
fn put_directory(
    alloc: Global,
    script: &mut Vec<u8>,
    directory: &str,
    count: u64,
) -> Result<(), Fail> {
    script.extend_from_slice(format!(in alloc; "set dir {directory}\n")?.as_bytes())?;
    for i in 0..count {
        let file = format!(in alloc; "{directory}/f{i:02}")?;
        script.extend_from_slice(format!(in alloc; "set file {file} {file}\n")?.as_bytes())?;
    }
    Ok(())
}

/// The opening lines of three directories with 40 files, for each of which an `ok` is put, and builds
/// of all three before and after one of the files is written.
fn put_builds(alloc: Global, script: &mut Vec<u8>, report: &mut Vec<u8>) -> Result<(), Fail> {
    put_directory(alloc, script, "/src", 20)?;
    put_directory(alloc, script, "/lib", 15)?;
    put_directory(alloc, script, "/conf", 5)?;
    script.extend_from_slice(
        b"0 build rel:/src name:/lib none:/conf\n\
        0 build rel:/src name:/lib none:/conf\n\
        1 write /src/f07 new\n\
        0 build rel:/src name:/lib none:/conf\n",
    )?;
    for _ in 0..43u64 {
        report.extend_from_slice(b"ok\n")?;
    }
    report.extend_from_slice(
        b"build a37dd30f6db0ff14b51027427c263b05 hits 0 misses 3 reads 43\n\
        build a37dd30f6db0ff14b51027427c263b05 hits 3 misses 0 reads 0\n\
        ok\n\
        build c99fbd57fdd6d48ac455b8a2d092d0e8 hits 2 misses 1 reads 21\n",
    )?;
    Ok(())
}

/// Runs a script by several numbers of workers, and compares what is written.
fn assert_same_by_workers(
    rt: &(impl Abort + Threads + Sync),
    alloc: Global,
    script: &[u8],
    report: &[u8],
) -> Result<(), Fail> {
    let settings: [(&[u8], &[u8]); 4] = [
        (b"", b""),
        (b"set workers 2\n", b"ok\n"),
        (b"set workers 7\n", b"ok\n"),
        (b"set workers 16\n", b"ok\n"),
    ];
    for (setting, answer) in settings {
        let mut whole = Vec::from_slice(alloc, setting)?;
        whole.extend_from_slice(script)?;
        let mut wanted = Vec::from_slice(alloc, answer)?;
        wanted.extend_from_slice(report)?;
        let ended = run_with(rt, alloc, &["replay"], whole.as_slice(), &[], &[])?;
        assert_eq!(rt; ended.status, Status::Done);
        assert_eq!(rt; ended.written.as_slice(), wanted.as_slice());
    }
    Ok(())
}

#[test]
fn builds_the_same_by_any_number_of_workers(rt: HostRuntime) -> Result<(), Fail> {
    let alloc = rt.alloc();
    let (mut script, mut report) = (Vec::new(alloc), Vec::new(alloc));
    put_builds(alloc, &mut script, &mut report)?;
    assert_same_by_workers(&rt, alloc, script.as_slice(), report.as_slice())
}

#[test]
fn hashes_while_it_reads_by_any_number_of_workers(rt: HostRuntime) -> Result<(), Fail> {
    let alloc = rt.alloc();
    let (mut script, mut report) = (Vec::new(alloc), Vec::new(alloc));
    // More files than are handed to a thread at a time.
    put_directory(alloc, &mut script, "/many", 300)?;
    script.extend_from_slice(b"0 build rel:/many\n")?;
    for _ in 0..301u64 {
        report.extend_from_slice(b"ok\n")?;
    }
    report.extend_from_slice(
        b"build a9b1fd1bc10575559e487d9e95a74dbc hits 0 misses 1 reads 301\n",
    )?;
    assert_same_by_workers(&rt, alloc, script.as_slice(), report.as_slice())
}

#[test]
fn scans_more_than_seventy_thousand_locations(rt: HostRuntime) -> Result<(), Fail> {
    let alloc = rt.alloc();
    let mut script = Vec::new(alloc);
    for i in 0..18u64 {
        let directory = format!(in alloc; "/d{i:02}")?;
        put_directory(alloc, &mut script, directory.as_str(), 4096)?;
    }
    // One name more than a directory may have, a directory with as many, and the whole.
    script.extend_from_slice(b"set file /d00/x\n0 begin /d17\n0 read\n1 scan /\n")?;
    let mut report = Vec::new(alloc);
    for _ in 0..18 * 4097u64 {
        report.extend_from_slice(b"ok\n")?;
    }
    report.extend_from_slice(
        b"refused 8\nversion 0\nsaw /d17 dir left 4096\nstored reads 73747\n",
    )?;
    let ended = run_with(&rt, alloc, &["replay"], script.as_slice(), &[], &[])?;
    assert_eq!(rt; ended.status, Status::Done);
    assert!(rt; ended.written.as_slice() == report.as_slice());
    Ok(())
}

#[test]
fn begins_at_one_to_sixty_four_names(rt: HostRuntime) -> Result<(), Fail> {
    let alloc = rt.alloc();
    let (mut script, mut report) = (Vec::new(alloc), Vec::new(alloc));
    let mut path = Vec::new(alloc);
    for _ in 0..64 {
        path.extend_from_slice(b"/x")?;
        script.extend_from_slice(b"0 begin ")?;
        script.extend_from_slice(path.as_slice())?;
        script.extend_from_slice(b"\n0 abandon\n")?;
        report.extend_from_slice(b"version 0\nabandoned\n")?;
    }
    let ended = run_with(&rt, alloc, &["replay"], script.as_slice(), &[], &[])?;
    assert_eq!(rt; ended.status, Status::Done);
    assert_eq!(rt; ended.written.as_slice(), report.as_slice());
    Ok(())
}

#[test]
fn keeps_fingerprints_until_something_related_is_delivered(rt: HostRuntime) -> Result<(), Fail> {
    let table: [(&[u8], &[u8]); 3] = [
        (
            b"set file /f abc\n0 scan /f\n0 print rel:/f\n1 write /f a\n0 scan /f\n0 find /f\n\
            0 print rel:/f\n1 deliver\n0 print rel:/f\n",
            b"ok\nstored reads 1\nprint 57b961e181f276259f06131b85dd3ae7\nok\nstored reads 1\n\
            file 0cc175b9c0f1b6a831c399e269772661\nprint 57b961e181f276259f06131b85dd3ae7\n\
            delivered /f\nunknown 0\n",
        ),
        (
            b"set file /h a\nset dir /r\nset dir /r/e\nset dir /r/s\nset file /r/s/t abc\n\
            0 print rel:/h rel:/r\n0 scan /h\n0 print rel:/h rel:/r\n0 scan /r\n\
            0 print rel:/h rel:/r\n",
            b"ok\nok\nok\nok\nok\nunknown 0\nstored reads 1\nunknown 1\nstored reads 4\n\
            print adf360ac0907cef23cb6f21781ef529c\n",
        ),
        (
            b"0 begin /\n0 build none:/\n1 build none:/\n1 lose\n1 print none:/\n1 deliver\n\
            1 print none:/\n",
            b"version 0\nopen\nbuild d41d8cd98f00b204e9800998ecf8427e hits 0 misses 1 reads 1\n\
            lost\nprint d41d8cd98f00b204e9800998ecf8427e\ncleared\nunknown 0\n",
        ),
    ];
    assert_reports(&rt, rt.alloc(), &table)
}

/// Runs `gen N` over a source that is to be left alone, and compares what is written.
fn assert_summary(
    rt: &(impl Abort + Threads + Sync),
    alloc: Global,
    count: &str,
    line: &[u8],
) -> Result<(), Fail> {
    let ended = run_with(rt, alloc, &["gen", count], STORED, &[], &[])?;
    assert_eq!(rt; ended.status, Status::Done);
    assert_eq!(rt; ended.written.as_slice(), line);
    assert_eq!(rt; ended.left, STORED.len());
    Ok(())
}

#[test]
fn sums_up_a_generated_script(rt: HostRuntime) -> Result<(), Fail> {
    let alloc = rt.alloc();
    let line =
        b"lines 13 hits 2 misses 4 reads 38 md5 8348650a12cc3f5e0a1dfcb5576044b9\n".as_slice();
    assert_summary(&rt, alloc, "1", line)?;
    assert_summary(
        &rt,
        alloc,
        "10",
        b"lines 94 hits 2 misses 4 reads 200 md5 954dfc0d0f306faeb440b226ad914429\n",
    )?;
    // The line is put by the first call of the sink, and there is no second one. A source that fails is
    // not asked.
    let ended = run_with(&rt, alloc, &["gen", "1"], STORED, &[], &[1])?;
    assert_eq!(rt; ended.status, Status::WriteFault);
    assert_eq!(rt; ended.written.len(), 0);
    let ended = run_with(&rt, alloc, &["gen", "1"], STORED, &[1], &[2])?;
    assert_eq!(rt; ended.status, Status::Done);
    assert_eq!(rt; ended.written.as_slice(), line);
    Ok(())
}

#[test]
fn sums_up_the_largest_script(rt: HostRuntime) -> Result<(), Fail> {
    assert_summary(
        &rt,
        rt.alloc(),
        "1000",
        b"lines 9004 hits 2 misses 4 reads 18020 md5 9b83be7fa24139494877ba1cbc66e51d\n",
    )
}

#[test]
fn refuses_other_words(rt: HostRuntime) -> Result<(), Fail> {
    let table: [&[&str]; 16] = [
        &[],
        &["replay", "x"],
        &["folder"],
        &["folder", "x", "y"],
        &["gen"],
        &["gen", "0"],
        &["gen", "01"],
        &["gen", "1001"],
        &["gen", "1", "2"],
        &["gen", "+1"],
        &["gen", ""],
        &["gen", "1x"],
        &["gen", "18446744073709551617"],
        &["1"],
        &["--help"],
        &["Replay"],
    ];
    for words in table {
        let ended = run_with(&rt, rt.alloc(), words, STORED, &[], &[])?;
        assert_eq!(rt; ended.status, Status::Usage);
        assert_eq!(rt; ended.left, STORED.len());
        assert_eq!(rt; ended.written.len(), 0);
    }
    Ok(())
}

#[test]
fn tells_what_stopped_it(rt: HostRuntime) -> Result<(), Fail> {
    let alloc = rt.alloc();
    // A source that fails at once, and one that fails once the script is taken.
    for fails in [1, 2] {
        let ended = run_with(&rt, alloc, &["replay"], STORED, &[fails], &[])?;
        assert_eq!(rt; ended.status, Status::ReadFault);
        assert_eq!(rt; ended.written.len(), 0);
    }
    let mut deep = Vec::from_slice(alloc, b"0 find ")?;
    for _ in 0..65 {
        deep.extend_from_slice(b"/x")?;
    }
    deep.push(b'\n')?;
    let table = [
        (
            b"0 find /a\n0 find /b\n0 fnd /c\n".as_slice(),
            3,
            Cause::UnknownWord,
        ),
        (b"0 find /a".as_slice(), 1, Cause::NoLineEnd),
        (deep.as_slice(), 1, Cause::BadPath(PathError::TooDeep)),
    ];
    for (script, line, cause) in table {
        let ended = run_with(&rt, alloc, &["replay"], script, &[], &[])?;
        assert_eq!(rt; ended.status, Status::BadScript(BadLine { line, cause }));
        assert_eq!(rt; ended.written.len(), 0);
    }
    Ok(())
}

#[test]
fn puts_each_line_by_a_call_of_its_own(rt: HostRuntime) -> Result<(), Fail> {
    let alloc = rt.alloc();
    let lines = [
        (1, b"ok\n".as_slice()),
        (2, b"settled 1\n".as_slice()),
        (3, b"version 1\n".as_slice()),
        (4, b"saw /f file left 0\n".as_slice()),
        (5, b"done\n".as_slice()),
        (6, b"stored\n".as_slice()),
        (7, b"file 900150983cd24fb0d6963f7d28e17f72\n".as_slice()),
    ];
    let mut before = Vec::new(alloc);
    for (put, line) in lines {
        let ended = run_with(&rt, alloc, &["replay"], STORED, &[], &[put])?;
        assert_eq!(rt; ended.status, Status::WriteFault);
        assert_eq!(rt; ended.written.as_slice(), before.as_slice());
        before.extend_from_slice(line)?;
    }
    // No eighth put is made.
    let ended = run_with(&rt, alloc, &["replay"], STORED, &[], &[8])?;
    assert_eq!(rt; ended.status, Status::Done);
    assert_eq!(rt; ended.written.as_slice(), before.as_slice());
    Ok(())
}

#[test]
fn takes_one_byte_past_its_limit(rt: HostRuntime) -> Result<(), Fail> {
    let alloc = rt.alloc();
    // Notes alone: the longest script, one that is a byte longer, and one that is two bytes longer, of
    // which one is left.
    for (len, status, left) in [
        (16_777_216, Status::Done, 0),
        (16_777_217, Status::TooLong, 0),
        (16_777_218, Status::TooLong, 1),
    ] {
        let script = vec![in alloc; b'\n'; len]?;
        let ended = run_with(&rt, alloc, &["replay"], script.as_slice(), &[], &[])?;
        assert_eq!(rt; ended.status, status);
        assert_eq!(rt; ended.left, left);
        assert_eq!(rt; ended.written.len(), 0);
    }
    Ok(())
}

#[test]
fn numbers_and_texts_of_statuses(rt: HostRuntime) -> Result<(), Fail> {
    let bad = |cause| Status::BadScript(BadLine { line: 12, cause });
    let deep = Cause::BadPath(PathError::TooDeep);
    let table = [
        (Status::Done, 0, ""),
        (bad(Cause::BadCaller), 1, "bad line 12: cause 5"),
        (bad(deep), 1, "bad line 12: cause 10 path 5"),
        (
            Status::Usage,
            2,
            "usage: vfs replay, vfs folder DIR, vfs race, vfs gen N",
        ),
        (Status::ReadFault, 3, "read fault"),
        (Status::WriteFault, 4, "write fault"),
        (Status::NoMemory, 5, "no memory"),
        (Status::TooLong, 6, "too long"),
    ];
    for (status, number, text) in table {
        assert_eq!(rt; status.number(), number);
        let shown = format!(in rt.alloc(); "{status}")?;
        assert_eq!(rt; shown.as_str(), text);
    }
    Ok(())
}
