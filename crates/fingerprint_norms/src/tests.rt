//! The entries and fingerprints of inputs in one tree: `/h` is a file with `a`, `/r` a directory
//! with the empty directory `e` and the directory `s`, `/r/s/t` a file with `abc`, and `/z` is
//! missing. Digests were computed elsewhere, from the bytes as they are stated.

ghost use Rattle.std.specs.Prelude.{◌≢◌, IfOk};
ghost use Rattle.vfs_model.specs.Snapshot.{Missing};
ghost use Rattle.snapshot_tree.specs.Meaning.{meaning_of};

use crate::Sensitivity::{Absolute, Ignored, NameOnly, Relative};
use crate::{FpEntry, Input, Inputs, Kind, Seen, Sensitivity, Text, entries, fingerprint};
use case_order::{Case, Share, order};
use merkle_hash::file_digest;
use snapshot_tree::{DirBuilder, Snapshot};
use std::alloc::Global;
use std::process::Abort;
use std::test::Fail;
use vfs_path::{Name, Path};

fn empty_directory(alloc: Global) -> Result<Snapshot, Fail>
    ensures { IfOk result (λ s. meaning_of s ≢ Missing) }
{
    let directory = DirBuilder::new(alloc, Case::Sensitive).finish()?;
    Ok(directory)
}

fn directory_s(alloc: Global) -> Result<Snapshot, Fail>
    ensures { IfOk result (λ s. meaning_of s ≢ Missing) }
{
    let mut builder = DirBuilder::new(alloc, Case::Sensitive);
    builder.add(
        Name::from_bytes(alloc, b"t")?,
        Snapshot::File(file_digest(b"abc")),
    )?;
    let directory = builder.finish()?;
    Ok(directory)
}

fn directory_r(rt: &impl Abort, alloc: Global) -> Result<Snapshot, Fail> {
    let first = Name::from_bytes(alloc, b"e")?;
    let last = Name::from_bytes(alloc, b"s")?;
    assert!(rt; order(Case::Sensitive, first.as_bytes(), last.as_bytes()).is_lt());
    let mut builder = DirBuilder::new(alloc, Case::Sensitive);
    builder.add(first, empty_directory(alloc)?)?;
    builder.add(last, directory_s(alloc)?)?;
    let directory = builder.finish()?;
    Ok(directory)
}

fn snapshot_at(rt: &impl Abort, alloc: Global, path: &str) -> Result<Snapshot, Fail> {
    match path {
        "/h" => Ok(Snapshot::File(file_digest(b"a"))),
        "/r" => directory_r(rt, alloc),
        "/r/e" => empty_directory(alloc),
        "/r/s" => directory_s(alloc),
        _ => Ok(Snapshot::Missing),
    }
}

fn seen_at(
    rt: &impl Abort,
    alloc: Global,
    sensitivity: Sensitivity,
    path: &str,
) -> Result<Seen, Fail> {
    let root = Path::parse(alloc, path.as_bytes())?;
    let snapshot = snapshot_at(rt, alloc, path)?;
    let input = Input { root, sensitivity };
    Ok(Seen { input, snapshot })
}

fn seen_all(
    rt: &impl Abort,
    alloc: Global,
    inputs: &[(Sensitivity, &str)],
) -> Result<Vec<Seen>, Fail> {
    let mut seen = Vec::new(alloc);
    for (sensitivity, path) in inputs {
        seen.push(seen_at(rt, alloc, *sensitivity, path)?)?;
    }
    Ok(seen)
}

/// Appends the path, a blank, the letter of the kind, the digest and a semicolon.
fn write_entry(entry: &FpEntry, out: &mut Vec<u8>) -> Result<(), Fail> {
    out.extend_from_slice(entry.path.as_slice())?;
    let letter = match entry.kind {
        Kind::Missing => b" M",
        Kind::File => b" F",
        Kind::Dir => b" D",
    };
    out.extend_from_slice(letter)?;
    if let Some(digest) = entry.digest {
        out.extend_from_slice(&digest.to_hex())?;
    }
    out.push(b';')?;
    Ok(())
}

/// Asserts the entries and the fingerprint of the inputs.
fn assert_print(
    rt: &impl Abort,
    alloc: Global,
    inputs: &[(Sensitivity, &str)],
    want: &str,
    print: &str,
) -> Result<(), Fail> {
    let seen = seen_all(rt, alloc, inputs)?;
    let mut text = Vec::new(alloc);
    for entry in &entries(alloc, Case::Sensitive, &seen)? {
        write_entry(entry, &mut text)?;
    }
    assert_eq!(rt; text.as_slice(), want.as_bytes(), "{want}");
    let digest = fingerprint(alloc, Case::Sensitive, &seen)?;
    assert_eq!(rt; digest.to_hex().as_slice(), print.as_bytes(), "{want}");
    Ok(())
}

#[test]
fn one_input_shows_its_locations(rt: HostRuntime) -> Result<(), Fail> {
    for (sensitivity, path, want, print) in [
        (
            Absolute,
            "/r",
            "/r D;/r/e D;/r/s D;/r/s/t F900150983cd24fb0d6963f7d28e17f72;",
            "2265fece008ffff6a53b18739094c87a",
        ),
        (
            Relative,
            "/r",
            " D;e D;s D;s/t F900150983cd24fb0d6963f7d28e17f72;",
            "ad7d2f66d16cbb1a50010206fc202e56",
        ),
        (
            NameOnly,
            "/r",
            " D;e D;s D;t F900150983cd24fb0d6963f7d28e17f72;",
            "e384d65337643eb85c0a0a5a1504b61b",
        ),
        (
            Ignored,
            "/r",
            " F900150983cd24fb0d6963f7d28e17f72;",
            "f8a5b070bcea0e56739e42f8b1fcd91c",
        ),
        (
            Absolute,
            "/h",
            "/h F0cc175b9c0f1b6a831c399e269772661;",
            "e6379cea560ec60bfc9becdbd9d35a36",
        ),
        (
            Relative,
            "/h",
            "h F0cc175b9c0f1b6a831c399e269772661;",
            "f0424792b4c054836546f7dead9c7f86",
        ),
        (
            NameOnly,
            "/h",
            "h F0cc175b9c0f1b6a831c399e269772661;",
            "f0424792b4c054836546f7dead9c7f86",
        ),
        (
            Ignored,
            "/h",
            " F0cc175b9c0f1b6a831c399e269772661;",
            "7551a2a30a90077c7227953f661655f2",
        ),
        (Absolute, "/z", "/z M;", "4f4b37b5643b9fb46ed154f55a037c6b"),
        (Relative, "/z", "z M;", "2ab7a1101599bad74e4072be8211b643"),
        (NameOnly, "/z", "z M;", "2ab7a1101599bad74e4072be8211b643"),
        (Ignored, "/z", " M;", "1920490984386197c8e29f8f4c9c9a2f"),
        (Ignored, "/r/e", "", "d41d8cd98f00b204e9800998ecf8427e"),
    ] {
        assert_print(&rt, rt.alloc(), &[(sensitivity, path)], want, print)?;
    }
    Ok(())
}

#[test]
fn two_inputs_show_each_location_once(rt: HostRuntime) -> Result<(), Fail> {
    for (inputs, want, print) in [
        (
            [(Relative, "/r/s"), (Absolute, "/r")],
            " D;/r D;/r/e D;t F900150983cd24fb0d6963f7d28e17f72;",
            "05c750c84c16b72535b98baa7c6dae0e",
        ),
        (
            [(Absolute, "/r"), (Relative, "/r/s")],
            "/r D;/r/e D;/r/s D;/r/s/t F900150983cd24fb0d6963f7d28e17f72;",
            "2265fece008ffff6a53b18739094c87a",
        ),
        (
            [(Relative, "/h"), (Relative, "/h")],
            "h F0cc175b9c0f1b6a831c399e269772661;",
            "f0424792b4c054836546f7dead9c7f86",
        ),
        (
            [(Ignored, "/h"), (Ignored, "/r")],
            " F0cc175b9c0f1b6a831c399e269772661; F900150983cd24fb0d6963f7d28e17f72;",
            "e5d095871a6b6f15446bbd1dec536a24",
        ),
        (
            [(Relative, "/h"), (Relative, "/r")],
            " D;e D;h F0cc175b9c0f1b6a831c399e269772661;s D;s/t F900150983cd24fb0d6963f7d28e17f72;",
            "adf360ac0907cef23cb6f21781ef529c",
        ),
    ] {
        assert_print(&rt, rt.alloc(), &inputs, want, print)?;
    }
    Ok(())
}

#[test]
fn inputs_are_shared(rt: HostRuntime) -> Result<(), Fail> {
    let root = Path::parse(rt.alloc(), b"/h")?;
    let input = Input {
        root,
        sensitivity: Relative,
    };
    let inputs = Inputs::from_vec(vec![in rt.alloc(); input]?).share()?;
    assert_eq!(rt; inputs.as_slice().len(), 1);
    assert_eq!(rt; inputs.as_slice()[0].sensitivity, Relative);
    assert!(rt; inputs.as_slice()[0].root == Path::parse(rt.alloc(), b"/h")?);
    Ok(())
}

#[test]
fn texts_are_shared(rt: HostRuntime) -> Result<(), Fail> {
    let text = Text::from_vec(Vec::from_slice(rt.alloc(), b"s/t")?).share()?;
    assert_eq!(rt; text.as_slice(), b"s/t".as_slice());
    Ok(())
}
