//! The entries of a root and of all below it.

ghost use Rattle.std.specs.Prelude.{◌≡◌, OnOk};
ghost use Rattle.std.specs.List.{list_any};
ghost use Rattle.vfs_model.specs.Paths.{place, is_at_or_above};
ghost use Rattle.snapshot_tree.specs.Meaning.{meaning_of};
ghost use Rattle.fingerprint_norms.specs.Meaning.{seen_of};
ghost use Rattle.fingerprint_norms.specs.Walk.{IsBelow, Gains, places_of, input_entries, root_entry, directory_entry, location_entries, children_entries};

use crate::entry::{FpEntry, entry_at};
use crate::input::{Input, Seen, Sensitivity};
use case_order::{Case, NoMemory, Share, share_all};
use snapshot_tree::{DirRef, Kind, Snapshot};
use vfs_path::{Name, begin_with};

/// Whether the location with these names lies at or below the root of one of the inputs.
fn is_covered(case: Case, earlier: &[Seen], names: &[Name]) -> bool
    ensures { result ≡ list_any (λ v. is_at_or_above (place case v.input.root) (place case names.now)) earlier.now }
{
    earlier
        .iter()
        .any(|seen| begin_with(case, seen.input.root.as_slice(), names))
}

/// Appends the entries of an input: those of its root and of all below it, but for what lies at
/// or below the root of an earlier one.
///
/// The only error is want of memory; some of the entries may stand at the end then.
pub(crate) fn add_input(
    case: Case,
    earlier: &[Seen],
    seen: &Seen,
    entries: &mut Vec<FpEntry>,
) -> Result<(), NoMemory>
    ensures { OnOk result (Gains entries.old.items entries.new.items (input_entries case (places_of case earlier.now) (seen_of seen.now))) }
{
    add_missing(case, earlier, seen, entries)?;
    let mut names = share_all(*entries.allocator(), seen.input.root.as_slice())?;
    add_location(
        case,
        earlier,
        &seen.input,
        &mut names,
        &seen.snapshot,
        entries,
    )?;
    Ok(())
}

/// Appends the entry of a root that is missing.
fn add_missing(
    case: Case,
    earlier: &[Seen],
    seen: &Seen,
    entries: &mut Vec<FpEntry>,
) -> Result<(), NoMemory>
    ensures { OnOk result (Gains entries.old.items entries.new.items (root_entry case earlier.now seen.now.input (meaning_of seen.now.snapshot))) }
{
    match seen.snapshot {
        Snapshot::Missing => {}
        Snapshot::File(_) => return Ok(()),
        Snapshot::Dir(_) => return Ok(()),
    }
    let names = seen.input.root.as_slice();
    if is_covered(case, earlier, names) {
        return Ok(());
    }
    let entry = entry_at(
        *entries.allocator(),
        &seen.input,
        names,
        Kind::Missing,
        None,
    )?;
    entries.push(entry)?;
    Ok(())
}

/// Appends the entry of a directory, which there is none of where paths are ignored.
fn add_directory(input: &Input, names: &[Name], entries: &mut Vec<FpEntry>) -> Result<(), NoMemory>
    requires { IsBelow input.now.root names.now }
    ensures { OnOk result (Gains entries.old.items entries.new.items (directory_entry input.now names.now)) }
{
    match input.sensitivity {
        Sensitivity::Ignored => Ok(()),
        _ => {
            let entry = entry_at(*entries.allocator(), input, names, Kind::Dir, None)?;
            entries.push(entry)?;
            Ok(())
        }
    }
}

/// Appends the entries of the location with these names, and of all below it. Goes as deep as the
/// snapshot.
#[cycle(walk)]
fn add_location(
    case: Case,
    earlier: &[Seen],
    input: &Input,
    names: &mut Vec<Name>,
    snapshot: &Snapshot,
    entries: &mut Vec<FpEntry>,
) -> Result<(), NoMemory>
    requires { IsBelow input.now.root names.old.items }
    ensures names { OnOk result (names.new.items ≡ names.old.items) }
    ensures entries { OnOk result (Gains entries.old.items entries.new.items (location_entries case earlier.now input.now names.old.items (meaning_of snapshot.now))) }
{
    if is_covered(case, earlier, names) {
        return Ok(());
    }
    match snapshot {
        Snapshot::Missing => Ok(()),
        Snapshot::File(digest) => {
            let entry = entry_at(
                *entries.allocator(),
                input,
                names,
                Kind::File,
                Some(*digest),
            )?;
            entries.push(entry)?;
            Ok(())
        }
        Snapshot::Dir(directory) => {
            add_directory(input, names, entries)?;
            add_children(case, earlier, input, names, directory, entries)?;
            Ok(())
        }
    }
}

/// Appends the entries of the children of the directory with these names, and of all below them.
#[cycle(walk)]
fn add_children(
    case: Case,
    earlier: &[Seen],
    input: &Input,
    names: &mut Vec<Name>,
    directory: &DirRef,
    entries: &mut Vec<FpEntry>,
) -> Result<(), NoMemory>
    requires { IsBelow input.now.root names.old.items }
    ensures names { OnOk result (names.new.items ≡ names.old.items) }
    ensures entries { OnOk result (Gains entries.old.items entries.new.items (children_entries case earlier.now input.now names.old.items directory.now)) }
{
    let depth = names.len();
    for i in 0..directory.len() {
        names.push(directory.name(i).share()?)?;
        add_location(case, earlier, input, names, directory.child(i), entries)?;
        names.truncate(depth);
    }
    Ok(())
}
