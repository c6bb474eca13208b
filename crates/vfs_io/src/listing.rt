//! The names of a directory.

ghost use Rattle.std.specs.Prelude.{◌≡◌, ◌≤◌, ◌<◌, ◌++◌, ◌∷◌, [], IfOk, IfSome, IsOk, OnOk, IsTrue, Some, length, position, string_bytes, MatchOption, IsPermutation, if◌then◌else◌};
ghost use Rattle.std.specs.List.{slice_split};
ghost use Rattle.std.specs.Option.{option_copied};
ghost use Rattle.vfs_model.specs.Scanning.{IsListed};
ghost use Rattle.vfs_model.specs.World.{AreInOrder};
ghost use Rattle.vfs_io.specs.Folder.{comes_before};
ghost use Rattle.vfs_io.specs.Listing.{ends_name, text_below, is_no_entry, is_name_told, names_told, parts_left};

use crate::fault::{LookFault, Stop};
use crate::seen::{Asked, kind_at};
use case_order::{Case, NoMemory, order};
use std::alloc::Global;
use std::cmp::Ordering;
use std::io::Read;
use std::str;
use vfs_model::Kind;
use vfs_path::{Name, Names, PathError};

/// How many names a directory has at most.
const MAX_NAMES: usize = 4096;

/// For how many bytes of names there is room after the text of a directory.
const ROOM: usize = 256;

/// The names of the regular files and directories in the open directory with this text, in order
/// under the case.
///
/// `NoMemory` is want of memory; every other error is a fault.
pub(crate) fn names_in<S: Asked, D: Read>(
    system: &S,
    alloc: Global,
    text: &str,
    case: Case,
    dir: &mut D,
) -> Result<Names, Stop>
    ensures listed { IfOk result (IsListed case) }
    ensures told { IfOk result (λ names. IfSome (S.told system.now) (λ standing. IfSome (D.remaining dir.old) (λ listing.
        IsPermutation (names_told standing text.now listing) names))) }
{
    let listing = listing_of(alloc, dir)?;
    let names = names_of(system, alloc, text, listing.as_slice())?;
    in_order(case, names)
}

/// What the directory has left, read to its end.
fn listing_of<D: Read>(alloc: Global, dir: &mut D) -> Result<Vec<u8>, Stop>
    ensures { IfOk result (λ listing. IfSome (D.remaining dir.old) (λ left. listing.items ≡ left)) }
{
    let mut listing = Vec::new(alloc);
    let mut buf = [0u8; 8192];
    for _ in 0..u64::MAX {
        match dir.read(&mut buf) {
            Err(error) => return Err(Stop::Fault(LookFault::System(error))),
            Ok(0) => return Ok(listing),
            Ok(count) => push_bytes(&mut listing, &buf[..count])?,
        }
    }
    Err(Stop::Fault(LookFault::TooManyNames))
}

fn push_bytes(listing: &mut Vec<u8>, bytes: &[u8]) -> Result<(), NoMemory>
    ensures { OnOk result (listing.new.items ≡ listing.old.items ++ bytes.now) }
{
    listing.extend_from_slice(bytes)?;
    Ok(())
}

fn first_end(listing: &[u8]) -> Option<usize>
    ensures { result ≡ position ends_name listing.now }
{
    listing.iter().position(|byte| *byte == 0)
}

/// What stands before the first end of a name, and what follows that.
fn cut(listing: &[u8]) -> (&[u8], Option<&[u8]>)
    ensures parts { slice_split ends_name listing.now ≡ result.0.now ∷ parts_left (option_copied result.1) }
    ensures shorter { IfSome result.1 (λ rest. length rest.now < length listing.now) }
{
    match first_end(listing) {
        None => (listing, None),
        Some(i) => {
            let (name, rest) = listing.split_at(i);
            (name, Some(&rest[1..]))
        }
    }
}

/// The names in a listing, each of which ends with a byte 0.
fn names_of<S: Asked>(
    system: &S,
    alloc: Global,
    text: &str,
    listing: &[u8],
) -> Result<Vec<Name>, Stop>
    ensures { IfOk result (λ names. IfSome (S.told system.now) (λ standing. names.items ≡ names_told standing text.now listing.now)) }
{
    let mut names = Vec::new(alloc);
    let mut left = Some(listing);
    while let Some(rest) = left {
        let (name, after) = cut(rest);
        add_name(system, alloc, text, name, &mut names)?;
        left = after;
    }
    Ok(names)
}

/// Adds the name of an entry, where it is one that counts.
fn add_name<S: Asked>(
    system: &S,
    alloc: Global,
    text: &str,
    raw: &[u8],
    names: &mut Vec<Name>,
) -> Result<(), Stop>
    ensures { OnOk result (IfSome (S.told system.now) (λ standing.
        names.new.items ≡ (if is_name_told standing text.now raw.now then names.old.items ++ raw.now ∷ [] else names.old.items))) }
{
    if !is_counted(system, alloc, text, raw)? {
        return Ok(());
    }
    if names.len() >= MAX_NAMES {
        return Err(Stop::Fault(LookFault::TooManyNames));
    }
    push(names, name_of(alloc, raw)?)
}

/// Whether these bytes of a listing are the name of an entry that counts.
fn is_counted<S: Asked>(system: &S, alloc: Global, text: &str, raw: &[u8]) -> Result<bool, Stop>
    ensures { IfOk result (λ counts. IfSome (S.told system.now) (λ standing. counts ≡ is_name_told standing text.now raw.now)) }
{
    if is_no_entry(raw) {
        return Ok(false);
    }
    let mut entry = owned(alloc, text)?;
    push_name(&mut entry, raw)?;
    let kind = kind_at(system, entry.as_str())?;
    Ok(kind != Kind::Missing)
}

/// Whether the bytes are none, `.` or `..`.
fn is_no_entry(raw: &[u8]) -> bool
    ensures { result ≡ is_no_entry raw.now }
{
    raw.is_empty() || raw == b".".as_slice() || raw == b"..".as_slice()
}

fn push(names: &mut Vec<Name>, name: Name) -> Result<(), Stop>
    ensures { OnOk result (names.new.items ≡ names.old.items ++ name ∷ []) }
{
    match names.push(name) {
        Ok(()) => Ok(()),
        Err(_) => Err(Stop::NoMemory),
    }
}

/// The name with these bytes.
fn name_of(alloc: Global, raw: &[u8]) -> Result<Name, Stop>
    ensures { IfOk result (λ name. name ≡ raw.now) }
{
    match Name::from_bytes(alloc, raw) {
        Ok(name) => Ok(name),
        Err(PathError::NoMemory) => Err(Stop::NoMemory),
        Err(_) => Err(Stop::Fault(LookFault::NotAName)),
    }
}

/// The text of a directory, to put names after it, for most of which there is room.
pub(crate) fn owned(alloc: Global, dir: &str) -> Result<String, NoMemory>
    ensures { IfOk result (λ text. string_bytes text ≡ dir.now) }
{
    let mut text = String::with_capacity(alloc, dir.len() + ROOM)?;
    text.push_str(dir)?;
    Ok(text)
}

/// Puts a `/` and a name after the text of a directory.
pub(crate) fn push_name(text: &mut String, name: &[u8]) -> Result<(), Stop>
    ensures { OnOk result (string_bytes text.new ≡ text_below (string_bytes text.old) name.now) }
{
    match str::from_utf8(name) {
        Ok(name) => Ok(push_text(text, name)?),
        Err(_) => Err(Stop::Fault(LookFault::NotAName)),
    }
}

fn push_text(dir: &mut String, name: &str) -> Result<(), NoMemory>
    ensures { OnOk result (string_bytes dir.new ≡ text_below (string_bytes dir.old) name.now) }
{
    dir.push_str("/")?;
    dir.push_str(name)?;
    Ok(())
}

/// The names in order under the case.
///
/// `TooManyNames` where there are more than 4,096, and `SameNames` where two are the same.
fn in_order(case: Case, names: Vec<Name>) -> Result<Names, Stop>
    ensures listed { IfOk result (IsListed case) }
    ensures same { IfOk result (λ ordered. IsPermutation names.items ordered) }
{
    let mut names = names;
    names.sort_unstable_by(|a: &Name, b: &Name| -> Ordering {
        order(case, a.as_bytes(), b.as_bytes())
    });
    if names.len() > MAX_NAMES {
        return Err(Stop::Fault(LookFault::TooManyNames));
    }
    if !are_in_order(case, &names) {
        return Err(Stop::Fault(LookFault::SameNames));
    }
    Ok(Names::from_vec(names))
}

/// Whether each of the names stands before all that follow.
fn are_in_order(case: Case, names: &[Name]) -> bool
    ensures { IsTrue result → AreInOrder case names.now }
{
    names.is_sorted_by(
        |a: &Name, b: &Name| -> bool
            ensures { result ≡ comes_before case a.now b.now }
        { order(case, a.as_bytes(), b.as_bytes()) == Ordering::Less },
    )
}
