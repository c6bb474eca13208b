//! The texts of paths.

ghost use Rattle.std.specs.Prelude.{◌≡◌, ◌⊎◌, ◌+◌, ◌<◌, ◌≤◌, ◌∷◌, ◌++◌, length, take, position, false, true, MatchOption, IfSome, IfOk, IfErr, OnOk, OnErr, Some, None};
ghost use Rattle.std.specs.List.{slice_split, list_all};
ghost use Rattle.std.specs.Option.{option_copied};
ghost use Rattle.std.specs.Str.{is_utf8};
ghost use Rattle.vfs_path.specs.declared.error.PathError.TheVariants.{NoMemory as NoMemoryError};
ghost use Rattle.vfs_path.specs.Texts.{stands_in_path, has_path_bytes, stands_in_name, is_slash, is_absolute, parts_after, segment_refusal, segments_refusal, slashed, IsPath};

use crate::error::PathError;
use crate::name::{Name, is_utf8, spelling_refusal};
use case_order::NoMemory;
use std::alloc::Global;

/// What follows the slash with which the text begins.
pub(crate) fn after_slash(text: &[u8]) -> Option<&[u8]>
    ensures { MatchOption result (is_absolute text.now ≡ false) (λ rest. text.now ≡ 47 ∷ rest.now) }
{
    match text {
        [b'/', rest @ ..] => Some(rest),
        _ => None,
    }
}

/// Whether all the bytes may stand in the text of a path, and are UTF-8.
pub(crate) fn has_path_bytes(text: &[u8]) -> bool
    ensures { result ≡ has_path_bytes text.now }
{
    stand_in_path(text) && is_utf8(text)
}

fn stand_in_path(text: &[u8]) -> bool
    ensures { result ≡ list_all stands_in_path text.now }
{
    text.iter().all(|b| *b != 0 && *b != b'\n')
}

fn first_slash(text: &[u8]) -> Option<usize>
    ensures { result ≡ position is_slash text.now }
{
    text.iter().position(|b| *b == b'/')
}

/// What stands before the first slash, and what follows it.
fn cut(text: &[u8]) -> (&[u8], Option<&[u8]>)
    ensures parts { slice_split is_slash text.now ≡ result.0.now ∷ parts_after (option_copied result.1) }
    ensures shorter { IfSome result.1 (λ rest. length rest.now < length text.now) }
{
    match first_slash(text) {
        None => (text, None),
        Some(i) => {
            let (segment, rest) = text.split_at(i);
            (segment, Some(&rest[1..]))
        }
    }
}

/// What is said against a segment that so many precede.
fn segment_refusal(before: usize, segment: &[u8]) -> Option<PathError>
    ensures refusal { result ≡ segment_refusal before segment.now }
    ensures room { (result ≡ None) → before < 64 }
{
    if before >= 64 {
        return Some(PathError::TooDeep);
    }
    spelling_refusal(segment)
}

/// What is said against the first of the segments that is at fault, where so many precede them.
///
/// The segments stand between the slashes of the text. No memory is taken.
pub(crate) fn segments_refusal(before: usize, text: &[u8]) -> Option<PathError>
    ensures { result ≡ segments_refusal before (slice_split is_slash text.now) }
{
    let (segment, after) = cut(text);
    if let Some(refusal) = segment_refusal(before, segment) {
        return Some(refusal);
    }
    match after {
        None => None,
        Some(rest) => segments_refusal(before + 1, rest),
    }
}

/// The names between the slashes of what follows the first slash of a path's text.
pub(crate) fn names_between(alloc: Global, text: &[u8]) -> Result<Vec<Name>, NoMemory>
    requires { IsPath (slice_split is_slash text.now) }
    ensures { IfOk result (λ names. names.items ≡ slice_split is_slash text.now) }
{
    let mut names = Vec::new(alloc);
    let mut left = Some(text);
    while let Some(rest) = left {
        let (segment, after) = cut(rest);
        names.push(Name::with_text(alloc, segment)?)?;
        left = after;
    }
    Ok(names)
}

/// Appends a slash and the name, for each of the names.
///
/// Where memory is wanting, some of it may stand behind what `out` held.
pub(crate) fn write_slashed(names: &[Name], out: &mut Vec<u8>) -> Result<(), NoMemory>
    ensures ok { OnOk result (out.new.items ≡ out.old.items ++ slashed names.now) }
    ensures err { OnErr result (take (length out.old.items) out.new.items ≡ out.old.items) }
{
    for name in names {
        out.push(b'/')?;
        out.extend_from_slice(name.as_bytes())?;
    }
    Ok(())
}
