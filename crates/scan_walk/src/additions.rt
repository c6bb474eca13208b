//! What an entry that was seen adds to a walk.

ghost use Rattle.std.specs.Prelude.{◌≡◌, ◌<◌, ◌≤◌, ◌+◌, ◌-◌, [], ◌∷◌, ◌++◌, IfOk, length, map, reverse, take, vec_len};
ghost use Rattle.std.specs.Vec.{vec_capacity};
ghost use Rattle.std.specs.Option.{option_to_list};
ghost use Rattle.vfs_model.specs.Scanning.{names_seen};
ghost use Rattle.world_model.specs.Meaning.{look_seen};
ghost use Rattle.scan_walk.specs.Walking.{bytes_seen};

use case_order::{NoMemory, Share};
use merkle_hash::Bytes;
use std::alloc::Global;
use vfs_path::{Name, Path, PathError};
use world_model::Entry;

/// The names that the entry lists.
pub(crate) fn names_of(entry: &Entry) -> &[Name]
    ensures { result.now ≡ names_seen (look_seen entry.now) }
{
    match entry {
        Entry::Missing | Entry::File(_) => &[],
        Entry::Dir(names) => names.as_slice(),
    }
}

/// The bytes of the entry, where it is a file.
///
/// The only error is want of memory.
pub(crate) fn content_of(entry: &Entry) -> Result<Option<Bytes>, NoMemory>
    ensures { IfOk result (λ content. option_to_list content ≡ bytes_seen (look_seen entry.now)) }
{
    match entry {
        Entry::File(bytes) => Ok(Some(bytes.share()?)),
        Entry::Missing => Ok(None),
        Entry::Dir(_) => Ok(None),
    }
}

/// The paths of the children with these names, the last one first.
///
/// The only error is want of memory.
pub(crate) fn children_of(
    alloc: Global,
    parent: &Path,
    names: &[Name],
) -> Result<Vec<Path>, NoMemory>
    requires { 64 ≤ length parent.now → names.now ≡ [] }
    ensures { IfOk result (λ children. reverse children.items ≡ map (λ n. parent.now ++ n ∷ []) names.now) }
{
    let mut children = Vec::with_capacity(alloc, names.len())?;
    for name in names {
        children.push(child_of(alloc, parent, name)?)?;
    }
    children.reverse();
    Ok(children)
}

fn child_of(alloc: Global, parent: &Path, name: &Name) -> Result<Path, NoMemory>
    requires { length parent.now < 64 }
    ensures { IfOk result (λ child. child ≡ parent.now ++ name.now ∷ []) }
{
    match parent.child(alloc, name) {
        Ok(child) => Ok(child),
        Err(PathError::NoMemory) => Err(NoMemory),
        Err(_) => unreachable!(),
    }
}

/// The children go on the stack in place of the last path; the memory for them is there.
pub(crate) fn replace_last(left: &mut Vec<Path>, mut children: Vec<Path>)
    requires some { 0 < vec_len left.old }
    requires room { vec_len left.old + vec_len children ≤ vec_capacity left.old }
    ensures { left.new.items ≡ take (vec_len left.old - 1) left.old.items ++ children.items }
{
    let _ = left.pop();
    let _ = left.append(&mut children);
}

/// The bytes of a file go last; the memory for them is there.
pub(crate) fn add_content(contents: &mut Vec<Bytes>, content: Option<Bytes>)
    requires { vec_len contents.old < vec_capacity contents.old }
    ensures { contents.new.items ≡ contents.old.items ++ option_to_list content }
{
    if let Some(bytes) = content {
        contents.push_reserved(bytes);
    }
}
