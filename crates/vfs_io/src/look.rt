//! One look into a folder of the system.
//!
//! Only regular files and directories count; a link, a pipe or a device below the folder is as if
//! nothing stood there. The system is asked by text, so each location is asked about before it is
//! opened and compared with what was opened, and the way to it is asked about again when the look
//! ends: where another stands there by then, the look fails. What changes while a look is under way
//! may be told as it was before or as it is then.

ghost use Rattle.std.specs.Prelude.{◌≡◌, ◌≤◌, ◌↔◌, [], ℕ, IfOk, IfErr, IsTrue, Ok, length};
ghost use Rattle.vfs_model.specs.declared.Case.{Case};
ghost use Rattle.vfs_model.specs.Sound.{IsLook};
ghost use Rattle.world_model.specs.Meaning.{look_seen};
ghost use Rattle.vfs_io.specs.Folder.{HasFewBytes, IsWhole, IsMore};
ghost use Rattle.vfs_io.specs.declared.fault.LookFault.TheVariants as look_fault;
ghost use Rattle.vfs_io.specs.declared.fault.Stop.TheVariants as stop;

use crate::fault::{LookFault, Stop};
use crate::listing::{names_in, owned, push_name};
use crate::seen::{Asked, MAX_BYTES, Stood, expect_same, may_have, stood_of};
use case_order::{Case, NoMemory};
use merkle_hash::Bytes;
use std::alloc::Global;
use std::fs::{Files, OpenFile};
use std::io::{ErrorKind, Read};
use std::{fs, io};
use vfs_model::Kind;
use vfs_path::{Name, Names, Path};
use world_model::Entry;

/// How many names a path has at most.
const MAX_DEPTH: usize = 64;

/// What is at the path below the folder.
///
/// A fault where a call of the system fails, a file has more than 67,108,864 bytes, a directory is
/// none that a tree can have (it has more than 4,096 names, two that are the same under the case, one
/// that is no name, or some at a path of 64 names), or where another file or directory stood there,
/// or on the way, when it had been read. `NoMemory` is want of memory.
pub(crate) fn entry_at<R: Files>(
    rt: &R,
    alloc: Global,
    dir: &str,
    case: Case,
    path: &Path,
) -> Result<Entry, Stop>
    ensures shape { IfOk result (λ entry. IsLook case (length path.now) (look_seen entry)) }
    ensures few { IfOk result HasFewBytes }
{
    let Some(way) = way_to(rt, alloc, dir, path.as_slice())? else {
        return Ok(Entry::Missing);
    };
    let entry = entry_there(rt, alloc, way.text.as_str(), case, path.len())?;
    ask_again(rt, &way)?;
    Ok(entry)
}

/// The way to a location: its text, and the last directory between the folder and it.
#[derive(Drop)]
struct Way {
    text: String,
    above: Option<Above>,
}

/// What stood at the location whose text ends there.
#[derive(Clone, Copy)]
struct Above {
    end: usize,
    stood: Stood,
}

/// The way to the location at these names below the folder; None where a location between the two is
/// no directory. Where the folder itself is none, nothing stands below it for the system either.
fn way_to<S: Asked>(
    system: &S,
    alloc: Global,
    dir: &str,
    names: &[Name],
) -> Result<Option<Way>, Stop> {
    let mut text = owned(alloc, dir)?;
    let mut above = None;
    let Some((last, names)) = names.split_last() else {
        push_name(&mut text, b"")?;
        return Ok(Some(Way { text, above }));
    };
    for name in names {
        push_name(&mut text, name.as_bytes())?;
        match system.ask(text.as_str())? {
            Some(stood) if stood.kind == Kind::Dir => {
                above = Some(Above {
                    end: text.len(),
                    stood,
                });
            }
            _ => return Ok(None),
        }
    }
    push_name(&mut text, last.as_bytes())?;
    Ok(Some(Way { text, above }))
}

/// Asks about the way once more. It is enough to ask about its last directory: by another way another
/// one is come to, or the very same.
fn ask_again<S: Asked>(system: &S, way: &Way) -> Result<(), Stop> {
    let Some(above) = way.above else {
        return Ok(());
    };
    match way.text.as_str().get(..above.end) {
        Some(text) => expect_same(&above.stood, system.ask(text)?),
        None => Err(Stop::Fault(LookFault::Changed)),
    }
}

/// What is at the location with this text.
fn entry_there<R: Files>(
    rt: &R,
    alloc: Global,
    text: &str,
    case: Case,
    depth: usize,
) -> Result<Entry, Stop>
    ensures shape { IfOk result (λ entry. IsLook case depth (look_seen entry)) }
    ensures few { IfOk result HasFewBytes }
{
    let Some(stood) = rt.ask(text)? else {
        return Ok(Entry::Missing);
    };
    match stood.kind {
        Kind::Missing => Ok(Entry::Missing),
        Kind::File => file_at(rt, alloc, text, &stood),
        Kind::Dir => directory_at(rt, alloc, text, case, depth, &stood),
    }
}

/// The regular file that stood there when it was asked about, read to its end.
fn file_at<R: Files>(rt: &R, alloc: Global, text: &str, stood: &Stood) -> Result<Entry, Stop>
    ensures shape { IfOk result (λ entry. (case : Case) (depth : ℕ) → IsLook case depth (look_seen entry)) }
    ensures few { IfOk result HasFewBytes }
{
    if !may_have(stood.length) {
        return Err(Stop::Fault(LookFault::TooLarge));
    }
    let file = opened(rt, text, stood)?;
    let bytes = read_whole(alloc, file, stood.length)?;
    match Bytes::from_vec(alloc, bytes) {
        Ok(bytes) => Ok(Entry::File(bytes)),
        Err((_, NoMemory)) => Err(Stop::NoMemory),
    }
}

/// The file with this text, open, where it is the one that was asked about.
fn opened<R: Files>(rt: &R, text: &str, stood: &Stood) -> Result<R::File, Stop> {
    let file = taken(fs::open(rt, text))?;
    let now = taken(file.metadata())?;
    expect_same(stood, Some(stood_of(&now)))?;
    Ok(file)
}

/// What a call of the system gave.
fn taken<T>(given: io::Result<T>) -> Result<T, Stop>
    ensures { IfOk result (λ value. given ≡ Ok value) }
{
    match given {
        Ok(value) => Ok(value),
        Err(error) => Err(Stop::Fault(LookFault::System(error))),
    }
}

/// No bytes, with room for so many.
fn room(alloc: Global, count: usize) -> Result<Vec<u8>, NoMemory>
    ensures { IfOk result (λ bytes. bytes.items ≡ []) }
{
    Ok(Vec::with_capacity(alloc, count)?)
}

/// All that the file has left, where that is at most 67,108,864 bytes; so many are looked for.
///
/// `TooLarge` where there is more; a fault where a read failed. The only other error is want of
/// memory.
fn read_whole<F: Read + Drop>(alloc: Global, file: F, length: u64) -> Result<Vec<u8>, Stop>
    requires { length ≤ 67108864 }
    ensures whole { IfOk result (λ bytes. IsWhole (F.remaining file) bytes.items) }
    ensures too_large { IfErr result (λ e. e ≡ stop.Fault look_fault.TooLarge → IsMore (F.remaining file)) }
{
    // One byte more than is looked for, so that the read that tells the end has room.
    let mut bytes = room(alloc, length as usize + 1)?;
    match file.take(MAX_BYTES as u64 + 1).read_to_end(&mut bytes) {
        Ok(_) if bytes.len() <= MAX_BYTES => Ok(bytes),
        Ok(_) => Err(Stop::Fault(LookFault::TooLarge)),
        Err(error) => match error.kind() {
            ErrorKind::OutOfMemory => Err(Stop::NoMemory),
            _ => Err(Stop::Fault(LookFault::System(error))),
        },
    }
}

/// The directory that stood there when it was asked about, with the names in it.
///
/// What was opened cannot be asked about, so the location is asked about once more when it was read.
fn directory_at<R: Files>(
    rt: &R,
    alloc: Global,
    text: &str,
    case: Case,
    depth: usize,
    stood: &Stood,
) -> Result<Entry, Stop>
    ensures shape { IfOk result (λ entry. IsLook case depth (look_seen entry)) }
    ensures few { IfOk result HasFewBytes }
{
    let mut dir = taken(rt.open_dir(text))?;
    let names = names_in(rt, alloc, text, case, &mut dir)?;
    expect_same(stood, rt.ask(text)?)?;
    if !may_stand(depth, &names) {
        return Err(Stop::Fault(LookFault::TooDeep));
    }
    Ok(Entry::Dir(names))
}

/// Whether these names may be in a directory at so many names.
fn may_stand(depth: usize, names: &Names) -> bool
    ensures { IsTrue result ↔ (64 ≤ depth → names.now ≡ []) }
{
    depth < MAX_DEPTH || names.as_slice().is_empty()
}
