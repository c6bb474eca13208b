//! What the system tells of a location.

ghost use Rattle.std.specs.Prelude.{◌≡◌, ◌↔◌, ◌≤◌, List, ℕ, Option, None, Some, IfOk, IfSome, IsOk, IsTrue};
ghost use Rattle.std.specs.Fs.{file_type};
ghost use Rattle.std.specs.IoError.{error_kind};
ghost use Rattle.vfs_io.specs.declared.seen.Stood.{Stood};
ghost use Rattle.vfs_io.specs.Seen.{HasKind, IsStood, IsTaken, IsMissing, IsSamePlace, kind_told};

use crate::fault::{LookFault, Stop};
use std::fs::{Files, Metadata};
use std::io;
use std::io::ErrorKind;
use std::os::unix::fs::MetadataExt;
use vfs_model::Kind;

/// How many bytes a file has at most.
pub(crate) const MAX_BYTES: usize = 67_108_864;

/// What stands at a location: its kind, how many bytes it has, and which one it is.
#[derive(Clone, Copy)]
pub(crate) struct Stood {
    pub(crate) kind: Kind,
    pub(crate) length: u64,
    pub(crate) device: u64,
    pub(crate) inode: u64,
}

/// Who is asked what stands at a location.
pub(crate) trait Asked {
    /// What stands at each location, by its text, where that is told: the system tells nothing
    /// beforehand.
    ghost told: { Self → Option (List ℕ → Option Stood) };

    /// What stands at the location with this text; None where nothing does.
    ///
    /// A link there is not followed, unless the text ends with `/`.
    fn ask(&self, text: &str) -> Result<Option<Stood>, Stop>
        ensures { IfOk result (λ seen. IfSome (told self.now) (λ standing. seen ≡ standing text.now)) };
}

impl<R: Files> Asked for R {
    ghost told = { λ _. None };

    fn ask(&self, text: &str) -> Result<Option<Stood>, Stop> {
        answer_of(self.symlink_metadata(text))
    }
}

/// What the system's answer says: what stands there, and nothing where the location or a directory
/// above it is missing. Every other error is a fault.
fn answer_of(told: io::Result<Metadata>) -> Result<Option<Stood>, Stop>
    ensures { IsTaken told result }
{
    match told {
        Ok(metadata) => Ok(Some(stood_of(&metadata))),
        Err(error) => unless_missing(error),
    }
}

/// Nothing, where the error says that nothing stands there.
fn unless_missing(error: io::Error) -> Result<Option<Stood>, Stop>
    ensures missing { IsOk result ↔ IsMissing (error_kind error) }
    ensures nothing { IfOk result (λ seen. seen ≡ None) }
{
    match error.kind() {
        ErrorKind::NotFound | ErrorKind::NotADirectory => Ok(None),
        _ => Err(Stop::Fault(LookFault::System(error))),
    }
}

/// What the system tells of what stands there.
pub(crate) fn stood_of(metadata: &Metadata) -> Stood
    ensures { IsStood metadata.now result }
{
    Stood {
        kind: kind_of(metadata),
        length: metadata.len(),
        device: metadata.dev(),
        inode: metadata.ino(),
    }
}

/// A link, a pipe or a device counts as nothing.
fn kind_of(metadata: &Metadata) -> Kind
    ensures { HasKind (file_type metadata.now) result }
{
    if metadata.is_dir() {
        Kind::Dir
    } else if metadata.is_file() {
        Kind::File
    } else {
        Kind::Missing
    }
}

/// What kind of thing stands there.
pub(crate) fn kind_at<S: Asked>(system: &S, text: &str) -> Result<Kind, Stop>
    ensures { IfOk result (λ kind. IfSome (S.told system.now) (λ standing. kind ≡ kind_told (standing text.now))) }
{
    match system.ask(text)? {
        None => Ok(Kind::Missing),
        Some(stood) => Ok(stood.kind),
    }
}

/// Whether a file with so many bytes can be in a tree.
pub(crate) fn may_have(length: u64) -> bool
    ensures { IsTrue result ↔ (length ≤ 67108864) }
{
    length <= MAX_BYTES as u64
}

/// `Changed` where there is another one now, or none.
pub(crate) fn expect_same(before: &Stood, now: Option<Stood>) -> Result<(), Stop>
    ensures { IsOk result ↔ IsSamePlace before.now now }
{
    match now {
        Some(now) if is_same_place(before, &now) => Ok(()),
        _ => Err(Stop::Fault(LookFault::Changed)),
    }
}

fn is_same_place(a: &Stood, b: &Stood) -> bool
    ensures { IsTrue result ↔ IsSamePlace a.now (Some b.now) }
{
    a.kind == b.kind && a.device == b.device && a.inode == b.inode
}
