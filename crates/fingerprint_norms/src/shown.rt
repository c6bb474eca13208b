//! The texts by which entries show locations.

ghost use Rattle.std.specs.Prelude.{◌≡◌, ◌++◌, IfOk, OnOk};
ghost use Rattle.vfs_model.specs.Paths.{last_name};
ghost use Rattle.vfs_model.specs.Fingerprint.{joined, full_text};
ghost use Rattle.fingerprint_norms.specs.Walk.{IsBelow, shown_text, root_text};

use crate::input::{Input, Sensitivity};
use crate::text::Text;
use case_order::NoMemory;
use std::alloc::Global;
use vfs_path::Name;

/// The text by which an entry shows the location with these names, which stand at or below the
/// root of the input.
///
/// The only error is want of memory.
pub(crate) fn shown_path(
    alloc: Global,
    input: &Input,
    names: &[Name],
    is_dir: bool,
) -> Result<Text, NoMemory>
    requires { IsBelow input.now.root names.now }
    ensures { IfOk result (λ text. text ≡ shown_text input.now names.now is_dir) }
{
    let root = input.root.as_slice();
    let below = &names[root.len()..];
    let bytes = match input.sensitivity {
        Sensitivity::Absolute => full_text(alloc, names)?,
        Sensitivity::Relative if below.is_empty() => root_text(alloc, root, is_dir)?,
        Sensitivity::Relative => joined(alloc, below)?,
        Sensitivity::NameOnly if below.is_empty() => root_text(alloc, root, is_dir)?,
        Sensitivity::NameOnly => last_name(alloc, below)?,
        Sensitivity::Ignored => Vec::new(alloc),
    };
    Ok(Text::from_vec(bytes))
}

/// The text of a root by the names below it, of which there are none: its last name, unless it is
/// a directory.
fn root_text(alloc: Global, root: &[Name], is_dir: bool) -> Result<Vec<u8>, NoMemory>
    ensures { IfOk result (λ text. text.items ≡ root_text root.now is_dir) }
{
    if is_dir {
        return Ok(Vec::new(alloc));
    }
    last_name(alloc, root)
}

/// The last of the names; no byte where there is none.
fn last_name(alloc: Global, names: &[Name]) -> Result<Vec<u8>, NoMemory>
    ensures { IfOk result (λ text. text.items ≡ last_name names.now) }
{
    match names.last() {
        None => Ok(Vec::new(alloc)),
        Some(name) => {
            let text = Vec::from_slice(alloc, name.as_bytes())?;
            Ok(text)
        }
    }
}

/// The names, with a slash in front and between them.
fn full_text(alloc: Global, names: &[Name]) -> Result<Vec<u8>, NoMemory>
    ensures { IfOk result (λ text. text.items ≡ full_text names.now) }
{
    let mut text = Vec::new(alloc);
    text.push(b'/')?;
    write_joined(names, &mut text)?;
    Ok(text)
}

/// The names, with a slash between them.
fn joined(alloc: Global, names: &[Name]) -> Result<Vec<u8>, NoMemory>
    ensures { IfOk result (λ text. text.items ≡ joined names.now) }
{
    let mut text = Vec::new(alloc);
    write_joined(names, &mut text)?;
    Ok(text)
}

/// Appends the names, with a slash between them.
///
/// Where memory is wanting, some of it may stand behind what `out` held.
fn write_joined(names: &[Name], out: &mut Vec<u8>) -> Result<(), NoMemory>
    ensures { OnOk result (out.new.items ≡ out.old.items ++ joined names.now) }
{
    let [first, more @ ..] = names else {
        return Ok(());
    };
    out.extend_from_slice(first.as_bytes())?;
    for name in more {
        out.push(b'/')?;
        out.extend_from_slice(name.as_bytes())?;
    }
    Ok(())
}
