//! A script of any size: directories of eight files each, and three builds of them.
//!
//! The only error of each call is want of memory.

ghost use Rattle.std.specs.Prelude.{◌≡◌, ◌<◌, ◌∷◌, [], ◌++◌, length, map, IfOk, OnOk};
ghost use Rattle.std.specs.List.{range_with_len};
ghost use Rattle.std.specs.Fmt.{decimal};
ghost use Rattle.script_summary.specs.Generated.{directory_at, content_at, file_line, new_line, build_line, directory_lines, build_lines, generated};

use case_order::{NoMemory, Share};
use fingerprint_norms::{Input, Inputs, Sensitivity};
use merkle_hash::Bytes;
use script_text::{Command, Line, Lines, Openings, Script, Settings};
use std::alloc::Global;
use vfs_path::{Name, Path};
use world_model::Edit;

/// The files of a directory.
const FILES: u64 = 8;

/// A name of a letter and a number.
fn numbered_name(alloc: Global, letter: u8, number: u64) -> Result<Name, NoMemory>
    ensures { IfOk result (λ name. name ≡ letter ∷ decimal number) }
{
    let mut text = Vec::from_slice(alloc, &[letter])?;
    let digits = number.to_string(alloc)?;
    text.extend_from_slice(digits.as_str().as_bytes())?;
    match Name::from_bytes(alloc, text.as_slice()) {
        Ok(name) => Ok(name),
        // A letter and digits are the text of a name.
        Err(_) => Err(NoMemory),
    }
}

/// The path with one more name, of a letter and a number.
fn numbered_child(alloc: Global, path: &Path, letter: u8, number: u64) -> Result<Path, NoMemory>
    requires { length path.now < 64 }
    ensures { IfOk result (λ child. child ≡ path.now ++ (letter ∷ decimal number) ∷ []) }
{
    let name = numbered_name(alloc, letter, number)?;
    match path.child(alloc, &name) {
        Ok(child) => Ok(child),
        Err(_) => Err(NoMemory),
    }
}

fn directory_path(alloc: Global, directory: u64) -> Result<Path, NoMemory>
    ensures { IfOk result (λ path. path ≡ directory_at directory) }
{
    numbered_child(alloc, &Path::root(), b'd', directory)
}

/// What a file holds at first: both numbers, with a dot between them.
fn content(alloc: Global, directory: u64, file: u64) -> Result<Vec<u8>, NoMemory>
    ensures { IfOk result (λ bytes. bytes.items ≡ content_at directory file) }
{
    let text = format!(in alloc; "{directory}.{file}")?;
    Ok(text.into_bytes())
}

/// A line of caller 0.
fn line(command: Command) -> Line
    ensures { result ≡ record { caller = 0; command = command } }
{
    Line { caller: 0, command }
}

/// The line that makes a directory.
fn mkdir_line(path: &Path) -> Result<Line, NoMemory>
    ensures { IfOk result (λ line. line ≡ record { caller = 0; command = Command.Edit (Edit.Mkdir path.now) }) }
{
    Ok(line(Command::Edit(Edit::Mkdir(path.share()?))))
}

/// A line that writes a file.
fn write_line(alloc: Global, path: Path, content: Vec<u8>) -> Result<Line, NoMemory>
    ensures { IfOk result (λ line. line ≡ record { caller = 0; command = Command.Edit (Edit.Write path content.items) }) }
{
    match Bytes::from_vec(alloc, content) {
        Ok(bytes) => Ok(line(Command::Edit(Edit::Write(path, bytes)))),
        Err((_, refused)) => Err(refused),
    }
}

/// The line that writes a file of the directory that is at this path.
fn file_line(alloc: Global, path: &Path, directory: u64, file: u64) -> Result<Line, NoMemory>
    requires { path.now ≡ directory_at directory }
    ensures { IfOk result (λ line. line ≡ file_line directory file) }
{
    let path = numbered_child(alloc, path, b'f', file)?;
    let content = content(alloc, directory, file)?;
    write_line(alloc, path, content)
}

/// The line that writes to the first file once more.
fn new_line(alloc: Global) -> Result<Line, NoMemory>
    ensures { IfOk result (λ line. line ≡ new_line) }
{
    let directory = directory_path(alloc, 0)?;
    let path = numbered_child(alloc, &directory, b'f', 0)?;
    write_line(alloc, path, Vec::from_slice(alloc, b"new")?)
}

/// The line that builds the first directory, by its names, and the root, by the last names.
fn build_line(alloc: Global) -> Result<Line, NoMemory>
    ensures { IfOk result (λ line. line ≡ build_line) }
{
    let mut inputs = Vec::new(alloc);
    inputs.push(Input {
        root: directory_path(alloc, 0)?,
        sensitivity: Sensitivity::Relative,
    })?;
    inputs.push(Input {
        root: Path::root(),
        sensitivity: Sensitivity::NameOnly,
    })?;
    Ok(line(Command::Build(Inputs::from_vec(inputs))))
}

/// The lines that write the files of the directory that is at this path.
fn push_files(
    alloc: Global,
    lines: &mut Lines,
    path: &Path,
    directory: u64,
    count: u64,
) -> Result<(), NoMemory>
    requires { path.now ≡ directory_at directory }
    ensures { OnOk result
        (lines.new ≡ lines.old ++ map (file_line directory) (range_with_len 0 count)) }
{
    for file in 0..count {
        lines.push(file_line(alloc, path, directory, file)?)?;
    }
    Ok(())
}

/// The lines that make a directory and write its files.
fn push_directory(alloc: Global, lines: &mut Lines, directory: u64) -> Result<(), NoMemory>
    ensures { OnOk result (lines.new ≡ lines.old ++ directory_lines directory) }
{
    let path = directory_path(alloc, directory)?;
    lines.push(mkdir_line(&path)?)?;
    push_files(alloc, lines, &path, directory, FILES)
}

/// The lines that build and write once more.
fn push_builds(alloc: Global, lines: &mut Lines) -> Result<(), NoMemory>
    ensures { OnOk result (lines.new ≡ lines.old ++ build_lines) }
{
    lines.push(build_line(alloc)?)?;
    lines.push(build_line(alloc)?)?;
    lines.push(new_line(alloc)?)?;
    lines.push(build_line(alloc)?)?;
    Ok(())
}

/// The script of so many directories, `/d0` and up, each with the files `f0` to `f7`; all of it is
/// built twice, and once more after a write to the first file. It has no opening lines.
///
/// The only error is want of memory. The script is this project's own.
pub fn generated_script(alloc: Global, directories: u64) -> Result<Script, NoMemory>
    ensures { IfOk result (λ script. script ≡ generated directories) }
{
    let mut lines = Lines::from_vec(Vec::new(alloc));
    for directory in 0..directories {
        push_directory(alloc, &mut lines, directory)?;
    }
    push_builds(alloc, &mut lines)?;
    Ok(Script {
        settings: Settings::default(),
        opening: Openings::from_vec(Vec::new(alloc)),
        lines,
    })
}
