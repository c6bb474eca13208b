//! Writing a script.

ghost use Rattle.std.specs.Prelude.{◌≡◌, ◌∷◌, [], ◌++◌, map, IfOk, OnOk};
ghost use Rattle.vfs_path.specs.Texts.{path_text};
ghost use Rattle.script_text.specs.Grammar.{case_word, sensitivity_word, input_word, IsTextOf};
ghost use Rattle.script_text.specs.Writing.{spaced, tail_text, number_words, path_words, two_path_words, file_words, inputs_words, opening_words, edit_words, command_words, ended, opening_text, line_text, openings_text, lines_text, text_of, HasText};

use crate::script::{Command, Line, Opening, Script, TextKind};
use crate::spelling::put_spelled;
use case_order::{Case, NoMemory};
use fingerprint_norms::{Input, Sensitivity};
use merkle_hash::Bytes;
use std::alloc::Global;
use vfs_path::Path;
use world_model::Edit;

/// A word behind another.
fn put_word(out: &mut Vec<u8>, word: &[u8]) -> Result<(), NoMemory>
    ensures { OnOk result (out.new.items ≡ out.old.items ++ spaced word.now) }
{
    out.push(b' ')?;
    put_spelled(out, word)
}

/// A name, and a word behind it.
fn put_two(out: &mut Vec<u8>, name: &[u8], word: &[u8]) -> Result<(), NoMemory>
    ensures { OnOk result (out.new.items ≡ out.old.items ++ tail_text (name.now ∷ word.now ∷ [])) }
{
    put_word(out, name)?;
    put_word(out, word)
}

fn put_number(alloc: Global, out: &mut Vec<u8>, name: &[u8], number: u64) -> Result<(), NoMemory>
    ensures { OnOk result (out.new.items ≡ out.old.items ++ tail_text (number_words name.now number)) }
{
    let digits = number.to_string(alloc)?;
    put_two(out, name, digits.as_bytes())
}

fn text_of_path(alloc: Global, path: &Path) -> Result<Vec<u8>, NoMemory>
    ensures { IfOk result (λ text. text.items ≡ path_text path.now) }
{
    let mut text = Vec::new(alloc);
    path.write(&mut text)?;
    Ok(text)
}

fn put_path(alloc: Global, out: &mut Vec<u8>, name: &[u8], path: &Path) -> Result<(), NoMemory>
    ensures { OnOk result (out.new.items ≡ out.old.items ++ tail_text (path_words name.now path.now)) }
{
    let text = text_of_path(alloc, path)?;
    put_two(out, name, text.as_slice())
}

fn put_two_paths(
    alloc: Global,
    out: &mut Vec<u8>,
    name: &[u8],
    from: &Path,
    to: &Path,
) -> Result<(), NoMemory>
    ensures { OnOk result (out.new.items ≡ out.old.items ++ tail_text (two_path_words name.now from.now to.now)) }
{
    put_path(alloc, out, name, from)?;
    let text = text_of_path(alloc, to)?;
    put_word(out, text.as_slice())
}

/// A name, a path, and the bytes of a file where it has some.
fn put_file(
    alloc: Global,
    out: &mut Vec<u8>,
    name: &[u8],
    path: &Path,
    content: &Bytes,
) -> Result<(), NoMemory>
    ensures { OnOk result (out.new.items ≡ out.old.items ++ tail_text (file_words name.now path.now content.now)) }
{
    put_path(alloc, out, name, path)?;
    match content.as_slice() {
        [] => Ok(()),
        bytes => put_word(out, bytes),
    }
}

fn sensitivity_word(sensitivity: Sensitivity) -> &'static [u8]
    ensures { result.now ≡ sensitivity_word sensitivity }
{
    match sensitivity {
        Sensitivity::Absolute => b"abs:",
        Sensitivity::Relative => b"rel:",
        Sensitivity::NameOnly => b"name:",
        Sensitivity::Ignored => b"none:",
    }
}

fn word_of_input(alloc: Global, input: &Input) -> Result<Vec<u8>, NoMemory>
    ensures { IfOk result (λ word. word.items ≡ input_word input.now) }
{
    let mut word = Vec::from_slice(alloc, sensitivity_word(input.sensitivity))?;
    input.root.write(&mut word)?;
    Ok(word)
}

fn put_input_words(alloc: Global, out: &mut Vec<u8>, inputs: &[Input]) -> Result<(), NoMemory>
    ensures { OnOk result (out.new.items ≡ out.old.items ++ tail_text (map input_word inputs.now)) }
{
    for input in inputs {
        let word = word_of_input(alloc, input)?;
        put_word(out, word.as_slice())?;
    }
    Ok(())
}

/// A name, and the inputs behind it.
fn put_inputs(
    alloc: Global,
    out: &mut Vec<u8>,
    name: &[u8],
    inputs: &[Input],
) -> Result<(), NoMemory>
    ensures { OnOk result (out.new.items ≡ out.old.items ++ tail_text (inputs_words name.now inputs.now)) }
{
    put_word(out, name)?;
    put_input_words(alloc, out, inputs)
}

fn case_word(case: Case) -> &'static [u8]
    ensures { result.now ≡ case_word case }
{
    match case {
        Case::Sensitive => b"sensitive",
        Case::Insensitive => b"insensitive",
    }
}

/// The words of an opening line after `set`.
fn put_setting(alloc: Global, out: &mut Vec<u8>, opening: &Opening) -> Result<(), NoMemory>
    ensures { OnOk result (out.new.items ≡ out.old.items ++ tail_text (opening_words opening.now)) }
{
    match opening {
        Opening::Case(case) => put_two(out, b"case", case_word(*case)),
        Opening::Queue(queue) => put_number(alloc, out, b"queue", *queue),
        Opening::Places(places) => put_number(alloc, out, b"places", *places),
        Opening::Workers(workers) => put_number(alloc, out, b"workers", *workers),
        Opening::Dir(path) => put_path(alloc, out, b"dir", path),
        Opening::File(path, content) => put_file(alloc, out, b"file", path, content),
    }
}

fn put_opening(alloc: Global, out: &mut Vec<u8>, opening: &Opening) -> Result<(), NoMemory>
    ensures { OnOk result (out.new.items ≡ out.old.items ++ ended (opening_text opening.now)) }
{
    put_spelled(out, b"set")?;
    put_setting(alloc, out, opening)?;
    out.push(b'\n')?;
    Ok(())
}

/// The words of an edit after its caller.
fn put_edit(alloc: Global, out: &mut Vec<u8>, edit: &Edit) -> Result<(), NoMemory>
    ensures { OnOk result (out.new.items ≡ out.old.items ++ tail_text (edit_words edit.now)) }
{
    match edit {
        Edit::Write(path, content) => put_file(alloc, out, b"write", path, content),
        Edit::Mkdir(path) => put_path(alloc, out, b"mkdir", path),
        Edit::Remove(path) => put_path(alloc, out, b"remove", path),
        Edit::Move(from, to) => put_two_paths(alloc, out, b"move", from, to),
    }
}

/// The words of a command after its caller.
fn put_command(alloc: Global, out: &mut Vec<u8>, command: &Command) -> Result<(), NoMemory>
    ensures { OnOk result (out.new.items ≡ out.old.items ++ tail_text (command_words command.now)) }
{
    match command {
        Command::Edit(edit) => put_edit(alloc, out, edit),
        Command::Event(path) => put_path(alloc, out, b"event", path),
        Command::Lose => put_word(out, b"lose"),
        Command::Deliver => put_word(out, b"deliver"),
        Command::Settle => put_word(out, b"settle"),
        Command::Begin(path) => put_path(alloc, out, b"begin", path),
        Command::Read => put_word(out, b"read"),
        Command::Publish => put_word(out, b"publish"),
        Command::Abandon => put_word(out, b"abandon"),
        Command::Scan(path) => put_path(alloc, out, b"scan", path),
        Command::Find(path) => put_path(alloc, out, b"find", path),
        Command::KindOf(path) => put_path(alloc, out, b"kind", path),
        Command::VersionOf(path) => put_path(alloc, out, b"version", path),
        Command::Print(inputs) => put_inputs(alloc, out, b"print", inputs.as_slice()),
        Command::Build(inputs) => put_inputs(alloc, out, b"build", inputs.as_slice()),
    }
}

fn put_line(alloc: Global, out: &mut Vec<u8>, line: &Line) -> Result<(), NoMemory>
    ensures { OnOk result (out.new.items ≡ out.old.items ++ ended (line_text line.now)) }
{
    let caller = line.caller.to_string(alloc)?;
    put_spelled(out, caller.as_bytes())?;
    put_command(alloc, out, &line.command)?;
    out.push(b'\n')?;
    Ok(())
}

fn put_openings(alloc: Global, out: &mut Vec<u8>, openings: &[Opening]) -> Result<(), NoMemory>
    ensures { OnOk result (out.new.items ≡ out.old.items ++ openings_text openings.now) }
{
    for opening in openings {
        put_opening(alloc, out, opening)?;
    }
    Ok(())
}

fn put_lines(alloc: Global, out: &mut Vec<u8>, lines: &[Line]) -> Result<(), NoMemory>
    ensures { OnOk result (out.new.items ≡ out.old.items ++ lines_text lines.now) }
{
    for line in lines {
        put_line(alloc, out, line)?;
    }
    Ok(())
}

/// The text of a script, so that a script can be kept as a file, or shown as it was read.
///
/// Of the texts of a script this is the only one that is written: without notes, with single
/// spaces, with an escape only where a byte cannot stand for itself, and with no last word for an
/// empty file. Reading it gives the script. The only error is want of memory.
pub fn write_script(alloc: Global, script: &Script) -> Result<Vec<u8>, NoMemory>
    requires { HasText script.now }
    ensures text { IfOk result (λ text. text.items ≡ text_of script.now) }
    ensures again { IfOk result (λ text. IsTextOf TextKind.Replay text.items script.now) }
{
    let mut out = Vec::new(alloc);
    put_openings(alloc, &mut out, script.opening.as_slice())?;
    put_lines(alloc, &mut out, script.lines.as_slice())?;
    Ok(out)
}
