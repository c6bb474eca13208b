//! Reading a script.

ghost use Rattle.std.specs.Prelude.{◌≡◌, IfOk, IfErr};
ghost use Rattle.std.specs.List.{list_any};
ghost use Rattle.script_text.specs.declared.script.Script.{Script};
ghost use Rattle.script_text.specs.declared.cause.BadLine.{BadLine};
ghost use Rattle.script_reader.specs.Gives.{Gives};
ghost use Rattle.script_text.specs.Set.{with_set, is_same_setting};
ghost use Rattle.script_reader.specs.Numbers.{number_of};
ghost use Rattle.script_text.specs.Grammar.{is_in, IsTextOf};
ghost use Rattle.script_reader.specs.Reading.{Adds, Reads, caller_from, with_setting, with_command, with_words, after_line, script_of};
ghost use Rattle.script_reader.specs.Faults.{FirstBad};
ghost use Rattle.script_reader.specs.Results.{IfBad, IsScriptOrNoMemory, IsBadOrNoMemory};
ghost use Rattle.script_text.specs.Writing.{HasText};

use crate::error::{LineError, ScriptError};
use crate::forms::{command_of, opening_of};
use crate::numbers::number_of;
use crate::words::{Word, cut, is_note, words_of};
use script_text::{BadLine, Cause, Command, Line, Lines, Opening, Openings, Script, TextKind};
use std::alloc::Global;
use world_model::Settings;

fn caller_of(word: &Word) -> Result<u64, LineError>
    ensures { Gives result (caller_from (number_of word.now)) }
{
    match number_of(word.as_slice()) {
        Some(caller) if caller <= 15 => Ok(caller),
        _ => Err(LineError::Bad(Cause::BadCaller)),
    }
}

/// Whether a text of this kind may have the command: a replay may have every command.
fn is_in(kind: TextKind, _command: &Command) -> bool
    ensures { result ≡ is_in kind _command.now }
{
    match kind {
        TextKind::Replay => true,
    }
}

/// The settings, with what the opening line sets.
fn with_set(settings: Settings, opening: &Opening) -> Settings
    ensures { result ≡ with_set settings opening.now }
{
    match opening {
        Opening::Case(case) => Settings {
            case: *case,
            ..settings
        },
        Opening::Queue(queue) => Settings {
            queue: *queue,
            ..settings
        },
        Opening::Places(places) => Settings {
            places: *places,
            ..settings
        },
        Opening::Workers(workers) => Settings {
            workers: *workers,
            ..settings
        },
        Opening::Dir(_) | Opening::File(_, _) => settings,
    }
}

/// Whether both lines are the same setting.
fn is_same_setting(opening: &Opening, other: &Opening) -> bool
    ensures { result ≡ is_same_setting opening.now other.now }
{
    matches!(
        (opening, other),
        (Opening::Case(_), Opening::Case(_))
            | (Opening::Queue(_), Opening::Queue(_))
            | (Opening::Places(_), Opening::Places(_))
            | (Opening::Workers(_), Opening::Workers(_))
    )
}

/// Whether the line is a setting that stands among the earlier ones. Only a setting looks at them, so
/// that a script of many files is read in a time that grows with its length.
fn is_repeated(opening: &Opening, earlier: &[Opening]) -> bool
    ensures { result ≡ list_any (is_same_setting opening.now) earlier.now }
{
    match opening {
        Opening::Dir(_) => false,
        Opening::File(_, _) => false,
        _ => earlier.iter().any(|other| is_same_setting(opening, other)),
    }
}

fn add_setting(alloc: Global, script: &mut Script, words: &[Word]) -> Result<(), LineError>
    ensures { Adds result script.new (with_setting script.old words.now) }
{
    let Some((word, args)) = words.split_first() else {
        return Err(LineError::Bad(Cause::WrongCount));
    };
    let opening = opening_of(alloc, word.as_slice(), args)?;
    if is_repeated(&opening, script.opening.as_slice()) {
        return Err(LineError::Bad(Cause::Repeated));
    }
    let settings = with_set(script.settings, &opening);
    script.opening.push(opening)?;
    script.settings = settings;
    Ok(())
}

fn add_command(
    alloc: Global,
    kind: TextKind,
    script: &mut Script,
    caller: u64,
    words: &[Word],
) -> Result<(), LineError>
    ensures { Adds result script.new (with_command kind script.old caller words.now) }
{
    let Some((word, args)) = words.split_first() else {
        return Err(LineError::Bad(Cause::WrongCount));
    };
    let command = command_of(alloc, word.as_slice(), args)?;
    if !is_in(kind, &command) {
        return Err(LineError::Bad(Cause::UnknownWord));
    }
    script.lines.push(Line { caller, command })?;
    Ok(())
}

#[tactic(auto, unfolding(crate::specs::Reading::with_words))]
fn add_words(
    alloc: Global,
    kind: TextKind,
    script: &mut Script,
    words: &[Word],
) -> Result<(), LineError>
    ensures { Adds result script.new (with_words kind script.old words.now) }
{
    let Some((first, more)) = words.split_first() else {
        return Err(LineError::Bad(Cause::BadCaller));
    };
    if first.as_slice() == b"set".as_slice() {
        if !script.lines.is_empty() {
            return Err(LineError::Bad(Cause::LateSetting));
        }
        return add_setting(alloc, script, more);
    }
    let caller = caller_of(first)?;
    add_command(alloc, kind, script, caller, more)
}

#[tactic(auto, unfolding(crate::specs::Reading::after_line))]
fn add_line(
    alloc: Global,
    kind: TextKind,
    script: &mut Script,
    line: &[u8],
) -> Result<(), LineError>
    ensures { Adds result script.new (after_line kind script.old line.now) }
{
    if is_note(line) {
        return Ok(());
    }
    let words = words_of(alloc, line)?;
    add_words(alloc, kind, script, words.as_slice())
}

fn read_lines(alloc: Global, kind: TextKind, text: &[u8]) -> Result<Script, ScriptError>
    ensures { Reads result (script_of kind text.now) }
{
    let mut script = Script {
        settings: Settings::default(),
        opening: Openings::from_vec(Vec::new(alloc)),
        lines: Lines::from_vec(Vec::new(alloc)),
    };
    let mut number: u64 = 1;
    let mut rest = text;
    loop {
        let (line, after) = cut(rest, b'\n');
        let Some(after) = after else {
            if line.is_empty() {
                return Ok(script);
            }
            let cause = Cause::NoLineEnd;
            return Err(ScriptError::Bad(BadLine {
                line: number,
                cause,
            }));
        };
        match add_line(alloc, kind, &mut script, line) {
            Ok(()) => {}
            Err(LineError::Bad(cause)) => {
                return Err(ScriptError::Bad(BadLine {
                    line: number,
                    cause,
                }));
            }
            Err(LineError::NoMemory) => return Err(ScriptError::NoMemory),
        }
        number += 1;
        rest = after;
    }
}

/// The script of a text.
///
/// `Bad` comes exactly where the text is no script, and tells its first bad line; `NoMemory` is
/// want of memory.
pub fn read_script(alloc: Global, text: &[u8]) -> Result<Script, ScriptError>
    // What is read is the script of the text, and what is told is its first bad line.
    ensures found { IfOk result (λ s. IsTextOf TextKind.Replay text.now s) }
    ensures bad { IfErr result (λ e. IfBad e (FirstBad TextKind.Replay text.now)) }

    // What is read can be written.
    ensures writable { IfOk result HasText }

    // The text of a script is read, and a bad line is told, unless memory runs out.
    ensures read { (s : Script) → IsTextOf TextKind.Replay text.now s → IsScriptOrNoMemory result s }
    ensures named { (b : BadLine) → FirstBad TextKind.Replay text.now b → IsBadOrNoMemory result b }
{
    read_lines(alloc, TextKind::Replay, text)
}
