//! The forms of lines.

ghost use Rattle.std.specs.Prelude.{◌≡◌};
ghost use Rattle.std.specs.Option.{option_copied, option_map};
ghost use Rattle.script_reader.specs.Numbers.{number_of};
ghost use Rattle.script_reader.specs.Gives.{Gives};
ghost use Rattle.script_reader.specs.Forms.{path_from, content_from, file_from, within, case_from, no_more, one_path, two_paths, one_file, one_number, one_case, opening_of, behind, cut_input, input_from, some_inputs, plain_command_of, input_command_of, path_command_of, command_of};
ghost use Rattle.script_text.specs.Steps.{all_from};

use crate::error::LineError;
use crate::numbers::number_of;
use crate::words::Word;
use case_order::Case;
use fingerprint_norms::{Input, Inputs, Sensitivity};
use merkle_hash::Bytes;
use script_text::{Cause, Command, Opening};
use std::alloc::Global;
use vfs_path::{Path, PathError};
use world_model::Edit;

fn path_from(alloc: Global, word: &[u8]) -> Result<Path, LineError>
    ensures { Gives result (path_from word.now) }
{
    match Path::parse(alloc, word) {
        Ok(path) => Ok(path),
        Err(PathError::NoMemory) => Err(LineError::NoMemory),
        Err(refusal) => Err(LineError::Bad(Cause::BadPath(refusal))),
    }
}

fn content_from(alloc: Global, word: &[u8]) -> Result<Bytes, LineError>
    ensures { Gives result (content_from word.now) }
{
    if word.len() > 1_048_576 {
        return Err(LineError::Bad(Cause::TooLarge));
    }
    let bytes = Vec::from_slice(alloc, word)?;
    match Bytes::from_vec(alloc, bytes) {
        Ok(content) => Ok(content),
        Err(_) => Err(LineError::NoMemory),
    }
}

fn file_from(alloc: Global, word: &[u8], bytes: &[u8]) -> Result<(Path, Bytes), LineError>
    ensures { Gives result (file_from word.now bytes.now) }
{
    let path = path_from(alloc, word)?;
    let content = content_from(alloc, bytes)?;
    Ok((path, content))
}

fn number_from(limit: u64, word: &[u8]) -> Result<u64, LineError>
    ensures { Gives result (within limit (number_of word.now)) }
{
    match number_of(word) {
        Some(number) if 1 <= number && number <= limit => Ok(number),
        _ => Err(LineError::Bad(Cause::BadNumber)),
    }
}

fn case_from(word: &[u8]) -> Result<Case, LineError>
    ensures { Gives result (case_from word.now) }
{
    if word == b"sensitive".as_slice() {
        return Ok(Case::Sensitive);
    }
    if word == b"insensitive".as_slice() {
        return Ok(Case::Insensitive);
    }
    Err(LineError::Bad(Cause::BadNumber))
}

/// What follows the front of a word, where the word begins with it.
fn behind<'a>(front: &[u8], word: &'a [u8]) -> Option<&'a [u8]>
    ensures { option_copied result ≡ behind front.now word.now }
{
    word.strip_prefix(front)
}

/// How much of the paths an input takes, and the text of its root.
fn cut_input(word: &[u8]) -> Option<(Sensitivity, &[u8])>
    ensures { option_map (λ parts. (parts.0, parts.1.now)) result ≡ cut_input word.now }
{
    if let Some(text) = behind(b"abs:", word) {
        return Some((Sensitivity::Absolute, text));
    }
    if let Some(text) = behind(b"rel:", word) {
        return Some((Sensitivity::Relative, text));
    }
    if let Some(text) = behind(b"name:", word) {
        return Some((Sensitivity::NameOnly, text));
    }
    let text = behind(b"none:", word)?;
    Some((Sensitivity::Ignored, text))
}

fn input_from(alloc: Global, word: &[u8]) -> Result<Input, LineError>
    ensures { Gives result (input_from word.now) }
{
    let Some((sensitivity, text)) = cut_input(word) else {
        return Err(LineError::Bad(Cause::BadInput));
    };
    let root = path_from(alloc, text)?;
    Ok(Input { root, sensitivity })
}

fn inputs_from(alloc: Global, args: &[Word]) -> Result<Inputs, LineError>
    ensures { Gives result (all_from input_from args.now) }
{
    let mut inputs = Vec::new(alloc);
    for word in args {
        inputs.push(input_from(alloc, word.as_slice())?)?;
    }
    Ok(Inputs::from_vec(inputs))
}

fn no_more(args: &[Word]) -> Result<(), LineError>
    ensures { Gives result (no_more args.now) }
{
    if args.is_empty() {
        Ok(())
    } else {
        Err(LineError::Bad(Cause::WrongCount))
    }
}

fn one_path(alloc: Global, args: &[Word]) -> Result<Path, LineError>
    ensures { Gives result (one_path args.now) }
{
    match args {
        [word] => path_from(alloc, word.as_slice()),
        _ => Err(LineError::Bad(Cause::WrongCount)),
    }
}

fn two_paths(alloc: Global, args: &[Word]) -> Result<(Path, Path), LineError>
    ensures { Gives result (two_paths args.now) }
{
    match args {
        [word, other] => {
            let from = path_from(alloc, word.as_slice())?;
            let to = path_from(alloc, other.as_slice())?;
            Ok((from, to))
        }
        _ => Err(LineError::Bad(Cause::WrongCount)),
    }
}

/// A path, and the contents of a file, which is empty where they are not given.
fn one_file(alloc: Global, args: &[Word]) -> Result<(Path, Bytes), LineError>
    ensures { Gives result (one_file args.now) }
{
    match args {
        [word] => file_from(alloc, word.as_slice(), b"".as_slice()),
        [word, bytes] => file_from(alloc, word.as_slice(), bytes.as_slice()),
        _ => Err(LineError::Bad(Cause::WrongCount)),
    }
}

/// A number from 1 to the limit.
fn one_number(limit: u64, args: &[Word]) -> Result<u64, LineError>
    ensures { Gives result (one_number limit args.now) }
{
    match args {
        [word] => number_from(limit, word.as_slice()),
        _ => Err(LineError::Bad(Cause::WrongCount)),
    }
}

fn one_case(args: &[Word]) -> Result<Case, LineError>
    ensures { Gives result (one_case args.now) }
{
    match args {
        [word] => case_from(word.as_slice()),
        _ => Err(LineError::Bad(Cause::WrongCount)),
    }
}

/// 1 to 64 inputs.
fn some_inputs(alloc: Global, args: &[Word]) -> Result<Inputs, LineError>
    ensures { Gives result (some_inputs args.now) }
{
    if args.is_empty() || args.len() > 64 {
        return Err(LineError::Bad(Cause::WrongCount));
    }
    inputs_from(alloc, args)
}

/// The opening line of a word after `set` and the words after it.
#[tactic(auto, unfolding(crate::specs::Forms::opening_of))]
pub(crate) fn opening_of(alloc: Global, word: &[u8], args: &[Word]) -> Result<Opening, LineError>
    ensures { Gives result (opening_of word.now args.now) }
{
    if word == b"case".as_slice() {
        return Ok(Opening::Case(one_case(args)?));
    }
    if word == b"queue".as_slice() {
        return Ok(Opening::Queue(one_number(65_536, args)?));
    }
    if word == b"places".as_slice() {
        return Ok(Opening::Places(one_number(65_536, args)?));
    }
    if word == b"workers".as_slice() {
        return Ok(Opening::Workers(one_number(16, args)?));
    }
    if word == b"dir".as_slice() {
        return Ok(Opening::Dir(one_path(alloc, args)?));
    }
    if word == b"file".as_slice() {
        let (path, content) = one_file(alloc, args)?;
        return Ok(Opening::File(path, content));
    }
    Err(LineError::Bad(Cause::UnknownWord))
}

/// The command of a word and the words after it.
#[tactic(auto, unfolding(crate::specs::Forms::command_of))]
pub(crate) fn command_of(alloc: Global, word: &[u8], args: &[Word]) -> Result<Command, LineError>
    ensures { Gives result (command_of word.now args.now) }
{
    if word == b"write".as_slice() {
        let (path, content) = one_file(alloc, args)?;
        return Ok(Command::Edit(Edit::Write(path, content)));
    }
    if word == b"mkdir".as_slice() {
        return Ok(Command::Edit(Edit::Mkdir(one_path(alloc, args)?)));
    }
    if word == b"remove".as_slice() {
        return Ok(Command::Edit(Edit::Remove(one_path(alloc, args)?)));
    }
    if word == b"move".as_slice() {
        let (from, to) = two_paths(alloc, args)?;
        return Ok(Command::Edit(Edit::Move(from, to)));
    }
    path_command_of(alloc, word, args)
}

/// The command where it is no edit: one on a path, on inputs, or a word alone.
#[tactic(auto, unfolding(crate::specs::Forms::path_command_of))]
fn path_command_of(alloc: Global, word: &[u8], args: &[Word]) -> Result<Command, LineError>
    ensures { Gives result (path_command_of word.now args.now) }
{
    if word == b"event".as_slice() {
        return Ok(Command::Event(one_path(alloc, args)?));
    }
    if word == b"begin".as_slice() {
        return Ok(Command::Begin(one_path(alloc, args)?));
    }
    if word == b"scan".as_slice() {
        return Ok(Command::Scan(one_path(alloc, args)?));
    }
    if word == b"find".as_slice() {
        return Ok(Command::Find(one_path(alloc, args)?));
    }
    if word == b"kind".as_slice() {
        return Ok(Command::KindOf(one_path(alloc, args)?));
    }
    if word == b"version".as_slice() {
        return Ok(Command::VersionOf(one_path(alloc, args)?));
    }
    input_command_of(alloc, word, args)
}

/// The command where it is one on inputs, or a word alone.
#[tactic(auto, unfolding(crate::specs::Forms::input_command_of))]
fn input_command_of(alloc: Global, word: &[u8], args: &[Word]) -> Result<Command, LineError>
    ensures { Gives result (input_command_of word.now args.now) }
{
    if word == b"print".as_slice() {
        return Ok(Command::Print(some_inputs(alloc, args)?));
    }
    if word == b"build".as_slice() {
        return Ok(Command::Build(some_inputs(alloc, args)?));
    }
    plain_command_of(word, args)
}

/// The command where it is a word alone.
#[tactic(auto, unfolding(crate::specs::Forms::plain_command_of))]
fn plain_command_of(word: &[u8], args: &[Word]) -> Result<Command, LineError>
    ensures { Gives result (plain_command_of word.now args.now) }
{
    if word == b"lose".as_slice() {
        no_more(args)?;
        return Ok(Command::Lose);
    }
    if word == b"deliver".as_slice() {
        no_more(args)?;
        return Ok(Command::Deliver);
    }
    if word == b"settle".as_slice() {
        no_more(args)?;
        return Ok(Command::Settle);
    }
    if word == b"read".as_slice() {
        no_more(args)?;
        return Ok(Command::Read);
    }
    if word == b"publish".as_slice() {
        no_more(args)?;
        return Ok(Command::Publish);
    }
    if word == b"abandon".as_slice() {
        no_more(args)?;
        return Ok(Command::Abandon);
    }
    Err(LineError::Bad(Cause::UnknownWord))
}
