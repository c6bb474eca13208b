//! Lines as words.

ghost use Rattle.std.specs.Prelude.{◌≡◌, ◌<◌, ◌+◌, ◌∷◌, ◌==◌, length, position, IfSome, IfOk, MatchResult};
ghost use Rattle.std.specs.List.{slice_split, list_any};
ghost use Rattle.std.specs.Option.{option_map, option_copied};
ghost use Rattle.vfs_path.specs.Texts.{is_empty};
ghost use Rattle.script_reader.specs.Gives.{Gives, GivesBy, Fails};
ghost use Rattle.script_text.specs.Words.{is_note, hex_of, hex_pair, value_of, words_of, values_of};
ghost use Rattle.script_reader.specs.Pieces.{parts_after, unit_and};

use crate::error::LineError;
use script_text::Cause;
use std::alloc::Global;
use std::marker::Model;

/// A word of a line. Contracts see its value, a list of bytes.
#[derive(Drop)]
pub(crate) struct Word {
    value: Vec<u8>,
}

impl Model for Word {
    ghost use Rattle.std.specs.Prelude.{List, ℕ};

    ghost Value = { List ℕ };

    ghost view = { λ w. w.value.items };
}

impl Word {
    /// The bytes that the word stands for.
    pub(crate) fn as_slice(&self) -> &[u8]
        ensures { result.now ≡ self.now }
    {
        self.value.as_slice()
    }
}

fn place_of(bytes: &[u8], at: u8) -> Option<usize>
    ensures { result ≡ position (λ b. b == at) bytes.now }
{
    bytes.iter().position(|b| *b == at)
}

/// The part before the first such byte, and what follows that byte.
pub(crate) fn cut(bytes: &[u8], at: u8) -> (&[u8], Option<&[u8]>)
    ensures parts { slice_split (λ b. b == at) bytes.now ≡ result.0.now ∷ parts_after at (option_copied result.1) }
    ensures shorter { IfSome result.1 (λ rest. length rest.now + length result.0.now < length bytes.now) }
{
    match place_of(bytes, at) {
        None => (bytes, None),
        Some(i) => {
            let (part, rest) = bytes.split_at(i);
            (part, Some(&rest[1..]))
        }
    }
}

/// An empty line or one that begins with `#`, by its bytes and not by what they stand for.
pub(crate) fn is_note(line: &[u8]) -> bool
    ensures { result ≡ is_note line.now }
{
    match line {
        [] => true,
        [first, ..] => *first == b'#',
    }
}

fn hex_of(byte: u8) -> Option<u8>
    ensures value { result ≡ hex_of byte }
    ensures small { IfSome result (λ n. n < 16) }
{
    match byte {
        b'0'..=b'9' => Some(byte - b'0'),
        b'a'..=b'f' => Some(byte - 87),
        b'A'..=b'F' => Some(byte - 55),
        _ => None,
    }
}

fn hex_pair(high: u8, low: u8) -> Option<u8>
    ensures { result ≡ hex_pair (hex_of high) (hex_of low) }
{
    let high = hex_of(high)?;
    let low = hex_of(low)?;
    Some(high * 16 + low)
}

/// The byte that the first unit of a word stands for, and what follows the unit.
fn unit_of(bytes: &[u8]) -> Result<Option<(u8, &[u8])>, LineError>
    ensures value { MatchResult result (λ o. value_of bytes.now ≡ unit_and (option_map (λ u. (u.0, u.1.now)) o)) (λ e. Fails e (value_of bytes.now)) }
    ensures shorter { IfOk result (λ o. IfSome o (λ u. length u.1.now < length bytes.now)) }
{
    let Some((&first, rest)) = bytes.split_first() else {
        return Ok(None);
    };
    if first != b'%' {
        return Ok(Some((first, rest)));
    }
    match rest {
        [high, low, after @ ..] => match hex_pair(*high, *low) {
            Some(byte) => Ok(Some((byte, after))),
            None => Err(LineError::Bad(Cause::BadEscape)),
        },
        _ => Err(LineError::Bad(Cause::BadEscape)),
    }
}

fn value_of(alloc: Global, word: &[u8]) -> Result<Word, LineError>
    ensures { Gives result (value_of word.now) }
{
    let mut value = Vec::new(alloc);
    let mut rest = word;
    while let Some((byte, after)) = unit_of(rest)? {
        value.push(byte)?;
        rest = after;
    }
    Ok(Word { value })
}

fn has_empty_word(line: &[u8]) -> bool
    ensures { result ≡ list_any is_empty (slice_split (λ b. b == 32) line.now) }
{
    let mut left = Some(line);
    while let Some(rest) = left {
        let (word, after) = cut(rest, b' ');
        if word.is_empty() {
            return true;
        }
        left = after;
    }
    false
}

/// The words of a line.
#[tactic(auto, unfolding(script_text::specs::Words::words_of))]
pub(crate) fn words_of(alloc: Global, line: &[u8]) -> Result<Vec<Word>, LineError>
    ensures { GivesBy (λ words. words.items) result (words_of line.now) }
{
    if has_empty_word(line) {
        return Err(LineError::Bad(Cause::EmptyWord));
    }
    values_of(alloc, line)
}

#[tactic(auto, unfolding(script_text::specs::Words::values_of))]
fn values_of(alloc: Global, line: &[u8]) -> Result<Vec<Word>, LineError>
    ensures { GivesBy (λ words. words.items) result (values_of (slice_split (λ b. b == 32) line.now)) }
{
    let mut words = Vec::new(alloc);
    let mut left = Some(line);
    while let Some(rest) = left {
        let (word, after) = cut(rest, b' ');
        words.push(value_of(alloc, word)?)?;
        left = after;
    }
    Ok(words)
}
