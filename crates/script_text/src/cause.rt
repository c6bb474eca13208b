//! Why a line is bad.

ghost use Rattle.std.specs.Prelude.{◌≡◌};
ghost use Rattle.script_text.specs.Causes.{number_of_cause};

use vfs_path::PathError;

/// What is wrong with a line.
///
/// Where several hold, the first of these is told: `NoLineEnd`, `EmptyWord`, `BadEscape`,
/// `BadCaller`, `LateSetting`, `WrongCount` for a missing second word, `UnknownWord`, `WrongCount`,
/// then what the words after the second say, from left to right, and `Repeated`.
#[derive(Clone, Copy, Debug, PartialEq, Eq)]
pub enum Cause {
    /// The text does not end with LF, and this is what stands after the last LF.
    NoLineEnd,
    /// A word has a `%` that no two hexadecimal digits follow.
    BadEscape,
    /// The line is no note and has a space at an end, or two together.
    EmptyWord,
    /// The second word is no command, or no setting where the first is `set`.
    UnknownWord,
    /// The first word is neither `set` nor a number from 0 to 15.
    BadCaller,
    /// The number of a setting is spelled otherwise or out of its limits, or the case is no word for
    /// one.
    BadNumber,
    /// The same setting stands on an earlier line.
    Repeated,
    /// The first word is `set`, and a command line came before.
    LateSetting,
    /// The line has no second word, or more or fewer words than its form.
    WrongCount,
    /// The text of a path is refused; the refusal is not want of memory.
    BadPath(PathError),
    /// The contents of a file have more than 1,048,576 bytes.
    TooLarge,
    /// An input begins with none of `abs:`, `rel:`, `name:` and `none:`.
    BadInput,
}

impl Cause {
    /// The number of the cause, from 1 to 12.
    pub fn number(self) -> u64
        ensures { result ≡ number_of_cause self }
    {
        match self {
            Cause::NoLineEnd => 1,
            Cause::BadEscape => 2,
            Cause::EmptyWord => 3,
            Cause::UnknownWord => 4,
            Cause::BadCaller => 5,
            Cause::BadNumber => 6,
            Cause::Repeated => 7,
            Cause::LateSetting => 8,
            Cause::WrongCount => 9,
            Cause::BadPath(_) => 10,
            Cause::TooLarge => 11,
            Cause::BadInput => 12,
        }
    }
}

/// The first line that no script has there. Lines count from 1, notes included.
#[derive(Clone, Copy, Debug, PartialEq, Eq)]
pub struct BadLine {
    /// The line.
    pub line: u64,
    /// What is wrong with it.
    pub cause: Cause,
}
