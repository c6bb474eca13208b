//! How a run ended.

ghost use Rattle.std.specs.Prelude.{◌≡◌};
ghost use Rattle.vfs_tool.specs.Statuses.{number_of_status};

use script_reader::{BadLine, Cause};
use std::fmt;

/// How a run ended.
#[derive(Clone, Copy, Debug, PartialEq, Eq)]
pub enum Status {
    /// The input was taken to its end, and the whole report was put.
    Done,
    /// The input is no script: its first bad line. Nothing was put.
    BadScript(BadLine),
    /// The words are not those of a form. Nothing was taken or put.
    Usage,
    /// The source's count of faults rose. Nothing was put.
    ReadFault,
    /// The sink's count of faults rose. Lines of the report were put, from the first on, each by a call
    /// of its own, and a prefix of the next one; of `gen` a prefix of its one line.
    WriteFault,
    /// Want of memory. Whole lines of the report were put, from the first on; of `gen` nothing.
    NoMemory,
    /// The input has more than 16,777,216 bytes. Nothing was put.
    TooLong,
}

impl Status {
    /// The number with which the process ends: 0 to 6, as the statuses are declared.
    pub fn number(self) -> u8
        ensures { result ≡ number_of_status self }
    {
        match self {
            Status::Done => 0,
            Status::BadScript(_) => 1,
            Status::Usage => 2,
            Status::ReadFault => 3,
            Status::WriteFault => 4,
            Status::NoMemory => 5,
            Status::TooLong => 6,
        }
    }
}

/// What is told of a run that was not done; nothing for `Done`.
impl fmt::Display for Status {
    ghost use Rattle.std.specs.Prelude.{Some};
    ghost use Rattle.vfs_tool.specs.Statuses.{status_text};

    ghost output = { λ s. Some (status_text s) };

    fn fmt<W: fmt::Write>(&self, f: &mut fmt::Formatter<W>) -> fmt::Result {
        match self {
            Status::Done => Ok(()),
            Status::BadScript(bad) => {
                let line = bad.line;
                let cause = bad.cause.number();
                match bad.cause {
                    Cause::BadPath(refusal) => {
                        let refusal = refusal.number();
                        write!(f, "bad line {line}: cause {cause} path {refusal}")
                    }
                    _ => write!(f, "bad line {line}: cause {cause}"),
                }
            }
            Status::Usage => {
                f.write_str("usage: vfs replay, vfs folder DIR, vfs race, vfs gen N")
            }
            Status::ReadFault => f.write_str("read fault"),
            Status::WriteFault => f.write_str("write fault"),
            Status::NoMemory => f.write_str("no memory"),
            Status::TooLong => f.write_str("too long"),
        }
    }
}
