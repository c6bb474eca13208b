//! What a script is.

ghost use Rattle.std.specs.Prelude.{◌≡◌, [], ◌∷◌, ◌++◌, ◌==◌, length, IfOk, OnOk, OnErr};

use case_order::{Case, NoMemory, Share, share_all};
use fingerprint_norms::Inputs;
use merkle_hash::Bytes;
use std::marker::Model;
use vfs_path::Path;
use world_model::{Edit, Settings};

/// What a text is read as, which decides what commands it may have.
#[derive(Clone, Copy, Debug, PartialEq, Eq)]
pub enum TextKind {
    /// Its lines are done one after the other, and it may have every command.
    Replay,
}

/// What comes before the first command: settings of the whole run, each at most once, and what stands
/// in the tree, which no event tells of.
#[derive(Debug, Drop)]
pub enum Opening {
    /// `set case sensitive` or `set case insensitive`: how names are compared.
    Case(Case),
    /// `set queue N`: how many events the queue holds, 1 to 65,536.
    Queue(u64),
    /// `set places N`: how many calls of a race get a place, 1 to 65,536. A replay has no use for it.
    Places(u64),
    /// `set workers N`: on how many threads contents are hashed, 1 to 16.
    Workers(u64),
    /// `set dir PATH`: a directory.
    Dir(Path),
    /// `set file PATH` or `set file PATH BYTES`: a file, of at most 1,048,576 bytes; empty where
    /// no bytes are given.
    File(Path, Bytes),
}

/// What a caller does.
#[derive(Debug, Drop)]
pub enum Command {
    /// An edit of the tree: `write PATH` or `write PATH BYTES`, with at most 1,048,576 bytes and
    /// none where none are given; `mkdir PATH`, `remove PATH`, and `move PATH PATH`, from the first
    /// path to the second.
    Edit(Edit),
    /// `event PATH`: an event is told that no edit made.
    Event(Path),
    /// `lose`: what is pending is lost, and the mark that events were lost is set.
    Lose,
    /// `deliver`: the next of what is pending is delivered.
    Deliver,
    /// `settle`: all that is pending is delivered.
    Settle,
    /// `begin PATH`: the caller's scan of the path begins.
    Begin(Path),
    /// `read`: the caller's scan takes its next look.
    Read,
    /// `publish`: the caller's scan ends, and what it saw is stored where it may be.
    Publish,
    /// `abandon`: the caller's scan ends, and what it saw is dropped.
    Abandon,
    /// `scan PATH`: a whole scan of the path, from its begin to its publication.
    Scan(Path),
    /// `find PATH`: what is retained of the path.
    Find(Path),
    /// `kind PATH`: of what kind the path is, as far as is retained.
    KindOf(Path),
    /// `version PATH`: the path's version.
    VersionOf(Path),
    /// `print INPUT ..`: the fingerprint of 1 to 64 inputs. An input is `abs:`, `rel:`, `name:` or
    /// `none:`, for how much of the paths is taken, and the text of its root.
    Print(Inputs),
    /// `build INPUT ..`: all that is pending is delivered, what is not retained of 1 to 64 inputs is
    /// scanned, and their fingerprint is taken.
    Build(Inputs),
}

/// A command line.
#[derive(Debug, Drop)]
pub struct Line {
    /// The caller, from 0 to 15.
    pub caller: u64,
    /// What it does.
    pub command: Command,
}

impl Share for Opening {
    fn share(&self) -> Result<Opening, NoMemory> {
        Ok(match self {
            Opening::Case(case) => Opening::Case(*case),
            Opening::Queue(queue) => Opening::Queue(*queue),
            Opening::Places(places) => Opening::Places(*places),
            Opening::Workers(workers) => Opening::Workers(*workers),
            Opening::Dir(path) => Opening::Dir(path.share()?),
            Opening::File(path, content) => Opening::File(path.share()?, content.share()?),
        })
    }
}

impl Share for Command {
    fn share(&self) -> Result<Command, NoMemory> {
        Ok(match self {
            Command::Edit(edit) => Command::Edit(edit.share()?),
            Command::Event(path) => Command::Event(path.share()?),
            Command::Lose => Command::Lose,
            Command::Deliver => Command::Deliver,
            Command::Settle => Command::Settle,
            Command::Begin(path) => Command::Begin(path.share()?),
            Command::Read => Command::Read,
            Command::Publish => Command::Publish,
            Command::Abandon => Command::Abandon,
            Command::Scan(path) => Command::Scan(path.share()?),
            Command::Find(path) => Command::Find(path.share()?),
            Command::KindOf(path) => Command::KindOf(path.share()?),
            Command::VersionOf(path) => Command::VersionOf(path.share()?),
            Command::Print(inputs) => Command::Print(inputs.share()?),
            Command::Build(inputs) => Command::Build(inputs.share()?),
        })
    }
}

impl Share for Line {
    fn share(&self) -> Result<Line, NoMemory> {
        Ok(Line {
            caller: self.caller,
            command: self.command.share()?,
        })
    }
}

/// A list of opening lines.
#[derive(Debug, Drop)]
pub struct Openings {
    items: Vec<Opening>,
}

impl Model for Openings {
    ghost use Rattle.std.specs.Prelude.{List};
    ghost use Rattle.script_text.specs.declared.script.Opening.{Opening};

    ghost Value = { List Opening };

    ghost view = { λ s. s.items.items };
}

impl Openings {
    /// The opening lines of the vector; takes no memory.
    pub fn from_vec(items: Vec<Opening>) -> Openings
        ensures { result ≡ items.items }
    {
        Openings { items }
    }

    /// The opening lines.
    pub fn as_slice(&self) -> &[Opening]
        ensures { result.now ≡ self.now }
    {
        self.items.as_slice()
    }

    /// Puts an opening line last.
    ///
    /// The only error is want of memory; the list then stays.
    pub fn push(&mut self, opening: Opening) -> Result<(), NoMemory>
        ensures ok { OnOk result (self.new ≡ self.old ++ opening ∷ []) }
        ensures err { OnErr result (self.new ≡ self.old) }
    {
        self.items.push(opening)?;
        Ok(())
    }
}

impl Share for Openings {
    fn share(&self) -> Result<Openings, NoMemory> {
        let items = share_all(*self.items.allocator(), &self.items)?;
        Ok(Openings { items })
    }
}

/// A list of command lines.
#[derive(Debug, Drop)]
pub struct Lines {
    items: Vec<Line>,
}

impl Model for Lines {
    ghost use Rattle.std.specs.Prelude.{List};
    ghost use Rattle.script_text.specs.declared.script.Line.{Line};

    ghost Value = { List Line };

    ghost view = { λ s. s.items.items };
}

impl Lines {
    /// The lines of the vector; takes no memory.
    pub fn from_vec(items: Vec<Line>) -> Lines
        ensures { result ≡ items.items }
    {
        Lines { items }
    }

    /// The lines.
    pub fn as_slice(&self) -> &[Line]
        ensures { result.now ≡ self.now }
    {
        self.items.as_slice()
    }

    /// Whether there is no line.
    pub fn is_empty(&self) -> bool
        ensures { result ≡ (length self.now == 0) }
    {
        self.items.is_empty()
    }

    /// Puts a line last.
    ///
    /// The only error is want of memory; the list then stays.
    pub fn push(&mut self, line: Line) -> Result<(), NoMemory>
        ensures ok { OnOk result (self.new ≡ self.old ++ line ∷ []) }
        ensures err { OnErr result (self.new ≡ self.old) }
    {
        self.items.push(line)?;
        Ok(())
    }
}

impl Share for Lines {
    fn share(&self) -> Result<Lines, NoMemory> {
        let items = share_all(*self.items.allocator(), &self.items)?;
        Ok(Lines { items })
    }
}

/// A script.
#[derive(Debug, Drop)]
pub struct Script {
    /// What the opening lines set, and what holds where they set nothing.
    pub settings: Settings,
    /// The opening lines, in order. In the text they stand before the first command line.
    pub opening: Openings,
    /// The command lines, in order.
    pub lines: Lines,
}
