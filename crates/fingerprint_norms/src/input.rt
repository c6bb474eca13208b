//! Inputs: roots, and how much of the paths at and below them a fingerprint takes.

ghost use Rattle.std.specs.Prelude.{◌≡◌};

use case_order::{NoMemory, Share, share_all};
use snapshot_tree::Snapshot;
use std::marker::Model;
use vfs_path::Path;

/// How much of the path of a location a fingerprint takes.
#[derive(Clone, Copy, Debug, PartialEq, Eq)]
pub enum Sensitivity {
    /// All of it.
    Absolute,
    /// The names below the root; of a root that is no directory the last name.
    Relative,
    /// The last name; nothing of a root that is a directory.
    NameOnly,
    /// Nothing, and directories have no entry.
    Ignored,
}

/// A root and how the paths at and below it are taken.
#[derive(Debug, Drop)]
pub struct Input {
    pub root: Path,
    pub sensitivity: Sensitivity,
}

impl Share for Input {
    fn share(&self) -> Result<Input, NoMemory> {
        Ok(Input {
            root: self.root.share()?,
            sensitivity: self.sensitivity,
        })
    }
}

/// An input and the snapshot of its root.
#[derive(Debug, Drop)]
pub struct Seen {
    pub input: Input,
    pub snapshot: Snapshot,
}

/// A list of inputs.
#[derive(Debug, Drop)]
pub struct Inputs {
    items: Vec<Input>,
}

impl Model for Inputs {
    ghost use Rattle.std.specs.Prelude.{List};
    ghost use Rattle.std.specs.Coded.{coded_list};
    ghost use Rattle.fingerprint_norms.specs.declared.input.Input.{Input};
    ghost use Rattle.fingerprint_norms.specs.contracts.input.Input as input;

    ghost Value = { List Input };

    ghost coded = { coded_list input.the_row.coded };

    ghost view = { λ i. i.items.items };
}

impl Inputs {
    /// The inputs of the vector; takes no memory.
    pub fn from_vec(items: Vec<Input>) -> Inputs
        ensures { result ≡ items.items }
    {
        Inputs { items }
    }

    /// The inputs.
    pub fn as_slice(&self) -> &[Input]
        ensures { result.now ≡ self.now }
    {
        self.items.as_slice()
    }
}

impl Share for Inputs {
    fn share(&self) -> Result<Inputs, NoMemory> {
        let items = share_all(*self.items.allocator(), &self.items)?;
        Ok(Inputs { items })
    }
}
