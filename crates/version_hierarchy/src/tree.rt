//! The numbers of the invalidated paths, in the place of the list.

ghost use Rattle.std.specs.Prelude.{[], ◌≡◌};
ghost use Rattle.vfs_model.specs.Stands.{StandsFor};
ghost use Rattle.tree_model.specs.Numbers.{at_in};

use crate::numbers::Numbers;
use crate::versions::Versions;
use case_order::{Case, NoMemory};
use std::alloc::Global;
use std::marker::Model;
use vfs_path::Path;

/// At each place that was invalidated, or that leads to one, the number of its own last entry and
/// the greatest number of one below it. A version is looked up in time that grows with the names of
/// the path, and a raised value shares with the old one what is off the way. What is kept grows with
/// how many different paths were invalidated, and not with how often.
///
/// Contracts see the case, how many paths were invalidated, and the numbers.
#[derive(Drop)]
pub struct TreeVersions {
    alloc: Global,
    case: Case,
    count: u64,
    root: Numbers,
}

impl Model for TreeVersions {
    ghost use Rattle.version_hierarchy.specs.Tree.{Numbered, numbered_code};

    ghost Value = { Numbered };

    ghost coded = { numbered_code };

    ghost use Rattle.tree_model.specs.Numbers.{IsSorted};
    ghost use Rattle.version_hierarchy.specs.Numbers.{numbers_of};

    ghost view = { λ t. record { case = t.case; count = t.count; numbers = numbers_of t.root } };

    ghost invariant = { λ t. IsSorted t.case (numbers_of t.root) };
}

impl TreeVersions {
    /// What stands for the empty list; takes no memory.
    pub fn new(alloc: Global, case: Case) -> TreeVersions
        ensures case { result.case ≡ case }
        ensures stands { StandsFor (at_in case result.numbers) result.count [] }
    {
        TreeVersions {
            alloc,
            case,
            count: 0,
            root: Numbers::none(alloc),
        }
    }
}

impl Versions for TreeVersions {
    ghost case = { λ v. v.case };

    ghost version = { λ v x. at_in v.case v.numbers x };

    ghost count = { λ v. v.count };

    fn case(&self) -> Case {
        self.case
    }

    fn at(&self, path: &Path) -> u64 {
        self.root.at(self.case, path.as_slice())
    }

    fn count(&self) -> u64 {
        self.count
    }

    fn raised(&self, path: &Path) -> Result<TreeVersions, NoMemory> {
        let count = self.count + 1;
        let root = self
            .root
            .raised(self.alloc, self.case, path.as_slice(), count)?;
        Ok(TreeVersions {
            alloc: self.alloc,
            case: self.case,
            count,
            root,
        })
    }
}
