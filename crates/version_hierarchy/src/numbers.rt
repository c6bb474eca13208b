//! The numbers of the places that were invalidated, as a tree with one name a level.

ghost use Rattle.std.specs.Prelude.{◌≡◌, IfOk, IfSome, MatchOption};
ghost use Rattle.vfs_model.specs.Paths.{folded_name, place};
ghost use Rattle.vfs_model.specs.World.{AreInOrder};
ghost use Rattle.tree_model.specs.Numbers.{unnumbered, numbers_at, at_in, put, raise, names_in, IsSorted, AreSorted};
ghost use Rattle.version_hierarchy.specs.Numbers.{numbers_of};

use case_order::{Case, NoMemory, Share};
use child_map::{ChildList, Entry, Key};
use std::alloc::Global;
use std::marker::Model;
use vfs_path::Name;

/// The number of the last entry at a place, the greatest number of an entry below it, and the
/// places below it.
#[cycle(numbers)]
#[derive(Drop)]
pub(crate) struct Numbers {
    own: u64,
    below: u64,
    places: Places,
}

/// The places one name below a place, each at its name. Contracts see the names as spelled.
#[cycle(numbers)]
#[derive(Drop)]
pub(crate) struct Places {
    list: ChildList<Numbers>,
}

impl Model for Places {
    ghost use Rattle.tree_model.specs.Numbers.{Places as PlacesOf};
    ghost use Rattle.version_hierarchy.specs.Code.{places_code};

    ghost Value = { PlacesOf };

    ghost coded = { places_code };

    ghost use Rattle.child_map.specs.Keys.{entries_of};
    ghost use Rattle.version_hierarchy.specs.Numbers.{places_in, height_of};

    ghost view = { λ p. places_in (entries_of p.list) };

    ghost size = { height_of };

    ghost use Rattle.version_hierarchy.specs.Falls.{places-fall};

    ghost size_decreases = { λ a h. places-fall a };
}

impl Share for Numbers {
    fn share(&self) -> Result<Numbers, NoMemory> {
        let places = self.places.share()?;
        Ok(Numbers {
            own: self.own,
            below: self.below,
            places,
        })
    }
}

impl Share for Places {
    fn share(&self) -> Result<Places, NoMemory> {
        let list = self.list.copy()?;
        Ok(Places { list })
    }
}

impl Numbers {
    /// No entry is at a place or below it; takes no memory.
    pub(crate) fn none(alloc: Global) -> Numbers
        ensures { numbers_of result ≡ unnumbered }
    {
        Numbers {
            own: 0,
            below: 0,
            places: Places {
                list: ChildList::new(alloc),
            },
        }
    }

    /// The greatest number of an entry that is related to the place at these names.
    pub(crate) fn at(&self, case: Case, path: &[Name]) -> u64
        requires { IsSorted case (numbers_of self.now) }
        ensures { result ≡ at_in case (numbers_of self.now) (place case path.now) }
    {
        match path {
            [] => self.own.max(self.below),
            [name, more @ ..] => match self.places.at(case, name) {
                Some(next) => self.own.max(next.at(case, more)),
                None => self.own,
            },
        }
    }

    /// The numbers with one more entry, at these names. What is off the way is shared.
    ///
    /// The only error is want of memory.
    #[cycle(raised)]
    pub(crate) fn raised(
        &self,
        alloc: Global,
        case: Case,
        path: &[Name],
        number: u64,
    ) -> Result<Numbers, NoMemory>
        requires { IsSorted case (numbers_of self.now) }
        ensures { IfOk result (λ v. numbers_of v ≡ raise case (numbers_of self.now) path.now number) }
    {
        match path {
            [] => {
                let places = self.places.share()?;
                Ok(Numbers {
                    own: number,
                    below: self.below,
                    places,
                })
            }
            [name, more @ ..] => {
                let next = self.places.raised_at(alloc, case, name, more, number)?;
                let places = self.places.with(case, name, next)?;
                Ok(Numbers {
                    own: self.own,
                    below: number,
                    places,
                })
            }
        }
    }
}

impl Places {
    /// The numbers at a name, if an entry is there or below.
    fn at(&self, case: Case, name: &Name) -> Option<&Numbers>
        requires order { AreInOrder case (names_in self.now) }
        requires sorted { AreSorted case self.now }
        ensures value { MatchOption result (numbers_at case self.now (folded_name case name.now) ≡ unnumbered) (λ next. numbers_at case self.now (folded_name case name.now) ≡ numbers_of next.now) }
        ensures sorted { IfSome result (λ next. IsSorted case (numbers_of next.now)) }
    {
        match self.list.seek(case, name) {
            Ok(i) => Some(&self.list.entries()[i].value),
            Err(_) => None,
        }
    }

    /// The numbers at a name with one more entry, at the names below it.
    #[cycle(raised)]
    fn raised_at(
        &self,
        alloc: Global,
        case: Case,
        name: &Name,
        more: &[Name],
        number: u64,
    ) -> Result<Numbers, NoMemory>
        requires order { AreInOrder case (names_in self.now) }
        requires sorted { AreSorted case self.now }
        ensures { IfOk result (λ v. numbers_of v ≡ raise case (numbers_at case self.now (folded_name case name.now)) more.now number) }
    {
        match self.at(case, name) {
            Some(old) => old.raised(alloc, case, more, number),
            None => Numbers::none(alloc).raised(alloc, case, more, number),
        }
    }

    /// The places with these numbers at a name.
    fn with(&self, case: Case, name: &Name, numbers: Numbers) -> Result<Places, NoMemory>
        requires { AreInOrder case (names_in self.now) }
        ensures { IfOk result (λ v. v ≡ put case name.now (numbers_of numbers) self.now) }
    {
        let child = Entry {
            key: Key::one(name.share()?),
            value: numbers,
        };
        match self.list.seek(case, name) {
            Ok(i) => {
                let list = self.list.replaced(i, child)?;
                Ok(Places { list })
            }
            Err(i) => {
                let list = self.list.with(i, child)?;
                Ok(Places { list })
            }
        }
    }
}
