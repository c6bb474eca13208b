//! Children in the order of their keys, under a case that the caller keeps.

ghost use Rattle.std.specs.Prelude.{◌≡◌, ◌<◌, ◌≤◌, [], ◌++◌, length, slice_set, IfOk, OnOk};
ghost use Rattle.std.specs.Option.{option_to_list};
ghost use Rattle.std.specs.List.{insert, remove};
ghost use Rattle.vfs_model.specs.Paths.{name_order};
ghost use Rattle.vfs_model.specs.World.{AreInOrder};
ghost use Rattle.tree_model.specs.Standing.{IsFound};
ghost use Rattle.child_map.specs.KeyNames.{first_name};
ghost use Rattle.child_map.specs.Keys.{entries_of, keys_in, entry_names, spliced};
ghost use Rattle.child_map.specs.Form.{IsFormOf};
ghost use Rattle.child_map.specs.Places.{IsPlaceOf, IsAlikeAt};

use crate::form::Form;
use crate::key::Key;
use crate::place::{Place, place_at};
use case_order::{Case, NoMemory, Share};
use std::alloc::Global;
use std::cmp::Ordering;
use std::sync::Arc;
use vfs_path::Name;

/// A child: its key and its value.
#[derive(Drop)]
pub struct Entry<V> {
    pub key: Key,
    pub value: V,
}

impl<V: Share> Share for Entry<V> {
    fn share(&self) -> Result<Entry<V>, NoMemory> {
        let key = self.key.share()?;
        let value = self.value.share()?;
        Ok(Entry { key, value })
    }
}

/// Children in the order of their keys, with no case of their own: a tree keeps the one case of all
/// its lists. A change makes a new list, and the old one stays.
///
/// Contracts see the entries.
#[derive(Drop)]
pub struct ChildList<V> {
    alloc: Global,
    /// None takes no memory.
    entries: Option<Arc<Vec<Entry<V>>, Global>>,
}

impl<V> ChildList<V> {
    /// No child; takes no memory.
    pub fn new(alloc: Global) -> ChildList<V>
        ensures { entries_of result ≡ [] }
    {
        ChildList {
            alloc,
            entries: None,
        }
    }

    /// The children.
    pub fn entries(&self) -> &[Entry<V>]
        ensures { result.now ≡ entries_of self.now }
    {
        match &self.entries {
            None => &[],
            Some(entries) => entries.as_slice(),
        }
    }

    /// The form that the number of children gives.
    pub fn form(&self) -> Form
        ensures { IsFormOf (length (entries_of self.now)) result }
    {
        Form::of(self.entries().len())
    }

    /// Where the key stands that begins with the name; or else, as an `Err`, where one would stand.
    pub fn seek(&self, case: Case, name: &Name) -> Result<usize, usize>
        requires { AreInOrder case (entry_names (entries_of self.now)) }
        ensures { IsFound case (entry_names (entries_of self.now)) name.now result }
    {
        let entries = self.entries();
        match self.form() {
            Form::Empty => Err(0),
            Form::One | Form::Few => seek_in_turn(case, entries, name),
            Form::Many => seek_by_halving(case, entries, name),
        }
    }

    /// How the path stands to the keys; takes no memory.
    pub fn get(&self, case: Case, path: &[Name]) -> Place
        requires some { 0 < length path.now }
        requires order { AreInOrder case (entry_names (entries_of self.now)) }
        ensures place { IsPlaceOf case (keys_in (entries_of self.now)) path.now result }
        ensures alike { IsAlikeAt case (keys_in (entries_of self.now)) path.now result }
    {
        match self.seek(case, &path[0]) {
            Ok(i) => place_at(case, i, self.entries()[i].key.as_slice(), path),
            Err(i) => Place::Apart(i),
        }
    }

    /// The same children, which the two lists hold together.
    ///
    /// The only error is want of memory.
    pub fn copy(&self) -> Result<ChildList<V>, NoMemory>
        ensures { IfOk result (λ copy. entries_of copy ≡ entries_of self.now) }
    {
        let entries = match &self.entries {
            None => None,
            Some(entries) => Some(Arc::try_clone(entries)?),
        };
        Ok(ChildList {
            alloc: self.alloc,
            entries,
        })
    }
}

impl<V: Share + Drop> ChildList<V> {
    /// The list with one child more, at place i.
    ///
    /// The only error is want of memory.
    pub fn with(&self, i: usize, child: Entry<V>) -> Result<ChildList<V>, NoMemory>
        requires { i ≤ length (entries_of self.now) }
        ensures { IfOk result (λ list. entries_of list ≡ insert (entries_of self.now) i child) }
    {
        self.changed(i, i, Some(child))
    }

    /// The list with this child in the place of the one at place i.
    ///
    /// The only error is want of memory.
    pub fn replaced(&self, i: usize, child: Entry<V>) -> Result<ChildList<V>, NoMemory>
        requires { i < length (entries_of self.now) }
        ensures { IfOk result (λ list. entries_of list ≡ slice_set (entries_of self.now) i child) }
    {
        self.changed(i, i + 1, Some(child))
    }

    /// The list without the child at place i.
    ///
    /// The only error is want of memory.
    pub fn without(&self, i: usize) -> Result<ChildList<V>, NoMemory>
        requires { i < length (entries_of self.now) }
        ensures { IfOk result (λ list. entries_of list ≡ remove (entries_of self.now) i) }
    {
        self.changed(i, i + 1, None)
    }

    /// The list with the child, or none, in the place of those from `start` to before `end`.
    fn changed(
        &self,
        start: usize,
        end: usize,
        child: Option<Entry<V>>,
    ) -> Result<ChildList<V>, NoMemory>
        requires order { start ≤ end }
        requires within { end ≤ length (entries_of self.now) }
        ensures { let new = spliced (entries_of self.now) start end (option_to_list child) in IfOk result (λ list. entries_of list ≡ new) }
    {
        let old = self.entries();
        let mut entries = Vec::with_capacity(self.alloc, old.len())?;
        append(&mut entries, &old[..start])?;
        if let Some(child) = child {
            entries.push(child)?;
        }
        append(&mut entries, &old[end..])?;
        ChildList::from_entries(self.alloc, entries)
    }

    fn from_entries(alloc: Global, entries: Vec<Entry<V>>) -> Result<ChildList<V>, NoMemory>
        ensures { IfOk result (λ list. entries_of list ≡ entries.items) }
    {
        if entries.is_empty() {
            return Ok(ChildList::new(alloc));
        }
        let entries = Arc::new(alloc, entries)?;
        Ok(ChildList {
            alloc,
            entries: Some(entries),
        })
    }
}

/// Appends equal entries.
fn append<V: Share + Drop>(into: &mut Vec<Entry<V>>, from: &[Entry<V>]) -> Result<(), NoMemory>
    ensures { OnOk result (into.new.items ≡ into.old.items ++ from.now) }
{
    for entry in from {
        into.push(entry.share()?)?;
    }
    Ok(())
}

/// Looks at one key after the other.
fn seek_in_turn<V>(case: Case, entries: &[Entry<V>], name: &Name) -> Result<usize, usize>
    requires { AreInOrder case (entry_names entries.now) }
    ensures { IsFound case (entry_names entries.now) name.now result }
{
    for (i, entry) in entries.iter().enumerate() {
        match entry.key.first_order(case, name) {
            Ordering::Less => {}
            Ordering::Equal => return Ok(i),
            Ordering::Greater => return Err(i),
        }
    }
    Err(entries.len())
}

/// Halves what is left until the key is found.
fn seek_by_halving<V>(case: Case, entries: &[Entry<V>], name: &Name) -> Result<usize, usize>
    requires { AreInOrder case (entry_names entries.now) }
    ensures { IsFound case (entry_names entries.now) name.now result }
{
    entries.binary_search_by(
        |entry: &Entry<V>| -> Ordering
            ensures { result ≡ name_order case (first_name entry.now.key) name.entry.now }
        { entry.key.first_order(case, name) },
    )
}
