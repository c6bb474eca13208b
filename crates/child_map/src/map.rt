//! Children in the order of their keys, with the case of that order.

ghost use Rattle.std.specs.Prelude.{◌≡◌, ◌↔◌, ◌<◌, [], Some, length, slice_get, slice_set, IfOk, IsTrue};
ghost use Rattle.std.specs.List.{insert, remove};
ghost use Rattle.vfs_model.specs.World.{AreInOrder};
ghost use Rattle.child_map.specs.declared.place.Place.TheVariants.{Apart};
ghost use Rattle.child_map.specs.Keys.{entries_of, entry_names, first_names};
ghost use Rattle.child_map.specs.Form.{IsFormOf};
ghost use Rattle.child_map.specs.Places.{IsKey, BeginAlike, IsPlaceOf, IsAlikeAt};
ghost use Rattle.child_map.specs.Children.{children_in, keys_of, values_of};

use crate::form::Form;
use crate::key::Key;
use crate::list::{ChildList, Entry};
use crate::place::Place;
use case_order::{Case, NoMemory, Share};
use std::alloc::Global;
use std::marker::Model;
use vfs_path::Name;

/// Children in the order of their keys under a case. A key has one or more names, and no two keys
/// have the same first name. A change makes a new map, and the old one stays.
///
/// Contracts see the case and the keys, each with its value.
#[derive(Drop)]
pub struct ChildMap<V> {
    alloc: Global,
    case: Case,
    list: ChildList<V>,
}

impl<V> Model for ChildMap<V> {
    ghost use Rattle.vfs_model.specs.World.{AreInOrder};
    ghost use Rattle.child_map.specs.Children.{Children, children_code, children_in};
    ghost use Rattle.child_map.specs.Keys.{entries_of, entry_names};

    ghost Value = { Children V };

    ghost coded = { children_code V.code };

    ghost view = { λ m. record { case = m.case; children = children_in (entries_of m.list) } };

    ghost invariant = { λ m. AreInOrder m.case (entry_names (entries_of m.list)) };
}

impl<V> ChildMap<V> {
    /// No child; takes no memory.
    pub fn new(alloc: Global, case: Case) -> ChildMap<V>
        ensures { result ≡ record { case = case; children = [] } }
    {
        ChildMap {
            alloc,
            case,
            list: ChildList::new(alloc),
        }
    }

    /// How many children there are. Their keys are in order, and no two have the same first name.
    pub fn len(&self) -> usize
        ensures count { result ≡ length self.now.children }
        ensures order { AreInOrder self.now.case (first_names (keys_of self.now)) }
    {
        self.list.entries().len()
    }

    /// Whether there is no child.
    pub fn is_empty(&self) -> bool
        ensures { IsTrue result ↔ (self.now.children ≡ []) }
    {
        self.len() == 0
    }

    /// The form that the number of children gives.
    pub fn form(&self) -> Form
        ensures { IsFormOf (length self.now.children) result }
    {
        self.list.form()
    }

    /// The key at a place, counted from 0. It has a name at least.
    pub fn key(&self, i: usize) -> &[Name]
        requires { i < length self.now.children }
        ensures key { slice_get (keys_of self.now) i ≡ Some result.now }
        ensures some { 0 < length result.now }
    {
        self.list.entries()[i].key.as_slice()
    }

    /// The value at a place, counted from 0.
    pub fn value(&self, i: usize) -> &V
        requires { i < length self.now.children }
        ensures { slice_get (values_of self.now) i ≡ Some result.now }
    {
        &self.list.entries()[i].value
    }

    /// The map of the children in the list.
    fn with_list(&self, list: ChildList<V>) -> ChildMap<V>
        requires { AreInOrder self.now.case (entry_names (entries_of list)) }
        ensures { result ≡ record { case = self.now.case; children = children_in (entries_of list) } }
    {
        ChildMap {
            alloc: self.alloc,
            case: self.case,
            list,
        }
    }

    /// How the path, which is not empty, stands to the keys; takes no memory.
    pub fn get(&self, path: &[Name]) -> Place
        requires { 0 < length path.now }
        ensures place { IsPlaceOf self.now.case (keys_of self.now) path.now result }
        ensures alike { IsAlikeAt self.now.case (keys_of self.now) path.now result }
    {
        self.list.get(self.case, path)
    }
}

impl<V: Share + Drop> ChildMap<V> {
    /// The map with one child more, at place i. No key has the first name of the new one, whose
    /// place i is.
    ///
    /// The only error is want of memory.
    pub fn with(&self, i: usize, key: Vec<Name>, value: V) -> Result<ChildMap<V>, NoMemory>
        requires some { 0 < length key.items }
        requires apart { IsPlaceOf self.now.case (keys_of self.now) key.items (Apart i) }
        ensures case { IfOk result (λ map. map.case ≡ self.now.case) }
        ensures children { IfOk result (λ map. map.children ≡ insert self.now.children i (key.items, value)) }
    {
        let key = Key::from_vec(self.alloc, key)?;
        let list = self.list.with(i, Entry { key, value })?;
        Ok(self.with_list(list))
    }

    /// The map with this child in the place of the one at place i, whose key has the same first
    /// name.
    ///
    /// The only error is want of memory.
    pub fn replaced(&self, i: usize, key: Vec<Name>, value: V) -> Result<ChildMap<V>, NoMemory>
        requires { IsKey (keys_of self.now) i (λ old. BeginAlike self.now.case old key.items) }
        ensures case { IfOk result (λ map. map.case ≡ self.now.case) }
        ensures children { IfOk result (λ map. map.children ≡ slice_set self.now.children i (key.items, value)) }
    {
        let key = Key::from_vec(self.alloc, key)?;
        let list = self.list.replaced(i, Entry { key, value })?;
        Ok(self.with_list(list))
    }

    /// The map without the child at place i.
    ///
    /// The only error is want of memory.
    pub fn without(&self, i: usize) -> Result<ChildMap<V>, NoMemory>
        requires { i < length self.now.children }
        ensures case { IfOk result (λ map. map.case ≡ self.now.case) }
        ensures children { IfOk result (λ map. map.children ≡ remove self.now.children i) }
    {
        let list = self.list.without(i)?;
        Ok(self.with_list(list))
    }
}

impl<V: Share + Drop> Share for ChildMap<V> {
    fn share(&self) -> Result<ChildMap<V>, NoMemory> {
        let list = self.list.copy()?;
        Ok(self.with_list(list))
    }
}
