//! The names that lead from a location to one below it.

ghost use Rattle.std.specs.Prelude.{◌≡◌, ◌<◌, [], ◌∷◌, length, IfOk};
ghost use Rattle.vfs_model.specs.Paths.{name_order};
ghost use Rattle.child_map.specs.KeyNames.{first_name};

use case_order::{Case, NoMemory, Share, Shared, order};
use std::alloc::Global;
use std::cmp::Ordering;
use std::marker::Model;
use std::slice;
use vfs_path::{Name, Names};

/// The names, one or more, that lead from a location to one below it.
///
/// Contracts see the list of the names.
#[derive(Drop)]
pub struct Key {
    names: KeyNames,
}

#[derive(Drop)]
enum KeyNames {
    /// The common case, for which sharing the name is enough.
    One(Name),
    More(Shared<Names>),
}

impl Model for Key {
    ghost use Rattle.std.specs.Prelude.{◌<◌, length};
    ghost use Rattle.vfs_model.specs.Paths.{Path};
    ghost use Rattle.child_map.specs.KeyNames.{names_of};

    ghost Value = { Path };

    ghost view = { λ k. names_of k.names };

    ghost invariant = { λ k. 0 < length (names_of k.names) };
}

impl Key {
    /// The key of one name; takes no memory.
    pub fn one(name: Name) -> Key
        ensures { result ≡ name ∷ [] }
    {
        Key {
            names: KeyNames::One(name),
        }
    }

    /// The key of these names, which are one or more.
    ///
    /// The only error is want of memory.
    pub fn from_vec(alloc: Global, names: Vec<Name>) -> Result<Key, NoMemory>
        requires { 0 < length names.items }
        ensures { IfOk result (λ key. key ≡ names.items) }
    {
        if let [only] = names.as_slice() {
            let only = only.share()?;
            return Ok(Key::one(only));
        }
        match Shared::new(alloc, Names::from_vec(names)) {
            Ok(names) => Ok(Key {
                names: KeyNames::More(names),
            }),
            Err((_, refused)) => Err(refused),
        }
    }

    /// The names.
    pub fn as_slice(&self) -> &[Name]
        ensures names { result.now ≡ self.now }
        ensures some { 0 < length self.now }
    {
        match &self.names {
            KeyNames::One(name) => slice::from_ref(name),
            KeyNames::More(names) => names.get().as_slice(),
        }
    }

    /// The order of the first name and another under the case.
    pub(crate) fn first_order(&self, case: Case, name: &Name) -> Ordering
        ensures { result ≡ name_order case (first_name self.now) name.now }
    {
        order(case, self.as_slice()[0].as_bytes(), name.as_bytes())
    }
}

impl Share for Key {
    fn share(&self) -> Result<Key, NoMemory> {
        let names = match &self.names {
            KeyNames::One(name) => KeyNames::One(name.share()?),
            KeyNames::More(names) => KeyNames::More(names.share()?),
        };
        Ok(Key { names })
    }
}
