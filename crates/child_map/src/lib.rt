//! Children by the names that lead to them: sorted lists of keys, each of one or more names.
#![tactic(auto)]

mod form;
mod key;
mod list;
mod map;
mod place;
#[cfg(test)]
mod tests;

pub use form::Form;
pub use key::Key;
pub use list::{ChildList, Entry};
pub use map::ChildMap;
pub use place::Place;

/// Maps, lists and keys may be shared by threads where their values may.
pub fn shares_with_threads<V: Send + Sync>(map: &ChildMap<V>, list: &ChildList<V>, key: &Key) {
    shareable(map);
    shareable(list);
    shareable(key);
}

fn shareable<T: Send + Sync>(_value: &T) {}
