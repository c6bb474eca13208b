//! How a path stands to keys.

ghost use Rattle.std.specs.Prelude.{◌≡◌, ◌≤◌, Some, length};
ghost use Rattle.child_map.specs.Places.{shared_names, BeginAlike, IsPlaceAt, index_of};

use case_order::{Case, same};
use vfs_path::Name;

/// How a path stands to the keys of a list, which are counted from 0.
#[derive(Clone, Copy, Debug, PartialEq, Eq)]
pub enum Place {
    /// Key i is the path.
    Exact(usize),
    /// The path lies strictly below key i, which has k names.
    Below(usize, usize),
    /// Key i lies strictly below the path.
    Above(usize),
    /// Key i and the path share k names, at least one, and then part.
    Prefix(usize, usize),
    /// No key has the first name of the path, and i is the place for one that has.
    Apart(usize),
}

/// How the path stands to key i, which begins with the same name.
pub(crate) fn place_at(case: Case, i: usize, key: &[Name], path: &[Name]) -> Place
    requires { BeginAlike case key.now path.now }
    ensures place { IsPlaceAt case i key.now path.now result }
    ensures index { index_of result ≡ Some i }
{
    let shared = shared_names(case, key, path);
    match (shared == key.len(), shared == path.len()) {
        (true, true) => Place::Exact(i),
        (true, false) => Place::Below(i, shared),
        (false, true) => Place::Above(i),
        (false, false) => Place::Prefix(i, shared),
    }
}

/// How many names, from the first on, are the same in both.
fn shared_names(case: Case, a: &[Name], b: &[Name]) -> usize
    ensures names { result ≡ shared_names case a.now b.now }
    ensures first { result ≤ length a.now }
    ensures second { result ≤ length b.now }
{
    match a {
        [] => 0,
        [n, more_a @ ..] => match b {
            [m, more_b @ ..] if same(case, n.as_bytes(), m.as_bytes()) => {
                1 + shared_names(case, more_a, more_b)
            }
            _ => 0,
        },
    }
}
