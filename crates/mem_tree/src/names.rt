//! Lists of names as paths.

ghost use Rattle.std.specs.Prelude.{◌≡◌, ◌<◌, length};
ghost use Rattle.vfs_model.specs.Paths.{place, is_same_place, last_name};
ghost use Rattle.vfs_model.specs.Edit.{parent, is_strictly_below};

use case_order::Case;
use vfs_path::{Name, begin_with};

/// The path without its last name.
pub(crate) fn parent(path: &[Name]) -> &[Name]
    requires { 0 < length path.now }
    ensures { result.now ≡ parent path.now }
{
    &path[..path.len() - 1]
}

/// The last name.
pub(crate) fn last(path: &[Name]) -> &Name
    requires { 0 < length path.now }
    ensures { result.now ≡ last_name path.now }
{
    &path[path.len() - 1]
}

/// Whether the paths lead to one place.
pub(crate) fn is_same_place(case: Case, a: &[Name], b: &[Name]) -> bool
    ensures { result ≡ is_same_place (place case a.now) (place case b.now) }
{
    begin_with(case, a, b) && begin_with(case, b, a)
}

/// Whether the first path leads to a place below the second.
pub(crate) fn is_strictly_below(case: Case, a: &[Name], b: &[Name]) -> bool
    ensures { result ≡ is_strictly_below case a.now b.now }
{
    begin_with(case, b, a) && !begin_with(case, a, b)
}
