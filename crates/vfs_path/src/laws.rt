//! Laws of the texts of paths.

ghost use Rattle.std.specs.Prelude.{◌≡◌, List, ℕ, Ok};
ghost use Rattle.vfs_model.specs.Paths.{Path};
ghost use Rattle.vfs_path.specs.Texts.{IsPath, path_of, path_text};

/// A text of a path is the text that is written for it.
pub fn texts_give_paths()
    ensures { (text : List ℕ) (path : Path) → path_of text ≡ Ok path → path_text path ≡ text }
{}

/// The text that is written for a path is read as that path.
pub fn paths_give_texts()
    ensures { (path : Path) → IsPath path → path_of (path_text path) ≡ Ok path }
{}

/// A path that is read from a text has at most 64 names, each 1 to 255 bytes that may stand in one.
pub fn texts_keep_the_limits()
    ensures { (text : List ℕ) (path : Path) → path_of text ≡ Ok path → IsPath path }
{}
