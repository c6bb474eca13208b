//! Names and paths, which several owners in any threads can have.
#![tactic(auto)]

mod error;
pub mod laws;
mod name;
mod path;
mod text;

pub use error::PathError;
pub use name::{Name, Names};
pub use path::{Path, Paths, begin_with};

/// Names, paths and lists of them may be shared by threads.
pub fn shares_with_threads(name: &Name, path: &Path, names: &Names, paths: &Paths) {
    shareable(name);
    shareable(path);
    shareable(names);
    shareable(paths);
}

fn shareable<T: Send + Sync>(_value: &T) {}

#[cfg(test)]
mod tests;
