//! Where bytes come from and where they go.
//!
//! A [`Source`] and a [`Sink`] count their faults, so that a caller's answer "the input failed" can
//! be held to a count that rose. `traits` says what both promise, `memory` has one of each over
//! vectors, whose stated calls fail, and `standard` one of each over any reader and writer of std.
//! `folder` is the tree over a folder of the system, and `look` one look into it: `seen` has what the
//! system tells of a location, `listing` the names of a directory, and `fault` why a look failed.
#![tactic(auto)]

mod fault;
mod folder;
mod listing;
mod look;
mod memory;
mod seen;
mod standard;
mod traits;

pub use fault::{FailedLook, LookFault};
pub use folder::FolderTree;
pub use memory::{MemSink, MemSource};
pub use standard::{StdSink, StdSource};
pub use traits::{Failed, Sink, Source};

#[cfg(test)]
mod folder_tests;
#[cfg(test)]
mod tests;
