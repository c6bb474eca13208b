//! What a tree of files is asked and answers, its edits, and the queue of events that tell of edits.
#![tactic(auto)]

mod edit;
mod entry;
mod faults;
mod intake;
mod settings;
mod tree;

pub use edit::{ApplyError, Edit, EditError, Events};
pub use entry::{Entry, LookError};
pub use faults::FaultCount;
pub use intake::{Fit, Front, Intake};
pub use settings::Settings;
pub use tree::Tree;

#[cfg(test)]
mod tests;
