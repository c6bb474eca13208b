//! What is retained: snapshots of locations, and locations known to be directories.
#![tactic(auto)]

mod change;
mod flat;
mod retain;
mod shown;
#[cfg(test)]
mod tests;

pub use change::Change;
pub use flat::FlatRetain;
pub use retain::{Retain, Stored};
pub use shown::Shown;
