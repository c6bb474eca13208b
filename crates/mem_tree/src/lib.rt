//! A tree of files in memory, and one whose stated looks fail.
#![tactic(auto)]

mod apply;
mod failing_tree;
mod names;
mod node;
mod refuse;
mod trail;
mod tree;

pub use failing_tree::FailingTree;
pub use tree::MemTree;

#[cfg(test)]
mod tests;
