//! The machine: a tree, its waiting events, and what is retained of it.
#![tactic(auto)]

mod answers;
mod calls;
mod engine;
mod finished;
mod machine;
mod roots;
#[cfg(test)]
mod tests;

pub use answers::{Answer, Began, Delivered, Edited, Printed, Readed};
pub use calls::{Call, Reply, SideCall, SideReply};
pub use machine::Machine;
