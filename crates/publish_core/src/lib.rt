//! What is retained, with the rule by which a publication is stale.
#![tactic(auto)]

mod making;
mod published;
#[cfg(test)]
mod tests;
mod vfs;

pub use making::MakeSnapshot;
pub use published::{Published, Refusal};
pub use version_hierarchy::Ticket;
pub use vfs::Vfs;
