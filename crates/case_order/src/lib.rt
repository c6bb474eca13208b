//! How names compare under a case, values with several owners, and want of memory.
#![tactic(auto)]

mod case;
pub mod laws;
mod share;
mod shared;

pub use case::{order, same};
pub use share::{NoMemory, Share, share_all};
pub use shared::Shared;
pub use vfs_model::Case;

#[cfg(test)]
mod tests;
