//! Scans in progress: a walk over the locations at and below a path, one look at a time, and the
//! version of the path at the begin.
#![tactic(auto)]

mod additions;
mod making;
mod scan;
mod slots;
#[cfg(test)]
mod tests;
mod walk;

pub use scan::Scan;
pub use slots::{Next, contents_of, is_open, left_of, next_of, see_in, set_scan};
pub use walk::ScanWalk;
