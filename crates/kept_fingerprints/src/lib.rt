//! Fingerprints that are kept: a second question for the same inputs is answered with no walk over
//! their snapshots.
#![tactic(auto)]

mod kept;
mod list;
#[cfg(test)]
mod tests;

pub use list::KeptFingerprints;
