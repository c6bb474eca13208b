//! A script of any size, and the line that sums up what a script prints.
//!
//! `generate` makes the script, and `summary` sums up a report. `laws` says what both come to.
#![tactic(auto)]

mod generate;
pub mod laws;
mod summary;

pub use generate::generated_script;
pub use summary::summary_line;

#[cfg(test)]
mod tests;
