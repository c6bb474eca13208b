//! What a script prints, and running it: its lines are done one after the other, over a tree and on a
//! machine, and the output line of each is put.
//!
//! `opening` does the opening lines, `replay` the command lines, `build` those that show
//! fingerprints, `workers` hashes what they publish, `report` has the texts of the answers, and
//! `output` puts them. What holds of each run is told by the laws of `script_report`.
#![tactic(auto)]

mod build;
mod opening;
mod output;
mod replay;
mod report;
mod workers;

pub use output::{Break, put_openings, run_lines};

#[cfg(test)]
mod tests;
