//! Scripts and their texts: what a script is, and how it is written.
#![tactic(auto)]

mod cause;
pub mod laws;
mod script;
mod spelling;
mod writer;

pub use cause::{BadLine, Cause};
pub use script::{Command, Line, Lines, Opening, Openings, Script, TextKind};
pub use spelling::put_spelled;
pub use world_model::Settings;
pub use writer::write_script;

#[cfg(test)]
mod tests;
