//! Reading a script, or telling its first bad line and why it is bad.
//!
//! The public names of `script_text` are given here again.
#![tactic(auto)]

mod error;
mod forms;
pub mod laws;
mod numbers;
mod reader;
mod words;

pub use error::ScriptError;
pub use reader::read_script;
pub use script_text::{
    BadLine, Cause, Command, Line, Lines, Opening, Openings, Script, Settings, TextKind,
    put_spelled, write_script,
};

#[cfg(test)]
mod tests;
