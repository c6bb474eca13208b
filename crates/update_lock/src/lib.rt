//! A ticket lock over a value that keeps a journal. Each caller has a seat; each of its calls draws a
//! ticket, and this number is the call's place in the journal.
//!
//! `journaled` says what a journal is. `calls` has `take` and `give`, `ends` has `make` and `close`,
//! `lends` lends the value that was taken, and `steps` has the four atomic steps that the calls are
//! made of. `diary` has the plainest journal and a call of a caller. `rule` names the rule that holds between any two steps, and `view` what a seat knows.
//!
//! Nothing is said of progress or of fairness: no contract says that a call of `take` returns.
#![tactic(auto)]

mod calls;
pub mod diary;
mod ends;
mod journaled;
mod lends;
mod lock;
mod rule;
mod seat;
mod steps;
mod view;

pub use journaled::Journaled;
pub use lock::Lock;
pub use seat::{Held, Seat};
pub use view::{OwnList, Stage, View};

#[cfg(test)]
mod callers;
#[cfg(test)]
mod tests;
