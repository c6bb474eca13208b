//! What a tree answered, for proofs alone.

ghost use Rattle.std.specs.Prelude.{◌≡◌, ◌++◌, List, []};
ghost use Rattle.std.specs.Borrow.{ftrue};
ghost use Rattle.vfs_model.specs.State.{TreeAnswer};
ghost use Rattle.mem_tree.specs.AnswerCode.{tree_answers_code};

use std::marker::Model;
use world_model::{ApplyError, Entry, Events, LookError};

/// The answers of a tree so far, in order. It takes no memory, and only clauses read it.
#[derive(Drop)]
pub(crate) struct Trail {
    ghost answers: { List TreeAnswer } by { tree_answers_code },
}

impl Model for Trail {
    ghost also_owns = { λ _. ftrue };
}

/// What a tree answered in one call.
#[derive(Clone, Copy, Drop)]
pub(crate) enum Given<'a> {
    Look(&'a Result<Entry, LookError>),
    Edit(&'a Result<Events, ApplyError>),
}

impl Trail {
    ghost use Rattle.mem_tree.specs.Given.{answers_in};

    /// No answers.
    pub(crate) fn new() -> Trail
        ensures { result.answers ≡ [] }
    {
        Trail {}
    }

    /// The answers, and this one behind them.
    pub(crate) fn and(&self, _given: &Given<'_>) -> Trail
        ensures { result.answers ≡ self.now.answers ++ answers_in _given.now }
    {
        Trail {}
    }
}
