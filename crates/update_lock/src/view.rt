//! What a seat knows. No value of these types is ever made: they stand in contracts and proofs alone.

use std::collections::LinkedList;

/// The entries of one caller in the journal, each with its place.
pub struct OwnList<E> {
    pub caller: u64,
    pub entries: LinkedList<(u64, E)>,
}

/// How far a seat is with its ticket.
pub enum Stage<J> {
    /// It has none.
    Idle,
    /// It has this ticket, and was not told yet that it is served.
    Waits(u64),
    /// It has the turn: this ticket is served. The value is named as it was when it was taken out.
    Holds(u64, J),
}

/// What a seat knows.
pub struct View<J, E> {
    pub stage: Stage<J>,
    /// The value that the lock was made with. A view that is spent has none.
    pub made: Option<J>,
    /// The callers that the seat stands for, each with its own list.
    pub lists: LinkedList<OwnList<E>>,
    /// How many tickets the seat drew.
    pub drawn: u64,
    /// The number after its last ticket; 0 where it drew none.
    pub after_last: u64,
}
