//! What a caller holds: its seat, and the value once it took it.

ghost use Rattle.std.specs.Prelude.{◌≡◌};

use crate::journaled::Journaled;
use crate::view::View;
use std::snapshot::Snapshot;

/// A seat of the lock's table.
pub(crate) type TableSeat<J> = atomic_table::Seat<Option<J>, View<J, <J as Journaled>::Entry>>;

/// One caller's right to take the value.
///
/// A seat that is dropped is lost to the lock, which is closed with all its seats.
pub struct Seat<J: Journaled> {
    pub(crate) inner: TableSeat<J>,
    pub(crate) drawn: u64,
    ghost counted: { drawn ≡ inner.me.0.drawn },
}

impl<J: Journaled> Drop for Seat<J> {
    fn drop(self) {
        let Self { inner: _, drawn: _ } = self;
    }
}

impl<J: Journaled> Seat<J> {
    /// The seat of the table.
    pub(crate) fn into_inner(self) -> TableSeat<J>
        ensures { result ≡ self.inner }
    {
        let Self { inner, drawn: _ } = self;
        inner
    }

    /// How many tickets the seat drew: 0 at first. Each `take` adds one, and no other call changes it.
    pub fn drawn(&self) -> u64
        ensures { result ≡ self.now.inner.me.0.drawn }
    {
        self.drawn
    }
}

/// The value, once a seat took it: what `take` gives and `give` gives back.
pub struct Held<J> {
    pub(crate) place: u64,
    pub(crate) value: J,
    pub(crate) found: Snapshot<J>,
}

impl<J> Held<J> {
    /// The place of this call: the ticket.
    pub fn place(&self) -> u64
        ensures { result ≡ self.now.place }
    {
        self.place
    }
}
