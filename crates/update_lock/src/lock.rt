//! The lock.

ghost use Rattle.std.specs.Prelude.{◌≡◌, ◌<◌};

use crate::journaled::Journaled;
use crate::rule::TicketRule;
use crate::view::View;
use atomic_table::Table;
use std::alloc::Global;
use std::snapshot::Snapshot;

/// A ticket lock over a value that keeps a journal.
///
/// It lies in a table of two words, the ticket that is drawn next and the one that is served, and of
/// one slot, where the value is while no seat has it. A lock is not dropped: `close` ends it, and
/// gives the value back.
pub struct Lock<J: Journaled> {
    pub(crate) table: Table<
        Option<J>,
        View<J, J::Entry>,
        (Snapshot<J>, u64),
        TicketRule<J>,
        Global,
    >,
    pub(crate) seats: u64,
    ghost counted: { (seats ≡ table.shared.key.1) × (0 < seats) },
    ghost sized: { (table.shared.table_id.words ≡ 2) × (table.shared.table_id.slots ≡ 1) },
}
