//! The atomic steps of the lock.

ghost use Rattle.std.specs.Prelude.{◌≡◌, ◌*◌, ◌^◌, ◌<◌, ◌∷◌, [], ℕ, Some, None, length};
ghost use Rattle.update_lock.specs.declared.view.Stage.TheVariants.{Idle, Holds};
ghost use Rattle.update_lock.specs.declared.view.OwnList.{OwnList};
ghost use Rattle.update_lock.specs.Rule.{Follows};
ghost use Rattle.update_lock.specs.Steps.{Draws, Looks, PassesOn};

use crate::journaled::Journaled;
use crate::lock::Lock;
use crate::rule::{Draw, Look, PassOn};
use crate::seat::TableSeat;

/// The word with the ticket that is drawn next.
const NEXT: usize = 0;

/// The word with the ticket that is served.
const SERVING: usize = 1;

/// The slot of the value.
const HOME: usize = 0;

impl<J: Journaled> Lock<J> {
    /// Draws a ticket.
    pub(crate) fn draw(&self, seat: &mut TableSeat<J>) -> u64
        requires lock { seat.old.table_id ≡ self.now.table.shared.table_id }
        requires idle { seat.old.me.0.stage ≡ Idle }
        requires few { seat.old.me.0.drawn < 2 ^ 58 * length seat.old.me.0.lists }
        ensures lock { (seat.new.table_id ≡ seat.old.table_id) × (seat.new.id ≡ seat.old.id) }
        ensures draws { Draws seat.old.me result seat.new.me }
    {
        self.table.shared.fetch_add::<Draw<J>>(seat, NEXT, 1)
    }

    /// Looks which ticket is served; where it is the seat's, the value is the seat's.
    pub(crate) fn look(&self, seat: &mut TableSeat<J>) -> u64
        requires lock { seat.old.table_id ≡ self.now.table.shared.table_id }
        ensures lock { (seat.new.table_id ≡ seat.old.table_id) × (seat.new.id ≡ seat.old.id) }
        ensures looks { Looks J.Journaled seat.old.me result seat.new.me }
    {
        self.table.shared.load::<Look<J>>(seat, SERVING)
    }

    /// Takes the value out of the slot.
    pub(crate) fn take_out(&self, seat: &mut TableSeat<J>) -> J
        requires lock { seat.old.table_id ≡ self.now.table.shared.table_id }
        requires has { (y : J) × (seat.old.me.1 ≡ (0, Some y) ∷ []) }
        ensures lock { (seat.new.table_id ≡ seat.old.table_id) × (seat.new.id ≡ seat.old.id) }
        ensures taken { (seat.old.me.1 ≡ (0, Some result) ∷ [])
            × (seat.new.me ≡ (seat.old.me.0, (0, None) ∷ [])) }
    {
        let nothing: Option<J> = None;
        self.table.shared.exchange(seat, HOME, nothing).unwrap()
    }

    /// Puts the value into the slot.
    pub(crate) fn put_in(&self, seat: &mut TableSeat<J>, value: J)
        requires lock { seat.old.table_id ≡ self.now.table.shared.table_id }
        requires has { seat.old.me.1 ≡ (0, None) ∷ [] }
        ensures lock { (seat.new.table_id ≡ seat.old.table_id) × (seat.new.id ≡ seat.old.id) }
        ensures put { seat.new.me ≡ (seat.old.me.0, (0, Some value) ∷ []) }
    {
        match self.table.shared.exchange(seat, HOME, Some(value)) {
            None => {}
            Some(_) => unreachable!(),
        }
    }

    /// Lets the slot go home with what was put there, and the next ticket be served.
    pub(crate) fn pass_on(&self, seat: &mut TableSeat<J>)
        requires lock { seat.old.table_id ≡ self.now.table.shared.table_id }
        requires follows { (own : OwnList J.Entry) × (place : ℕ) × (found : J) × (given : J)
            × (seat.old.me.0.lists ≡ own ∷ []) × (seat.old.me.0.stage ≡ Holds place found)
            × (seat.old.me.1 ≡ (0, Some given) ∷ [])
            × Follows J.Journaled own.caller place found given }
        ensures lock { (seat.new.table_id ≡ seat.old.table_id) × (seat.new.id ≡ seat.old.id) }
        ensures passes_on { PassesOn J.Journaled seat.old.me seat.new.me }
    {
        self.table.shared.fetch_add::<PassOn<J>>(seat, SERVING, 1);
    }
}
