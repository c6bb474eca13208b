//! Taking the value, and giving it back.

ghost use Rattle.std.specs.Prelude.{◌≡◌, ◌^◌, ◌<◌, ◌∷◌, Some};
ghost use Rattle.update_lock.specs.declared.view.Stage.TheVariants.{Waits, Holds};
ghost use Rattle.update_lock.specs.Rule.{Follows};
ghost use Rattle.update_lock.specs.Steps.{Found, at_stage};
ghost use Rattle.update_lock.specs.Seats.{made_of, caller_of, drawn_of, IsSeatOf, IsAtRest, IsHolding, Drew, Finds, Grows};

use crate::journaled::Journaled;
use crate::lock::Lock;
use crate::seat::{Held, Seat, TableSeat};
use std::snapshot::Snapshot;
use std::sync::Wait;
use std::thread;

impl<J: Journaled> Lock<J> {
    /// Waits until the ticket is served.
    fn wait<R: Wait>(&self, rt: &R, seat: &mut TableSeat<J>, ticket: u64)
        requires lock { seat.old.table_id ≡ self.now.table.shared.table_id }
        requires waits { seat.old.me.0.stage ≡ Waits ticket }
        ensures lock { (seat.new.table_id ≡ seat.old.table_id) × (seat.new.id ≡ seat.old.id) }
        ensures found { (y : J) × Found J.Journaled seat.old.me.0 ticket y
            × (seat.new.me ≡ (at_stage seat.old.me.0 (Holds ticket y), (0, Some y) ∷ seat.old.me.1)) }
    {
        for _ in rt.forever() {
            if self.look(seat) == ticket {
                return;
            }
            thread::yield_now();
        }
        unreachable!()
    }

    /// Draws a ticket, waits until it is served, and takes the value out.
    ///
    /// The ticket is the place of this call. It is greater than the seat's last one, and is then the
    /// seat's last ticket. Where it is below the room, the journal has as many entries as the ticket
    /// says; else it is full. The seat's own list is its caller's entries in the journal, each with
    /// its place.
    ///
    /// May wait for ever: where a seat that took the value never gives it back, no other call ends.
    pub fn take<R: Wait>(&self, rt: &R, seat: &mut Seat<J>) -> Held<J>
        requires seat { IsSeatOf self.now seat.old }
        requires rest { IsAtRest seat.old }
        requires few { drawn_of seat.old < 2 ^ 58 }
        ensures seat { IsSeatOf self.now seat.new }
        ensures holds { IsHolding seat.new result }
        ensures drew { Drew seat.old result.place seat.new }
        ensures finds { Finds (made_of self.now) seat.old result.place result.found.value }
        ensures value { result.value ≡ result.found.value }
    {
        let place = self.draw(&mut seat.inner);
        seat.drawn += 1;
        self.wait(rt, &mut seat.inner, place);
        let value = self.take_out(&mut seat.inner);
        let found = Snapshot::of(&value);
        Held {
            place,
            value,
            found,
        }
    }

    /// Gives the value back, and lets the next ticket be served.
    ///
    /// What is given back follows what was found: base and room are the same, and where the place is
    /// below the room, the journal is the one found and one entry of the seat's caller more; else it
    /// is the one found. The seat's own list grows by this entry with its place, or stays.
    pub fn give(&self, seat: &mut Seat<J>, held: Held<J>)
        requires seat { IsSeatOf self.now seat.old }
        requires holds { IsHolding seat.old held }
        requires follows { Follows J.Journaled (caller_of seat.old) held.place held.found.value held.value }
        ensures seat { IsSeatOf self.now seat.new }
        ensures rest { IsAtRest seat.new }
        ensures grows { Grows seat.old held seat.new }
    {
        let Held {
            place: _,
            value,
            found: _,
        } = held;
        self.put_in(&mut seat.inner, value);
        self.pass_on(&mut seat.inner);
    }
}
