//! How a lock is made, and how it ends.

ghost use Rattle.std.specs.Prelude.{◌≡◌, ◌<◌, ◌≤◌, ℕ, [], All, map, length, IfOk, IfErr, vec_capacity};
ghost use Rattle.update_lock.specs.Views.{placed};
ghost use Rattle.update_lock.specs.Rule.{IsAsMade};
ghost use Rattle.update_lock.specs.Steps.{opened};
ghost use Rattle.update_lock.specs.Seats.{made_of, seats_of, caller_of, IsSeatOf, IsAtRest, IsNew, IsKept, IsWhole, Has, numbers_from};

use crate::journaled::Journaled;
use crate::lock::Lock;
use crate::rule::{Deal, Gather};
use crate::seat::{Seat, TableSeat};
use atomic_table::{Refused, Table};
use case_order::NoMemory;
use std::alloc::Global;
use std::snapshot::Snapshot;

impl<J: Journaled> Lock<J> {
    /// Cuts the first view into one for each caller.
    fn deal(&self, first: TableSeat<J>, row: &mut Vec<Seat<J>>)
        requires lock { first.table_id ≡ self.now.table.shared.table_id }
        requires first { first.me ≡ (opened (made_of self.now) (seats_of self.now), []) }
        requires room { (row.old.items ≡ []) × (seats_of self.now ≤ vec_capacity row.old) }
        ensures seats { All (λ s. IsSeatOf self.now s) row.new.items }
        ensures new { All (λ s. IsNew s) row.new.items }
        ensures count { length row.new.items ≡ seats_of self.now }
        ensures callers { map (λ s. caller_of s) row.new.items ≡ numbers_from 0 (seats_of self.now) }
    {
        let mut rest = first;
        for _ in 1..self.seats {
            let inner = self.table.shared.split_seat::<Deal>(&mut rest);
            row.push_reserved(Seat { inner, drawn: 0 });
        }
        row.push_reserved(Seat {
            inner: rest,
            drawn: 0,
        });
    }

    /// A lock over the value, with a seat for each caller: seat i is caller i, counted from 0.
    ///
    /// There are 1 to 16 seats, and the journal is empty. The only error is want of memory, which
    /// hands the value back.
    pub fn make(
        alloc: Global,
        value: J,
        seats: u64,
    ) -> Result<(Lock<J>, Vec<Seat<J>>), (J, NoMemory)>
        requires seats { (0 < seats) × (seats ≤ 16) }
        requires empty { J.log value ≡ [] }
        ensures made { IfOk result (λ r. (made_of r.0 ≡ value) × (seats_of r.0 ≡ seats)) }
        ensures seats { IfOk result (λ r. All (λ s. IsSeatOf r.0 s) r.1.items) }
        ensures new { IfOk result (λ r. All (λ s. IsNew s) r.1.items) }
        ensures count { IfOk result (λ r. length r.1.items ≡ seats) }
        ensures callers { IfOk result (λ r. map (λ s. caller_of s) r.1.items ≡ numbers_from 0 seats) }
        ensures err { IfErr result (λ e. e.0 ≡ value) }
    {
        let mut row = Vec::new(alloc);
        if row.reserve(seats as usize).is_err() {
            return Err((value, NoMemory));
        }
        let mut slots = Vec::new(alloc);
        if slots.reserve(1).is_err() {
            slots.destroy_empty();
            return Err((value, NoMemory));
        }
        let made = Snapshot::of(&value);
        slots.push_reserved(Some(value));
        match Table::new(alloc, &[0, 0], slots, &(made, seats)) {
            Ok((table, first)) => {
                let lock = Lock { table, seats };
                lock.deal(first, &mut row);
                Ok((lock, row))
            }
            Err(Refused { mut slots }) => {
                let value = slots.pop().unwrap().unwrap();
                slots.destroy_empty();
                Err((value, NoMemory))
            }
        }
    }

    /// Joins all seats into one.
    fn gather(&self, mut seats: Vec<Seat<J>>) -> TableSeat<J>
        requires some { 0 < length seats.items }
        requires seats { All (λ s. IsSeatOf self.now s) seats.items }
        requires rest { All (λ s. IsAtRest s) seats.items }
        ensures lock { result.table_id ≡ self.now.table.shared.table_id }
        ensures whole { IsWhole (made_of self.now) (length seats.items) result.me }
        ensures has { All (λ s. Has s.inner.me.0 result.me.0) seats.items }
    {
        let Some(last) = seats.pop() else {
            unreachable!()
        };
        let mut whole = last.into_inner();
        while let Some(seat) = seats.pop() {
            self.table
                .shared
                .join_seat::<Gather>(&mut whole, seat.into_inner());
        }
        whole
    }

    /// Ends the lock with all its seats, in any order, none of which has the value, and gives the
    /// value back.
    ///
    /// Its base and its room are those that it was made with. Each seat's own list is its caller's
    /// entries in the journal, each with its place, and there are no entries of other callers. Where
    /// a seat's last ticket is not below the room, the journal is full.
    pub fn close(self, seats: Vec<Seat<J>>) -> J
        requires all { length seats.items ≡ seats_of self }
        requires seats { All (λ s. IsSeatOf self s) seats.items }
        requires rest { All (λ s. IsAtRest s) seats.items }
        ensures made { IsAsMade J.Journaled (made_of self) result }
        ensures within { length (J.log result) ≤ J.room result }
        ensures kept { All (λ s. IsKept result s) seats.items }
        ensures others { (c : ℕ) → seats_of self ≤ c → placed J.caller c (J.log result) ≡ [] }
    {
        let whole = self.gather(seats);
        let Lock { table, seats: _ } = self;
        let mut closed = table.close_with(whole);
        let value = closed.take(0).unwrap();
        closed.free();
        value
    }
}
