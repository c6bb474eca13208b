//! The plainest journal, and a call of a caller that keeps it: who came, and with which number.
//!
//! It shows how a value stands in the lock, and how what a call writes follows what it found.

ghost use Rattle.std.specs.Prelude.{◌≡◌, ◌+◌, ◌<◌, ◌≤◌, ◌^◌, ◌++◌, [], ◌∷◌, length, vec_len, vec_capacity, IfOk};
ghost use Rattle.update_lock.specs.Seats.{made_of, caller_of, own_list_of, drawn_of, after_last_of, IsSeatOf, IsAtRest};

use crate::journaled::Journaled;
use crate::lock::Lock;
use crate::seat::Seat;
use case_order::NoMemory;
use std::alloc::Global;
use std::sync::Wait;

/// Who came, with a number.
#[derive(Clone, Copy, Debug, PartialEq, Eq)]
pub struct Entry {
    /// The number of the caller.
    pub caller: u64,
    /// What the caller told.
    pub number: u64,
}

/// Entries, with room for as many as were said when it was made.
#[derive(Drop)]
pub struct Diary {
    entries: Vec<Entry>,
    room: u64,
    ghost within: { vec_len entries ≤ room },
    ghost reserved: { room ≤ vec_capacity entries },
}

impl Journaled for Diary {
    type Entry = Entry;

    type Base = ();

    ghost log = { λ d. d.entries.items };

    ghost caller = { λ e. e.caller };

    ghost room = { λ d. d.room };

    ghost base = { λ d. tt };

    fn length(&self) -> u64 {
        self.entries.len() as u64
    }

    fn room(&self) -> u64 {
        self.room
    }
}

impl Diary {
    /// A diary with no entries. The only error is want of memory, all of which is taken here.
    pub fn new(alloc: Global, room: u64) -> Result<Diary, NoMemory>
        ensures { IfOk result (λ d. (d.room ≡ room) × (d.entries.items ≡ [])) }
    {
        let mut entries = Vec::new(alloc);
        entries.reserve(room as usize)?;
        Ok(Diary { entries, room })
    }

    /// Adds an entry, where there is room.
    pub fn write(&mut self, entry: Entry)
        requires { length self.old.entries.items < self.old.room }
        ensures entries { self.new.entries.items ≡ self.old.entries.items ++ entry ∷ [] }
        ensures room { self.new.room ≡ self.old.room }
    {
        self.entries.push_reserved(entry);
    }

    /// The entries, the first one first.
    pub fn entries(&self) -> &[Entry]
        ensures { result.now ≡ self.now.entries.items }
    {
        self.entries.as_slice()
    }
}

/// One call of a caller: its entry goes to the place that it gives back, where there is room.
///
/// May wait, as `Lock::take`.
pub fn come<R: Wait>(rt: &R, lock: &Lock<Diary>, seat: &mut Seat<Diary>, entry: Entry) -> u64
    requires seat { IsSeatOf lock.now seat.old }
    requires rest { IsAtRest seat.old }
    requires few { drawn_of seat.old < 2 ^ 58 }
    requires caller { entry.caller ≡ caller_of seat.old }
    ensures seat { IsSeatOf lock.now seat.new }
    ensures rest { IsAtRest seat.new }
    ensures caller { caller_of seat.new ≡ caller_of seat.old }
    ensures drawn { drawn_of seat.new ≡ drawn_of seat.old + 1 }
    ensures place { (after_last_of seat.old ≤ result) × (after_last_of seat.new ≡ result + 1) }
    ensures added { result < (made_of lock.now).room → own_list_of seat.new ≡ own_list_of seat.old ++ (result, entry) ∷ [] }
    ensures full { (made_of lock.now).room ≤ result → own_list_of seat.new ≡ own_list_of seat.old }
{
    let mut held = lock.take(rt, seat);
    let place = held.place();
    if place < held.value().room() {
        held.value().write(entry);
    }
    lock.give(seat, held);
    place
}
