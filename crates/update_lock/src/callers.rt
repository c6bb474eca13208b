//! Callers for the tests, each on a thread of its own where one can be had.

ghost use Rattle.std.specs.Prelude.{◌≡◌, ◌<◌, ◌≤◌, ◌^◌, ◌+◌, [], All, map, length, vec_capacity, IfSome};
ghost use Rattle.update_lock.specs.Seats.{IsSeatOf, IsAtRest, IsNew, caller_of, drawn_of, numbers_from};

use crate::diary::{Diary, Entry, come};
use crate::{Lock, Seat};
use std::alloc::Global;
use std::sync::Wait;
use std::thread::{Threads, for_each_mut};

/// A caller with its seat and its number.
#[derive(Drop)]
pub(crate) struct Caller {
    seat: Seat<Diary>,
    number: u64,
    ghost own: { number ≡ caller_of seat },
}

/// Comes a number of times.
fn come_often<R: Wait>(rt: &R, lock: &Lock<Diary>, seat: &mut Seat<Diary>, caller: u64, times: u64)
    requires seat { IsSeatOf lock.now seat.old }
    requires rest { IsAtRest seat.old }
    requires new { drawn_of seat.old ≡ 0 }
    requires few { times < 2 ^ 58 }
    requires caller { caller ≡ caller_of seat.old }
    ensures seat { IsSeatOf lock.now seat.new }
    ensures rest { IsAtRest seat.new }
    ensures drawn { drawn_of seat.new ≡ times }
    ensures caller { caller_of seat.new ≡ caller }
{
    for number in 0..times {
        come(rt, lock, seat, Entry { caller, number });
    }
}

/// Makes callers of the seats, the last one first.
fn callers_of(seats: &mut Vec<Seat<Diary>>, callers: &mut Vec<Caller>, lock: &Lock<Diary>)
    requires seats { All (λ s. IsSeatOf lock.now s) seats.old.items }
    requires new { All (λ s. IsNew s) seats.old.items }
    requires numbers { map (λ s. caller_of s) seats.old.items ≡ numbers_from 0 (length seats.old.items) }
    requires room { (callers.old.items ≡ []) × (length seats.old.items ≤ vec_capacity callers.old) }
    ensures seats { All (λ c. IsSeatOf lock.now c.seat) callers.new.items }
    ensures new { All (λ c. IsNew c.seat) callers.new.items }
    ensures count { length callers.new.items ≡ length seats.old.items }
    ensures empty { length seats.new.items ≡ 0 }
    ensures capacity { length seats.old.items ≤ vec_capacity seats.new }
{
    while let Some(seat) = seats.pop() {
        let number = seats.len() as u64;
        callers.push_reserved(Caller { seat, number });
    }
}

/// Each caller comes a number of times.
fn come_all<R: Threads + Wait + Sync>(
    rt: &R,
    lock: &Lock<Diary>,
    callers: &mut [Caller],
    times: u64,
)
    requires seats { All (λ c. IsSeatOf lock.now c.seat) callers.old }
    requires new { All (λ c. IsNew c.seat) callers.old }
    requires few { times < 2 ^ 58 }
    ensures seats { All (λ c. IsSeatOf lock.now c.seat) callers.new }
    ensures rest { All (λ c. IsAtRest c.seat) callers.new }
    ensures count { length callers.new ≡ length callers.old }
{
    for_each_mut(
        rt,
        callers,
        16,
        &|_: usize, caller: &mut Caller|
            requires { IsSeatOf lock.now caller.old.seat × IsNew caller.old.seat × (times < 2 ^ 58) }
            ensures { IsSeatOf lock.entry.now caller.new.seat × IsAtRest caller.new.seat }
        { come_often(rt, lock, &mut caller.seat, caller.number, times) },
    );
}

/// Gives the seats of the callers back.
fn seats_of(mut callers: Vec<Caller>, seats: &mut Vec<Seat<Diary>>, lock: &Lock<Diary>)
    requires seats { All (λ c. IsSeatOf lock.now c.seat) callers.items }
    requires rest { All (λ c. IsAtRest c.seat) callers.items }
    requires room { (length seats.old.items ≡ 0) × (length callers.items ≤ vec_capacity seats.old) }
    ensures seats { All (λ s. IsSeatOf lock.now s) seats.new.items }
    ensures rest { All (λ s. IsAtRest s) seats.new.items }
    ensures count { length seats.new.items ≡ length callers.items }
{
    while let Some(caller) = callers.pop() {
        seats.push_reserved(caller.seat);
    }
}

/// What a call was told: its place, and how many tickets its seat drew by then.
#[derive(Clone, Copy, Debug, PartialEq, Eq)]
pub(crate) struct Call {
    pub(crate) place: u64,
    pub(crate) drawn: u64,
}

/// Each caller comes once, the first one first, and gives its seat back.
fn come_in_turn<R: Wait>(
    rt: &R,
    lock: &Lock<Diary>,
    mut callers: Vec<Caller>,
    seats: &mut Vec<Seat<Diary>>,
    calls: &mut Vec<Call>,
)
    requires seats { All (λ c. IsSeatOf lock.now c.seat) callers.items }
    requires new { All (λ c. IsNew c.seat) callers.items }
    requires room { (length seats.old.items ≡ 0) × (length callers.items ≤ vec_capacity seats.old) }
    requires told { (calls.old.items ≡ []) × (length callers.items ≤ vec_capacity calls.old) }
    ensures seats { All (λ s. IsSeatOf lock.now s) seats.new.items }
    ensures rest { All (λ s. IsAtRest s) seats.new.items }
    ensures count { length seats.new.items ≡ length callers.items }
{
    while let Some(caller) = callers.pop() {
        let number = caller.number;
        let mut seat = caller.seat;
        let entry = Entry {
            caller: number,
            number: 0,
        };
        let place = come(rt, lock, &mut seat, entry);
        let drawn = seat.drawn();
        calls.push_reserved(Call { place, drawn });
        seats.push_reserved(seat);
    }
}

/// As many callers as are said come once each, one after the other, over a diary with the room: what
/// they were told, and the diary; none where memory is wanting.
pub(crate) fn procession<R: Wait>(
    rt: &R,
    alloc: Global,
    count: u64,
    room: u64,
) -> Option<(Vec<Call>, Diary)>
    requires { (0 < count) × (count ≤ 16) }
    ensures { IfSome result (λ r. r.1.room ≡ room) }
{
    let mut callers = Vec::new(alloc);
    callers.reserve(count as usize).ok()?;
    let mut calls = Vec::new(alloc);
    calls.reserve(count as usize).ok()?;
    let diary = Diary::new(alloc, room).ok()?;
    let Ok((lock, mut seats)) = Lock::make(alloc, diary, count) else {
        return None;
    };
    callers_of(&mut seats, &mut callers, &lock);
    come_in_turn(rt, &lock, callers, &mut seats, &mut calls);
    Some((calls, lock.close(seats)))
}

/// As many callers as are said come a number of times each, side by side, over a diary with the room;
/// none where memory is wanting.
///
/// All memory is taken before the lock is made, which is closed on every path.
pub(crate) fn gathering<R: Threads + Wait + Sync>(
    rt: &R,
    alloc: Global,
    count: u64,
    room: u64,
    times: u64,
) -> Option<Diary>
    requires count { (0 < count) × (count ≤ 16) }
    requires few { times < 2 ^ 58 }
    ensures { IfSome result (λ d. d.room ≡ room) }
{
    let mut callers = Vec::new(alloc);
    callers.reserve(count as usize).ok()?;
    let diary = Diary::new(alloc, room).ok()?;
    let Ok((lock, mut seats)) = Lock::make(alloc, diary, count) else {
        return None;
    };
    callers_of(&mut seats, &mut callers, &lock);
    come_all(rt, &lock, callers.as_mut_slice(), times);
    seats_of(callers, &mut seats, &lock);
    Some(lock.close(seats))
}
