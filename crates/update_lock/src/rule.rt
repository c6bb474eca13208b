//! The rule of the lock, and what each step tells the seat that takes it. No value of these types is
//! ever made: they name definitions for the proofs.

use crate::journaled::Journaled;
use crate::view::View;
use atomic_table::{Join, Play, Split, TableRule};
use std::marker::PhantomData;
use std::snapshot::Snapshot;

/// The rule that holds between any two steps. Its key is the value that the lock was made with, and
/// the number of seats.
pub struct TicketRule<J> {
    of: PhantomData<J>,
}

impl<J: Journaled> TableRule<Option<J>, View<J, J::Entry>, (Snapshot<J>, u64)> for TicketRule<J> {
    ghost use Rattle.update_lock.specs.Rule.{Rule};
    ghost use Rattle.update_lock.specs.Steps.{opened};

    ghost holds = { λ key s. Rule J.Journaled key.0.value key.1 s };

    ghost first = { λ key. opened key.0.value key.1 };
}

/// A ticket is drawn.
pub struct Draw<J> {
    of: PhantomData<J>,
}

impl<J: Journaled> Play<Option<J>, View<J, J::Entry>> for Draw<J> {
    ghost use Rattle.update_lock.specs.Steps.{Draws};

    ghost then = { λ step before found after. Draws before found after };
}

/// It is looked which ticket is served.
pub struct Look<J> {
    of: PhantomData<J>,
}

impl<J: Journaled> Play<Option<J>, View<J, J::Entry>> for Look<J> {
    ghost use Rattle.update_lock.specs.Steps.{Looks};

    ghost then = { λ step before found after. Looks J.Journaled before found after };
}

/// The value goes home, and the next ticket is served.
pub struct PassOn<J> {
    of: PhantomData<J>,
}

impl<J: Journaled> Play<Option<J>, View<J, J::Entry>> for PassOn<J> {
    ghost use Rattle.update_lock.specs.Steps.{PassesOn};

    ghost then = { λ step before found after. PassesOn J.Journaled before after };
}

/// The view of the first caller is cut off, as a seat of its own.
pub struct Deal;

impl<J, E> Split<View<J, E>> for Deal {
    ghost use Rattle.update_lock.specs.Steps.{without_first, first_alone};

    ghost left = { without_first };

    ghost right = { first_alone };
}

/// Two views become one.
pub struct Gather;

impl<J, E> Join<View<J, E>> for Gather {
    ghost use Rattle.update_lock.specs.Steps.{both, spent};

    ghost both = { both };

    ghost spent = { spent };
}
