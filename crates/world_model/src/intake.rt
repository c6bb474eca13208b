//! The queue of events.

ghost use Rattle.std.specs.Prelude.{◌≡◌, ◌≤◌, ◌↔◌, [], true, false, IsTrue, IfOk, if◌then◌else◌};
ghost use Rattle.vfs_model.specs.Pending as pending;
ghost use Rattle.world_model.specs.Front.{IsFront, IsFirst, without_front};
ghost use Rattle.world_model.specs.declared.intake.Fit.TheVariants as fit;

use case_order::NoMemory;
use std::alloc::Global;
use std::collections::VecDeque;
use std::marker::Model;
use vfs_path::Path;

/// Events that wait for their delivery, up to a capacity, and the mark that some were lost.
///
/// Contracts see the list of events, the capacity and the mark. The queue's memory is taken when it
/// is made.
#[derive(Drop)]
pub struct Intake {
    events: VecDeque<Path>,
    capacity: u64,
    is_marked: bool,
}

impl Model for Intake {
    ghost use Rattle.std.specs.Prelude.{◌≤◌};
    ghost use Rattle.std.specs.VecDeque.{deque_capacity};
    ghost use Rattle.vfs_model.specs.Pending.{Pending};

    ghost Value = { Pending };

    ghost view = { λ q. record { events = q.events.items; capacity = q.capacity; mark = q.is_marked } };

    ghost invariant = { λ q. q.capacity ≤ deque_capacity q.events };
}

/// Whether an event was queued.
#[derive(Clone, Copy, Debug, PartialEq, Eq)]
pub enum Fit {
    /// It went last.
    Fits,
    /// The queue was at its capacity: it was emptied, and the mark was set.
    Overflow,
}

/// What a queue shows first.
#[derive(Drop)]
pub enum Front<'a> {
    /// Events were lost.
    Mark,
    /// The first event.
    Event(&'a Path),
    /// Nothing is pending.
    Empty,
}

impl Intake {
    /// An empty queue for so many events, 1 to 65,536, with the mark clear.
    ///
    /// All its memory is taken here; the only error is want of it.
    pub fn make(alloc: Global, capacity: u64) -> Result<Intake, NoMemory>
        requires some { 1 ≤ capacity }
        requires few { capacity ≤ 65536 }
        ensures { IfOk result (λ q. q ≡ record { events = []; capacity = capacity; mark = false }) }
    {
        let events = VecDeque::with_capacity(alloc, capacity as usize)?;
        Ok(Intake {
            events,
            capacity,
            is_marked: false,
        })
    }

    /// Queues an event last; where it does not fit, empties the queue and sets the mark.
    pub fn put(&mut self, path: Path) -> Fit
        ensures fit { result ≡ (if pending.has_room self.old then fit.Fits else fit.Overflow) }
        ensures queue { self.new ≡ pending.put path self.old }
    {
        if (self.events.len() as u64) < self.capacity {
            self.events.push_back_reserved(path);
            Fit::Fits
        } else {
            self.lose();
            Fit::Overflow
        }
    }

    /// What is to be delivered next: the mark where it is set, else the first event.
    pub fn front(&self) -> Front<'_>
        ensures { IsFront self.now result }
    {
        if self.is_marked {
            return Front::Mark;
        }
        match self.events.front() {
            None => Front::Empty,
            Some(event) => Front::Event(event),
        }
    }

    /// Takes away what `front` shows; nothing where it is `Empty`.
    pub fn drop_front(&mut self)
        ensures { self.new ≡ without_front self.old }
    {
        if self.is_marked {
            self.is_marked = false;
        } else {
            let _ = self.events.pop_front();
        }
    }

    /// Events were lost: empties the queue and sets the mark.
    pub fn lose(&mut self)
        ensures { self.new ≡ record { events = []; capacity = self.old.capacity; mark = true } }
    {
        self.events.clear();
        self.is_marked = true;
    }

    /// Whether the queue is empty and the mark is clear.
    pub fn settled(&self) -> bool
        ensures { IsTrue result ↔ ((self.now.events ≡ []) × (self.now.mark ≡ false)) }
    {
        self.events.is_empty() && !self.is_marked
    }
}
