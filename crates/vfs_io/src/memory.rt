//! A source and a sink in memory. Both fail at the calls that a list names.

ghost use Rattle.std.specs.Prelude.{◌≡◌, ◌↔◌, ◌<◌, ◌≤◌, ◌++◌, [], length, min, take, drop, None, Some, Contains, IfOk, IsErr, IsOk, OnErr, OnOk};
ghost use Rattle.std.specs.Io.{ReadsAtMost};
ghost use Rattle.std.specs.Io.KnownBytes.{ReadConsumes};
ghost use Rattle.vfs_model.specs.Faults.{HasCause, next_count, next_number};
ghost use Rattle.vfs_io.specs.Told.{IsListed};
ghost use Rattle.vfs_io.specs.Pieces.{IsZeroAtEnd, Puts};
ghost use Rattle.vfs_io.specs.Streams.{IsNextToFail, after_failure, after_put, after_take};

use crate::traits::{Failed, Sink, Source};
use std::alloc::Global;
use std::marker::Model;
use world_model::FaultCount;

/// The calls to an object in memory: which of them fail, how many were made, how many failed.
#[derive(Drop)]
struct Calls {
    fails: Vec<u64>,
    made: u64,
    faults: FaultCount,
}

impl Calls {
    fn new(fails: Vec<u64>) -> Calls
        ensures { result ≡ record { fails = fails; made = 0; faults = record { count = 0 } } }
    {
        Calls {
            fails,
            made: 0,
            faults: FaultCount::none(),
        }
    }

    /// Counts one more call, and fails it where the list has its number.
    fn next(&mut self) -> Result<(), Failed>
        ensures stated { IsErr result ↔ Contains self.old.fails.items (next_number self.old.made) }
        ensures ok { OnOk result (self.new ≡ record self.old { made = next_number self.old.made }) }
        ensures err { OnErr result (self.new ≡ record self.old {
          made = next_number self.old.made;
          faults = record { count = next_count self.old.faults.count };
        }) }
        ensures later { self.old.faults.count ≤ self.new.faults.count }
    {
        self.made = self.made.saturating_add(1);
        if self.fails.contains(&self.made) {
            return Err(self.fail());
        }
        Ok(())
    }

    /// Counts one more fault.
    fn fail(&mut self) -> Failed
        ensures counted { self.new ≡ record self.old { faults = record { count = next_count self.old.faults.count } } }
        ensures later { self.old.faults.count ≤ self.new.faults.count }
    {
        self.faults = self.faults.and_one();
        Failed
    }
}

/// The bytes of a vector, as a source. It fails at stated calls, and at no other.
#[derive(Drop)]
pub struct MemSource {
    bytes: Vec<u8>,
    taken: usize,
    calls: Calls,
}

impl Model for MemSource {
    ghost use Rattle.std.specs.Prelude.{◌≤◌, drop, length};
    ghost use Rattle.vfs_io.specs.Streams.{MemoryStream};

    ghost Value = { MemoryStream };

    ghost view = { λ s. record {
      bytes = drop s.taken s.bytes.items;
      fails = s.calls.fails.items;
      calls = s.calls.made;
      faults = s.calls.faults.count;
    } };

    ghost invariant = { λ s. s.taken ≤ length s.bytes.items };
}

impl MemSource {
    /// A source that has these bytes left, and whose k-th call fails for each k in the list,
    /// where k counts from 1. With an empty list no call fails.
    pub fn over(bytes: Vec<u8>, fails: Vec<u64>) -> MemSource
        ensures { result ≡ record { bytes = bytes.items; fails = fails.items; calls = 0; faults = 0 } }
    {
        MemSource {
            bytes,
            taken: 0,
            calls: Calls::new(fails),
        }
    }
}

impl Source for MemSource {
    ghost told = { λ s. record { left = Some s.bytes; takes = None; faults = s.faults } };

    fn take(&mut self, buf: &mut [u8]) -> Result<usize, Failed>
        requires { 0 < length buf.old }
        // As every source.
        ensures bound { ReadsAtMost result buf.new }
        ensures bytes { ReadConsumes (Some self.old.bytes) (Some self.new.bytes) result buf.new }
        ensures end { IfOk result (IsZeroAtEnd (Some self.old.bytes)) }
        ensures listed { IsListed None None result (length buf.old) }
        ensures cause { HasCause self.old.faults self.new.faults result }

        // Exactly.
        ensures stated { IsErr result ↔ IsNextToFail self.old }
        ensures unfailing { self.old.fails ≡ [] → IsOk result }
        ensures count { IfOk result (λ n. n ≡ min (length buf.old) (length self.old.bytes)) }
        ensures buffer { IfOk result (λ n. buf.new ≡ take n self.old.bytes ++ drop n buf.old) }
        ensures rest { IfOk result (λ n. self.new ≡ after_take n self.old) }
        ensures failed { OnErr result (self.new ≡ after_failure self.old) }
    {
        self.calls.next()?;
        let left = &self.bytes[self.taken..];
        let count = buf.len().min(left.len());
        buf[..count].copy_from_slice(&left[..count]);
        self.taken += count;
        Ok(count)
    }
}

/// A vector that grows, as a sink. It fails at stated calls, and where it gets no memory.
#[derive(Drop)]
pub struct MemSink {
    bytes: Vec<u8>,
    calls: Calls,
}

impl Model for MemSink {
    ghost use Rattle.vfs_io.specs.Streams.{MemoryStream};

    ghost Value = { MemoryStream };

    ghost view = { λ s. record {
      bytes = s.bytes.items;
      fails = s.calls.fails.items;
      calls = s.calls.made;
      faults = s.calls.faults.count;
    } };
}

impl MemSink {
    /// A sink to which nothing was written, and whose k-th call fails for each k in the list,
    /// where k counts from 1. It takes no memory before the first piece.
    pub fn new(alloc: Global, fails: Vec<u64>) -> MemSink
        ensures { result ≡ record { bytes = []; fails = fails.items; calls = 0; faults = 0 } }
    {
        MemSink {
            bytes: Vec::new(alloc),
            calls: Calls::new(fails),
        }
    }

    /// The bytes that were written.
    pub fn written(&self) -> &[u8]
        ensures { result.now ≡ self.now.bytes }
    {
        self.bytes.as_slice()
    }
}

impl Sink for MemSink {
    ghost told = { λ s. record { written = Some s.bytes; puts = None; faults = s.faults } };

    /// A call that fails, for want of memory too, writes nothing of the piece.
    fn put(&mut self, piece: &[u8]) -> Result<(), Failed>
        // As every sink.
        ensures bytes { Puts (Some self.old.bytes) (Some self.new.bytes) result piece.now }
        ensures listed { IsListed None None result piece.now }
        ensures cause { HasCause self.old.faults self.new.faults result }

        // Exactly, but for want of memory.
        ensures stated { IsNextToFail self.old → IsErr result }
        ensures whole { OnOk result (self.new ≡ after_put piece.now self.old) }
        ensures failed { OnErr result (self.new ≡ after_failure self.old) }
    {
        self.calls.next()?;
        match self.bytes.extend_from_slice(piece) {
            Ok(()) => Ok(()),
            Err(_) => Err(self.calls.fail()),
        }
    }
}
