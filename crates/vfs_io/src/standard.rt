//! The source over any reader of std, and the sink over any writer.

ghost use Rattle.std.specs.Prelude.{◌≡◌, ◌<◌, [], None, length, IfOk, IsOk, OnErr, OnOk};
ghost use Rattle.std.specs.Io.{ReadsAtMost};
ghost use Rattle.std.specs.Io.KnownBytes.{ReadConsumes};
ghost use Rattle.vfs_model.specs.Faults.{HasCause, next_count};
ghost use Rattle.vfs_io.specs.Told.{IsListed};
ghost use Rattle.vfs_io.specs.Pieces.{IsZeroAtEnd, Puts};

use crate::traits::{Failed, Sink, Source};
use std::io::{Read, Write};
use std::marker::Model;
use world_model::FaultCount;

/// What a reader has left, as a source. Each `Err` of the reader is a fault.
#[derive(Drop)]
pub struct StdSource<R: Read> {
    reader: R,
    faults: FaultCount,
}

impl<R: Read> Model for StdSource<R> {
    ghost use Rattle.vfs_io.specs.Streams.{CountedStream};

    ghost Value = { CountedStream };

    ghost view = { λ s. record { bytes = R.remaining s.reader; faults = s.faults.count } };
}

impl<R: Read> StdSource<R> {
    /// A source of what the reader has left, which has had no fault.
    pub fn over(reader: R) -> StdSource<R>
        ensures { result ≡ record { bytes = R.remaining reader; faults = 0 } }
    {
        StdSource {
            reader,
            faults: FaultCount::none(),
        }
    }
}

impl<R: Read> Source for StdSource<R> {
    ghost told = { λ s. record { left = s.bytes; takes = None; faults = s.faults } };

    /// One read. It is not tried again where the reader was interrupted.
    fn take(&mut self, buf: &mut [u8]) -> Result<usize, Failed>
        requires { 0 < length buf.old }
        // As every source.
        ensures bound { ReadsAtMost result buf.new }
        ensures bytes { ReadConsumes self.old.bytes self.new.bytes result buf.new }
        ensures end { IfOk result (IsZeroAtEnd self.old.bytes) }
        ensures listed { IsListed None None result (length buf.old) }
        ensures cause { HasCause self.old.faults self.new.faults result }

        // A fault is counted once, and only where the call failed.
        ensures kept { OnOk result (self.new.faults ≡ self.old.faults) }
        ensures failed { OnErr result (self.new.faults ≡ next_count self.old.faults) }
    {
        match self.reader.read(buf) {
            Ok(count) => Ok(count),
            Err(_) => {
                self.faults = self.faults.and_one();
                Err(Failed)
            }
        }
    }
}

/// What a writer takes, as a sink. Each `Err` of the writer is a fault, and so is a write that
/// takes nothing of a piece.
///
/// A put does not flush. A writer that keeps bytes back is lent, as `StdSink::over(&mut writer)`,
/// and flushed by its owner afterwards; one that keeps none back needs nothing.
#[derive(Drop)]
pub struct StdSink<W: Write> {
    writer: W,
    faults: FaultCount,
}

impl<W: Write> Model for StdSink<W> {
    ghost use Rattle.vfs_io.specs.Streams.{CountedStream};

    ghost Value = { CountedStream };

    ghost view = { λ s. record { bytes = W.contents s.writer; faults = s.faults.count } };
}

impl<W: Write> StdSink<W> {
    /// A sink to which all was written that the writer holds, and which has had no fault.
    pub fn over(writer: W) -> StdSink<W>
        ensures { result ≡ record { bytes = W.contents writer; faults = 0 } }
    {
        StdSink {
            writer,
            faults: FaultCount::none(),
        }
    }
}

impl<W: Write> Sink for StdSink<W> {
    ghost told = { λ s. record { written = s.bytes; puts = None; faults = s.faults } };

    /// Writes until the whole piece is taken. An empty piece is `Ok`, with no write.
    fn put(&mut self, piece: &[u8]) -> Result<(), Failed>
        // As every sink.
        ensures bytes { Puts self.old.bytes self.new.bytes result piece.now }
        ensures listed { IsListed None None result piece.now }
        ensures cause { HasCause self.old.faults self.new.faults result }

        // A fault is counted once, and only where the call failed.
        ensures kept { OnOk result (self.new.faults ≡ self.old.faults) }
        ensures failed { OnErr result (self.new.faults ≡ next_count self.old.faults) }
        ensures empty { piece.now ≡ [] → IsOk result }
    {
        let mut done: usize = 0;
        while done < piece.len() {
            match self.writer.write(&piece[done..]) {
                Ok(count) if count > 0 => done += count,
                _ => {
                    self.faults = self.faults.and_one();
                    return Err(Failed);
                }
            }
        }
        Ok(())
    }
}
