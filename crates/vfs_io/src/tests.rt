ghost use Rattle.std.specs.Prelude.{◌≡◌, ◌≤◌, [], None, Some, IfOk};
ghost use Rattle.vfs_model.specs.Faults.{next_count};

use super::*;
use std::alloc::{AllocError, Global};
use std::io;
use std::io::{ErrorKind, Read, Write};
use std::marker::Model;
use std::process::Abort;
use std::test::Fail;
use world_model::FaultCount;

/// What one call is to answer: the bytes of a take, or the failure of the call.
type Answer = Result<&'static [u8], Failed>;

const FAILED: Answer = Err(Failed);

/// Makes a take for each answer, into a buffer of three bytes.
fn takes<S: Source>(rt: &impl Abort, source: &mut S, answers: &[Answer]) {
    for answer in answers {
        let mut buf = [0u8; 3];
        match source.take(&mut buf) {
            Ok(count) => assert_eq!(rt; Ok(&buf[..count]), *answer),
            Err(Failed) => assert_eq!(rt; FAILED, *answer),
        }
    }
}

/// Puts each piece, and says which of the puts were `Ok`.
fn puts<K: Sink>(rt: &impl Abort, sink: &mut K, pieces: &[(&[u8], bool)]) {
    for (piece, is_ok) in pieces {
        assert_eq!(rt; sink.put(piece).is_ok(), *is_ok);
    }
}

fn source_over(alloc: Global, bytes: &[u8], fails: &[u64]) -> Result<MemSource, Fail> {
    Ok(MemSource::over(bytes.to_vec(alloc)?, fails.to_vec(alloc)?))
}

#[test]
fn sources_in_memory(rt: HostRuntime) -> Result<(), Fail> {
    let alloc = rt.alloc();
    // In pieces of at most the buffer's length, and then at the end for good.
    takes(
        &rt,
        &mut source_over(alloc, b"abcdefg", &[])?,
        &[Ok(b"abc"), Ok(b"def"), Ok(b"g"), Ok(b""), Ok(b"")],
    );
    takes(&rt, &mut source_over(alloc, b"", &[])?, &[Ok(b"")]);
    // Calls that fail take nothing, at the end of the input too.
    takes(
        &rt,
        &mut source_over(alloc, b"abcd", &[1, 3, 5])?,
        &[FAILED, Ok(b"abc"), FAILED, Ok(b"d"), FAILED, Ok(b"")],
    );
    // No call has the number 0.
    takes(
        &rt,
        &mut source_over(alloc, b"ab", &[0, 2])?,
        &[Ok(b"ab"), FAILED, Ok(b"")],
    );
    Ok(())
}

#[test]
fn sinks_in_memory(rt: HostRuntime) -> Result<(), Fail> {
    let alloc = rt.alloc();
    let mut sink = MemSink::new(alloc, [].to_vec(alloc)?);
    assert_eq!(rt; sink.written(), b"".as_slice());
    puts(&rt, &mut sink, &[(b"ab", true), (b"", true), (b"c", true)]);
    assert_eq!(rt; sink.written(), b"abc".as_slice());

    // Calls that fail write nothing of the piece.
    let mut sink = MemSink::new(alloc, [2, 3].to_vec(alloc)?);
    puts(
        &rt,
        &mut sink,
        &[(b"ab", true), (b"cd", false), (b"", false), (b"e", true)],
    );
    assert_eq!(rt; sink.written(), b"abe".as_slice());
    Ok(())
}

/// What a reader or a writer of one byte at a time does once it has moved all that it may.
#[derive(Clone, Copy)]
enum AtLimit {
    Stops,
    Fails,
}

/// A reader and a writer that moves one byte at a time, and no more than its limit.
#[derive(Drop)]
struct Slow<T> {
    inner: T,
    moved: usize,
    limit: usize,
    at_limit: AtLimit,
}

impl<T> Slow<T> {
    /// How many of so many bytes the next call moves.
    fn next(&mut self, len: usize) -> io::Result<usize>
        ensures { IfOk result (λ n. n ≤ 1 × n ≤ len) }
    {
        if self.moved < self.limit && len > 0 {
            self.moved += 1;
            return Ok(1);
        }
        match self.at_limit {
            AtLimit::Stops => Ok(0),
            AtLimit::Fails => Err(io::Error::from(ErrorKind::Other)),
        }
    }
}

impl Read for Slow<&[u8]> {
    fn read(&mut self, buf: &mut [u8]) -> io::Result<usize> {
        let count = self.next(buf.len())?;
        self.inner.read(&mut buf[..count])
    }
}

impl Write for Slow<&mut Vec<u8>> {
    fn write(&mut self, buf: &[u8]) -> io::Result<usize> {
        let count = self.next(buf.len())?;
        self.inner.write(&buf[..count])
    }

    fn flush(&mut self) -> io::Result<()> {
        self.inner.flush()
    }
}

#[test]
fn sources_over_readers(rt: HostRuntime) {
    takes(
        &rt,
        &mut StdSource::over(b"abcd".as_slice()),
        &[Ok(b"abc"), Ok(b"d"), Ok(b"")],
    );
    for (at_limit, last) in [
        (AtLimit::Stops, Ok(b"".as_slice())),
        (AtLimit::Fails, FAILED),
    ] {
        let reader = Slow {
            inner: b"abcd".as_slice(),
            moved: 0,
            limit: 2,
            at_limit,
        };
        takes(
            &rt,
            &mut StdSource::over(reader),
            &[Ok(b"a"), Ok(b"b"), last, last],
        );
    }
}

#[test]
fn sinks_over_writers(rt: HostRuntime) -> Result<(), Fail> {
    let alloc = rt.alloc();
    let mut written = Vec::new(alloc);
    puts(
        &rt,
        &mut StdSink::over(&mut written),
        &[(b"ab", true), (b"", true), (b"c", true)],
    );
    assert_eq!(rt; written.as_slice(), b"abc".as_slice());

    // The writer gives out in mid-piece: a prefix of that piece was written, and nothing after it.
    for at_limit in [AtLimit::Stops, AtLimit::Fails] {
        let mut written = Vec::new(alloc);
        let writer = Slow {
            inner: &mut written,
            moved: 0,
            limit: 4,
            at_limit,
        };
        puts(
            &rt,
            &mut StdSink::over(writer),
            &[(b"ab", true), (b"cde", false), (b"", true), (b"f", false)],
        );
        assert_eq!(rt; written.as_slice(), b"abcd".as_slice());
    }
    Ok(())
}

/// A source and a sink that list their calls: a source that is at its end, and a sink that keeps each
/// piece by itself.
#[derive(Drop)]
struct Listing {
    takes: Vec<usize>,
    pieces: Vec<Piece>,
    faults: FaultCount,
}

#[derive(Drop)]
struct Piece {
    bytes: Vec<u8>,
}

impl Model for Piece {
    ghost use Rattle.std.specs.Prelude.{ℕ, List};

    ghost Value = { List ℕ };

    ghost view = { λ p. p.bytes.items };
}

impl Listing {
    fn new(alloc: Global) -> Listing {
        Listing {
            takes: Vec::new(alloc),
            pieces: Vec::new(alloc),
            faults: FaultCount::none(),
        }
    }

    fn fail(&mut self) -> Failed
        ensures counted { self.new ≡ record self.old { faults = record { count = next_count self.old.faults.count } } }
        ensures later { self.old.faults.count ≤ self.new.faults.count }
    {
        self.faults = self.faults.and_one();
        Failed
    }
}

impl Source for Listing {
    ghost told = { λ s. record { left = Some []; takes = Some s.takes.items; faults = s.faults.count } };

    fn take(&mut self, buf: &mut [u8]) -> Result<usize, Failed> {
        match self.takes.push(buf.len()) {
            Ok(()) => Ok(0),
            Err(_) => Err(self.fail()),
        }
    }
}

fn copied(alloc: Global, piece: &[u8]) -> Result<Piece, AllocError>
    ensures { IfOk result (λ copy. copy ≡ piece.now) }
{
    Ok(Piece {
        bytes: piece.to_vec(alloc)?,
    })
}

impl Sink for Listing {
    ghost told = { λ s. record { written = None; puts = Some s.pieces.items; faults = s.faults.count } };

    fn put(&mut self, piece: &[u8]) -> Result<(), Failed> {
        let Ok(copy) = copied(*self.pieces.allocator(), piece) else {
            return Err(self.fail());
        };
        match self.pieces.push(copy) {
            Ok(()) => Ok(()),
            Err(_) => Err(self.fail()),
        }
    }
}

#[test]
fn lists_of_calls(rt: HostRuntime) {
    let mut listing = Listing::new(rt.alloc());
    takes(&rt, &mut listing, &[Ok(b""), Ok(b"")]);
    assert_eq!(rt; listing.takes.as_slice(), [3, 3].as_slice());
    puts(
        &rt,
        &mut listing,
        &[(b"ab", true), (b"", true), (b"c", true)],
    );
    let lengths = listing.pieces.as_slice().iter().map(|p| p.bytes.len());
    assert!(rt; lengths.eq([2, 0, 1]));
}
