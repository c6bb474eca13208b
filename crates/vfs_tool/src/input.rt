//! Taking the input.

ghost use Rattle.std.specs.Prelude.{◌≡◌, ◌+◌, ◌-◌, ◌<◌, ◌≤◌, length, IfOk, IfErr};
ghost use Rattle.vfs_tool.specs.Input.{AsksAtMost, Stops, Takes, TakesAll, limit};

use std::alloc::Global;
use vfs_io::Source;

/// The most bytes of a script.
const LIMIT: usize = 16_777_216;

/// The most bytes of one take.
const TAKE: usize = 65_536;

/// Why the input was not taken to its end.
#[derive(Clone, Copy, Debug, PartialEq, Eq)]
pub(crate) enum Stop {
    /// The source failed.
    Fault,
    /// It had more bytes than a script may have.
    TooLong,
    /// Want of memory.
    NoMemory,
}

/// One take, of at most the buffer's length, at the end of the text.
///
/// `TooLong` comes exactly where the take goes past the limit, and is judged before the text grows.
fn take_more<S: Source>(source: &mut S, text: &mut Vec<u8>, buf: &mut [u8]) -> Result<usize, Stop>
    requires some { 0 < length buf.old }
    requires few { length buf.old ≤ 65536 }
    requires room { length text.old.items + length buf.old ≤ limit + 1 }
    ensures ok { IfOk result (λ n.
        Takes (S.told source.old).left (S.told source.new).left text.old.items text.new.items n
        (length buf.old)) }
    ensures fits { IfOk result (λ n. length text.new.items ≤ limit) }
    ensures err { IfErr result (λ e.
        Stops (S.told source.old) (S.told source.new) (limit - length text.old.items) e) }
    ensures asked { AsksAtMost (S.told source.old) (S.told source.new) 65536 }
    ensures later { (S.told source.old).faults ≤ (S.told source.new).faults }
{
    match source.take(buf) {
        Ok(count) => {
            if text.len() + count > LIMIT {
                return Err(Stop::TooLong);
            }
            match text.extend_from_slice(&buf[..count]) {
                Ok(()) => Ok(count),
                Err(_) => Err(Stop::NoMemory),
            }
        }
        Err(_) => Err(Stop::Fault),
    }
}

/// All that the source has left.
///
/// `TooLong` comes exactly where one byte more than the limit was taken, `Fault` only where the
/// source's count of faults rose in this call; the only other error is want of memory.
pub(crate) fn take_all<S: Source>(alloc: Global, source: &mut S) -> Result<Vec<u8>, Stop>
    ensures ok { IfOk result (λ text.
        TakesAll (S.told source.old).left (S.told source.new).left text.items) }
    ensures err { IfErr result (λ e. Stops (S.told source.old) (S.told source.new) limit e) }
    ensures asked { AsksAtMost (S.told source.old) (S.told source.new) 65536 }
    ensures later { (S.told source.old).faults ≤ (S.told source.new).faults }
{
    let mut text = Vec::new(alloc);
    let mut buf = [0u8; TAKE];
    'takes: loop {
        let room = TAKE.min(LIMIT + 1 - text.len());
        let count = take_more(source, &mut text, &mut buf[..room])?;
        if count == 0 {
            return Ok(text);
        }
    }
}
