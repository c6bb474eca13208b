//! What a script prints, summed up in one line.
//!
//! The only error of each call is want of memory, as which a number is told that has no room in 64
//! bits: no run counts so far.

ghost use Rattle.std.specs.Prelude.{◌≡◌, ◌+◌, ◌-◌, ◌*◌, ◌++◌, IfOk, OnOk, IfSome};
ghost use Rattle.std.specs.Fmt.{decimal};
ghost use Rattle.script_summary.specs.Summary.{number_in, word_at, is_build, counted_at, hits_in, misses_in, reads_in, count_lines, over_lines, summary_of};

use case_order::NoMemory;
use merkle_hash::file_digest;
use std::alloc::Global;

/// The number with one more digit at its end; none where it has no room.
fn with_digit(number: u64, digit: u8) -> Option<u64>
    ensures { IfSome result (λ more. more ≡ 10 * number + (digit - 48)) }
{
    let tens = number.checked_mul(10)?;
    tens.checked_add(u64::from(digit.saturating_sub(b'0')))
}

/// The number that digits stand for.
fn number_in(digits: &[u8]) -> Result<u64, NoMemory>
    ensures { IfOk result (λ number. number ≡ number_in digits.now) }
{
    let mut number = 0;
    for digit in digits {
        let Some(more) = with_digit(number, *digit) else {
            return Err(NoMemory);
        };
        number = more;
    }
    Ok(number)
}

/// The word of the line with this place, from 0 on; empty where the line has fewer.
fn word_at(place: usize, line: &[u8]) -> &[u8]
    ensures { result.now ≡ word_at place line.now }
{
    match line.split(|b| *b == b' ').nth(place) {
        Some(word) => word,
        None => &[],
    }
}

/// Whether the line is that of a build.
fn is_build(line: &[u8]) -> bool
    ensures { result ≡ is_build line.now }
{
    word_at(0, line) == b"build".as_slice()
}

/// The number that the line of a build has at this place; every other line counts nothing.
fn counted_at(place: usize, line: &[u8]) -> Result<u64, NoMemory>
    ensures { IfOk result (λ count. count ≡ counted_at place line.now) }
{
    if is_build(line) {
        number_in(word_at(place, line))
    } else {
        Ok(0)
    }
}

/// What builds count: roots that were retained, roots that were not, and locations that were read.
#[derive(Clone, Copy)]
struct Counts {
    hits: u64,
    misses: u64,
    reads: u64,
}

impl Counts {
    /// What a line counts.
    fn of_line(line: &[u8]) -> Result<Counts, NoMemory>
        ensures { IfOk result (λ counts. counts ≡ record { hits = hits_in line.now; misses = misses_in line.now; reads = reads_in line.now }) }
    {
        Ok(Counts {
            hits: counted_at(3, line)?,
            misses: counted_at(5, line)?,
            reads: counted_at(7, line)?,
        })
    }

    /// The sums.
    fn plus(self, more: Counts) -> Option<Counts>
        ensures { IfSome result (λ sums. sums ≡ record { hits = self.hits + more.hits; misses = self.misses + more.misses; reads = self.reads + more.reads }) }
    {
        Some(Counts {
            hits: self.hits.checked_add(more.hits)?,
            misses: self.misses.checked_add(more.misses)?,
            reads: self.reads.checked_add(more.reads)?,
        })
    }
}

/// The sums over the lines of the text.
fn over_lines(text: &[u8]) -> Result<Counts, NoMemory>
    ensures { IfOk result (λ sums. sums ≡ record { hits = over_lines hits_in text.now; misses = over_lines misses_in text.now; reads = over_lines reads_in text.now }) }
{
    let mut sums = Counts {
        hits: 0,
        misses: 0,
        reads: 0,
    };
    for line in text.split(|b| *b == b'\n') {
        let Some(more) = sums.plus(Counts::of_line(line)?) else {
            return Err(NoMemory);
        };
        sums = more;
    }
    Ok(sums)
}

/// How many lines are ended in the text.
fn count_lines(text: &[u8]) -> u64
    ensures { result ≡ count_lines text.now }
{
    text.iter().filter(|b| **b == b'\n').count() as u64
}

/// A word and a count.
fn put_count(alloc: Global, out: &mut Vec<u8>, word: &[u8], count: u64) -> Result<(), NoMemory>
    ensures { OnOk result (out.new.items ≡ out.old.items ++ word.now ++ decimal count) }
{
    out.extend_from_slice(word)?;
    let digits = count.to_string(alloc)?;
    out.extend_from_slice(digits.as_str().as_bytes())?;
    Ok(())
}

/// The line that sums up the report: `lines L hits H misses M reads R md5 HEX`, with its line end.
/// L is the number of its lines, H, M and R are the sums over the lines of its builds, and HEX are the
/// digits of its MD5 (RFC 1321).
///
/// The only error is want of memory. The line is this project's own.
pub fn summary_line(alloc: Global, report: &[u8]) -> Result<Vec<u8>, NoMemory>
    ensures { IfOk result (λ line. line.items ≡ summary_of report.now) }
{
    let sums = over_lines(report)?;
    let mut line = Vec::new(alloc);
    put_count(alloc, &mut line, b"lines ", count_lines(report))?;
    put_count(alloc, &mut line, b" hits ", sums.hits)?;
    put_count(alloc, &mut line, b" misses ", sums.misses)?;
    put_count(alloc, &mut line, b" reads ", sums.reads)?;
    line.extend_from_slice(b" md5 ")?;
    line.extend_from_slice(&file_digest(report).to_hex())?;
    line.push(b'\n')?;
    Ok(line)
}
