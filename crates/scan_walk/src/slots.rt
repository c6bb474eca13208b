//! The scans by their numbers.

ghost use Rattle.std.specs.Prelude.{◌≡◌, ◌<◌, ◌≤◌, Some, None, IfOk, IfSome, OnOk, OnErr, is_some, length, option_map, slice_set};
ghost use Rattle.std.specs.Option.{option_copied};
ghost use Rattle.vfs_model.specs.Scanning as scanning;
ghost use Rattle.world_model.specs.Meaning.{look_seen};
ghost use Rattle.scan_walk.specs.Cased.{running_of, cased_at};
ghost use Rattle.scan_walk.specs.Scans.{IsNext, HasNext, IsLookOfOpen, IsShapedRunning, cased_after, scan_after};

use crate::scan::Scan;
use case_order::{NoMemory, Share};
use merkle_hash::Bytes;
use vfs_path::Path;
use world_model::Entry;

/// Where a scan goes on.
#[derive(Drop)]
pub enum Next {
    /// It is closed.
    Closed,
    /// Nothing is left.
    Done,
    /// The location to be read next.
    Location(Path),
}

/// Where the scan with the number goes on.
///
/// The only error is want of memory, which comes only where a location is left.
pub fn next_of(scans: &[Option<Scan>], scan: usize) -> Result<Next, NoMemory>
    requires { scan < length scans.now }
    ensures next { IfOk result (λ next. IsNext (running_of (cased_at scans.now scan)) next) }
    ensures left { OnErr result (HasNext (running_of (cased_at scans.now scan))) }
{
    match &scans[scan] {
        None => Ok(Next::Closed),
        Some(scan) => match scan.next() {
            None => Ok(Next::Done),
            Some(path) => match path.share() {
                Ok(path) => Ok(Next::Location(path)),
                Err(NoMemory) => Err(NoMemory),
            },
        },
    }
}

/// Whether the scan with the number is in progress.
pub fn is_open(scans: &[Option<Scan>], scan: usize) -> bool
    requires { scan < length scans.now }
    ensures { result ≡ is_some (cased_at scans.now scan) }
{
    scans[scan].is_some()
}

/// Sets the scan with the number: in progress, or closed.
pub fn set_scan(scans: &mut Vec<Option<Scan>>, scan: usize, to: Option<Scan>)
    requires { scan < length scans.old.items }
    ensures scans { scans.new.items ≡ slice_set scans.old.items scan to }
    ensures as_many { length scans.new.items ≡ length scans.old.items }
{
    scans[scan] = to;
}

/// How many locations are left of the scan with the number; None exactly where it is closed.
pub fn left_of(scans: &[Option<Scan>], scan: usize) -> Option<u64>
    requires { scan < length scans.now }
    ensures { result ≡ option_map (λ s. scanning.count_left s.scan.partial) (cased_at scans.now scan) }
{
    match &scans[scan] {
        None => None,
        Some(scan) => Some(scan.left()),
    }
}

/// The bytes of the files that the scan with the number has read, in order; None exactly where it
/// is closed.
pub fn contents_of(scans: &[Option<Scan>], scan: usize) -> Option<&[Bytes]>
    requires { scan < length scans.now }
    ensures bytes { option_copied result ≡ option_map (λ s. scanning.contents s.scan.partial) (cased_at scans.now scan) }
    ensures shape { IfSome (cased_at scans.now scan) (λ s. IsShapedRunning s.case s.scan) }
{
    match &scans[scan] {
        None => None,
        Some(scan) => Some(scan.contents()),
    }
}

/// The next location of the scan with the number was seen; gives how many are left then.
///
/// Nothing changes where the scan is closed. The only error is want of memory; then nothing
/// changed.
pub fn see_in(scans: &mut Vec<Option<Scan>>, scan: usize, entry: Entry) -> Result<u64, NoMemory>
    requires number { scan < length scans.old.items }
    requires look { IsLookOfOpen (cased_at scans.old.items scan) (look_seen entry) }
    ensures seen { OnOk result (IfSome (cased_at scans.old.items scan) (λ s. scans.new.items ≡ slice_set scans.old.items scan (Some (cased_after (look_seen entry) s)))) }
    ensures left { IfOk result (λ left. IfSome (cased_at scans.old.items scan) (λ s. left ≡ scanning.count_left (scan_after (look_seen entry) s.scan).partial)) }
    ensures refused { OnErr result (scans.new.items ≡ scans.old.items) }
    ensures closed { cased_at scans.old.items scan ≡ None → scans.new.items ≡ scans.old.items }
    ensures as_many { length scans.new.items ≡ length scans.old.items }
{
    match &mut scans[scan] {
        None => Ok(0),
        Some(scan) => {
            scan.see(entry)?;
            Ok(scan.left())
        }
    }
}
