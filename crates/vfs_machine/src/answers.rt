//! What the machine's calls answer.

use merkle_hash::Digest;
use snapshot_tree::Kind;
use vfs_path::Path;
use world_model::EditError;

/// What came of an edit.
#[derive(Clone, Copy, Debug, PartialEq, Eq)]
pub enum Edited {
    /// It was done, and its events are queued.
    Done,
    /// It was done, and an event of it did not fit.
    Overflow,
    /// The tree refuses it.
    Refused(EditError),
    /// Want of memory.
    NoMemory,
}

/// What was delivered.
#[derive(Debug, Drop)]
pub enum Delivered {
    /// The first event: its path was invalidated.
    Event(Path),
    /// The mark of lost events: all that was known was forgotten.
    Cleared,
    /// Nothing was pending.
    Nothing,
    /// Want of memory.
    NoMemory,
}

/// What came of the begin of a scan.
#[derive(Clone, Copy, Debug, PartialEq, Eq)]
pub enum Began {
    /// The scan is in progress already.
    AlreadyOpen,
    /// It began; the version of its path.
    Version(u64),
    /// Want of memory.
    NoMemory,
}

/// What came of the next read of a scan.
#[derive(Debug, Drop)]
pub enum Readed {
    /// The scan is closed.
    NoScan,
    /// No location is left.
    Done,
    /// The location that was seen, its kind, and how many locations are left after it.
    Saw(Path, Kind, u64),
    /// The look failed, and the tree counted it.
    Fault,
    /// Want of memory.
    NoMemory,
}

/// What came of the publication of a scan.
#[derive(Clone, Copy, Debug, PartialEq, Eq)]
pub enum Answer {
    /// The scan is closed.
    NoScan,
    /// So many locations are left.
    Unfinished(u64),
    /// A related path was invalidated since the begin; the version now.
    Stale(u64),
    /// A snapshot is retained strictly above already.
    Covered,
    /// Want of memory.
    NoMemory,
    /// The snapshot is retained.
    Stored,
}

/// What came of a fingerprint.
#[derive(Clone, Copy, Debug, PartialEq, Eq)]
pub enum Printed {
    /// The fingerprint.
    Is(Digest),
    /// The root of the input with this number, counted from 0, is the first that is not retained.
    Unknown(u64),
    /// Want of memory.
    NoMemory,
}
