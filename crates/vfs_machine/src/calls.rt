//! Calls and replies as values.

use crate::answers::{Answer, Began, Delivered, Edited, Printed, Readed};
use case_order::{NoMemory, Share};
use fingerprint_norms::Input;
use snapshot_tree::{Glance, Kind};
use vfs_path::Path;
use world_model::{Edit, Fit};

/// A call that has a place among the calls of all callers. A call of a scan means the scan with the
/// caller's number.
#[derive(Debug, Drop)]
pub enum Call {
    /// Edits the tree.
    Edit(Edit),
    /// Queues an event that was told from outside.
    Event(Path),
    /// Tells that events were lost.
    Lose,
    /// Delivers what waits first.
    Deliver,
    /// Begins the scan, at the path.
    Begin(Path),
    /// Looks at the next location of the scan.
    Read,
    /// Publishes what the scan read.
    Publish,
}

impl Share for Call {
    fn share(&self) -> Result<Call, NoMemory> {
        Ok(match self {
            Call::Edit(edit) => Call::Edit(edit.share()?),
            Call::Event(path) => Call::Event(path.share()?),
            Call::Lose => Call::Lose,
            Call::Deliver => Call::Deliver,
            Call::Begin(path) => Call::Begin(path.share()?),
            Call::Read => Call::Read,
            Call::Publish => Call::Publish,
        })
    }
}

/// What a `Call` is answered, by the variant that goes with it.
#[derive(Debug, Drop)]
pub enum Reply {
    /// To an edit.
    Edited(Edited),
    /// To an event.
    Fit(Fit),
    /// To a loss, which tells nothing.
    Lost,
    /// To a delivery.
    Delivered(Delivered),
    /// To a begin.
    Began(Began),
    /// To a read.
    Readed(Readed),
    /// To a publication.
    Answer(Answer),
}

/// A call that never has a place: a question, or the end of the caller's own scan.
#[derive(Clone, Copy, Debug)]
pub enum SideCall<'a> {
    /// The kind and the digest of what is retained at the path.
    Find(&'a Path),
    /// The kind of the location, where it is known.
    Kind(&'a Path),
    /// The version of the path.
    Version(&'a Path),
    /// The fingerprint of the inputs.
    Print(&'a [Input]),
    /// Closes the scan with the caller's number.
    Abandon,
}

/// What a `SideCall` is answered, by the variant that goes with it.
#[derive(Clone, Copy, Debug, PartialEq, Eq)]
pub enum SideReply {
    /// To a find; None where nothing is retained there.
    Found(Option<Glance>),
    /// To a question for a kind; None where it is not known.
    Known(Option<Kind>),
    /// To a question for a version.
    Version(u64),
    /// To a question for a fingerprint.
    Printed(Printed),
    /// To the end of a scan: whether it was in progress.
    Dropped(bool),
}
