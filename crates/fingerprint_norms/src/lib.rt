//! Fingerprints of inputs: one digest for all that the snapshots of some roots say.
#![tactic(auto)]

mod bytes;
mod entry;
mod input;
pub mod laws;
mod order;
mod print;
mod shown;
mod text;
mod walk;

pub use entry::FpEntry;
pub use input::{Input, Inputs, Seen, Sensitivity};
pub use print::{entries, fingerprint};
pub use snapshot_tree::Kind;
pub use text::Text;

/// Inputs, what was seen of them, entries and texts may be shared by threads.
pub fn shares_with_threads(
    inputs: &Inputs,
    input: &Input,
    seen: &Seen,
    entry: &FpEntry,
    text: &Text,
) {
    shareable(inputs);
    shareable(input);
    shareable(seen);
    shareable(entry);
    shareable(text);
}

fn shareable<T: Send + Sync>(_value: &T) {}

#[cfg(test)]
mod tests;
