//! One fingerprint, with what it is of.

ghost use Rattle.std.specs.Prelude.{◌≡◌, ◌&&◌, map};
ghost use Rattle.vfs_model.specs.Paths.{is_same_place, place};
ghost use Rattle.vfs_model.specs.State.{is_for_inputs, is_same_sensitivity, is_touched};
ghost use Rattle.fingerprint_norms.specs.Meaning.{input_of, seen_of, sensitivity_of};

use case_order::Case;
use fingerprint_norms::{Input, Seen};
use merkle_hash::Digest;
use std::marker::Model;
use vfs_path::Path;

/// A fingerprint, and the inputs and snapshots that it is of.
#[derive(Debug, Drop)]
pub(crate) struct Kept {
    pub(crate) seen: Vec<Seen>,
    pub(crate) digest: Digest,
}

impl Model for Kept {
    ghost use Rattle.std.specs.Prelude.{map};
    ghost use Rattle.vfs_model.specs.State.{KeptPrint};
    ghost use Rattle.vfs_model.specs.Code.{kept_code};
    ghost use Rattle.fingerprint_norms.specs.Meaning.{seen_of};

    ghost Value = { KeptPrint };

    ghost coded = { kept_code };

    ghost view = { λ k. record { seen = map seen_of k.seen.items; digest = k.digest } };
}

/// Whether the two are one input: the same root by spelling, taken in the same way.
fn is_same(input: &Input, other: &Input) -> bool
    ensures { result ≡ (is_same_place input.now.root other.now.root
        && is_same_sensitivity (sensitivity_of input.now.sensitivity) (sensitivity_of other.now.sensitivity)) }
{
    input.root == other.root && input.sensitivity == other.sensitivity
}

/// Whether these are the inputs that were seen, in order.
fn are_of(inputs: &[Input], seen: &[Seen]) -> bool
    ensures { result ≡ is_for_inputs (map input_of inputs.now) (map seen_of seen.now) }
{
    inputs.len() == seen.len()
        && inputs
            .iter()
            .zip(seen)
            .all(|(input, seen)| is_same(input, &seen.input))
}

impl Kept {
    /// Whether it is of these very inputs.
    pub(crate) fn is_of(&self, inputs: &[Input]) -> bool
        ensures { result ≡ is_for_inputs (map input_of inputs.now) self.now.seen }
    {
        are_of(inputs, &self.seen)
    }

    /// Whether some root is related to the path.
    pub(crate) fn is_related(&self, case: Case, path: &Path) -> bool
        ensures { result ≡ is_touched case (place case path.now) self.now }
    {
        self.seen
            .iter()
            .any(|seen| path.related(case, &seen.input.root))
    }
}
