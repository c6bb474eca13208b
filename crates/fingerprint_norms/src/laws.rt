//! Laws of fingerprints.

ghost use Rattle.fingerprint_norms.specs.Laws.{StaysWhereverTheRootStands, TellsOnlyTheDigests};

/// The relative fingerprint of a directory is the same wherever its root stands.
pub fn relative_prints_stay()
    ensures { StaysWhereverTheRootStands }
{}

/// Where paths are ignored, two roots that are not missing have the same fingerprint once their
/// files have the same digests, in any order: directories come and go, names change.
pub fn ignored_prints_tell_only_the_files()
    ensures { TellsOnlyTheDigests }
{}
