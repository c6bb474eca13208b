//! What a whole run is set to.

use case_order::Case;

/// The settings of a run.
#[derive(Clone, Copy, Debug, PartialEq, Eq)]
pub struct Settings {
    /// How names are compared.
    pub case: Case,
    /// How many events the queue holds, 1 to 65,536.
    pub queue: u64,
    /// How many calls of a race get a place, 1 to 65,536. A replay has no use for it.
    pub places: u64,
    /// On how many threads contents are hashed, 1 to 16.
    pub workers: u64,
}

/// Where nothing is set, names compare byte by byte, the queue holds 1,024 events, 65,536 calls get a
/// place, and contents are hashed on one thread.
impl Default for Settings {
    ghost use Rattle.std.specs.Prelude.{◌≡◌};
    ghost use Rattle.world_model.specs.Defaults.{default_settings};

    ghost is_default = { λ settings. settings ≡ default_settings };

    fn default() -> Settings {
        Settings {
            case: Case::Sensitive,
            queue: 1024,
            places: 65_536,
            workers: 1,
        }
    }
}
