//! What a journal is.

ghost use Rattle.std.specs.Prelude.{◌≡◌, ◌≤◌, ℕ, List, length as length_of};

/// A value that keeps a journal: a list of entries, each of one caller, with a room for as many
/// entries as it ever has.
pub trait Journaled {
    /// An entry of the journal.
    type Entry;

    /// What is kept from the making on.
    type Base;

    /// The entries so far, the first one first.
    ghost log: { Self → List Self.Entry };

    /// The number of the caller that an entry is of.
    ghost caller: { Self.Entry → ℕ };

    /// How many entries there is room for.
    ghost room: { Self → ℕ };

    /// What is kept from the making on.
    ghost base: { Self → Self.Base };

    /// How many entries there are, at most the room.
    fn length(&self) -> u64
        ensures length { result ≡ length_of (log self.now) }
        ensures within { result ≤ room self.now };

    /// How many entries there is room for.
    fn room(&self) -> u64
        ensures { result ≡ room self.now };
}
