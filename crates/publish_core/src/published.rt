//! What comes of a publication.

/// What came of a publication.
#[derive(Clone, Copy, Debug, PartialEq, Eq)]
pub enum Published {
    /// The snapshot is retained.
    Stored,
    /// A snapshot is retained strictly above the path already.
    Covered,
    /// A path related to the ticket's was invalidated since the ticket was made; the version now.
    Stale(u64),
    /// Want of memory; nothing changed.
    NoMemory,
}

/// Why a publication comes to nothing.
#[derive(Clone, Copy, Debug, PartialEq, Eq)]
pub enum Refusal {
    /// A path related to the ticket's was invalidated since the ticket was made; the version now.
    Stale(u64),
    /// A snapshot is retained strictly above the path already.
    Covered,
}
