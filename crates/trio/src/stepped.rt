//! What a step of one party did.

/// What a step of one party did.
#[derive(Debug, Drop, Clone, Copy, PartialEq, Eq)]
pub enum Stepped {
    /// It made one move.
    Moved,
    /// It wants more words of that party, 1 to 3, than wait for it.
    Waits { source: u8 },
    /// It is at the end of its list, or has stopped at a flag.
    Ended,
}
