use wires::Wire;

/// A table of shared words: a wire for each column, one of the valid words, and how many rows they have room for.
///
/// A row is valid where its valid word is 1. Each wire has a lane for each row.
#[derive(Debug, Drop)]
pub struct Joint {
    /// A wire for each column.
    pub columns: Vec<Wire>,
    /// The valid words.
    pub valid: Wire,
    /// How many lanes each wire has.
    pub rows: u32,
}
