//! Padded tables: columns of words with a valid word for each place, 1 where a row stands, so that the length of the
//! columns doesn't show how many rows there are.
//!
//! Stands on `bags`, `lanes` and `tapes` (orders of rows and of columns). Everything is said by index: columns stay
//! columns, and a row is the words of all columns at a place. Joint tables, clear tables that a party works on, what an
//! opening shows and what a party tells are compared by these words. `laws` holds what is true of them.
//! Main promise: `valid_rows`, `pad_rows` and `sorted_rows` give exactly the rows of a table, the table of rows, and the
//! table that is told.
#![tactic(auto)]

pub mod laws;
mod table;
mod told;

pub use table::{pad_rows, valid_rows};
pub use told::sorted_rows;
