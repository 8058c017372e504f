//! The tokens of a query's text: words, numbers, quoted texts and signs, and the lines of a text. It
//! stands on no other crate. A token with its place is seen as a pair of a token and its column. Main
//! promise: `scan_line` gives exactly the tokens of a line, the longest first, `split_line` cuts a text
//! exactly into its lines, and what `print_tokens` writes is read back.
#![tactic(auto)]

mod keyword;
mod laws;
mod lines;
mod print;
mod scan;
mod sign;
mod token;

pub use keyword::{KEYWORDS, Keyword};
pub use laws::{reads_back, reads_longest, tokens_are_real};
pub use lines::split_line;
pub use print::print_tokens;
pub use scan::scan_line;
pub use sign::{SIGNS, Sign};
pub use token::{Lexeme, Placed};
