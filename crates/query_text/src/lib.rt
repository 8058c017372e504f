//! The query text: reads any bytes into the statements of a query, or gives the one place where they
//! stop being one, and prints a query. It stands on `query_tokens`. A `Query` is seen as its list of
//! statements, which are plain data over lists. Main promises: `read_query` answers exactly by the
//! grammar of `specs/Grammar` and `specs/Text`, in both directions, and what `print_query` writes is
//! read back.
#![tactic(auto)]

mod bytes;
mod laws;
mod lists;
mod operand;
mod parser;
mod parts;
mod print;
mod query;
mod read;
mod read_parts;
mod read_statements;
mod spell_parts;
mod spell_statements;
mod statement;
mod stop;
mod token_list;
mod tokens;

pub use bytes::Bytes;
pub use laws::{one_reading, texts_give_statements};
pub use operand::{Cmp, KindText, Op, OperandText};
pub use parts::{AggregateText, ColumnText, ItemText, TestText};
pub use print::print_query;
pub use query::{Query, ReadFault};
pub use read::read_query;
pub use statement::{
    Body, ConcatText, DistinctText, FilterText, GroupText, JoinText, OutputText, RelationText,
    SelectText, Statement,
};
