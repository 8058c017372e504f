//! Private random choices of a run, recorded: orders, draws, tapes, their bytes, tapes from a seed,
//! and the order that aligns two lists of rows.
//!
//! It stands on `lanes` (words picked by places) and `bags` (rows as bags). An `Order` is seen as a
//! list of numbers that is a permutation of those below its length, a `Tape` as its list of draws,
//! a `Cursor` as that list and a place in it, `Needs` as the list of needs. In memory a tape's words
//! lie side by side, and needs are runs of equal ones. Orders are a group (`order_laws`), bytes have
//! one tape or one first fault (`read_tape`), a seed has one tape for its needs (`make_tapes`,
//! `made_laws`), a tape fits needs or has one first draw that doesn't (`Tape::first_unfit`).
#![tactic(auto)]

mod align_rows;
mod cursor;
mod draw;
mod fit;
mod laws;
mod make;
mod marking;
mod needs;
mod order;
mod pairs;
mod placed;
mod read_draw;
mod tape;
mod tape_bytes;

pub use align_rows::{AlignFault, align};
pub use cursor::Cursor;
pub use draw::{Draw, LentDraw, Need, Schedule};
pub use laws::{align_laws, cursor_laws, made_laws, need_laws, order_laws, read_laws, row_laws};
pub use make::make_tapes;
pub use needs::{Needs, Run};
pub use order::Order;
pub use tape::{Tape, Tapes};
pub use tape_bytes::{TapeFault, read_tape, write_tape};
