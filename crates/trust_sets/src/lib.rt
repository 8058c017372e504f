//! Who may know which rows and columns of a query, and who may get its answers.
//!
//! Stands on query_graph, and on plain_meaning and plain_operators for what a graph's rows are in a world. A graph's
//! trust is seen as two lists with a place for each node: who may know the node's rows and each of its columns
//! (`specs/Known.antt`), and for each party the first relation under the node that isn't released to it
//! (`specs/Release.antt`). The main promises: `derive_trust` gives exactly these, `check_trust` exactly the first
//! statement that asks for more (`specs/Faults.antt`), and `agree` exactly the first part in which two worlds differ
//! in what a party may know (`specs/Agreement.antt`, `specs/Differs.antt`); and the trust lemma: where two worlds'
//! files agree for a party, what it may know of any node is the same (`specs/Steps.antt`).
#![tactic(auto)]

mod agreement;
mod answers;
mod check;
mod columns;
mod cut_rows;
mod derive;
mod fault;
mod files;
mod known;
mod laws;
mod operators;
mod trust;
mod withheld;

pub use agreement::{Differs, agree, differences_are_one};
pub use check::check_trust;
pub use derive::derive_trust;
pub use fault::TrustFault;
pub use laws::{
    agreement_is_equivalence, columns_within_rows, keys_are_known, known_columns_are_same,
    nodes_know_from_earlier, rows_narrow, rules_in_words, trust_lemma, trust_steps,
    what_columns_need, what_rows_need, withheld_is_first,
};
pub use trust::Trust;
