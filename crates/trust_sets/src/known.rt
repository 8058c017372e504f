//! Who may know a node.
#![tactic(auto)]

ghost use Rattle.std.specs.Prelude.{◌≡◌};
ghost use Rattle.std.specs.List.{fold};
ghost use Rattle.trust_sets.specs.Known as known;

use listed::Listed;
use query_graph::{Aggregate, Item, Operand, Parties, Test};

/// Who may know the rows of a node, and who may know each of its columns.
#[derive(Debug, Drop)]
pub struct Known {
    pub rows: Parties,
    pub columns: Listed<Parties>,
}

impl Known {
    /// Who may know a column; no party where there is no such column.
    pub fn column(&self, column: u32) -> Parties
        ensures { result ≡ known.column_set self.now column }
    {
        match self.columns.as_slice().get(column as usize) {
            Some(set) => *set,
            None => Parties::none(),
        }
    }

    // Those of a set who may also know a column.
    fn met_with(&self, set: Parties, column: u32) -> Parties
        ensures { result ≡ known.met_with self.now set column }
    {
        set.meet(self.column(column))
    }

    fn met_with_operand(&self, set: Parties, operand: Operand) -> Parties
        ensures { result ≡ known.met_with_operand self.now set operand }
    {
        match operand {
            Operand::Column(column) => self.met_with(set, column),
            Operand::Constant(_) => set,
        }
    }

    // Who may know what each test uses.
    pub(crate) fn tested_set(&self, tests: &[Test]) -> Parties
        ensures { result ≡ fold (known.met_with_test self.now) self.now.rows tests.now }
    {
        let mut set = self.rows;
        for test in tests {
            set = self.met_with_operand(set, test.left);
            set = self.met_with_operand(set, test.right);
        }
        set
    }

    // Who may know what an item uses.
    pub(crate) fn item_set(&self, item: Item) -> Parties
        ensures { result ≡ known.item_set self.now item }
    {
        match item {
            Item::Plain(operand) => self.met_with_operand(self.rows, operand),
            Item::Computed { left, op: _, right } => {
                let set = self.met_with_operand(self.rows, left);
                self.met_with_operand(set, right)
            }
        }
    }

    // Who may know the keys of a group.
    pub(crate) fn grouped_set(&self, keys: &[u32]) -> Parties
        ensures { result ≡ known.grouped_set self.now keys.now }
    {
        let mut set = self.rows;
        for key in keys {
            set = self.met_with(set, *key);
        }
        set
    }

    // Who may know an aggregate over rows that these may know.
    pub(crate) fn aggregate_set(&self, rows: Parties, aggregate: Aggregate) -> Parties
        ensures { result ≡ known.aggregate_set self.now rows aggregate }
    {
        match aggregate {
            Aggregate::Sum(column) => self.met_with(rows, column),
            Aggregate::Count => rows,
            Aggregate::Least(column) => self.met_with(rows, column),
            Aggregate::Greatest(column) => self.met_with(rows, column),
        }
    }

    // Who may know the keys of a join on both sides.
    pub(crate) fn joined_set(&self, right: &Known, keys: &[(u32, u32)]) -> Parties
        ensures { result ≡ known.joined_set self.now right.now keys.now }
    {
        let mut set = self.rows.meet(right.rows);
        for key in keys {
            set = self.met_with(set, key.0);
            set = right.met_with(set, key.1);
        }
        set
    }

    // Who may know all columns.
    pub(crate) fn distinct_set(&self) -> Parties
        ensures { result ≡ known.distinct_set self.now }
    {
        let mut set = self.rows;
        for column in self.columns.as_slice() {
            set = set.meet(*column);
        }
        set
    }
}
