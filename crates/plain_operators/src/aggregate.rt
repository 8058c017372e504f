ghost use Rattle.std.specs.Prelude.{◌≡◌, ◌<◌, length};
ghost use Rattle.std.specs.List.{All};
ghost use Rattle.plain_operators.specs.Operators as plain;
ghost use Rattle.listed.specs.Lists.{lent};
ghost use Rattle.plain_operators.specs.Within.{IsAggregateOf};

/// What a group says of its rows: the sum of a column modulo 2^64, how many there are, or the least or the greatest
/// word of a column, by its number from 0.
#[derive(Clone, Copy, Debug, PartialEq, Eq)]
pub enum Aggregate {
    Sum(u32),
    Count,
    Least(u32),
    Greatest(u32),
}

impl Aggregate {
    // The aggregate over rows.
    pub(crate) fn over(self, rows: &[&[u64]]) -> u64
        requires { All (λ row. IsAggregateOf (length row.now) self) rows.now }
        ensures { result ≡ plain.aggregated self (lent rows.now) }
    {
        match self {
            Aggregate::Sum(column) => sum(column, rows),
            Aggregate::Count => rows.len() as u64,
            Aggregate::Least(column) => least(column, rows),
            Aggregate::Greatest(column) => greatest(column, rows),
        }
    }
}

#[tactic(auto, using(crate::proofs::Steps::sum_more))]
// The sum of a column modulo 2^64.
fn sum(column: u32, rows: &[&[u64]]) -> u64
    requires { All (λ row. column < length row.now) rows.now }
    ensures { result ≡ plain.aggregated (Aggregate.Sum column) (lent rows.now) }
{
    let mut total = 0u64;
    for row in rows {
        total = total.wrapping_add(row[column as usize]);
    }
    total
}

#[tactic(auto, using(crate::proofs::Steps::least_more))]
// The least word of a column.
fn least(column: u32, rows: &[&[u64]]) -> u64
    requires { All (λ row. column < length row.now) rows.now }
    ensures { result ≡ plain.aggregated (Aggregate.Least column) (lent rows.now) }
{
    let mut best = u64::MAX;
    for row in rows {
        best = best.min(row[column as usize]);
    }
    best
}

#[tactic(auto, using(crate::proofs::Steps::greatest_more))]
// The greatest word of a column.
fn greatest(column: u32, rows: &[&[u64]]) -> u64
    requires { All (λ row. column < length row.now) rows.now }
    ensures { result ≡ plain.aggregated (Aggregate.Greatest column) (lent rows.now) }
{
    let mut best = 0u64;
    for row in rows {
        best = best.max(row[column as usize]);
    }
    best
}
