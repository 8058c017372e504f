//! Which columns a select copies.
#![tactic(auto)]

ghost use Rattle.std.specs.Prelude.{◌≡◌};
ghost use Rattle.std.specs.List.{list_any};
ghost use Rattle.rewrites.specs.Up.{copies_columns, is_column, is_copy};

use query_graph::{Item, Operand};

fn is_column(column: usize, operand: Operand) -> bool
    ensures { result ≡ is_column column operand }
{
    match operand {
        Operand::Column(other) => other as usize == column,
        Operand::Constant(_) => false,
    }
}

fn is_copy(column: usize, item: &Item) -> bool
    ensures { result ≡ is_copy column item.now }
{
    match *item {
        Item::Plain(operand) => is_column(column, operand),
        Item::Computed { .. } => false,
    }
}

fn some_is_copy(items: &[Item], column: usize) -> bool
    ensures { result ≡ list_any (λ item. is_copy column item) items.now }
{
    items.iter().any(|item| is_copy(column, item))
}

// Whether each of so many columns is copied by an item.
pub(crate) fn copies_columns(items: &[Item], width: usize) -> bool
    ensures { result ≡ copies_columns items.now width }
{
    for column in 0..width {
        if !some_is_copy(items, column) {
            return false;
        }
    }
    true
}
