//! Shapes of padded tables.

ghost use Rattle.std.specs.Prelude.{◌≡◌};
ghost use Rattle.std.specs.List.{list_all};
ghost use Rattle.clear_tasks.specs.TableShapes.{is_table, is_words_of, rows_of_shapes};

use step_lists::Shape;

// How many words the first slot has.
pub(crate) fn rows_of_shapes(shapes: &[Shape]) -> u32
    ensures { result ≡ rows_of_shapes shapes.now }
{
    match shapes.first() {
        Some(Shape::Words(count)) => *count,
        Some(Shape::OrderOf(count)) => *count,
        None => 0,
    }
}

fn is_words_of(rows: u32, shape: Shape) -> bool
    ensures { result ≡ is_words_of rows shape }
{
    match shape {
        Shape::Words(count) => count == rows,
        Shape::OrderOf(_) => false,
    }
}

// Whether each slot has so many words.
fn are_words_of(rows: u32, shapes: &[Shape]) -> bool
    ensures { result ≡ list_all (is_words_of rows) shapes.now }
{
    shapes.iter().all(|shape| is_words_of(rows, *shape))
}

// Whether these are so many columns and the valid words, each of so many words.
pub(crate) fn is_table(columns: u32, rows: u32, shapes: &[Shape]) -> bool
    ensures { result ≡ is_table columns rows shapes.now }
{
    shapes.len() == columns as usize + 1 && are_words_of(rows, shapes)
}
