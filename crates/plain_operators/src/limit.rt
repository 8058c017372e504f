//! Lists that are cut off at a limit, where one is given.

ghost use Rattle.std.specs.Prelude.{◌≡◌};
ghost use Rattle.plain_operators.specs.Limits.{first_of, is_reached, left_of};

// Whether a limit lets no other element through after so many.
pub(crate) fn is_reached(limit: Option<usize>, made: usize) -> bool
    ensures { result ≡ is_reached limit made }
{
    match limit {
        None => false,
        Some(limit) => limit <= made,
    }
}

// What is left of a limit after so many elements.
pub(crate) fn left_of(limit: Option<usize>, made: usize) -> Option<usize>
    ensures { result ≡ left_of limit made }
{
    match limit {
        None => None,
        Some(limit) => Some(limit.saturating_sub(made)),
    }
}

// The first elements, as many as a limit lets through.
pub(crate) fn first_of<T>(items: &[T], limit: Option<usize>) -> &[T]
    ensures { result.now ≡ first_of limit items.now }
{
    match limit {
        None => items,
        Some(limit) => {
            if limit < items.len() {
                &items[..limit]
            } else {
                items
            }
        }
    }
}
