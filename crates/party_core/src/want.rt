/// What a core wants next.
#[derive(Clone, Copy, Debug, PartialEq, Eq)]
pub enum Want {
    /// A turn.
    Turn,
    /// So many words of a party, 1 to 3, of which it hasn't taken any: those that come next from it.
    Words { source: u8, count: usize },
    /// Nothing more: the list is at its end.
    Done,
    /// Nothing more: this flag, by its number among the flags, stopped the list.
    Stopped { flag: u32 },
}
