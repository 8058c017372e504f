//! The columns of a table: a name and a kind each.
#![tactic(auto)]

ghost use Rattle.std.specs.Prelude.{◌≡◌, IfOk};

use std::alloc::{AllocError, Global};
use std::marker::Model;

/// What the words of a column stand for.
#[derive(Clone, Copy, Debug, PartialEq, Eq)]
pub enum Kind {
    /// The word itself, a number below 2^64.
    Num,
    /// A text of at most 8 bytes from space to tilde, packed from the high byte and padded with zeros.
    Text,
    /// 0 or 1, as a comparison gives it.
    Flag,
}

/// A name, seen as its list of bytes.
#[derive(Debug, Drop)]
pub struct Label {
    bytes: Vec<u8>,
}

impl Model for Label {
    ghost use Rattle.std.specs.Prelude.{ℕ, List};

    ghost Value = { List ℕ };

    ghost view = { λ l. l.bytes.items };
}

impl Label {
    /// A copy of the bytes as a name.
    pub fn new(alloc: Global, bytes: &[u8]) -> Result<Label, AllocError>
        ensures { IfOk result (λ label. label ≡ bytes.now) }
    {
        let bytes = Vec::from_slice(alloc, bytes)?;
        Ok(Label { bytes })
    }

    /// The bytes of the name.
    pub fn bytes(&self) -> &[u8]
        ensures { result.now ≡ self.now }
    {
        self.bytes.as_slice()
    }
}

impl Clone for Label {
    ghost is_clone = { λ label copy. copy ≡ label };

    fn clone(&self) -> Result<Label, AllocError> {
        let bytes = self.bytes.clone()?;
        Ok(Label { bytes })
    }
}

/// A column of a table: its name and the kind of its words.
#[derive(Debug, Drop)]
pub struct Column {
    /// The name that a file's header and a query call it by.
    pub name: Label,
    /// The kind of its words.
    pub kind: Kind,
}

impl Clone for Column {
    ghost is_clone = { λ column copy. copy ≡ column };

    fn clone(&self) -> Result<Column, AllocError> {
        let name = self.name.clone()?;
        let kind = self.kind;
        Ok(Column { name, kind })
    }
}
