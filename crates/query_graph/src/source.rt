//! The columns of a source, found by their names.
#![tactic(auto)]

ghost use Rattle.std.specs.Prelude.{◌≡◌, ◌≤◌, [], length};
ghost use Rattle.query_graph.specs.Names.{column_kind, column_number, is_column};

use crate::names::Names;
use std::marker::Model;
use words::{Column, Kind};

/// The columns of a source, with the table of their names. Seen as their list.
#[derive(Drop)]
pub(crate) struct Source<'a> {
    columns: &'a [Column],
    // There is no table where there are no columns.
    names: Option<&'a Names>,
}

impl<'a> Model for Source<'a> {
    ghost use Rattle.std.specs.Prelude.{List};
    ghost use Rattle.words.specs.declared.column.Column.{Column};
    ghost use Rattle.query_graph.specs.Tables.{HasColumnNames};

    ghost Value = { List Column };

    ghost view = { λ s. s.columns.now };

    ghost invariant = { HasColumnNames };
}

impl<'a> Source<'a> {
    ghost use Rattle.std.specs.Prelude.{map};

    /// No columns.
    pub(crate) fn none() -> Source<'a>
        ensures { result ≡ [] }
    {
        Source {
            columns: &[],
            names: None,
        }
    }

    /// These columns, which have these names.
    pub(crate) fn new(columns: &'a [Column], names: &'a Names) -> Source<'a>
        requires { names.now ≡ map (λ c. c.name) columns.now }
        ensures { result ≡ columns.now }
    {
        Source {
            columns,
            names: Some(names),
        }
    }

    /// The columns in their order.
    pub(crate) fn columns(&self) -> &'a [Column]
        ensures { result.now ≡ self.now }
    {
        self.columns
    }

    /// Whether a column has this name.
    #[tactic(auto, using(crate::proofs::Tables::among_columns))]
    pub(crate) fn has(&self, name: &[u8]) -> bool
        ensures { result ≡ is_column self.now name.now }
    {
        match self.names {
            Some(names) => names.has(name),
            None => false,
        }
    }

    /// How many columns stand before the one with this name.
    #[tactic(auto, using(crate::proofs::Tables::number_of_column))]
    pub(crate) fn number(&self, name: &[u8]) -> usize
        ensures number { result ≡ column_number self.now name.now }
        ensures within { result ≤ length self.now }
    {
        match self.names {
            Some(names) => names.number(name),
            None => 0,
        }
    }

    /// The kind of the column with this name.
    #[tactic(auto, using(crate::proofs::Tables::kind_found, crate::proofs::Tables::kind_missing))]
    pub(crate) fn kind(&self, name: &[u8]) -> Kind
        ensures { result ≡ column_kind self.now name.now }
    {
        match self.columns.get(self.number(name)) {
            Some(column) => column.kind,
            None => Kind::Num,
        }
    }
}
