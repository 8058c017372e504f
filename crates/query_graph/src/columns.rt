//! The columns of a node.
#![tactic(auto)]

ghost use Rattle.std.specs.Prelude.{◌≡◌, ◌++◌, not, map, filter, IfOk, OnOk};
ghost use Rattle.query_graph.specs.Columns.{columns_of, joined_columns, other_columns};
ghost use Rattle.query_graph.specs.Kinds.{declared_kind};
ghost use Rattle.query_graph.specs.Names.{is_among};

use crate::kinds::{operand_kind, result_kind};
use crate::nodes::Nodes;
use crate::source::Source;
use query_text::{AggregateText, Body, Bytes, ColumnText, ItemText, JoinText, KindText};
use std::alloc::{AllocError, Global};
use words::{Column, Kind, Label};

/// A part of a statement that makes a column of its node, over the columns of the source.
pub(crate) trait Makes: Sized {
    ghost use Rattle.std.specs.Prelude.{List};
    ghost use Rattle.words.specs.declared.column.Column.{Column};

    ghost made: { List Column → Self → Column };

    fn column(&self, alloc: Global, source: &Source) -> Result<Column, AllocError>
        ensures { IfOk result (λ column. column ≡ made source.now self.now) };
}

/// Adds the columns that the parts make.
pub(crate) fn add_made<P: Makes>(
    alloc: Global,
    source: &Source,
    parts: &[P],
    columns: &mut Vec<Column>,
) -> Result<(), AllocError>
    ensures { OnOk result (columns.new.items ≡ columns.old.items ++ map (P.made source.now) parts.now) }
{
    for part in parts {
        columns.push(part.column(alloc, source)?)?;
    }
    Ok(())
}

/// Adds the source's columns that aren't keys.
pub(crate) fn add_others(
    keys: &[Bytes],
    source: &[Column],
    columns: &mut Vec<Column>,
) -> Result<(), AllocError>
    ensures { OnOk result (columns.new.items ≡ columns.old.items ++ other_columns keys.now source.now) }
{
    for column in source {
        if !is_among(keys, column.name.bytes()) {
            columns.push(column.clone()?)?;
        }
    }
    Ok(())
}

/// Adds all columns of the source.
pub(crate) fn add_all(source: &[Column], columns: &mut Vec<Column>) -> Result<(), AllocError>
    ensures { OnOk result (columns.new.items ≡ columns.old.items ++ source.now) }
{
    for column in source {
        columns.push(column.clone()?)?;
    }
    Ok(())
}

/// The columns of a statement's node.
pub(crate) fn columns_of(
    alloc: Global,
    nodes: &Nodes,
    body: &Body,
) -> Result<Vec<Column>, AllocError>
    ensures { IfOk result (λ columns. columns.items ≡ columns_of nodes.now body.now) }
{
    let mut columns = Vec::new(alloc);
    match body {
        Body::Relation(r) => add_made(alloc, &Source::none(), r.columns.as_slice(), &mut columns)?,
        Body::Filter(f) => add_all(nodes.source(&f.source).columns(), &mut columns)?,
        Body::Select(s) => {
            let source = nodes.source(&s.source);
            add_made(alloc, &source, s.items.as_slice(), &mut columns)?;
        }
        Body::Concat(c) => {
            let source = nodes.first_source(c.sources.as_slice());
            add_all(source.columns(), &mut columns)?;
        }
        Body::Join(j) => add_joined(alloc, nodes, j, &mut columns)?,
        Body::Group(g) => {
            let source = nodes.source(&g.source);
            add_made(alloc, &source, g.keys.as_slice(), &mut columns)?;
            add_made(alloc, &source, g.aggregates.as_slice(), &mut columns)?;
        }
        Body::Distinct(d) => add_all(nodes.source(&d.source).columns(), &mut columns)?,
        Body::Output(_) => (),
    }
    Ok(columns)
}

// Adds the keys, then the left's other columns, then the right's.
fn add_joined(
    alloc: Global,
    nodes: &Nodes,
    join: &JoinText,
    columns: &mut Vec<Column>,
) -> Result<(), AllocError>
    ensures { OnOk result (columns.new.items ≡ columns.old.items ++ joined_columns nodes.now join.now) }
{
    let keys = join.keys.as_slice();
    let left = nodes.source(&join.left);
    let right = nodes.source(&join.right);
    add_made(alloc, &left, keys, columns)?;
    add_others(keys, left.columns(), columns)?;
    add_others(keys, right.columns(), columns)
}

// Whether the name is one of these.
fn is_among(names: &[Bytes], name: &[u8]) -> bool
    ensures { result ≡ is_among names.now name.now }
{
    names.iter().any(|other| other.bytes() == name)
}

fn declared_kind(kind: KindText) -> Kind
    ensures { result ≡ declared_kind kind }
{
    match kind {
        KindText::Num => Kind::Num,
        KindText::Text => Kind::Text,
    }
}

// A column of this name and kind.
fn named_column(alloc: Global, name: &Bytes, kind: Kind) -> Result<Column, AllocError>
    ensures { IfOk result (λ c. (c.name ≡ name.now) × (c.kind ≡ kind)) }
{
    let name = Label::new(alloc, name.bytes())?;
    Ok(Column { name, kind })
}

impl Makes for ColumnText {
    ghost use Rattle.std.specs.Prelude.{List};
    ghost use Rattle.words.specs.declared.column.Column.{Column};
    ghost use Rattle.query_graph.specs.Columns.{declared_column};

    ghost made = { λ _ c. declared_column c };

    fn column(&self, alloc: Global, _source: &Source) -> Result<Column, AllocError> {
        named_column(alloc, &self.name, declared_kind(self.kind))
    }
}

impl Makes for Bytes {
    ghost use Rattle.query_graph.specs.Columns.{key_column};

    ghost made = { key_column };

    fn column(&self, alloc: Global, source: &Source) -> Result<Column, AllocError> {
        named_column(alloc, self, source.kind(self.bytes()))
    }
}

impl Makes for ItemText {
    ghost use Rattle.query_graph.specs.Columns.{item_column};

    ghost made = { item_column };

    fn column(&self, alloc: Global, source: &Source) -> Result<Column, AllocError> {
        match self {
            ItemText::Same(name) => named_column(alloc, name, source.kind(name.bytes())),
            ItemText::Copied(new, operand) => named_column(
                alloc,
                new,
                operand_kind(source, operand),
            ),
            ItemText::Computed(new, _, op, _) => named_column(alloc, new, result_kind(*op)),
        }
    }
}

impl Makes for AggregateText {
    ghost use Rattle.query_graph.specs.Columns.{aggregate_column};

    ghost made = { aggregate_column };

    fn column(&self, alloc: Global, source: &Source) -> Result<Column, AllocError> {
        match self {
            AggregateText::Sum(new, _) => named_column(alloc, new, Kind::Num),
            AggregateText::Count(new) => named_column(alloc, new, Kind::Num),
            AggregateText::Least(new, name) => {
                named_column(alloc, new, source.kind(name.bytes()))
            }
            AggregateText::Greatest(new, name) => {
                named_column(alloc, new, source.kind(name.bytes()))
            }
        }
    }
}
