//! The files of two worlds, as far as a party may know them.
#![tactic(auto)]

ghost use Rattle.std.specs.Prelude.{◌≡◌, ◌≢◌, ◌<◌, ◌^◌, ◌↔◌, length, IsTrue, IfOk};
ghost use Rattle.query_graph.specs.declared.operator.Relation.{Relation};
ghost use Rattle.plain_meaning.specs.Fits.{IsWorldOf};
ghost use Rattle.plain_meaning.specs.Meaning.{rows_of};
ghost use Rattle.plain_meaning.specs.Plain.{rows_of_tables};
ghost use Rattle.plain_operators.specs.Cuts.{CutsAgree};
ghost use Rattle.trust_sets.specs.Agreement.{OwnFileAgrees, TrustedPartAgrees, known_columns};
ghost use Rattle.trust_sets.specs.Differs.{FirstFailure, HasFile, OfRelation};
ghost use Rattle.trust_sets.specs.Known.{known_at};
ghost use Rattle.trust_sets.specs.Laws.{KnowsRows};

use crate::cut_rows::{cuts_agree, known_columns};
use crate::trust::Trust;
use plain_meaning::World;
use query_graph::{Node, Operator};
use std::alloc::{AllocError, Global};
use tables::Table;

// Whether both have the same rows in the same order.
fn same_rows(left: &Table, right: &Table) -> bool
    ensures { IsTrue result ↔ (left.now.rows ≡ right.now.rows) }
{
    if left.rows() != right.rows() {
        return false;
    }
    for index in 0..left.rows() {
        if left.row(index) != right.row(index) {
            return false;
        }
    }
    true
}

// Whether the file with this number has the same rows in both worlds, where its relation is the party's own.
#[tactic(auto, using(crate::proofs::SameRows::file_rows, crate::proofs::SameRows::file_within))]
fn own_file_agrees(shape: &Operator, party: u8, file: usize, world: &World, other: &World) -> bool
    requires world { HasFile (rows_of_tables world.now) file shape.now }
    requires other { HasFile (rows_of_tables other.now) file shape.now }
    ensures { IsTrue result ↔ OfRelation (λ r. r.owner ≡ party
        → rows_of (rows_of_tables world.now) file ≡ rows_of (rows_of_tables other.now) file) shape.now }
{
    match shape {
        Operator::Relation(written) => {
            written.owner != party || same_rows(world.table(file), other.table(file))
        }
        _ => true,
    }
}

// The first of the party's own files that differs.
pub(crate) fn first_own_file(nodes: &[Node], party: u8, world: &World, other: &World) -> Option<u32>
    requires few { length nodes.now < 2 ^ 32 }
    requires world { IsWorldOf nodes.now (rows_of_tables world.now) }
    requires other { IsWorldOf nodes.now (rows_of_tables other.now) }
    ensures { FirstFailure (OwnFileAgrees nodes.now party (rows_of_tables world.now) (rows_of_tables other.now)) result }
{
    let mut file = 0;
    for (number, node) in nodes.iter().enumerate() {
        if !own_file_agrees(&node.shape, party, file, world, other) {
            return Some(number as u32);
        }
        file += usize::from(node.shape.is_relation());
    }
    None
}

// Whether two files have the same bag of rows, cut to the columns that the party may know of this node.
fn known_part_agrees(
    alloc: Global,
    trust: &Trust,
    node: u32,
    party: u8,
    left: &Table,
    right: &Table,
) -> Result<bool, AllocError>
    ensures { IfOk result (λ same. IsTrue same ↔ CutsAgree
        (known_columns party (known_at trust.now.known node)) left.now.rows right.now.rows) }
{
    let columns = known_columns(alloc, trust, node, party)?;
    cuts_agree(alloc, &columns, left, right)
}

// Whether that holds of the file with this number, where its relation is another party's and the party may know the
// rows of its node.
#[tactic(auto, using(crate::proofs::SameRows::file_within))]
fn trusted_part_agrees(
    alloc: Global,
    shape: &Operator,
    trust: &Trust,
    node: u32,
    party: u8,
    file: usize,
    world: &World,
    other: &World,
) -> Result<bool, AllocError>
    requires world { HasFile (rows_of_tables world.now) file shape.now }
    requires other { HasFile (rows_of_tables other.now) file shape.now }
    ensures { IfOk result (λ same. IsTrue same ↔ OfRelation (λ r. r.owner ≢ party
        → KnowsRows party (known_at trust.now.known node)
        → CutsAgree (known_columns party (known_at trust.now.known node))
        (rows_of (rows_of_tables world.now) file) (rows_of (rows_of_tables other.now) file)) shape.now) }
{
    match shape {
        Operator::Relation(written) => {
            if written.owner == party || !trust.rows_of(node).contains(party) {
                return Ok(true);
            }
            let (left, right) = (world.table(file), other.table(file));
            known_part_agrees(alloc, trust, node, party, left, right)
        }
        _ => Ok(true),
    }
}

// The first file of another party of which what the party may know differs.
pub(crate) fn first_trusted_part(
    alloc: Global,
    nodes: &[Node],
    trust: &Trust,
    party: u8,
    world: &World,
    other: &World,
) -> Result<Option<u32>, AllocError>
    requires few { length nodes.now < 2 ^ 32 }
    requires world { IsWorldOf nodes.now (rows_of_tables world.now) }
    requires other { IsWorldOf nodes.now (rows_of_tables other.now) }
    ensures { IfOk result (λ first. FirstFailure
        (TrustedPartAgrees nodes.now trust.now.known party (rows_of_tables world.now) (rows_of_tables other.now)) first) }
{
    let mut file = 0;
    for (number, node) in nodes.iter().enumerate() {
        let at = number as u32;
        let agrees = trusted_part_agrees(alloc, &node.shape, trust, at, party, file, world, other)?;
        if !agrees {
            return Ok(Some(at));
        }
        file += usize::from(node.shape.is_relation());
    }
    Ok(None)
}
