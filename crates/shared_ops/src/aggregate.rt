//! Aggregates: folds of the words of flagged rows.

ghost use Rattle.std.specs.Prelude.{◌≡◌, ◌+◌, ◌*◌, ◌^◌, ◌<◌, ◌≤◌, length, IfOk};
ghost use Rattle.lanes.specs.Lanes.{lanewise, picked};
ghost use Rattle.lanes.specs.Logarithm.{ceil_log2};
ghost use Rattle.wires.specs.Environment.{words};
ghost use Rattle.wires.specs.Growth.{Carries, Grows};
ghost use Rattle.circuits.specs.BlockCosts.{blocks_calls};
ghost use Rattle.circuits.specs.Blocks.{blocks_folded};
ghost use Rattle.circuits.specs.Folds.{combined_word, masked_word};
ghost use Rattle.circuits.specs.declared.folds.Fold.TheVariants.{Sum};
ghost use Rattle.plain_operators.specs.Within.{AreAggregatesOf, IsAggregateOf};
ghost use Rattle.shared_ops.specs.Groups.{AreBlocks, aggregate_lanes, numbered_lanes};
ghost use Rattle.shared_ops.specs.Joint.{IsJoint, IsWide, column_words};
ghost use Rattle.shared_ops.specs.Pairs.{left_places};
ghost use Rattle.shared_ops.specs.Rounds.{aggregate_calls, aggregates_calls};
ghost use Rattle.shared_ops.specs.Wired.{AreWired};

use crate::joint::Joint;
use crate::pairs::{gathered, places_on_left};
use circuits::{Fold, fold_blocks, masked};
use plain_operators::Aggregate;
use std::alloc::{AllocError, Global};
use wires::{Wire, Wires};

// A flag for each row in each of `width` lanes: that of row j for lane i is in lane j * width + i.
#[derive(Debug, Drop)]
pub(crate) struct Blocks {
    pub(crate) flags: Wire,
    // The row of each flag.
    pub(crate) places: Vec<u32>,
    pub(crate) rows: u32,
    pub(crate) width: u32,
}

// Such flags in each of `width` lanes.
pub(crate) fn blocks_of(
    alloc: Global,
    flags: Wire,
    rows: u32,
    width: u32,
) -> Result<Blocks, AllocError>
    requires { rows * width < 2 ^ 32 }
    ensures flags { IfOk result (λ blocks. blocks.flags ≡ flags) }
    ensures places { IfOk result (λ blocks. blocks.places.items ≡ left_places rows width) }
    ensures rows { IfOk result (λ blocks. blocks.rows ≡ rows) }
    ensures width { IfOk result (λ blocks. blocks.width ≡ width) }
{
    let places = places_on_left(alloc, rows, width)?;
    Ok(Blocks {
        flags,
        places,
        rows,
        width,
    })
}

// In each lane the fold of a column over the rows with the flag 1.
fn folded_column<W: Wires>(
    wires: &mut W,
    fold: Fold,
    blocks: &Blocks,
    column: Wire,
) -> Result<Wire, AllocError>
    requires blocks { AreBlocks (W.shape wires.old) blocks.now }
    requires column { IsWide (W.shape wires.old) blocks.now.rows column }
    ensures grows { Grows W.grown W.possible W.shape wires.old wires.new }
    ensures ok { IfOk result (λ new. Carries (W.possible wires.new) (W.shape wires.new) new blocks.now.width
        (λ v. blocks_folded (combined_word fold) blocks.now.rows blocks.now.width
        (lanewise (masked_word fold) (words v blocks.now.flags) (picked (left_places blocks.now.rows blocks.now.width) (words v column))))) }
    ensures cost { W.ands wires.new ≤ W.ands wires.old + 17 * (blocks.now.rows * blocks.now.width) }
    ensures calls { W.and_calls wires.new ≤ W.and_calls wires.old + (blocks_calls fold (ceil_log2 blocks.now.rows) + 1) }
{
    // Law: the row of a place of a table.
    lanes::table_laws();
    let alloc = *blocks.places.allocator();
    let repeated = gathered(wires, column, blocks.places.as_slice())?;
    let kept = masked(wires, fold, blocks.flags, repeated)?;
    let new = fold_blocks(
        wires,
        alloc,
        fold,
        kept,
        blocks.rows as usize,
        blocks.width as usize,
    )?;
    Ok(new)
}

// In each lane how many rows have the flag 1.
fn counted<W: Wires>(wires: &mut W, blocks: &Blocks) -> Result<Wire, AllocError>
    requires { AreBlocks (W.shape wires.old) blocks.now }
    ensures grows { Grows W.grown W.possible W.shape wires.old wires.new }
    ensures ok { IfOk result (λ new. Carries (W.possible wires.new) (W.shape wires.new) new blocks.now.width
        (λ v. blocks_folded (combined_word Sum) blocks.now.rows blocks.now.width (words v blocks.now.flags))) }
    ensures cost { W.ands wires.new ≤ W.ands wires.old + 17 * (blocks.now.rows * blocks.now.width) }
    ensures calls { W.and_calls wires.new ≤ W.and_calls wires.old + (2 * ceil_log2 blocks.now.rows + 7) }
{
    let alloc = *blocks.places.allocator();
    let rows = blocks.rows as usize;
    let width = blocks.width as usize;
    let new = fold_blocks(wires, alloc, Fold::Sum, blocks.flags, rows, width)?;
    Ok(new)
}

// In each lane the aggregate over the rows with the flag 1.
fn aggregate_wire<W: Wires>(
    wires: &mut W,
    blocks: &Blocks,
    table: &Joint,
    aggregate: Aggregate,
) -> Result<Wire, AllocError>
    requires blocks { AreBlocks (W.shape wires.old) blocks.now }
    requires joint { IsJoint (W.shape wires.old) table.now }
    requires rows { table.now.rows ≡ blocks.now.rows }
    requires fits { IsAggregateOf (length table.now.columns.items) aggregate }
    ensures grows { Grows W.grown W.possible W.shape wires.old wires.new }
    ensures ok { IfOk result (λ new. Carries (W.possible wires.new) (W.shape wires.new) new blocks.now.width
        (λ v. aggregate_lanes aggregate blocks.now.rows blocks.now.width (words v blocks.now.flags) (column_words v table.now))) }
    ensures cost { W.ands wires.new ≤ W.ands wires.old + 17 * (blocks.now.rows * blocks.now.width) }
    ensures calls { W.and_calls wires.new ≤ W.and_calls wires.old + aggregate_calls aggregate blocks.now.rows }
{
    // Laws: the word in a lane, and the row and the column of a place of a table.
    lanes::item_laws();
    lanes::table_laws();
    match aggregate {
        Aggregate::Sum(column) => {
            let new = folded_column(wires, Fold::Sum, blocks, table.columns[column as usize])?;
            Ok(new)
        }
        Aggregate::Count => {
            let new = counted(wires, blocks)?;
            Ok(new)
        }
        Aggregate::Least(column) => {
            let new = folded_column(wires, Fold::Least, blocks, table.columns[column as usize])?;
            Ok(new)
        }
        Aggregate::Greatest(column) => {
            let new = folded_column(
                wires,
                Fold::Greatest,
                blocks,
                table.columns[column as usize],
            )?;
            Ok(new)
        }
    }
}

// A wire for each aggregate.
pub(crate) fn aggregate_all<W: Wires>(
    wires: &mut W,
    blocks: &Blocks,
    table: &Joint,
    aggregates: &[Aggregate],
) -> Result<Vec<Wire>, AllocError>
    requires blocks { AreBlocks (W.shape wires.old) blocks.now }
    requires joint { IsJoint (W.shape wires.old) table.now }
    requires rows { table.now.rows ≡ blocks.now.rows }
    requires fits { AreAggregatesOf aggregates.now (length table.now.columns.items) }
    ensures grows { Grows W.grown W.possible W.shape wires.old wires.new }
    ensures count { IfOk result (λ made. length made.items ≡ length aggregates.now) }
    ensures ok { IfOk result (λ made. AreWired (W.possible wires.new) (W.shape wires.new) made.items blocks.now.width
        (λ k v. numbered_lanes k aggregates.now blocks.now.rows blocks.now.width (words v blocks.now.flags) (column_words v table.now))) }
    ensures cost { W.ands wires.new ≤ W.ands wires.old + length aggregates.now * (17 * (blocks.now.rows * blocks.now.width)) }
    ensures calls { W.and_calls wires.new ≤ W.and_calls wires.old + aggregates_calls aggregates.now blocks.now.rows }
{
    let mut made = Vec::new(*blocks.places.allocator());
    for at in 0..aggregates.len() {
        let new = aggregate_wire(wires, blocks, table, aggregates[at])?;
        made.push(new)?;
    }
    Ok(made)
}
