//! Tables one behind the other.

ghost use Rattle.std.specs.Prelude.{◌≡◌, ◌+◌, ◌*◌, ◌^◌, ◌<◌, ◌≤◌, All, length, map, IfOk};
ghost use Rattle.std.specs.List.{flat_map, range_with_len};
ghost use Rattle.wires.specs.Environment.{all_words, words};
ghost use Rattle.wires.specs.Growth.{AreMade, Carries, Grows, total_lanes};
ghost use Rattle.shared_ops.specs.Joint.{AllBits, AreAlike, AreJoint, Makes, column_wire, joint_count, joint_rows, joint_width};
ghost use Rattle.shared_ops.specs.Wired.{AreWired};

use crate::joint::Joint;
use std::alloc::{AllocError, Global};
use wires::{Wire, Wires};

/// The tables one behind the other, at no AND word: each column behind that of the tables before, and the valid words
/// likewise.
pub fn joint_concat<W: Wires>(wires: &mut W, tables: &Vec<Joint>) -> Result<Joint, AllocError>
    requires joint { AreJoint (W.shape wires.old) tables.now.items }
    requires some { 0 < length tables.now.items }
    requires alike { AreAlike tables.now.items }
    requires few { joint_count tables.now.items < 2 ^ 32 }
    ensures grows { Grows W.grown W.possible W.shape wires.old wires.new }
    ensures makes { IfOk result (λ new. Makes (W.possible wires.new) (W.shape wires.new) new (joint_count tables.now.items) (joint_width tables.now.items)
        (λ v. AllBits v tables.now.items) (λ v. flat_map (joint_rows v) tables.now.items)) }
    ensures cost { W.ands wires.new ≤ W.ands wires.old }
    ensures calls { W.and_calls wires.new ≤ W.and_calls wires.old }
{
    // Laws: tables one behind the other have their rows so, and rows are the same bag as themselves.
    padded::laws::rows_of_appended();
    bags::laws::bags_are_equivalence();
    let alloc = *tables.allocator();
    let rows = count_rows(tables.as_slice());
    let places = places_up_to(alloc, rows)?;
    let width = width_of(tables.as_slice());
    let columns = appended_columns(wires, alloc, tables.as_slice(), width, places.as_slice())?;
    let valid = appended_valid(wires, alloc, tables.as_slice(), places.as_slice())?;
    Ok(Joint {
        columns,
        valid,
        rows,
    })
}

// How many rows all tables have.
fn count_rows(tables: &[Joint]) -> u32
    requires { joint_count tables.now < 2 ^ 32 }
    ensures { result ≡ joint_count tables.now }
{
    tables.iter().map(|table| table.rows).sum()
}

// How many columns the first table has.
fn width_of(tables: &[Joint]) -> usize
    ensures { result ≡ joint_width tables.now }
{
    match tables.first() {
        Some(table) => table.columns.as_slice().len(),
        None => 0,
    }
}

// The places from 0 on.
fn places_up_to(alloc: Global, count: u32) -> Result<Vec<u32>, AllocError>
    ensures { IfOk result (λ places. places.items ≡ range_with_len 0 count) }
{
    let mut places = Vec::with_capacity(alloc, count as usize)?;
    for place in 0..count {
        places.push(place)?;
    }
    Ok(places)
}

// The wires of a column, one of each table.
fn wires_of_column(alloc: Global, tables: &[Joint], column: usize) -> Result<Vec<Wire>, AllocError>
    requires { All (λ t. column < length t.columns.items) tables.now }
    ensures { IfOk result (λ parts. parts.items ≡ map (column_wire column) tables.now) }
{
    let mut parts = Vec::with_capacity(alloc, tables.len())?;
    for table in tables {
        parts.push(table.columns[column])?;
    }
    Ok(parts)
}

// The valid words of each table.
fn valid_wires(alloc: Global, tables: &[Joint]) -> Result<Vec<Wire>, AllocError>
    ensures { IfOk result (λ parts. parts.items ≡ map (λ t. t.valid) tables.now) }
{
    let mut parts = Vec::with_capacity(alloc, tables.len())?;
    for table in tables {
        parts.push(table.valid)?;
    }
    Ok(parts)
}

// The words of several wires, one wire after the other.
fn appended<W: Wires>(wires: &mut W, parts: &[Wire], places: &[u32]) -> Result<Wire, AllocError>
    requires made { AreMade (W.shape wires.old) parts.now }
    requires places { places.now ≡ range_with_len 0 (total_lanes (W.shape wires.old) parts.now) }
    requires few { total_lanes (W.shape wires.old) parts.now < 2 ^ 32 }
    ensures grows { Grows W.grown W.possible W.shape wires.old wires.new }
    ensures ok { IfOk result (λ new. Carries (W.possible wires.new) (W.shape wires.new) new (total_lanes (W.shape wires.old) parts.now)
        (λ v. all_words v parts.now)) }
    ensures cost { W.ands wires.new ≤ W.ands wires.old }
    ensures calls { W.and_calls wires.new ≤ W.and_calls wires.old }
{
    let new = wires.gather(parts, places)?;
    Ok(new)
}

// Each column, from the tables' columns of its number.
fn appended_columns<W: Wires>(
    wires: &mut W,
    alloc: Global,
    tables: &[Joint],
    width: usize,
    places: &[u32],
) -> Result<Vec<Wire>, AllocError>
    requires joint { AreJoint (W.shape wires.old) tables.now }
    requires width { All (λ t. length t.columns.items ≡ width) tables.now }
    requires places { places.now ≡ range_with_len 0 (joint_count tables.now) }
    requires few { joint_count tables.now < 2 ^ 32 }
    ensures grows { Grows W.grown W.possible W.shape wires.old wires.new }
    ensures width { IfOk result (λ made. length made.items ≡ width) }
    ensures ok { IfOk result (λ made. AreWired (W.possible wires.new) (W.shape wires.new) made.items (joint_count tables.now)
        (λ k v. all_words v (map (column_wire k) tables.now))) }
    ensures cost { W.ands wires.new ≤ W.ands wires.old }
    ensures calls { W.and_calls wires.new ≤ W.and_calls wires.old }
{
    let mut made = Vec::new(alloc);
    for column in 0..width {
        let parts = wires_of_column(alloc, tables, column)?;
        let new = appended(wires, parts.as_slice(), places)?;
        made.push(new)?;
    }
    Ok(made)
}

// The valid words.
fn appended_valid<W: Wires>(
    wires: &mut W,
    alloc: Global,
    tables: &[Joint],
    places: &[u32],
) -> Result<Wire, AllocError>
    requires joint { AreJoint (W.shape wires.old) tables.now }
    requires places { places.now ≡ range_with_len 0 (joint_count tables.now) }
    requires few { joint_count tables.now < 2 ^ 32 }
    ensures grows { Grows W.grown W.possible W.shape wires.old wires.new }
    ensures ok { IfOk result (λ new. Carries (W.possible wires.new) (W.shape wires.new) new (joint_count tables.now)
        (λ v. all_words v (map (λ t. t.valid) tables.now))) }
    ensures cost { W.ands wires.new ≤ W.ands wires.old }
    ensures calls { W.and_calls wires.new ≤ W.and_calls wires.old }
{
    let parts = valid_wires(alloc, tables)?;
    let new = appended(wires, parts.as_slice(), places)?;
    Ok(new)
}
