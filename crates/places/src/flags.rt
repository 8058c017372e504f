//! The flags of bounds, in their order.
#![tactic(auto)]

ghost use Rattle.std.specs.Prelude.{◌≡◌, ◌<◌, ◌++◌, length, OnOk};
ghost use Rattle.places.specs.Bounds as spec;

use crate::bounds::{counter, has_part};
use crate::place::Place;
use query_graph::{Flag, Operator};
use rewrites::Part;
use std::alloc::AllocError;

fn parts_flag(node: u32, party: u8) -> Flag
    ensures { result ≡ spec.parts_flag node party }
{
    Flag {
        node,
        party,
        of_parts: true,
    }
}

// Adds the flag of a party that has a part.
fn add_parts_flag(
    flags: &mut Vec<Flag>,
    node: u32,
    source: &[Part],
    party: u8,
) -> Result<(), AllocError>
    ensures { OnOk result (flags.new.items ≡ flags.old.items ++ spec.parts_flag_of node source.now party) }
{
    if has_part(source, party) {
        flags.push(parts_flag(node, party))?;
    }
    Ok(())
}

// Adds those of the bound on parts, one for each party that has a part.
fn add_parts_flags(
    flags: &mut Vec<Flag>,
    node: u32,
    bound: Option<u32>,
    source: &[Part],
) -> Result<(), AllocError>
    ensures { OnOk result (flags.new.items ≡ flags.old.items ++ spec.parts_flags node bound source.now) }
{
    if bound.is_none() {
        return Ok(());
    }
    add_parts_flag(flags, node, source, 1)?;
    add_parts_flag(flags, node, source, 2)?;
    add_parts_flag(flags, node, source, 3)
}

// Adds the flag of the bound on rows, if a party counts it.
fn add_rows_flags(
    flags: &mut Vec<Flag>,
    node: u32,
    bound: Option<u32>,
    party: Option<u8>,
) -> Result<(), AllocError>
    ensures { OnOk result (flags.new.items ≡ flags.old.items ++ spec.rows_flags node bound party) }
{
    if bound.is_none() {
        return Ok(());
    }
    match party {
        Some(party) => {
            flags.push(Flag {
                node,
                party,
                of_parts: false,
            })?;
            Ok(())
        }
        None => Ok(()),
    }
}

// Adds those of a node: first of parts, then of rows.
pub(crate) fn add_flags(
    flags: &mut Vec<Flag>,
    node: u32,
    shape: &Operator,
    place: Place,
    source: &[Part],
) -> Result<(), AllocError>
    ensures { OnOk result (flags.new.items ≡ flags.old.items ++ spec.node_flags node shape.now place source.now) }
{
    add_parts_flags(flags, node, shape.parts_at_most(), source)?;
    add_rows_flags(flags, node, shape.at_most(), counter(place))
}
