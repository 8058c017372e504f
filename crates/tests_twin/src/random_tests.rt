//! Random lists in two worlds that the viewer can't tell apart.

use crate::random_lists::random_list;
use crate::random_worlds::{below, random_worlds};
use crate::worlds::{are_paired, differ};
use rand::rngs::StdRng;
use rand::{Rng, RngExt, SeedableRng};
use std::test::Fail;
use step_lists::list_needs;
use tapes::make_tapes;

// Whether a random list is explained to a viewer on random tapes; where there are rows, it is received other words.
fn is_explained(rt: &HostRuntime, random: &mut StdRng, viewer: u8) -> Result<bool, Fail> {
    let rows = below(random, 7);
    let columns = random.random_range(1u32..4);
    let list = random_list(rt, random, viewer, rows, columns)?;
    let (one, other) = random_worlds(rt.alloc(), random, viewer, rows, columns)?;
    let schedule = list_needs(rt.alloc(), &list)?;
    let tapes = make_tapes(rt.alloc(), &schedule, random.random())?;
    let told = differ(rt, &list, viewer, &one, &other, &tapes)? == (rows > 0);
    Ok(told && are_paired(rt, &list, viewer, &one, &other, &tapes)?)
}

#[test]
fn random_lists_are_explained(rt: HostRuntime) -> Result<(), Fail> {
    let mut random = StdRng::seed_from_u64(18);
    for number in 0..100 {
        for viewer in 1..4 {
            assert!(rt;
                is_explained(&rt, &mut random, viewer)?,
                "{number} {viewer}"
            );
        }
    }
    Ok(())
}
