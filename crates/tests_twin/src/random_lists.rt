//! Random lists with all kinds of step, whose registers all have as many rows.

use crate::made::{List, list_of, numbers, push, reveal, share, steer, tell, work};
use crate::random_worlds::{below, first_lengths, random_words, shuffled};
use listed::Words;
use rand::rngs::StdRng;
use rand::{Rng, RngExt};
use std::alloc::{AllocError, Global};
use std::test::Fail;
use step_lists::{LinOp, Shape, Step};
use tests_steps::TestTask;

fn any_party(random: &mut StdRng) -> u8 {
    random.random_range(1u8..4)
}

// One of the two others.
fn other_than(random: &mut StdRng, party: u8) -> u8 {
    (party % 3 + random.random_range(0u8..2)) % 3 + 1
}

// So many random numbers below a bound.
fn numbers_below(
    alloc: Global,
    random: &mut StdRng,
    count: u32,
    bound: u32,
) -> Result<Vec<u32>, AllocError> {
    let mut made = Vec::new(alloc);
    for _number in 0..count {
        made.push(below(random, bound))?;
    }
    Ok(made)
}

// So many numbers, from one on.
fn numbers_from(alloc: Global, first: u32, count: u32) -> Result<Vec<u32>, AllocError> {
    let mut made = Vec::new(alloc);
    for number in 0..count {
        made.push(first.saturating_add(number))?;
    }
    Ok(made)
}

fn one_to_three(random: &mut StdRng) -> u32 {
    random.random_range(1u32..4)
}

// An operation on each word of a register, or on the words of two at one place.
fn lane_op(random: &mut StdRng, left: u32, right: u32) -> LinOp {
    match below(random, 6) {
        0 => LinOp::Xor(left, right),
        1 => LinOp::Not(left),
        2 => LinOp::Left(left, below(random, 64)),
        3 => LinOp::Right(left, below(random, 64)),
        4 => LinOp::Mask(left, random.random()),
        _ => LinOp::Spread(left),
    }
}

/// A list that grows, and registers of it, the columns, whose rows have another order in the second world.
#[derive(Drop)]
pub(crate) struct RandomList {
    list: List,
    rows: u32,
    viewer: u8,
    columns: Vec<u32>,
    count: u32,
}

impl RandomList {
    fn register(&self, random: &mut StdRng) -> u32 {
        below(random, self.list.registers())
    }

    // A slot of a party with a word for each row; its first one where another one is met.
    fn slot(&self, random: &mut StdRng, party: u8) -> u32 {
        if party < 1 || 3 < party {
            return 0;
        }
        let count = self.list.slots(party);
        let slot = below(random, count);
        if slot < count && self.list.shape(party, slot) == Shape::Words(self.rows) {
            slot
        } else {
            0
        }
    }

    // The slot that a party is given next.
    fn next_slot(&self, party: u8) -> u32 {
        if party < 1 || 3 < party {
            return 0;
        }
        self.list.slots(party)
    }

    fn registers(
        &self,
        alloc: Global,
        random: &mut StdRng,
        count: u32,
    ) -> Result<Vec<u32>, AllocError> {
        numbers_below(alloc, random, count, self.list.registers())
    }

    fn push_const(&mut self, rt: &HostRuntime, random: &mut StdRng) -> Result<(), Fail> {
        let words = Words::from_vec(random_words(rt.alloc(), random, self.rows)?);
        push(&mut self.list, Step::Const { words })
    }

    fn push_lane_op(&mut self, random: &mut StdRng) -> Result<(), Fail> {
        let (left, right) = (self.register(random), self.register(random));
        let op = lane_op(random, left, right);
        push(&mut self.list, Step::Lin { op })
    }

    // As many rows, of two registers.
    fn push_gather(&mut self, rt: &HostRuntime, random: &mut StdRng) -> Result<(), Fail> {
        let sources = self.registers(rt.alloc(), random, 2)?;
        let bound = self.rows.saturating_mul(2);
        let places = numbers_below(rt.alloc(), random, self.rows, bound)?;
        let sources = numbers(rt, &sources)?;
        let places = numbers(rt, &places)?;
        let op = LinOp::Gather { sources, places };
        push(&mut self.list, Step::Lin { op })
    }

    fn push_and(&mut self, random: &mut StdRng) -> Result<(), Fail> {
        let (left, right) = (self.register(random), self.register(random));
        push(&mut self.list, Step::And { left, right })
    }

    fn push_share(&mut self, random: &mut StdRng) -> Result<(), Fail> {
        let party = any_party(random);
        let slot = self.slot(random, party);
        share(&mut self.list, party, slot)
    }

    // To another party than the viewer, which may be shown other rows in the second world.
    fn push_reveal(&mut self, rt: &HostRuntime, random: &mut StdRng) -> Result<(), Fail> {
        let (count, some) = (one_to_three(random), one_to_three(random));
        let moved = self.registers(rt.alloc(), random, count)?;
        let shown = numbers_below(rt.alloc(), random, some, count)?;
        let to = other_than(random, self.viewer);
        reveal(rt, &mut self.list, to, &moved, &shown)
    }

    // An order that a party makes of one of its slots; the number of the order's slot.
    fn push_turn(&mut self, rt: &HostRuntime, random: &mut StdRng, party: u8) -> Result<u32, Fail> {
        let taken = self.slot(random, party);
        let slot = self.next_slot(party);
        let gives = Shape::OrderOf(self.rows);
        work(rt, &mut self.list, party, TestTask::Turns, taken, gives)?;
        Ok(slot)
    }

    fn push_steer(&mut self, rt: &HostRuntime, random: &mut StdRng) -> Result<(), Fail> {
        let by = any_party(random);
        let slot = self.push_turn(rt, random, by)?;
        let count = one_to_three(random);
        let moved = self.registers(rt.alloc(), random, count)?;
        steer(rt, &mut self.list, by, slot, &moved)
    }

    // To another party than the viewer.
    fn push_tell(&mut self, random: &mut StdRng) -> Result<(), Fail> {
        let target = other_than(random, self.viewer);
        let source = other_than(random, target);
        let slot = self.slot(random, source);
        tell(&mut self.list, source, target, slot)
    }

    // To the viewer, of words that no world changes.
    fn push_tell_viewer(&mut self, random: &mut StdRng) -> Result<(), Fail> {
        let source = other_than(random, self.viewer);
        tell(&mut self.list, source, self.viewer, 0)
    }

    fn push_work(&mut self, rt: &HostRuntime, random: &mut StdRng) -> Result<(), Fail> {
        let party = any_party(random);
        let slot = self.slot(random, party);
        let gives = Shape::Words(self.rows);
        work(rt, &mut self.list, party, TestTask::Doubles, slot, gives)
    }

    fn push_flag(&mut self, random: &mut StdRng) -> Result<(), Fail> {
        let party = any_party(random);
        push(&mut self.list, Step::Flag { party, slot: 1 })
    }

    // The columns, shared by others than the viewer, behind words that differ.
    fn share_columns(&mut self, random: &mut StdRng) -> Result<(), Fail> {
        let party = other_than(random, self.viewer);
        share(&mut self.list, party, 2)?;
        for column in 0..self.count {
            let party = other_than(random, self.viewer);
            share(&mut self.list, party, column.saturating_add(3))?;
        }
        Ok(())
    }

    fn column(&self, random: &mut StdRng) -> u32 {
        let place = below(random, self.count) as usize;
        self.columns.get(place).copied().unwrap_or(0)
    }

    // A column in the place of another one.
    fn replace_column(&mut self, random: &mut StdRng, made: u32) {
        let place = below(random, self.count) as usize;
        if place < self.columns.len() {
            self.columns[place] = made;
        }
    }

    fn push_column_op(&mut self, random: &mut StdRng) -> Result<(), Fail> {
        let (left, right) = (self.column(random), self.column(random));
        let made = self.list.registers();
        let op = lane_op(random, left, right);
        push(&mut self.list, Step::Lin { op })?;
        self.replace_column(random, made);
        Ok(())
    }

    fn push_column_and(&mut self, random: &mut StdRng) -> Result<(), Fail> {
        let (left, right) = (self.column(random), self.column(random));
        let made = self.list.registers();
        push(&mut self.list, Step::And { left, right })?;
        self.replace_column(random, made);
        Ok(())
    }

    // To the viewer.
    fn reveal_columns(&mut self, rt: &HostRuntime, random: &mut StdRng) -> Result<(), Fail> {
        let first = self.list.registers();
        let some = one_to_three(random);
        let shown = numbers_below(rt.alloc(), random, some, self.count)?;
        reveal(rt, &mut self.list, self.viewer, &self.columns, &shown)?;
        self.columns = numbers_from(rt.alloc(), first, self.count)?;
        Ok(())
    }

    fn steer_columns(&mut self, rt: &HostRuntime, random: &mut StdRng) -> Result<(), Fail> {
        let by = any_party(random);
        let slot = self.push_turn(rt, random, by)?;
        let first = self.list.registers();
        steer(rt, &mut self.list, by, slot, &self.columns)?;
        self.columns = numbers_from(rt.alloc(), first, self.count)?;
        Ok(())
    }

    fn push_local(&mut self, rt: &HostRuntime, random: &mut StdRng, form: u32) -> Result<(), Fail> {
        match form {
            0 => self.push_const(rt, random),
            1 => self.push_lane_op(random),
            2 => self.push_gather(rt, random),
            3 => self.push_work(rt, random),
            _ => self.push_column_op(random),
        }
    }

    fn push_sent(&mut self, rt: &HostRuntime, random: &mut StdRng, form: u32) -> Result<(), Fail> {
        match form {
            5 => self.push_and(random),
            6 => self.push_column_and(random),
            7 => self.push_share(random),
            8 => self.push_reveal(rt, random),
            9 => self.push_steer(rt, random),
            10 => self.steer_columns(rt, random),
            _ => self.push_opened(rt, random, form),
        }
    }

    // What opens words to the viewer, or may.
    fn push_opened(
        &mut self,
        rt: &HostRuntime,
        random: &mut StdRng,
        form: u32,
    ) -> Result<(), Fail> {
        match form {
            11 => self.push_tell(random),
            12 => self.push_tell_viewer(random),
            13 => self.push_flag(random),
            _ => self.reveal_columns(rt, random),
        }
    }

    // Each form once, in a random order.
    fn push_forms(&mut self, rt: &HostRuntime, random: &mut StdRng) -> Result<(), Fail> {
        let forms = shuffled(rt.alloc(), random, 16)?;
        for form in &forms {
            if *form < 5 {
                self.push_local(rt, random, *form)?;
            } else {
                self.push_sent(rt, random, *form)?;
            }
        }
        Ok(())
    }
}

/// A random list with all kinds of step over first slots of `random_worlds`.
pub(crate) fn random_list(
    rt: &HostRuntime,
    random: &mut StdRng,
    viewer: u8,
    rows: u32,
    count: u32,
) -> Result<List, Fail> {
    let lengths = first_lengths(rt.alloc(), rows, count)?;
    let mut growing = RandomList {
        list: list_of(rt, &lengths, &lengths, &lengths)?,
        rows,
        viewer,
        columns: numbers_from(rt.alloc(), 1, count)?,
        count,
    };
    growing.share_columns(random)?;
    growing.push_forms(rt, random)?;
    Ok(growing.list)
}
