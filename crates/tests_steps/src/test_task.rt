//! A task of the tests' own.
#![tactic(auto)]

ghost use Rattle.std.specs.Prelude.{◌≡◌, IfOk};
ghost use Rattle.std.specs.List.{range_with_len};
ghost use Rattle.tests_steps.specs.TestTask.{given, goes, turned, turned_place};

use std::alloc::{AllocError, Global};
use step_lists::{Shape, Task};

/// Takes one slot of words and gives one.
#[derive(Clone, Copy, Debug, PartialEq, Eq)]
pub enum TestTask {
    /// The words doubled modulo 2^64.
    Doubles,
    /// The numbers of the words' places, which are an order.
    Counts,
    /// The numbers of the words' places, turned by the first word: an order too.
    Turns,
}

impl Task for TestTask {
    ghost use Rattle.tests_steps.specs.TestTask.{accepts, answer, shaped};

    ghost accepts = { accepts };

    ghost answer = { answer };

    ghost shaped = { shaped };

    fn fits(&self, takes: &[Shape], gives: &[Shape]) -> bool {
        match (takes, gives) {
            ([take], [give]) => goes(*self, *take, *give),
            _ => false,
        }
    }

    fn work(&self, alloc: Global, takes: &Vec<Vec<u64>>) -> Result<Vec<Vec<u64>>, AllocError> {
        let given = match takes.first() {
            Some(words) => given(alloc, *self, words)?,
            None => Vec::new(alloc),
        };
        let mut gives = Vec::new(alloc);
        gives.push(given)?;
        Ok(gives)
    }
}

fn goes(task: TestTask, take: Shape, give: Shape) -> bool
    ensures { result ≡ goes task take give }
{
    match (task, take, give) {
        (TestTask::Doubles, Shape::Words(taken), Shape::Words(given)) => taken == given,
        (TestTask::Counts, Shape::Words(taken), Shape::OrderOf(given)) => taken == given,
        (TestTask::Turns, Shape::Words(taken), Shape::OrderOf(given)) => taken == given,
        _ => false,
    }
}

fn given(alloc: Global, task: TestTask, words: &[u64]) -> Result<Vec<u64>, AllocError>
    ensures { IfOk result (λ given_words. given_words.items ≡ given task words.now) }
{
    match task {
        TestTask::Doubles => words.iter().map(|word| word.wrapping_mul(2)).collect(alloc),
        TestTask::Counts => counted(alloc, words.len()),
        TestTask::Turns => turned(alloc, words),
    }
}

// The place so many behind one of `count` places, going round.
fn turned_place(count: u64, by: u64, place: u64) -> u64
    ensures { result ≡ turned_place count by place }
{
    let left = count.saturating_sub(place);
    if by < left { place + by } else { by - left }
}

fn turned(alloc: Global, words: &[u64]) -> Result<Vec<u64>, AllocError>
    ensures { IfOk result (λ places. places.items ≡ turned words.now) }
{
    let count = words.len() as u64;
    let by = match words.first() {
        Some(word) => *word % count,
        None => 0,
    };
    let places = counted(alloc, words.len())?;
    places
        .iter()
        .map(|place| turned_place(count, by, *place))
        .collect(alloc)
}

fn counted(alloc: Global, count: usize) -> Result<Vec<u64>, AllocError>
    ensures { IfOk result (λ words. words.items ≡ range_with_len 0 count) }
{
    let mut words = Vec::with_capacity(alloc, count)?;
    for place in 0..count {
        words.push(place as u64)?;
    }
    Ok(words)
}
