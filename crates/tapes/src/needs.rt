ghost use Rattle.std.specs.Prelude.{◌≡◌, ◌↔◌, ◌+◌, ◌<◌, ◌^◌, ◌++◌, ◌∷◌, [], IsTrue, OnOk, OnErr, length, replicate};
ghost use Rattle.tapes.specs.declared.draw.Need.TheVariants.{Word};
ghost use Rattle.tapes.specs.Runs.{needs_of};

use crate::draw::Need;
use std::alloc::{AllocError, AllocFailed, Global};
use std::marker::Model;

/// So many equal needs, one after the other.
#[derive(Clone, Copy, Debug, PartialEq, Eq)]
pub struct Run {
    pub need: Need,
    pub count: usize,
}

/// The draws that the steps of a protocol take from one tape, seen as the list of needs. It is kept
/// as runs of equal needs, so it takes memory by its runs and not by its needs.
#[derive(Debug, Drop)]
pub struct Needs {
    runs: Vec<Run>,
    len: usize,
}

impl Model for Needs {
    ghost use Rattle.std.specs.Prelude.{◌≡◌, List, length};
    ghost use Rattle.tapes.specs.declared.draw.Need.{Need};
    ghost use Rattle.tapes.specs.Runs.{needs_of};

    ghost Value = { List Need };

    ghost view = { λ n. needs_of n.runs.items };

    ghost invariant = { λ n. n.len ≡ length (needs_of n.runs.items) };
}

impl Needs {
    /// No need. It takes no memory.
    pub fn new(alloc: Global) -> Needs
        ensures { result ≡ [] }
    {
        Needs {
            runs: Vec::new(alloc),
            len: 0,
        }
    }

    /// One more need behind the others.
    pub fn push(&mut self, need: Need) -> Result<(), AllocError>
        ensures pushed { OnOk result (self.new ≡ self.old ++ need ∷ []) }
        ensures err { OnErr result (self.new ≡ self.old) }
    {
        self.push_run(need, 1)
    }

    /// So many words behind the other needs.
    pub fn push_words(&mut self, count: usize) -> Result<(), AllocError>
        ensures pushed { OnOk result (self.new ≡ self.old ++ replicate count Word) }
        ensures err { OnErr result (self.new ≡ self.old) }
    {
        self.push_run(Need::Word, count)
    }

    /// So many equal needs behind the others. More than 2^64 - 1 needs in all are more than memory
    /// holds draws, and count as want of memory.
    pub fn push_run(&mut self, need: Need, count: usize) -> Result<(), AllocError>
        ensures pushed { OnOk result (self.new ≡ self.old ++ replicate count need) }
        ensures err { OnErr result (self.new ≡ self.old) }
    {
        let len = self.len.checked_add(count).ok_or(AllocError)?;
        lengthen(&mut self.runs, need, count)?;
        self.len = len;
        Ok(())
    }

    /// Its runs, one after the other.
    pub fn runs(&self) -> &[Run]
        ensures { needs_of result.now ≡ self.now }
    {
        self.runs.as_slice()
    }

    // How many of them are words, for a reservation.
    pub(crate) fn words(&self) -> usize {
        let mut count = 0usize;
        for run in &self.runs {
            if run.need == Need::Word {
                count = count.saturating_add(run.count);
            }
        }
        count
    }

    /// How many needs there are.
    pub fn len(&self) -> usize
        ensures { result ≡ length self.now }
    {
        self.len
    }

    /// Whether there is no need.
    pub fn is_empty(&self) -> bool
        ensures { IsTrue result ↔ (self.now ≡ []) }
    {
        self.len == 0
    }
}

// Adds to the last run where it has this need, and else makes a new run.
fn lengthen(runs: &mut Vec<Run>, need: Need, count: usize) -> Result<(), AllocError>
    requires { length (needs_of runs.old.items) + count < 2 ^ 64 }
    ensures pushed { OnOk result (needs_of runs.new.items ≡ needs_of runs.old.items ++ replicate count need) }
    ensures err { OnErr result (runs.new.items ≡ runs.old.items) }
{
    let whole = runs.len();
    if whole > 0 && runs[whole - 1].need == need {
        runs[whole - 1].count += count;
        return Ok(());
    }
    runs.push(Run { need, count })?;
    Ok(())
}
