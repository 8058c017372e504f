//! What each party gets from the others, as bytes.

ghost use Rattle.std.specs.Prelude.{◌≡◌, ◌≢◌, ◌++◌, IfOk, OnOk};
ghost use Rattle.std.specs.Int.{w64, to_be_bytes};
ghost use Rattle.step_lists.specs.Phases.{link};
ghost use Rattle.conclave_top.specs.Views.{counted, view_bytes};

use joint_machine::JointRun;
use lanes::Party;
use std::alloc::{AllocError, Global};

/// The bytes of a party's view.
pub(crate) fn view_bytes(alloc: Global, run: &JointRun, party: Party) -> Result<Vec<u8>, AllocError>
    ensures { IfOk result (λ bytes. bytes.items ≡ view_bytes run.now.links party) }
{
    let mut bytes = Vec::new(alloc);
    let following = party.next();
    let previous = party.before();
    push_counted(&mut bytes, words_from(run, following, party))?;
    push_counted(&mut bytes, words_from(run, previous, party))?;
    Ok(bytes)
}

/// The words that a party gets from another one.
pub(crate) fn words_from(run: &JointRun, source: Party, target: Party) -> &Vec<u64>
    requires { source ≢ target }
    ensures { result.now.items ≡ link source target run.now.links }
{
    run.link(source.number(), target.number())
}

/// Adds words behind their count.
fn push_counted(bytes: &mut Vec<u8>, words: &Vec<u64>) -> Result<(), AllocError>
    ensures { OnOk result (bytes.new.items ≡ bytes.old.items ++ counted words.now.items) }
{
    push_word(bytes, words.len() as u64)?;
    for word in words {
        push_word(bytes, *word)?;
    }
    Ok(())
}

/// Adds a number in 8 bytes, the high byte first.
fn push_word(bytes: &mut Vec<u8>, word: u64) -> Result<(), AllocError>
    ensures { OnOk result (bytes.new.items ≡ bytes.old.items ++ to_be_bytes w64 word) }
{
    bytes.extend_from_slice(&word.to_be_bytes())
}
