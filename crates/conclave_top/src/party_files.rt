//! The names of files that belong to a party.

ghost use Rattle.std.specs.Prelude.{◌≡◌, IfOk, string_bytes};
ghost use Rattle.std.specs.Str.{IsUtf8};
ghost use Rattle.conclave_top.specs.PartyFiles.{answer_file, digit_of, tape_file, twin_file, view_file};

use lanes::Party;
use query_graph::Node;
use std::alloc::{AllocError, Global};
use std::str;

/// The name of the file of a tape.
pub(crate) fn tape_file(alloc: Global, tapes: &str, party: Party) -> Result<String, AllocError>
    ensures { IfOk result (λ name. string_bytes name ≡ tape_file tapes.now party) }
{
    let digit = digit_of(party);
    format!(in alloc; "{tapes}.{digit}")
}

/// The name of the file of a tape's twin.
pub(crate) fn twin_file(alloc: Global, tapes: &str, party: Party) -> Result<String, AllocError>
    ensures { IfOk result (λ name. string_bytes name ≡ twin_file tapes.now party) }
{
    let digit = digit_of(party);
    format!(in alloc; "{tapes}.twin.{digit}")
}

/// The name of the file of a party's view.
pub(crate) fn view_file(alloc: Global, tapes: &str, party: Party) -> Result<String, AllocError>
    ensures { IfOk result (λ name. string_bytes name ≡ view_file tapes.now party) }
{
    let digit = digit_of(party);
    format!(in alloc; "{tapes}.view.{digit}")
}

/// The name of the file of a node's answer to a party.
pub(crate) fn answer_file(alloc: Global, node: &Node, party: Party) -> Result<String, AllocError>
    requires { IsUtf8 node.now.name }
    ensures { IfOk result (λ name. string_bytes name ≡ answer_file node.now party) }
{
    let Ok(name) = str::from_utf8(node.name.bytes()) else {
        unreachable!();
    };
    let digit = digit_of(party);
    format!(in alloc; "{name}.to{digit}.csv")
}

/// A party's digit.
fn digit_of(party: Party) -> &'static str
    ensures { result.now ≡ digit_of party }
{
    match party {
        Party::First => "1",
        Party::Second => "2",
        Party::Third => "3",
    }
}
