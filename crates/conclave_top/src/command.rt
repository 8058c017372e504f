//! The command line.

ghost use Rattle.std.specs.Prelude.{◌≡◌, map, option_map, string_bytes};
ghost use Rattle.conclave_top.specs.Command.{command_between, command_from, command_in, command_of, command_on, command_over, party_named, seed_of};
ghost use Rattle.conclave_top.specs.Jobs.{CommandEnded};
ghost use Rattle.conclave_top.specs.Outcome.{Outcome};
ghost use Rattle.conclave_top.specs.Outside.{outside_at, ports_at};

use crate::audit::{Question, audit};
use crate::end::End;
use crate::finish::{finish, usage};
use crate::plain::plain;
use crate::plan::plan;
use crate::run::run;
use crate::tape::tape;
use lanes::Party;
use outside::{Folder, Sink};
use std::alloc::Global;
use words::read_num;

/// Runs the command that the words are, over a folder, an output and a stream for errors, and gives its status.
///
/// The words are the command line without the program's name. `plain Q` prints the answers of the query in the file Q
/// over the files of the folder. `plan Q` reads that query alone, and prints who may know which of its rows and columns
/// and who gets its outputs. `tape Q SEED T` writes the tapes of the seed, 1 to 20 digits, for the query's plan to the
/// files `T.1` to `T.3`. `run Q T` runs that plan with these tapes over the files of the folder: it writes what each party
/// gets from the others to `T.view.1` to `T.view.3`, then each answer to a file, and prints a line for each answer.
/// `audit Q PARTY A B T` takes the files in the folder A and those in B for two worlds that differ in nothing that the
/// party 1, 2 or 3 may know, and writes the twin of the tape that it doesn't hold to `T.twin.J`, J that tape's number: with it
/// in place of `T.J` the party gets in the second world the very words that it gets in the first; it prints how many.
/// The statuses are 0 (done), 1 (the words are no listed form), 2 (the query is refused), 3 (a file is no table of its
/// declaration), 4 (a tape isn't what the plan needs), 6 (the two worlds differ in what the party may know), 8 (the folder or the output failed) and 9 (no memory was left);
/// each but 0 comes with one line on the stream for errors. Own.
pub fn conclave<F: Folder, O: Sink, E: Sink>(
    alloc: Global,
    words: &Vec<String>,
    files: &mut F,
    out: &mut O,
    err: &mut E,
) -> u8
    ensures { Outcome (map string_bytes words.now.items)
        (outside_at F.Folder O.Sink E.Sink files.old out.old err.old)
        (outside_at F.Folder O.Sink E.Sink files.new out.new err.new) result }
{
    match form_of(words) {
        Some(form) => {
            let end = run_form(alloc, form, files, out);
            finish(&end, err)
        }
        None => usage(err),
    }
}

/// A command line of a listed form, by its words behind the first.
#[derive(Clone, Copy)]
pub(crate) enum Form<'a> {
    Plain(&'a str),
    Plan(&'a str),
    Tape(&'a str, u64, &'a str),
    Run(&'a str, &'a str),
    Audit(&'a str, Question<'a>),
}

/// The form of a command line, where it has one.
pub(crate) fn form_of(words: &Vec<String>) -> Option<Form<'_>>
    ensures { option_map command_in result ≡ command_of (map string_bytes words.now.items) }
{
    match words.as_slice() {
        [word, query] if !query.is_empty() => form_on(word.as_str(), query.as_str()),
        [word, query, tapes] if !query.is_empty() && !tapes.is_empty() => {
            form_over(word.as_str(), query.as_str(), tapes.as_str())
        }
        [word, query, seed, tapes] if !query.is_empty() && !tapes.is_empty() => {
            form_from(word.as_str(), query.as_str(), seed.as_str(), tapes.as_str())
        }
        [word, query, party, first, second, tapes] => form_between(
            word.as_str(),
            query.as_str(),
            party.as_str(),
            first.as_str(),
            second.as_str(),
            tapes.as_str(),
        ),
        _ => None,
    }
}

/// The form of a first word and the name of a query.
fn form_on<'a>(word: &str, query: &'a str) -> Option<Form<'a>>
    ensures { option_map command_in result ≡ command_on word.now query.now }
{
    match word {
        "plain" => Some(Form::Plain(query)),
        "plan" => Some(Form::Plan(query)),
        _ => None,
    }
}

/// The form of a first word, the name of a query and that of tapes.
fn form_over<'a>(word: &str, query: &'a str, tapes: &'a str) -> Option<Form<'a>>
    ensures { option_map command_in result ≡ command_over word.now query.now tapes.now }
{
    match word {
        "run" => Some(Form::Run(query, tapes)),
        _ => None,
    }
}

/// The form of a first word, the name of a query, a seed and the name of tapes.
fn form_from<'a>(word: &str, query: &'a str, seed: &str, tapes: &'a str) -> Option<Form<'a>>
    ensures { option_map command_in result ≡ command_from word.now query.now seed.now tapes.now }
{
    match word {
        "tape" => Some(Form::Tape(query, seed_of(seed)?, tapes)),
        _ => None,
    }
}

/// The form of a first word, the name of a query, a party, two folders and the name of tapes.
fn form_between<'a>(
    word: &str,
    query: &'a str,
    party: &str,
    first: &'a str,
    second: &'a str,
    tapes: &'a str,
) -> Option<Form<'a>>
    ensures { option_map command_in result ≡ command_between word.now query.now party.now first.now second.now tapes.now }
{
    if query.is_empty() || first.is_empty() || second.is_empty() || tapes.is_empty() {
        return None;
    }
    match word {
        "audit" => Some(Form::Audit(
            query,
            Question {
                party: party_named(party)?,
                first,
                second,
                tapes,
            },
        )),
        _ => None,
    }
}

/// The party of a digit.
fn party_named(digit: &str) -> Option<Party>
    ensures { result ≡ party_named digit.now }
{
    match digit {
        "1" => Some(Party::First),
        "2" => Some(Party::Second),
        "3" => Some(Party::Third),
        _ => None,
    }
}

/// The number of a seed, where it is 1 to 20 digits whose value fits a word.
fn seed_of(digits: &str) -> Option<u64>
    ensures { result ≡ seed_of digits.now }
{
    if digits.len() > 20 {
        return None;
    }
    match read_num(digits.as_bytes()) {
        Ok(number) => Some(number),
        Err(_) => None,
    }
}

/// Runs the command of a form.
fn run_form<F: Folder, O: Sink>(alloc: Global, form: Form<'_>, files: &mut F, out: &mut O) -> End
    ensures { CommandEnded (command_in form.entry)
        (ports_at F.Folder O.Sink files.old out.old) (ports_at F.Folder O.Sink files.new out.new) result }
{
    match form {
        Form::Plain(query) => plain(alloc, query, files, out),
        Form::Plan(query) => plan(alloc, query, files, out),
        Form::Tape(query, seed, tapes) => tape(alloc, query, seed, tapes, files, out),
        Form::Run(query, tapes) => run(alloc, query, tapes, files, out),
        Form::Audit(query, asked) => audit(alloc, query, &asked, files, out),
    }
}
