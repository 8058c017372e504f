//! What the promises of `conclave` and `conclave_with` come to.

ghost use Rattle.conclave_top.specs.Laws.{LeavesTheRest, OneDue, OneJob, ReadsComeFirst, ReadyIsDone, SomeDue, StatusesAreExact, TakenIsPlanned, WithAPlan};

use query_graph::texts_have_graphs;
use query_text::one_reading;
use tables::read_tables_fit;
use tapes::{made_laws, read_laws};
use trust_sets::differences_are_one;

/// A law: over a folder that tells its files one outcome at most is due for a job, and for a command where its query is
/// refused or it works by the graph; where a job is ready, that is its result.
pub fn one_due()
    ensures { OneDue }
{
    one_reading();
    texts_have_graphs();
    made_laws();
    differences_are_one();
}

/// A law: where an outcome is due: a refusal for each command, the results and faults of `plain` and `plan` on the query's
/// graph, and those of `tape`, `run` and `audit` on each plan of it.
pub fn some_due()
    ensures { SomeDue }
{
    one_reading();
    texts_have_graphs();
    made_laws();
    read_laws();
    read_tables_fit();
}

/// A law: a call has one job, on one plan of its query's text or before there is one, and for it keeps to all of this:
/// what is due comes, a job that is ready comes to its result, reads come first, and no other file is written.
pub fn one_job()
    ensures { OneJob }
{
    one_due();
}

/// A law: a query that is accepted and asks for nothing that is unbuilt is refused by no command, and one that a command
/// takes has a plan for it, on which the call's job is.
pub fn taken_is_planned()
    ensures { TakenIsPlanned }
{
    one_reading();
    texts_have_graphs();
    one_job();
}

/// A law: each status comes exactly where it is due, where no count of faults rose and memory was left; 8 comes only
/// where a count rose.
pub fn statuses_are_exact()
    ensures { StatusesAreExact }
{
    texts_have_graphs();
    one_due();
    taken_is_planned();
}

/// A law: a command that is ready comes to its result, where no count of faults rose and memory was left; `tape` is
/// wherever its query is accepted and asks for nothing that is unbuilt.
pub fn ready_is_done()
    ensures { ReadyIsDone }
{
    one_due();
    taken_is_planned();
}

/// A law: the names called are the first of those that a command reads and then writes, and on 0 all of them.
pub fn reads_come_first()
    ensures { ReadsComeFirst }
{}

/// A law: a run leaves all but what is due as it was.
pub fn leaves_the_rest()
    ensures { LeavesTheRest }
{
    texts_have_graphs();
}

/// A law: a call with a plan that is handed in keeps to all of this on that plan, and reads no query.
pub fn with_a_plan()
    ensures { WithAPlan }
{
    made_laws();
    differences_are_one();
}
