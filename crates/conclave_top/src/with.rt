//! Commands with a plan that is handed in.

ghost use Rattle.std.specs.Prelude.{None, Some, map, string_bytes, ⊤};
ghost use Rattle.lowering.specs.Isolated.{IsIsolated};
ghost use Rattle.lowering.specs.Plan.{IsCorrect, IsPlaced, ShowsAnswers};
ghost use Rattle.conclave_top.specs.Command.{command_in};
ghost use Rattle.conclave_top.specs.End.{Ended};
ghost use Rattle.conclave_top.specs.Outside.{outside_at, ports_at};
ghost use Rattle.conclave_top.specs.With.{HasPlanJob, OutcomeWith, TakesPlan};

use crate::audit::audit_with;
use crate::command::{Form, form_of};
use crate::end::End;
use crate::finish::finish;
use crate::run::run_with;
use crate::tape::tape_with;
use lowering::Plan;
use outside::{Folder, Sink};
use std::alloc::Global;

/// Does all that `tape`, `run` and `audit` do behind their query, with the plan that is handed in; the query isn't read.
///
/// The statuses are those of `conclave` but 1 and 2. Two calls with one plan run one list, whatever the files hold. Own.
pub fn conclave_with<F: Folder, O: Sink, E: Sink>(
    alloc: Global,
    plan: &Plan,
    words: &Vec<String>,
    files: &mut F,
    out: &mut O,
    err: &mut E,
) -> u8
    requires form { TakesPlan (map string_bytes words.now.items) plan.now }
    requires correct { IsCorrect plan.now }
    requires shows { ShowsAnswers plan.now }
    requires placed { IsPlaced plan.now }
    requires isolated { IsIsolated plan.now }
    ensures { OutcomeWith plan.now (map string_bytes words.now.items)
        (outside_at F.Folder O.Sink E.Sink files.old out.old err.old)
        (outside_at F.Folder O.Sink E.Sink files.new out.new err.new) result }
{
    let Some(form) = form_of(words) else {
        unreachable!();
    };
    let end = run_form_with(alloc, plan, form, files, out);
    finish(&end, err)
}

/// Runs the command of a form with a plan that is handed in.
fn run_form_with<F: Folder, O: Sink>(
    alloc: Global,
    plan: &Plan,
    form: Form<'_>,
    files: &mut F,
    out: &mut O,
) -> End
    requires form { HasPlanJob None plan.now (Some (command_in form)) (λ job. ⊤) }
    requires correct { IsCorrect plan.now }
    requires isolated { IsIsolated plan.now }
    ensures { HasPlanJob (F.files files.old) plan.now (Some (command_in form.entry))
        (λ job. Ended job (ports_at F.Folder O.Sink files.old out.old) (ports_at F.Folder O.Sink files.new out.new) result) }
{
    match form {
        Form::Tape(_, seed, tapes) => tape_with(alloc, plan, seed, tapes, files, out),
        Form::Run(_, tapes) => run_with(alloc, plan, tapes, files, out),
        Form::Audit(_, asked) => audit_with(alloc, plan, &asked, files, out),
        Form::Plain(_) | Form::Plan(_) => unreachable!(),
    }
}
