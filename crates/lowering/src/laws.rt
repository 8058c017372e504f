//! Laws of plans. Each function does nothing, and its contract is the law.
#![tactic(auto)]

ghost use Rattle.lowering.specs.Isolated.{AgreeingWorldsLookSame, IsolatedIsNeverApart, ShowingAnswersIsolates};

use bags::laws::bags_are_equivalence;
use clear_tasks::ClearTask;
use padded::laws::{opened_of_bags, padded_fits};
use twin::twin_of_alike;

/// Two worlds that agree for a party have all that is opened to it alike, rows as bags, and the same first slots at it. No
/// tape, step or register is in this.
pub fn agreeing_worlds_look_same()
    ensures { AgreeingWorldsLookSame }
{
    opened_of_bags();
}

/// A plan that shows no more than the answers is isolated: it follows from what is shown in each world, from what agreeing
/// worlds have alike, and from the law of twins, with no second look at how the plan was made.
pub fn showing_answers_isolates()
    ensures { ShowingAnswersIsolates }
{
    bags_are_equivalence();
    padded_fits();
    agreeing_worlds_look_same();
    twin_of_alike::<ClearTask>();
}

/// Of a plan that is isolated no step tells a party apart two worlds that agree for it: so `twin` makes the tape, and never
/// answers that the worlds aren't aligned.
pub fn isolated_is_never_apart()
    ensures { IsolatedIsNeverApart }
{}
