//! The laws of one party's part. Each function does nothing, and its contract is the law.
ghost use Rattle.party_laws.specs.Grows.{PartsGrow};
ghost use Rattle.party_laws.specs.InMachine.{PartsAreInMachine, PartsHaveWords};
ghost use Rattle.party_laws.specs.StageWords.{FrontsFit, FrontsGrow, StagesHold};

use joint_machine::steps_fit;
use lanes::item_laws;
use step_lists::Task;
use tapes::order_laws;

/// On the words of a joint run, and more behind them, the part of each party is the machine cut to that party; and where
/// the machine doesn't stop, the part leaves what is behind those words.
pub fn parts_are_in_machine<T: Task>()
    ensures { PartsAreInMachine T.accepts T.answer }
{
    item_laws();
    order_laws();
    steps_fit::<T>();
}

/// A part on words that agree with those of a joint run as far as both go, and that doesn't end early, has all words of
/// the run.
pub fn parts_have_words<T: Task>()
    ensures { PartsHaveWords T.accepts T.answer }
{
    item_laws();
    order_laws();
    steps_fit::<T>();
}

/// In each stage of a step each party sends another one as many words as that one takes of it; and a part to which not all
/// words of the step have come sends, in each stage that it comes to, the words that the machine sends.
pub fn stages_hold<T: Task>()
    ensures { StagesHold T.accepts T.answer }
{
    item_laws();
    order_laws();
    steps_fit::<T>();
}

/// What fits a list fits its first steps.
pub fn fronts_fit<T: Task>()
    ensures { FrontsFit T.accepts }
{}

/// The machine behind the first steps of a list begins the machine of the list, and grows by the words of each step.
pub fn fronts_grow<T: Task>()
    ensures { FrontsGrow T.answer }
{}

/// A part grows with the words that come, honest or not: on words with more behind them it has sent what it sent before
/// and maybe more, and has taken no less; unless it had ended early for want of words, it is the same part.
pub fn parts_grow<T: Task>()
    ensures { PartsGrow T.answer }
{}
