ghost use Rattle.query_text.specs.Laws.{HasOneReading, TextsGiveStatements};

use query_tokens::tokens_are_real;

/// A text is a query or faulty, and not both; it has one list of statements, or one faulty place.
pub fn one_reading()
    ensures { HasOneReading }
{
    tokens_are_real();
}

/// The statements of a text that is a query are at most 64, each is one that a text can hold, and each stands on a
/// later line than those before it.
#[tactic(auto, using(crate::proofs::WholeText::texts_give_statements))]
pub fn texts_give_statements()
    ensures { TextsGiveStatements }
{}
