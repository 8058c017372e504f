//! What a party computes from its own slots.
#![tactic(auto)]

ghost use Rattle.std.specs.Prelude.{◌≡◌, ℕ, Bool, List, IsTrue, IfOk};
ghost use Rattle.step_lists.specs.Shapes.{HaveShapes, IsInput, word_lists};

use crate::step::Shape;
use std::alloc::{AllocError, Global};

/// A computation of one party on words that it knows: a function from lists of words to lists of words, with the
/// shapes that it takes and gives.
pub trait Task: Drop {
    ghost use Rattle.step_lists.specs.declared.step.Shape.{Shape};

    // Whether it takes slots of the first shapes and gives slots of the second.
    ghost accepts: { Self → List Shape → List Shape → Bool };
    // What it gives for what it takes.
    ghost answer: { Self → List (List ℕ) → List (List ℕ) };

    /// Whether it takes slots of the first shapes and gives slots of the second.
    fn fits(&self, takes: &[Shape], gives: &[Shape]) -> bool
        ensures { result ≡ accepts self.now takes.now gives.now };

    /// What it gives for these words, which have shapes that it takes.
    fn work(&self, alloc: Global, takes: &Vec<Vec<u64>>) -> Result<Vec<Vec<u64>>, AllocError>
        requires { IsInput (accepts self.now) (word_lists takes.now) }
        ensures { IfOk result (λ gives. word_lists gives ≡ answer self.now (word_lists takes.now)) };

    // Words of accepted shapes become words of the shapes that go with them.
    ghost shaped: { (task : Self) (takes gives : List Shape) (xs : List (List ℕ)) → IsTrue (accepts task takes gives)
        → HaveShapes takes xs → HaveShapes gives (answer task xs) };
}
